//! Tests of the elements that a store keeps.
ghost use Rattle.std.specs.Prelude.{◌≡◌, IfOk, IsSome, Some};
ghost use Rattle.std.specs.Bool.{Decides};
ghost use Rattle.std.specs.FinMap.{find};
ghost use Rattle.dav_core.specs.Path.{path_cmp};
ghost use Rattle.dav_core.specs.World.{Node as Seen};
ghost use Rattle.dav_store.specs.Passing.{ElementsPass, PropertiesPass};
ghost use Rattle.dav_store.specs.Subtrees.{paths_of};

use super::MemFs;
use crate::entries::{Entries, walk};
use crate::names::Names;
use crate::passing::ElementTest;
use dav_core::errors::NoMemory;
use std::alloc::Global;

// Whether each element passes that is kept as a property of the node at a path.
fn node_passes<T: ElementTest>(
    alloc: Global,
    entries: &Entries,
    path: &Names,
    test: &T,
) -> Result<bool, NoMemory>
    requires { IsSome (find path_cmp path.now entries.now.nodes) }
    ensures { (n : Seen) → find path_cmp path.now entries.now.nodes ≡ Some n
        → IfOk result (λ are. Decides are (PropertiesPass (T.passes test.now) n.properties)) }
{
    let Some(node) = walk::node_at(entries, path) else {
        unreachable!();
    };
    node.properties().all_pass(alloc, test)
}

// Whether each element passes that is kept as a property of the nodes at these paths, which are those of all.
fn all_pass<T: ElementTest>(
    alloc: Global,
    entries: &Entries,
    paths: &[Names],
    test: &T,
) -> Result<bool, NoMemory>
    requires { paths.now ≡ paths_of entries.now.nodes }
    ensures { IfOk result
        (λ are. Decides are (ElementsPass (T.passes test.now) entries.now.nodes)) }
{
    walk::see_sorted(entries);
    for path in paths {
        if !node_passes(alloc, entries, path, test)? {
            return Ok(false);
        }
    }
    Ok(true)
}

impl MemFs {
    ghost use Rattle.std.specs.Prelude.{IfOk};
    ghost use Rattle.std.specs.Bool.{Decides};
    ghost use Rattle.dav_store.specs.Passing.{ElementsPass};

    /// Whether each element passes that is kept as a property. Takes time for each node, and room for the paths of all.
    pub fn all_pass<T: ElementTest>(&self, alloc: Global, test: &T) -> Result<bool, NoMemory>
        ensures { IfOk result
            (λ are. Decides are (ElementsPass (T.passes test.now) self.now.world.nodes)) }
    {
        let paths = walk::paths(alloc, &self.entries)?;
        all_pass(alloc, &self.entries, &paths, test)
    }
}
