//! How much a store holds: files and folders, and bytes.
ghost use Rattle.std.specs.Prelude.{◌≡◌, ◌+◌, Some, min};
ghost use Rattle.std.specs.FinMap.{find};
ghost use Rattle.dav_core.specs.Numbers.{max_u64};
ghost use Rattle.dav_core.specs.Path.{path_cmp};
ghost use Rattle.dav_core.specs.World.{Node as Seen};
ghost use Rattle.dav_store.specs.Subtrees.{paths_of, under};
ghost use Rattle.dav_store.specs.Used.{size_of, used_bytes};

use super::MemFs;
use crate::entries::{self, Entries, walk};
use crate::names::Names;
use crate::node::Node;
use dav_core::davpath::DavPath;
use dav_core::errors::NoMemory;
use std::alloc::Global;

/// How much there is.
#[derive(Clone, Copy, Debug, PartialEq, Eq)]
pub struct Amount {
    /// How many files and folders.
    pub files: u64,
    /// How many bytes the files and all dead properties have together; 2^64 - 1 where they are more.
    pub bytes: u64,
}

/// How many dead properties a file or folder has.
#[derive(Clone, Copy, Debug, PartialEq, Eq)]
pub struct Stored {
    /// How many.
    pub count: u64,
    /// How many bytes they have together: those of their namespaces and names, and of their elements; 2^64 - 1 where they are more.
    pub bytes: u64,
}

// A sum with the bytes of a file and of its properties; 2^64 - 1 where that is more.
fn and_size(sum: u64, node: &Node) -> u64
    ensures { result ≡ min (sum + size_of node.now) max_u64 }
{
    let sum = sum.saturating_add(node.bytes().len() as u64);
    node.properties().size_from(sum)
}

// A sum with the bytes of what is at a path.
fn and_size_at(sum: u64, entries: &Entries, path: &Names) -> u64
    ensures { (n : Seen) → find path_cmp path.now entries.now.nodes ≡ Some n
        → result ≡ min (sum + size_of n) max_u64 }
{
    match walk::node_at(entries, path) {
        Some(node) => and_size(sum, node),
        None => sum,
    }
}

// How many bytes there are at these paths, which are those of all at a path and below it.
fn used_bytes(entries: &Entries, top: &Names, paths: &[Names]) -> u64
    requires { paths.now ≡ paths_of (under top.now entries.now.nodes) }
    ensures { result ≡ used_bytes (under top.now entries.now.nodes) }
{
    walk::see_sorted(entries);
    let _ = top;
    let mut used = 0u64;
    for path in paths {
        used = and_size_at(used, entries, path);
    }
    used
}

impl MemFs {
    ghost use Rattle.std.specs.Prelude.{◌≡◌, IfOk};
    ghost use Rattle.dav_core.specs.Path.{names};
    ghost use Rattle.dav_core.specs.World.{node_at};
    ghost use Rattle.dav_store.specs.Used.{amount_alone, amount_at, file_len, properties_of, used_bytes};

    /// How many bytes all files and dead properties have together (RFC 4331, section 4); 2^64 - 1 where they are more. Takes time for
    /// each node and property, and room for the paths of all. This is no call of the store, and changes nothing.
    pub fn used_bytes(&self, alloc: Global) -> Result<u64, NoMemory>
        ensures { IfOk result (λ used. used ≡ used_bytes self.now.world.nodes) }
    {
        let top = Names::root(alloc);
        let paths = walk::paths_under(alloc, &self.entries, &top)?;
        Ok(used_bytes(&self.entries, &top, &paths))
    }

    /// How much is at a path and below it. Takes time for each node and property there, and room for their paths. This is no call of
    /// the store, and changes nothing.
    pub fn amount_at(&self, alloc: Global, path: &DavPath) -> Result<Amount, NoMemory>
        ensures { IfOk result (λ amount. amount ≡ amount_at (names path.now) self.now.world.nodes) }
    {
        let top = Names::of(alloc, path)?;
        let paths = walk::paths_under(alloc, &self.entries, &top)?;
        Ok(Amount {
            files: paths.len() as u64,
            bytes: used_bytes(&self.entries, &top, &paths),
        })
    }

    /// How much is at a path alone: nothing where nothing is, and of a folder it alone. This is no call of the store, and changes
    /// nothing.
    pub fn amount_alone(&self, path: &DavPath) -> Amount
        ensures { result ≡ amount_alone (node_at self.now.world (names path.now)) }
    {
        match entries::node_at(&self.entries, path) {
            Some(node) => Amount {
                files: 1,
                bytes: and_size(0, node),
            },
            None => Amount { files: 0, bytes: 0 },
        }
    }

    /// How many bytes the file at a path has; none where no file is. This is no call of the store, and changes nothing.
    pub fn file_len(&self, path: &DavPath) -> u64
        ensures { result ≡ file_len (node_at self.now.world (names path.now)) }
    {
        match entries::node_at(&self.entries, path) {
            Some(node) => node.bytes().len() as u64,
            None => 0,
        }
    }

    /// How many dead properties what is at a path has; none where nothing is. Takes time for each of them. This is no call of the
    /// store, and changes nothing.
    pub fn properties_of(&self, path: &DavPath) -> Stored
        ensures { result ≡ properties_of (node_at self.now.world (names path.now)) }
    {
        match entries::node_at(&self.entries, path) {
            Some(node) => Stored {
                count: node.properties().count(),
                bytes: node.properties().size_from(0),
            },
            None => Stored { count: 0, bytes: 0 },
        }
    }
}
