//! Tests of the elements of properties.
ghost use Rattle.std.specs.Prelude.{IfOk, IfSome};
ghost use Rattle.std.specs.Bool.{Decides};
ghost use Rattle.dav_store.specs.Passing.{PropertiesPass};

use super::{Key, Properties};
use crate::passing::ElementTest;
use dav_core::element::Element;
use dav_core::errors::NoMemory;
use std::alloc::Global;

// Whether an element, if there is one, passes.
fn passes<T: ElementTest>(
    alloc: Global,
    element: &Option<Element>,
    test: &T,
) -> Result<bool, NoMemory>
    ensures { IfOk result (λ is. Decides is (IfSome element.now (T.passes test.now))) }
{
    match element {
        Some(element) => test.test(alloc, element),
        None => Ok(true),
    }
}

// Whether the element of each property passes.
fn all_pass<T: ElementTest>(
    alloc: Global,
    entries: &[(Key, Option<Element>)],
    test: &T,
) -> Result<bool, NoMemory>
    ensures { IfOk result (λ are. Decides are (PropertiesPass (T.passes test.now) entries.now)) }
{
    for entry in entries {
        if !passes(alloc, &entry.1, test)? {
            return Ok(false);
        }
    }
    Ok(true)
}

impl Properties {
    ghost use Rattle.std.specs.Prelude.{IfOk};
    ghost use Rattle.std.specs.Bool.{Decides};
    ghost use Rattle.dav_store.specs.Passing.{PropertiesPass};

    /// Whether the element of each property passes.
    pub fn all_pass<T: ElementTest>(&self, alloc: Global, test: &T) -> Result<bool, NoMemory>
        ensures { IfOk result (λ are. Decides are (PropertiesPass (T.passes test.now) self.now)) }
    {
        all_pass(alloc, &self.entries, test)
    }
}
