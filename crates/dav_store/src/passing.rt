//! Tests of the elements that are kept as properties.
ghost use Rattle.std.specs.Prelude.{IfOk};
ghost use Rattle.std.specs.Bool.{Decides};

use dav_core::element::Element;
use dav_core::errors::NoMemory;
use std::alloc::Global;

/// A test of elements.
pub trait ElementTest {
    ghost use Rattle.dav_core.specs.Element.{ElementTree};

    // The tree passes.
    ghost passes: { Self → ElementTree → Type 0 };

    /// Whether an element passes.
    fn test(&self, alloc: Global, element: &Element) -> Result<bool, NoMemory>
        ensures { IfOk result (λ is. Decides is (passes self.now element.now)) };
}
