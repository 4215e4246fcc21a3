//! What takes a multistatus, response by response (RFC 4918, section 13).
ghost use Rattle.std.specs.Prelude.{◌≡◌, OnOk, None};

use dav_core::element::Element;
use dav_core::errors::NoMemory;
use std::alloc::Global;
use std::marker::Model;

/// What takes a multistatus in parts: first without responses, and then its responses, one after another, as they are made
/// (RFC 4918, section 13).
pub trait Takes {
    ghost use Rattle.dav_core.specs.Element.{ElementTree};

    // What it is after it took a multistatus without responses.
    ghost opened: { Self → ElementTree → Self };

    // What it is after it took one more response.
    ghost taken: { Self → ElementTree → Self };

    /// Takes the multistatus, which has no response yet. `NoMemory` where memory runs out.
    fn open(&mut self, alloc: Global, multistatus: Element) -> Result<(), NoMemory>
        ensures { OnOk result (self.new ≡ opened self.old multistatus) };

    /// Takes the next response. `NoMemory` where memory runs out.
    fn take(&mut self, alloc: Global, response: Element) -> Result<(), NoMemory>
        ensures { OnOk result (self.new ≡ taken self.old response) };
}

/// The tree of a multistatus, made of the parts that are handed on.
#[derive(Drop)]
pub struct Gathered {
    tree: Option<Element>,
}

impl Model for Gathered {
    ghost use Rattle.std.specs.Prelude.{Option};
    ghost use Rattle.std.specs.Coded.{coded_option};
    ghost use Rattle.dav_core.specs.Element.{ElementTree};
    ghost use Rattle.dav_core.specs.ElementCode.{coded_tree};

    ghost Value = { Option ElementTree };

    ghost coded = { coded_option coded_tree };

    ghost view = { λ g. g.tree };
}

impl Gathered {
    /// Nothing was handed on yet.
    pub fn new() -> Gathered
        ensures { result ≡ None }
    {
        Gathered { tree: None }
    }

    /// The tree with all responses that were handed on, in order; `None` where none was opened.
    pub fn into_tree(self) -> Option<Element>
        ensures { result ≡ self }
    {
        self.tree
    }
}

impl Takes for Gathered {
    ghost use Rattle.dav_engine.specs.Taking.{grown_tree, opened_tree};

    ghost opened = { opened_tree };

    ghost taken = { grown_tree };

    fn open(&mut self, _alloc: Global, multistatus: Element) -> Result<(), NoMemory> {
        self.tree = Some(multistatus);
        Ok(())
    }

    fn take(&mut self, _alloc: Global, response: Element) -> Result<(), NoMemory> {
        match &mut self.tree {
            Some(tree) => tree.push_element(response),
            None => Ok(()),
        }
    }
}
