//! A text in pieces, so that what it has isn't copied where it grows.
ghost use Rattle.std.specs.Prelude.{◌≡◌, ◌==◌, ◌++◌, [], length, IfOk, OnOk};
ghost use Rattle.dav_xml.specs.ByChild.{closing_of, content_of};
ghost use Rattle.dav_http.specs.Listing.{text_before};

use bytes::Bytes;
use dav_core::element::Element;
use dav_xml::{push_closing, push_content, push_opening};
use http_server::Rope;
use std::alloc::{AllocError, Global};
use std::marker::Model;
use std::mem;

// A piece that is this long is closed, in bytes.
const PIECE_LEN: usize = 256 * 1024;

// The room with which a piece begins, so that what comes last in it doesn't move it, in bytes.
const PIECE_ROOM: usize = 288 * 1024;

/// A text that grows at its end.
#[derive(Drop)]
pub struct Pieces {
    closed: Rope,
    last: Vec<u8>,
}

impl Model for Pieces {
    ghost use Rattle.std.specs.Prelude.{ℕ, List, ◌++◌};

    ghost Value = { List ℕ };

    ghost view = { λ p. p.closed.items ++ p.last.items };
}

impl Pieces {
    /// An empty text. Allocates nothing.
    pub fn new(alloc: Global) -> Pieces
        ensures { result ≡ [] }
    {
        Pieces {
            closed: Rope::new(alloc),
            last: Vec::new(alloc),
        }
    }

    /// Whether the text is empty.
    pub fn is_empty(&self) -> bool
        ensures { result ≡ (length self.now == 0) }
    {
        self.closed.is_empty() && self.last.is_empty()
    }

    // Closes the last piece, where it is long.
    fn settle(&mut self, alloc: Global) -> Result<(), AllocError>
        ensures { OnOk result (self.new ≡ self.old) }
    {
        if self.last.len() < PIECE_LEN {
            return Ok(());
        }
        let piece = mem::replace(&mut self.last, Vec::with_capacity(alloc, PIECE_ROOM)?);
        self.closed.push(Bytes::from_vec(piece)?)
    }

    // Adds what stands before the children of a root, where the text is empty.
    fn begin(&mut self, alloc: Global, root: &Element) -> Result<(), AllocError>
        ensures { OnOk result (self.new ≡ text_before self.old root.now) }
    {
        if self.is_empty() {
            push_opening(alloc, &mut self.last, root)?;
        }
        Ok(())
    }

    /// Adds the children of a root, behind what stands before them, where the text is empty. `Err` where there is no memory.
    pub fn add(&mut self, alloc: Global, root: &Element) -> Result<(), AllocError>
        ensures { OnOk result (self.new ≡ text_before self.old root.now ++ content_of root.now) }
    {
        self.begin(alloc, root)?;
        push_content(alloc, &mut self.last, root)?;
        self.settle(alloc)
    }

    /// Adds what stands after the children of a root. `Err` where there is no memory.
    pub fn end(&mut self, root: &Element) -> Result<(), AllocError>
        ensures { OnOk result (self.new ≡ self.old ++ closing_of root.now) }
    {
        push_closing(&mut self.last, root)
    }

    /// The text as it is sent. `Err` where there is no memory.
    pub fn into_rope(self) -> Result<Rope, AllocError>
        ensures { IfOk result (λ rope. rope.items ≡ self) }
    {
        let Pieces { closed, last } = self;
        let mut rope = closed;
        rope.push(Bytes::from_vec(last)?)?;
        Ok(rope)
    }
}
