//! The records since the last commit.
ghost use Rattle.std.specs.Prelude.{◌≡◌, ◌++◌, ◌↔◌, [], ℕ, List, IsTrue, OnOk, length};
ghost use Rattle.dav_kept.specs.Records.{record_bytes};

use crate::record::Record;
use bytes::Bytes;
use std::alloc::{AllocError, Global};
use std::marker::Model;

/// A body of at least so many bytes isn't copied into the batch.
const SHARED: usize = 65_536;

// A batch keeps so much room at most.
const ROOM: usize = 1_048_576;

/// The bytes of records, of which the body of the last one may be shared with who has it: a large one that comes alone
/// is never copied.
#[derive(Drop)]
pub struct Batch {
    text: Vec<u8>,
    /// What follows the text.
    body: Bytes,
}

impl Model for Batch {
    ghost use Rattle.std.specs.Prelude.{◌++◌, ℕ, List};

    ghost Value = { List ℕ };

    ghost view = { λ b. b.text.items ++ b.body };
}

impl Batch {
    pub fn new(alloc: Global) -> Batch
        ensures { result ≡ [] }
    {
        Batch {
            text: Vec::new(alloc),
            body: Bytes::new(),
        }
    }

    /// Whether it has no record.
    pub fn is_empty(&self) -> bool
        ensures { IsTrue result ↔ (self.now ≡ []) }
    {
        match self.text.as_slice() {
            [] => self.body.is_empty(),
            _ => false,
        }
    }

    /// How many bytes it has, or the most that there can be.
    pub fn len(&self) -> usize {
        self.text.len().saturating_add(self.body.len())
    }

    /// The bytes of the batch, in two parts.
    pub fn parts(&self) -> (&[u8], &[u8])
        ensures { result.0.now ++ result.1.now ≡ self.now }
    {
        (self.text.as_slice(), self.body.as_slice())
    }

    /// Adds a record, whose body these bytes are.
    pub fn add(&mut self, added: &Record<'_>, body: &Bytes) -> Result<(), AllocError>
        requires { body.now ≡ added.now.request.body }
        ensures { OnOk result (self.new ≡ self.old ++ record_bytes added.now) }
    {
        if !self.body.is_empty() {
            self.text.extend_from_slice(self.body.as_slice())?;
            self.body = Bytes::new();
        }
        added.write_front(&mut self.text)?;
        if body.len() < SHARED {
            self.text.extend_from_slice(body.as_slice())
        } else {
            self.body = body.clone()?;
            Ok(())
        }
    }

    /// Lets all records go, and gives back the room of many.
    pub fn empty(&mut self, alloc: Global)
        ensures { self.new ≡ [] }
    {
        self.body = Bytes::new();
        if self.text.capacity() > ROOM {
            self.text = Vec::new(alloc);
        } else {
            self.text.clear();
        }
    }
}
