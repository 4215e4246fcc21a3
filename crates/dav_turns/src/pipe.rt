//! The stream of reports, as it is read.
ghost use Rattle.std.specs.Prelude.{◌≡◌, ◌<◌, ◌≤◌, [], Err, IfOk, length, take};
ghost use Rattle.std.specs.Io.KnownBytes.{Consumes, IsAtEnd};
ghost use Rattle.dav_turns.specs.declared.pipe.ReadError.TheVariants.{Ended};

use crate::frames::has_report;
use std::alloc::{AllocError, Global};
use std::io::{ErrorKind, Read};
use std::marker::Model;
use std::mem;

/// The most bytes that are read at once.
const PIECE: usize = 65_536;

/// Why nothing was read.
#[derive(Clone, Copy, Debug, PartialEq, Eq)]
pub enum ReadError {
    /// The stream is at its end.
    Ended,
    /// A read failed.
    Failed,
    /// Memory ran out.
    Memory,
}

impl From<AllocError> for ReadError {
    ghost use Rattle.std.specs.Prelude.{◌≡◌};
    ghost use Rattle.dav_turns.specs.declared.pipe.ReadError.TheVariants.{Memory};

    ghost from_gives = { λ _ error. error ≡ Memory };

    fn from(_error: AllocError) -> ReadError {
        ReadError::Memory
    }
}

/// What was read of a stream of reports and isn't heard yet, and room for the next read.
#[derive(Drop)]
pub struct Pipe {
    bytes: Vec<u8>,
    /// So many of these, the first ones, were heard.
    heard: usize,
    /// Room for those that weren't, and for those of the next read.
    spare: Vec<u8>,
    piece: Vec<u8>,
}

impl Model for Pipe {
    ghost use Rattle.std.specs.Prelude.{◌<◌, ◌≤◌, List, ℕ, drop, length};

    ghost Value = { List ℕ };

    ghost view = { λ p. drop p.heard p.bytes.items };

    ghost invariant = { λ p. (0 < length p.piece.items) × (p.heard ≤ length p.bytes.items) };
}

// Reads once: how many bytes came. A read that a signal interrupts gives none.
fn read_piece<R: Read>(reader: &mut R, piece: &mut [u8]) -> Result<usize, ReadError>
    requires { 0 < length piece.old }
    ensures len { length piece.new ≡ length piece.old }
    ensures came { IfOk result (λ count. (count ≤ length piece.new)
        × Consumes (R.remaining reader.old) (R.remaining reader.new) (take count piece.new)) }
    ensures ended { result ≡ Err Ended → IsAtEnd (R.remaining reader.new)
        × Consumes (R.remaining reader.old) (R.remaining reader.new) [] }
{
    match reader.read(piece) {
        Ok(0) => Err(ReadError::Ended),
        Ok(count) => Ok(count),
        Err(error) if error.kind() == ErrorKind::Interrupted => Ok(0),
        Err(_) => Err(ReadError::Failed),
    }
}

impl Pipe {
    ghost use Rattle.std.specs.Prelude.{◌≡◌, ◌++◌, List, ℕ, [], Err, IfOk, OnOk, drop};
    ghost use Rattle.std.specs.Io.KnownBytes.{Consumes, IsAtEnd};
    ghost use Rattle.dav_turns.specs.Frames.{BeginsWith, ReportView};
    ghost use Rattle.dav_turns.specs.declared.pipe.ReadError.TheVariants.{Ended};

    /// Nothing was read yet.
    pub fn new(alloc: Global) -> Result<Pipe, AllocError>
        ensures { IfOk result (λ p. p ≡ []) }
    {
        let mut piece = Vec::new(alloc);
        piece.resize(PIECE, 0)?;
        Ok(Pipe {
            bytes: Vec::new(alloc),
            heard: 0,
            spare: Vec::new(alloc),
            piece,
        })
    }

    /// Reads once, where no whole report is left: what comes follows what is left. A read that a
    /// signal interrupts gives nothing. `Ended` where the stream is at its end.
    pub fn read_more<R: Read>(&mut self, reader: &mut R) -> Result<(), ReadError>
        ensures read { OnOk result ((more : List ℕ)
            × Consumes (R.remaining reader.old) (R.remaining reader.new) more
            × (self.new ≡ self.old ++ more)) }
        ensures still { (t : ReportView) → BeginsWith self.old t
            → (reader.new ≡ reader.old) × (result ≡ Ok tt) }
        ensures ended { result ≡ Err Ended → (self.new ≡ self.old)
            × IsAtEnd (R.remaining reader.new)
            × Consumes (R.remaining reader.old) (R.remaining reader.new) [] }
    {
        if has_report(self.unheard()) {
            return Ok(());
        }
        self.read_once(reader)
    }

    // Reads once.
    fn read_once<R: Read>(&mut self, reader: &mut R) -> Result<(), ReadError>
        ensures read { OnOk result ((more : List ℕ)
            × Consumes (R.remaining reader.old) (R.remaining reader.new) more
            × (self.new ≡ self.old ++ more)) }
        ensures ended { result ≡ Err Ended → (self.new ≡ self.old)
            × IsAtEnd (R.remaining reader.new)
            × Consumes (R.remaining reader.old) (R.remaining reader.new) [] }
    {
        let count = read_piece(reader, &mut self.piece)?;
        let came = self.piece.get(..count).unwrap_or(&[]);
        self.spare.clear();
        self.spare.extend_from_slice(&self.bytes[self.heard..])?;
        self.spare.extend_from_slice(came)?;
        mem::swap(&mut self.bytes, &mut self.spare);
        self.heard = 0;
        Ok(())
    }

    /// The bytes that aren't heard yet.
    pub fn unheard(&self) -> &[u8]
        ensures { result.now ≡ self.now }
    {
        &self.bytes[self.heard..]
    }

    /// Drops so many bytes, the first ones, which were heard.
    pub fn drop_heard(&mut self, count: usize)
        ensures { self.new ≡ drop count self.old }
    {
        if count < self.bytes.len() - self.heard {
            self.heard += count;
        } else {
            self.bytes.clear();
            self.heard = 0;
        }
    }
}
