//! Folders and files as they are saved, and as they are read.
ghost use Rattle.std.specs.Prelude.{◌≡◌, ◌++◌, OnOk};
ghost use Rattle.std.specs.Bool.{Decides};
ghost use Rattle.dav_saved.specs.Reading.{Gives};
ghost use Rattle.dav_saved.specs.Worlds.{kind, kind_at, fields_at, node_of, IsKind};
ghost use Rattle.dav_store.specs.KindOf.{kind_of};
ghost use Rattle.dav_store.specs.Loaded.{IsFitNode};
ghost use Rattle.dav_store.specs.PartsOf.{parts_view};

use super::{Content, Node};
use crate::properties::Properties;
use bytes::Bytes;
use dav_core::errors::NoMemory;
use dav_saved::{LoadError, bytes_of, number_of, put_bytes, put_number};
use std::alloc::Global;

// The last second of the year 9999, the last moment that a date of HTTP can show (RFC 9110, section 5.6.7).
const LAST_MOMENT: u64 = 253_402_300_799;

// Adds what a node is: a folder, or a file with its bytes.
fn put_content(out: &mut Vec<u8>, content: &Content) -> Result<(), NoMemory>
    ensures added { OnOk result (out.new.items ≡ out.old.items ++ kind (kind_of content.now)) }
    ensures saveable { OnOk result (IsKind (kind_of content.now)) }
{
    match content {
        Content::Folder => {
            out.push(0)?;
            Ok(())
        }
        Content::File(bytes) => {
            out.push(1)?;
            put_bytes(out, bytes.as_slice())?;
            Ok(())
        }
    }
}

// What a node is, in front of bytes, and what is behind it.
#[tactic(auto, unfolding(dav_saved::specs::Worlds::kind_at))]
fn content_of(alloc: Global, bytes: &[u8]) -> Result<(Content, &[u8]), LoadError>
    ensures { Gives (λ x. (kind_of x.0, x.1.now)) result (kind_at bytes.now) }
{
    match bytes {
        [0, rest @ ..] => Ok((Content::Folder, rest)),
        [1, rest @ ..] => {
            let (file, rest) = bytes_of(rest)?;
            let file = Bytes::from_vec(Vec::from_slice(alloc, file)?)?;
            Ok((Content::File(file), rest))
        }
        _ => Err(LoadError::NotSaved),
    }
}

// The fields of a node that is read.
#[derive(Drop)]
struct Parts {
    made: u64,
    number: u64,
    content: Content,
    properties: Properties,
    created: u64,
    modified: u64,
}

// The fields of a node in front of bytes, and what is behind them.
#[tactic(auto, unfolding(dav_saved::specs::Worlds::fields_at, dav_saved::specs::Parts::both_at))]
fn parts_of(alloc: Global, levels: usize, bytes: &[u8]) -> Result<(Parts, &[u8]), LoadError>
    ensures { Gives (λ x. (parts_view x.0, x.1.now)) result (fields_at levels bytes.now) }
{
    let (made, rest) = number_of(bytes)?;
    let (number, rest) = number_of(rest)?;
    let (content, rest) = content_of(alloc, rest)?;
    let (properties, rest) = Properties::load(alloc, levels, rest)?;
    let (created, rest) = number_of(rest)?;
    let (modified, rest) = number_of(rest)?;
    let parts = Parts {
        made,
        number,
        content,
        properties,
        created,
        modified,
    };
    Ok((parts, rest))
}

// Whether the node of these fields may stand in a world whose next change number is this one.
fn is_fit(parts: &Parts, next: u64) -> bool
    ensures { Decides result (IsFitNode next (node_of (parts_view parts.now))) }
{
    if parts.made > parts.number || parts.number >= next {
        return false;
    }
    if parts.created > LAST_MOMENT || parts.modified > LAST_MOMENT {
        return false;
    }
    parts.properties.are_rising()
}

impl Node {
    ghost use Rattle.std.specs.Prelude.{◌≡◌, ◌++◌, ℕ, OnOk};
    ghost use Rattle.dav_saved.specs.Worlds.{node, node_at, AreWithin, IsSaveableNode};
    ghost use Rattle.dav_store.specs.Loaded.{GivesOnly, IsFitNode};

    /// Adds the node to what is saved. After an error a part of it may have been added.
    pub fn save(&self, out: &mut Vec<u8>) -> Result<(), NoMemory>
        ensures added { OnOk result (out.new.items ≡ out.old.items ++ node self.now) }
        // It can be read again, by as many levels as the elements of its properties have.
        ensures saveable { OnOk result ((levels : ℕ) → AreWithin levels self.now.properties
            → IsSaveableNode levels self.now) }
    {
        put_number(out, self.made)?;
        put_number(out, self.number)?;
        put_content(out, &self.content)?;
        self.properties.save(out)?;
        put_number(out, self.created)?;
        put_number(out, self.modified)?;
        Ok(())
    }

    /// The node in front of bytes, and what is behind it. `NotSaved` where no node is there whose
    /// elements have at most so many levels, and which may stand in a world whose next change number
    /// is `next`.
    pub fn load(
        alloc: Global,
        levels: usize,
        next: u64,
        bytes: &[u8],
    ) -> Result<(Node, &[u8]), LoadError>
        ensures { GivesOnly (IsFitNode next) (λ x. (x.0, x.1.now)) result
            (node_at levels bytes.now) }
    {
        let (parts, rest) = parts_of(alloc, levels, bytes)?;
        if !is_fit(&parts, next) {
            return Err(LoadError::NotSaved);
        }
        let node = Node {
            made: parts.made,
            number: parts.number,
            content: parts.content,
            properties: parts.properties,
            created: parts.created,
            modified: parts.modified,
        };
        Ok((node, rest))
    }
}
