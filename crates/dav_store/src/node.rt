//! Folders and files in memory (RFC 4918, section 5).
ghost use Rattle.std.specs.Prelude.{◌≡◌, ◌≤◌, ◌+◌, ◌∷◌, ◌++◌, [], take, drop, length, ◌≢◌, IfOk, OnOk, OnErr};
ghost use Rattle.dav_core.specs.World.{splice, bytes_of, is_folder_kind, fresh, modified_at, last_moment, max_file_len, Folder as FolderKind, File as FileKind};
ghost use Rattle.dav_core.specs.Calls.{metadata_of, emptied, written, repatched, copied_over};
ghost use Rattle.dav_store.specs.KindOf.{kind_of};

mod saved;

use crate::properties::Properties;
use bytes::Bytes;
use dav_core::errors::NoMemory;
use dav_core::fs::DavMetaData;
use std::alloc::Global;
use std::marker::Model;

/// What a node is.
#[derive(Drop)]
pub enum Content {
    /// A folder.
    Folder,
    /// A file with its bytes.
    File(Bytes),
}

/// A folder or file: the change number under which it was created, the last one that it took, what it is, its
/// properties, and when it was created and last changed, in seconds since 1970.
#[derive(Drop)]
pub struct Node {
    made: u64,
    number: u64,
    content: Content,
    properties: Properties,
    created: u64,
    modified: u64,
}

impl Model for Node {
    ghost use Rattle.std.specs.Prelude.{◌≤◌};
    ghost use Rattle.dav_core.specs.World.{Node as Seen, last_moment};
    ghost use Rattle.dav_core.specs.WorldCode.{coded_node};

    ghost Value = { Seen };

    ghost coded = { coded_node };

    ghost use Rattle.dav_store.specs.KindOf.{kind_of};

    ghost view = { λ n. record { made = n.made; number = n.number; kind = kind_of n.content; properties = n.properties; created = n.created; modified = n.modified } };

    ghost invariant = { λ n. (n.created ≤ last_moment) × (n.modified ≤ last_moment) };
}

impl Clone for Content {
    ghost use Rattle.std.specs.Prelude.{◌≡◌};
    ghost use Rattle.dav_store.specs.KindOf.{kind_of};

    ghost is_clone = { λ a b. kind_of a ≡ kind_of b };

    fn clone(&self) -> Result<Content, NoMemory> {
        match self {
            Content::Folder => Ok(Content::Folder),
            Content::File(bytes) => Ok(Content::File(bytes.clone()?)),
        }
    }
}

impl Clone for Node {
    ghost use Rattle.std.specs.Prelude.{◌≡◌};

    ghost is_clone = { λ a b. a ≡ b };

    fn clone(&self) -> Result<Node, NoMemory> {
        Ok(Node {
            made: self.made,
            number: self.number,
            content: self.content.clone()?,
            properties: self.properties.clone()?,
            created: self.created,
            modified: self.modified,
        })
    }
}

// The bytes of a file; none of a folder.
fn bytes_in(content: &Content) -> &[u8]
    ensures { result.now ≡ bytes_of (kind_of content.now) }
{
    match content {
        Content::Folder => &[],
        Content::File(bytes) => bytes.as_slice(),
    }
}

// The bytes with others written over them from a place on; a gap is filled with zeros.
fn bytes_after_write(
    alloc: Global,
    bytes: &[u8],
    place: usize,
    chunk: &[u8],
) -> Result<Vec<u8>, NoMemory>
    requires some { chunk.now ≢ [] }
    requires fits { place + length chunk.now ≤ max_file_len }
    ensures { IfOk result (λ v. v.items ≡ splice bytes.now place chunk.now) }
{
    let mut new = Vec::from_slice(alloc, &bytes[..place.min(bytes.len())])?;
    new.resize(place, 0)?;
    new.extend_from_slice(chunk)?;
    let end = (place + chunk.len()).min(bytes.len());
    new.extend_from_slice(&bytes[end..])?;
    Ok(new)
}

impl Node {
    ghost use Rattle.std.specs.Prelude.{◌≡◌, ◌≤◌, ◌+◌, [], length, take, drop, ◌≢◌, IfOk, OnOk, OnErr};
    ghost use Rattle.dav_core.specs.World.{bytes_of, is_folder_kind, fresh, modified_at, last_moment, max_file_len, Folder as FolderKind, File as FileKind};
    ghost use Rattle.dav_core.specs.Calls.{metadata_of, emptied, written, repatched, copied_over};

    /// A folder that is created now, under this change number.
    pub fn new_folder(alloc: Global, number: u64, now: u64) -> Node
        requires { now ≤ last_moment }
        ensures { result ≡ fresh number FolderKind now }
    {
        Node {
            made: number,
            number,
            content: Content::Folder,
            properties: Properties::new(alloc),
            created: now,
            modified: now,
        }
    }

    /// An empty file that is created now, under this change number.
    pub fn new_file(alloc: Global, number: u64, now: u64) -> Node
        requires { now ≤ last_moment }
        ensures { result ≡ fresh number (FileKind []) now }
    {
        Node {
            made: number,
            number,
            content: Content::File(Bytes::new()),
            properties: Properties::new(alloc),
            created: now,
            modified: now,
        }
    }

    /// Whether it is a folder.
    pub fn is_folder(&self) -> bool
        ensures { result ≡ is_folder_kind self.now.kind }
    {
        match self.content {
            Content::Folder => true,
            Content::File(_) => false,
        }
    }

    /// The change number under which it was created.
    pub fn creation_number(&self) -> u64
        ensures { result ≡ self.now.made }
    {
        self.made
    }

    /// The last change number that it took.
    pub fn number(&self) -> u64
        ensures { result ≡ self.now.number }
    {
        self.number
    }

    /// The bytes of a file; none of a folder.
    pub fn bytes(&self) -> &[u8]
        ensures { result.now ≡ bytes_of self.now.kind }
    {
        bytes_in(&self.content)
    }

    /// The dead properties.
    pub fn properties(&self) -> &Properties
        ensures { result.now ≡ self.now.properties }
    {
        &self.properties
    }

    /// Its metadata.
    pub fn metadata(&self) -> DavMetaData
        ensures value { result ≡ metadata_of self.now }
        ensures times { (result.created ≤ last_moment) × (result.modified ≤ last_moment) }
    {
        DavMetaData {
            len: self.bytes().len() as u64,
            dir: self.is_folder(),
            created: self.created,
            modified: self.modified,
            number: Some(self.number),
        }
    }

    /// Sets the moment at which it was last changed.
    pub fn touch(&mut self, now: u64)
        requires { now ≤ last_moment }
        ensures { self.new ≡ modified_at now self.old }
    {
        self.modified = now;
    }

    /// Makes it a file without bytes, which takes this change number.
    pub fn empty(&mut self, number: u64, now: u64)
        requires { now ≤ last_moment }
        ensures { self.new ≡ emptied number now self.old }
    {
        self.number = number;
        self.content = Content::File(Bytes::new());
        self.modified = now;
    }

    /// Writes bytes from a place on. Where memory runs out, it stays as it was.
    pub fn write(
        &mut self,
        alloc: Global,
        place: usize,
        chunk: &[u8],
        number: u64,
        now: u64,
    ) -> Result<(), NoMemory>
        requires some { chunk.now ≢ [] }
        requires fits { place + length chunk.now ≤ max_file_len }
        requires now { now ≤ last_moment }
        ensures ok { OnOk result (self.new ≡ written place chunk.now number now self.old) }
        ensures err { OnErr result (self.new ≡ self.old) }
    {
        let bytes = bytes_after_write(alloc, self.bytes(), place, chunk)?;
        self.content = Content::File(Bytes::from_vec(bytes)?);
        self.number = number;
        self.modified = now;
        Ok(())
    }

    /// Replaces its properties.
    pub fn set_properties(&mut self, properties: Properties)
        ensures { self.new ≡ record self.old { properties = properties } }
    {
        self.properties = properties;
    }

    /// Another node with its bytes and properties, created now under this change number.
    pub fn copy(&self, number: u64, now: u64) -> Result<Node, NoMemory>
        requires { now ≤ last_moment }
        ensures { IfOk result (λ n. n
            ≡ record (fresh number self.now.kind now) { properties = self.now.properties }) }
    {
        Ok(Node {
            made: number,
            number,
            content: self.content.clone()?,
            properties: self.properties.clone()?,
            created: now,
            modified: now,
        })
    }

    /// Gives it all that another node has, but it stays the node that it was.
    pub fn become_like(&mut self, other: Node)
        ensures { self.new ≡ record other { made = self.old.made } }
    {
        let made = self.made;
        *self = other;
        self.made = made;
    }

    /// At most so many bytes from a place on, and fewer only at the end.
    pub fn read(&self, place: u64, count: usize) -> Result<Bytes, NoMemory>
        ensures value { IfOk result
            (λ chunk. chunk ≡ take count (drop place (bytes_of self.now.kind))) }
        ensures fits { IfOk result (λ chunk. place + length chunk ≤ 18446744073709551615) }
    {
        match &self.content {
            Content::Folder => Ok(Bytes::new()),
            Content::File(bytes) => {
                let start = (place as usize).min(bytes.len());
                let end = start.saturating_add(count).min(bytes.len());
                bytes.slice(start..end)
            }
        }
    }
}
