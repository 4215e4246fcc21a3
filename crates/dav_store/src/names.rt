//! The names of a path, as owned bytes (RFC 3986, section 3.3).
ghost use Rattle.std.specs.Prelude.{◌≡◌, ◌++◌, ◌∷◌, [], IfOk};
ghost use Rattle.dav_core.specs.Path.{names, path_cmp, IsSegment};

mod saved;

use dav_core::davpath::DavPath;
use dav_core::errors::NoMemory;
use std::alloc::Global;
use std::cmp::Ordering;
use std::marker::Model;

/// The bytes of a name.
#[derive(Drop)]
pub struct Name {
    bytes: Vec<u8>,
}

impl Model for Name {
    ghost use Rattle.std.specs.Prelude.{ℕ, List};
    ghost use Rattle.dav_core.specs.Path.{IsSegment};

    ghost Value = { List ℕ };

    ghost view = { λ n. n.bytes.items };

    ghost invariant = { λ n. IsSegment n.bytes.items };
}

impl Name {
    /// A name with these bytes.
    pub fn from_slice(alloc: Global, bytes: &[u8]) -> Result<Name, NoMemory>
        requires { IsSegment bytes.now }
        ensures { IfOk result (λ n. n ≡ bytes.now) }
    {
        let bytes = Vec::from_slice(alloc, bytes)?;
        Ok(Name { bytes })
    }

    /// The name of these bytes.
    pub fn from_bytes(bytes: Vec<u8>) -> Name
        requires { IsSegment bytes.items }
        ensures { result ≡ bytes.items }
    {
        Name { bytes }
    }

    /// The bytes; there are some, and no slash is among them.
    pub fn as_slice(&self) -> &[u8]
        ensures value { result.now ≡ self.now }
        ensures segment { IsSegment result.now }
    {
        &self.bytes
    }
}

/// The names of a path, from the root down.
#[derive(Drop)]
pub struct Names {
    names: Vec<Name>,
}

impl Model for Names {
    ghost use Rattle.dav_core.specs.Path.{Path};

    ghost Value = { Path };

    ghost view = { λ n. n.names.items };
}

impl Names {
    /// The names of a path; none for the star path.
    pub fn of(alloc: Global, path: &DavPath) -> Result<Names, NoMemory>
        ensures { IfOk result (λ ns. ns ≡ names path.now) }
    {
        let mut names = Vec::new(alloc);
        for segment in path.segments() {
            names.push(Name::from_slice(alloc, segment)?)?;
        }
        Ok(Names { names })
    }

    /// No names: the root.
    pub fn root(alloc: Global) -> Names
        ensures { result ≡ [] }
    {
        Names {
            names: Vec::new(alloc),
        }
    }

    /// The same names.
    pub fn copy(&self, alloc: Global) -> Result<Names, NoMemory>
        ensures { IfOk result (λ ns. ns ≡ self.now) }
    {
        let mut names = Vec::new(alloc);
        for name in &self.names {
            names.push(Name::from_slice(alloc, name.as_slice())?)?;
        }
        Ok(Names { names })
    }

    /// These names, and one more.
    pub fn with(&self, alloc: Global, name: &Name) -> Result<Names, NoMemory>
        ensures { IfOk result (λ ns. ns ≡ self.now ++ name.now ∷ []) }
    {
        let mut path = self.copy(alloc)?;
        path.names.push(Name::from_slice(alloc, name.as_slice())?)?;
        Ok(path)
    }

    /// The names, from the root down.
    pub fn as_slice(&self) -> &[Name]
        ensures { result.now ≡ self.now }
    {
        &self.names
    }

    /// Compares name by name, and a path before what is below it.
    pub fn compare(&self, other: &Names) -> Ordering
        ensures { result ≡ path_cmp self.now other.now }
    {
        let len = self.names.len().min(other.names.len());
        for i in 0..len {
            let order = self.names[i].as_slice().cmp(&other.names[i].as_slice());
            if order.is_ne() {
                return order;
            }
        }
        self.names.len().cmp(&other.names.len())
    }
}
