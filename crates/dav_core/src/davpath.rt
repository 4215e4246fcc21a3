//! Paths (RFC 3986, sections 2.1, 3.3, 3.4 and 5.2.4).
ghost use Rattle.std.specs.Prelude.{◌≡◌, ◌≢◌, ℕ, ◌==◌, ◌↔◌, List, [], ◌∷◌, MatchOption, IsTrue};
ghost use Rattle.std.specs.List.{prefix_len};
ghost use Rattle.dav_core.specs.Path.{star, names_in};

mod below;
mod ends;
mod reading;
#[cfg(test)]
mod tests;
mod url_text;

use crate::errors::{NoMemory, ParseError};
use below::rest_after;
use ends::{lacks_slash, push_after_slash, trimmed, without_first_slash, without_slash};
use http_uri::Uri;
use reading::{before_query, close, ends_in_slash, is_rooted, len_before, read_names};
use std::alloc::Global;
use std::fmt;
use std::marker::Model;
use url_text::{escaped, url_text};

/// The path of a resource: its names, each after a slash, and a slash at the end where its text has one; or `*`,
/// the path of the whole server (RFC 9110, section 7.1).
#[derive(Drop)]
pub struct DavPath {
    full: Vec<u8>,
    prefix_len: usize,
}

impl Model for DavPath {
    ghost use Rattle.std.specs.Prelude.{◌≤◌, length, take, drop};
    ghost use Rattle.std.specs.Str.{IsUtf8};
    ghost use Rattle.dav_core.specs.Path.{PathText};

    ghost Value = { PathText };

    ghost view = { λ p. record { prefix = take p.prefix_len p.full.items; bytes = drop p.prefix_len p.full.items } };

    ghost invariant = { λ p. (p.prefix_len ≤ length p.full.items) × IsUtf8 (take p.prefix_len p.full.items) };
}

impl DavPath {
    ghost use Rattle.std.specs.Prelude.{◌≡◌, ◌≢◌, ◌++◌, ⊤, Some, if◌then◌else◌, [], IfOk, IfErr, OnOk, OnErr, string_bytes};
    ghost use Rattle.dav_core.specs.Path.{full_bytes, is_at_or_under, is_collection, is_root, is_under, last_name, names, IsCut, IsParent, with_bytes, with_slash, without_first_slash, without_slash};
    ghost use Rattle.dav_core.specs.Target.{Reads, IsRefused};
    ghost use Rattle.dav_core.specs.PathRef.{ref_bytes, names_left, GivesText, IsCutRefused};
    ghost use Rattle.dav_core.specs.UrlText.{IsTextOf};
    ghost use Rattle.http_uri.specs.Uri.{uri_path};

    /// The path in the target of a request (RFC 9112, section 3.2): what comes before the first `?`, with escapes decoded
    /// (RFC 3986, section 2.1), without empty and `.` segments, and with each `..` and the name before it removed
    /// (section 5.2.4).
    ///
    /// `*` alone is the star path. `InvalidPath` where any other text doesn't begin with a slash, holds `#` or a byte
    /// outside 32 to 126, or has a zero byte or a slash in a decoded segment; `ForbiddenPath` where it climbs above the
    /// root. The first segment that is refused decides which.
    pub fn new(alloc: Global, src: &str) -> Result<DavPath, ParseError>
        ensures ok { IfOk result (λ p. (p.prefix ≡ []) × Reads src.now p.bytes) }
        ensures err { IfErr result (IsRefused src.now) }
    {
        let src = src.as_bytes();
        if is_star(src) {
            let full = Vec::from_slice(alloc, src)?;
            return Ok(DavPath {
                full,
                prefix_len: 0,
            });
        }
        if !is_rooted(src) {
            return Err(ParseError::InvalidPath);
        }
        let mut full = read_names(alloc, src)?;
        close(&mut full, ends_in_slash(before_query(src)))?;
        Ok(DavPath {
            full,
            prefix_len: 0,
        })
    }

    /// The path of a URI as it is: nothing is decoded, and nothing is refused.
    pub fn from_uri(alloc: Global, uri: &Uri) -> Result<DavPath, NoMemory>
        ensures { IfOk result (λ p. p ≡ record { prefix = []; bytes = uri_path uri.now }) }
    {
        Ok(DavPath {
            full: Vec::from_slice(alloc, uri.path().as_bytes())?,
            prefix_len: 0,
        })
    }

    /// The path of a prefix and the bytes after it, as they are: nothing is decoded, and nothing is refused.
    pub fn from_parts(alloc: Global, prefix: &str, bytes: &[u8]) -> Result<DavPath, NoMemory>
        ensures { IfOk result (λ p. p ≡ record { prefix = prefix.now; bytes = bytes.now }) }
    {
        let mut full = Vec::from_slice(alloc, prefix.as_bytes())?;
        full.extend_from_slice(bytes)?;
        Ok(DavPath {
            full,
            prefix_len: prefix.len(),
        })
    }

    /// The prefix; empty where none was set.
    pub fn prefix(&self) -> &str
        ensures { result.now ≡ self.now.prefix }
    {
        str::from_utf8(&self.full[..self.prefix_len]).unwrap()
    }

    /// All of the path, with its prefix.
    pub fn with_prefix(&self) -> DavPathRef<'_>
        ensures { ref_bytes result ≡ full_bytes self.now }
    {
        DavPathRef { bytes: &self.full }
    }

    /// Whether this is the path of the whole server.
    pub fn is_star(&self) -> bool
        ensures { IsTrue result ↔ (self.now.bytes ≡ star) }
    {
        is_star(self.as_bytes())
    }

    /// Whether the path ends in a slash.
    pub fn is_collection(&self) -> bool
        ensures { result ≡ is_collection self.now.bytes }
    {
        ends::is_collection(self.as_bytes())
    }

    /// The bytes of the path after its prefix.
    pub fn as_bytes(&self) -> &[u8]
        ensures { result.now ≡ self.now.bytes }
    {
        self.as_ref().as_bytes()
    }

    /// The names of the path, in order; none of `*`.
    pub fn segments(&self) -> Segments<'_>
        ensures { names_left result ≡ names self.now }
    {
        self.as_ref().segments()
    }

    /// Whether it has no names: it is the root, or `*`.
    pub fn is_root(&self) -> bool
        ensures { result ≡ is_root (names self.now) }
    {
        self.as_ref().is_root()
    }

    /// Whether its names begin with those of another path: it is that path, or is below it (RFC 4918, section 5.2). Prefixes and slashes
    /// at the end don't count.
    pub fn is_at_or_under(&self, other: &DavPath) -> bool
        ensures { result ≡ is_at_or_under (names self.now) (names other.now) }
    {
        rest_after(other.segments(), self.segments()).is_some()
    }

    /// Whether it is below another path, and not that path itself.
    pub fn is_under(&self, other: &DavPath) -> bool
        ensures { result ≡ is_under (names self.now) (names other.now) }
    {
        match rest_after(other.segments(), self.segments()) {
            Some(mut rest) => rest.next().is_some(),
            None => false,
        }
    }

    /// The path after its prefix in a URL, as `DavPathRef::as_url_string` writes it.
    pub fn as_url_string(&self) -> Result<String, NoMemory>
        ensures { IfOk result (λ s. IsTextOf self.now.bytes (string_bytes s)) }
    {
        self.as_ref().as_url_string(*self.full.allocator())
    }

    /// The last name; empty where there is none.
    pub fn file_name_bytes(&self) -> &[u8]
        ensures { result.now ≡ last_name self.now.bytes }
    {
        self.as_ref().file_name_bytes()
    }

    /// The last name; `None` where there is none, and where it isn't UTF-8.
    pub fn file_name(&self) -> Option<&str>
        ensures { GivesText (names self.now ≢ []) (last_name self.now.bytes) result }
    {
        self.as_ref().file_name()
    }

    /// The path as text, without its prefix; `None` where it isn't UTF-8.
    pub fn as_pathbuf(&self) -> Option<&str>
        ensures { GivesText ⊤ self.now.bytes result }
    {
        self.as_ref().as_pathbuf()
    }

    /// The path as text, without its prefix and without the slash that it begins with; `None` where it isn't UTF-8.
    pub fn as_rel_ospath(&self) -> Option<&str>
        ensures { GivesText ⊤ (without_first_slash self.now.bytes) result }
    {
        self.as_ref().as_rel_ospath()
    }

    /// The parent, after the same prefix: the path up to and with the slash before its last name, empty where that name is the
    /// first and no slash is before it; the root and `*` are their own parents. It has all names but the last.
    pub fn parent(&self) -> Result<DavPath, NoMemory>
        ensures prefix { IfOk result (λ p. p.prefix ≡ self.now.prefix) }
        ensures parent { IfOk result (λ p. IsParent self.now.bytes p.bytes) }
    {
        let len = self.prefix_len + self.as_ref().parent().as_bytes().len();
        Ok(DavPath {
            full: Vec::from_slice(*self.full.allocator(), &self.full[..len])?,
            prefix_len: self.prefix_len,
        })
    }

    /// Makes a text, without the slash at its end, the prefix of the path, in place of the one that it had. The text may be
    /// empty, all of the path with its old prefix (a slash is then added after it), or followed by a slash there.
    ///
    /// `PrefixMismatch` where it is none of these; `Memory` only where a slash is to be added. After an error the path is as
    /// it was.
    pub fn set_prefix(&mut self, prefix: &str) -> Result<(), ParseError>
        ensures ok { OnOk result (IsCut (without_slash prefix.now) (full_bytes self.old) self.new) }
        ensures err { IfErr result (IsCutRefused (without_slash prefix.now) (full_bytes self.old)) }
        ensures unchanged { OnErr result (self.new ≡ self.old) }
    {
        let prefix = without_slash(prefix.as_bytes());
        let Some(lacks_slash) = lacks_slash(prefix, &self.full) else {
            return Err(ParseError::PrefixMismatch);
        };
        if lacks_slash {
            self.full.push(b'/')?;
        }
        self.prefix_len = prefix.len();
        Ok(())
    }

    /// Adds a slash at the end of the path where there is none. Where memory runs out, the path stays as it was.
    pub fn add_slash(&mut self) -> Result<(), NoMemory>
        ensures ok { OnOk result (self.new ≡ with_bytes self.old (with_slash self.old.bytes)) }
        ensures err { OnErr result (self.new ≡ self.old) }
    {
        self.push_segment(b"")
    }

    /// Adds a slash at the end of the path if `wanted`, where there is none. Where memory runs out, the path stays as it
    /// was.
    pub fn add_slash_if(&mut self, wanted: bool) -> Result<(), NoMemory>
        ensures ok { OnOk result (self.new
            ≡ (if wanted then with_bytes self.old (with_slash self.old.bytes) else self.old)) }
        ensures err { OnErr result (self.new ≡ self.old) }
    {
        if wanted {
            self.add_slash()?;
        }
        Ok(())
    }

    /// Adds a name at the end of the path, after a slash, which is added where the path doesn't end in one. Where memory
    /// runs out, the path stays as it was.
    pub fn push_segment(&mut self, name: &[u8]) -> Result<(), NoMemory>
        ensures ok { OnOk result (self.new
            ≡ with_bytes self.old (with_slash self.old.bytes ++ name.now)) }
        ensures err { OnErr result (self.new ≡ self.old) }
    {
        let is_collection = self.is_collection();
        push_after_slash(&mut self.full, is_collection, name)
    }

    /// The path after its prefix.
    pub fn as_ref(&self) -> DavPathRef<'_>
        ensures { ref_bytes result ≡ self.now.bytes }
    {
        DavPathRef {
            bytes: &self.full[self.prefix_len..],
        }
    }
}

impl Clone for DavPath {
    ghost use Rattle.std.specs.Prelude.{◌≡◌};

    ghost is_clone = { λ a b. a ≡ b };

    fn clone(&self) -> Result<DavPath, NoMemory> {
        Ok(DavPath {
            full: self.full.clone()?,
            prefix_len: self.prefix_len,
        })
    }
}

/// Compares the full paths, each without one slash at its end if it is longer than one byte.
impl PartialEq for DavPath {
    ghost use Rattle.std.specs.Cmp.Rules.{comparing};
    ghost use Rattle.std.proofs.Common.{rules};
    ghost use Rattle.dav_core.specs.Path.{are_equal};

    ghost eq = { are_equal };

    ghost laws = { Prim.search (comparing, rules) };

    fn eq(&self, other: &DavPath) -> bool {
        trimmed(&self.full) == trimmed(&other.full)
    }
}

impl Eq for DavPath {
    ghost use Rattle.std.specs.Cmp.Rules.{comparing};
    ghost use Rattle.std.proofs.Common.{rules};

    ghost laws = { Prim.search (comparing, rules) };
}

/// Writes all of the path, with its prefix, as `as_url_string` does.
impl fmt::Display for DavPath {
    ghost use Rattle.std.specs.Prelude.{Some};
    ghost use Rattle.dav_core.specs.Path.{full_bytes};
    ghost use Rattle.dav_core.specs.UrlText.{path_text};

    ghost output = { λ p. Some (path_text (full_bytes p)) };

    fn fmt<W: fmt::Write>(&self, f: &mut fmt::Formatter<W>) -> fmt::Result {
        if is_star(&self.full) {
            write!(f, "*")
        } else {
            let text = escaped(&self.full);
            write!(f, "{text}")
        }
    }
}

/// Writes the same as `Display`.
impl fmt::Debug for DavPath {
    ghost use Rattle.std.specs.Prelude.{Some};
    ghost use Rattle.dav_core.specs.Path.{full_bytes};
    ghost use Rattle.dav_core.specs.UrlText.{path_text};

    ghost debug_output = { λ p. Some (path_text (full_bytes p)) };

    fn fmt<W: fmt::Write>(&self, f: &mut fmt::Formatter<W>) -> fmt::Result {
        fmt::Display::fmt(self, f)
    }
}

/// A lent path.
#[derive(Clone, Copy)]
pub struct DavPathRef<'a> {
    bytes: &'a [u8],
}

impl<'a> DavPathRef<'a> {
    ghost use Rattle.std.specs.Prelude.{◌≡◌, ◌≢◌, ⊤, [], None, IfOk, string_bytes, option_copied};
    ghost use Rattle.std.specs.List.{last_or};
    ghost use Rattle.dav_core.specs.Path.{is_collection, is_root, last_name, names_of, IsParent, without_first_slash};
    ghost use Rattle.dav_core.specs.PathRef.{ref_bytes, names_left, GivesText};
    ghost use Rattle.dav_core.specs.UrlText.{IsTextOf};

    /// The bytes of the path.
    pub fn as_bytes(self) -> &'a [u8]
        ensures { result.now ≡ ref_bytes self.entry }
    {
        self.bytes
    }

    /// Whether the path ends in a slash.
    pub fn is_collection(self) -> bool
        ensures { result ≡ is_collection (ref_bytes self.entry) }
    {
        ends::is_collection(self.bytes)
    }

    /// The parent: the path up to and with the slash before its last name, empty where that name is the first and no slash
    /// is before it; the root and `*` are their own parents.
    pub fn parent(self) -> DavPathRef<'a>
        ensures { IsParent (ref_bytes self.entry) (ref_bytes result) }
    {
        DavPathRef {
            bytes: ends::parent(self.bytes, self.is_root()),
        }
    }

    // Whether the path has no names.
    fn is_root(self) -> bool
        ensures { result ≡ is_root (names_of (ref_bytes self.entry)) }
    {
        self.segments().next().is_none()
    }

    /// The last name; empty where there is none.
    pub fn file_name_bytes(self) -> &'a [u8]
        ensures { result.now ≡ last_name (ref_bytes self.entry) }
    {
        self.last_name().unwrap_or(&[])
    }

    /// The last name; `None` where there is none, and where it isn't UTF-8.
    pub fn file_name(self) -> Option<&'a str>
        ensures { GivesText (names_of (ref_bytes self.entry) ≢ [])
            (last_name (ref_bytes self.entry)) result }
    {
        let Some(name) = self.last_name() else {
            return None;
        };
        str::from_utf8(name).ok()
    }

    /// The path as text; `None` where it isn't UTF-8.
    pub fn as_pathbuf(self) -> Option<&'a str>
        ensures { GivesText ⊤ (ref_bytes self.entry) result }
    {
        str::from_utf8(self.bytes).ok()
    }

    /// The path as text, without the slash that it begins with; `None` where it isn't UTF-8.
    pub fn as_rel_ospath(self) -> Option<&'a str>
        ensures { GivesText ⊤ (without_first_slash (ref_bytes self.entry)) result }
    {
        str::from_utf8(without_first_slash(self.bytes)).ok()
    }

    // The last name, where there is one.
    fn last_name(self) -> Option<&'a [u8]>
        ensures { option_copied result ≡ last_or None (names_of (ref_bytes self.entry)) }
    {
        self.segments().last()
    }

    /// The names of the path, in order; none of `*`.
    pub fn segments(self) -> Segments<'a>
        ensures { names_left result ≡ names_of (ref_bytes self.entry) }
    {
        if is_star(self.bytes) {
            Segments { rest: &[] }
        } else {
            Segments { rest: self.bytes }
        }
    }

    /// The path in a URL: letters, digits and `-_.~/` as they are, every other byte as `%` and two upper-case
    /// hexadecimal digits (RFC 3986, section 2.1); `*` for `*`.
    pub fn as_url_string(self, alloc: Global) -> Result<String, NoMemory>
        ensures { IfOk result (λ s. IsTextOf (ref_bytes self.entry) (string_bytes s)) }
    {
        if is_star(self.bytes) {
            String::from_str(alloc, "*")
        } else {
            url_text(alloc, self.bytes)
        }
    }
}

/// The names of a path, in order.
#[derive(Drop)]
pub struct Segments<'a> {
    rest: &'a [u8],
}

impl<'a> Iterator for Segments<'a> {
    type Item = &'a [u8];

    ghost use Rattle.std.specs.Iterator.{YieldsFirstRef, item_count};
    ghost use Rattle.dav_core.specs.PathRef.{names_left};

    ghost next_gives = { YieldsFirstRef names_left };

    ghost remaining = { item_count names_left };

    fn next(&mut self) -> Option<&'a [u8]> {
        let (name, rest) = next_name(self.rest)?;
        self.rest = rest;
        Some(name)
    }
}

// Whether this is the path of the whole server.
fn is_star(bytes: &[u8]) -> bool
    ensures { IsTrue result ↔ (bytes.now ≡ star) }
{
    matches!(bytes, [b'*'])
}

// How many slashes the bytes begin with.
fn slashes_at_front(bytes: &[u8]) -> usize
    ensures { result ≡ prefix_len (λ b. b == 47) bytes.now }
{
    bytes.iter().take_while(|b| **b == b'/').count()
}

// The bytes without the slashes that they begin with.
fn skip_slashes(bytes: &[u8]) -> &[u8]
    ensures same { names_in result.now ≡ names_in bytes.now }
    ensures bare { (rest : List ℕ) → result.now ≢ 47 ∷ rest }
{
    &bytes[slashes_at_front(bytes)..]
}

// The first name, and what follows it.
fn next_name(bytes: &[u8]) -> Option<(&[u8], &[u8])>
    ensures { MatchOption result (names_in bytes.now ≡ [])
        (λ r. names_in bytes.now ≡ r.0.now ∷ names_in r.1.now) }
{
    let bytes = skip_slashes(bytes);
    if bytes.is_empty() {
        return None;
    }
    Some(bytes.split_at(len_before(bytes, b'/')))
}
