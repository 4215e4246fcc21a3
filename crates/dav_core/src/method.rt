//! Methods (RFC 9110, section 9; RFC 4918, section 9) and sets of them.
ghost use Rattle.std.specs.Prelude.{◌≡◌, ◌≢◌, ◌⊎◌, ◌↔◌, All, IsTrue, MatchOption, MatchResult};
ghost use Rattle.dav_core.specs.Method.{method_name, bit_of, NamesMethod, IsMethodName};

#[cfg(test)]
mod tests;

use crate::errors::DavError;
use http::Method;
use std::marker::Model;
use thiserror::Error;

/// The methods that a server of files knows.
#[derive(Clone, Copy, Debug, PartialEq, Eq)]
pub enum DavMethod {
    /// `HEAD` (RFC 9110, section 9.3.2).
    Head = 0x0001,
    /// `GET` (RFC 9110, section 9.3.1).
    Get = 0x0002,
    /// `PUT` (RFC 9110, section 9.3.4).
    Put = 0x0004,
    /// `PATCH` (RFC 5789).
    Patch = 0x0008,
    /// `OPTIONS` (RFC 9110, section 9.3.7).
    Options = 0x0010,
    /// `PROPFIND` (RFC 4918, section 9.1).
    PropFind = 0x0020,
    /// `PROPPATCH` (RFC 4918, section 9.2).
    PropPatch = 0x0040,
    /// `MKCOL` (RFC 4918, section 9.3).
    MkCol = 0x0080,
    /// `COPY` (RFC 4918, section 9.8).
    Copy = 0x0100,
    /// `MOVE` (RFC 4918, section 9.9).
    Move = 0x0200,
    /// `DELETE` (RFC 9110, section 9.3.5; RFC 4918, section 9.6).
    Delete = 0x0400,
    /// `LOCK` (RFC 4918, section 9.10).
    Lock = 0x0800,
    /// `UNLOCK` (RFC 4918, section 9.11).
    Unlock = 0x1000,
    /// `REPORT` (RFC 3253, section 3.6).
    Report = 0x2000,
    /// `MKCALENDAR` (RFC 4791, section 5.3.1).
    MkCalendar = 0x4000,
    /// `MKADDRESSBOOK`, which some clients send.
    MkAddressbook = 0x8000,
}

const ALL: [DavMethod; 16] = [
    DavMethod::Head,
    DavMethod::Get,
    DavMethod::Put,
    DavMethod::Patch,
    DavMethod::Options,
    DavMethod::PropFind,
    DavMethod::PropPatch,
    DavMethod::MkCol,
    DavMethod::Copy,
    DavMethod::Move,
    DavMethod::Delete,
    DavMethod::Lock,
    DavMethod::Unlock,
    DavMethod::Report,
    DavMethod::MkCalendar,
    DavMethod::MkAddressbook,
];

impl DavMethod {
    // The method's bit in a set.
    fn bit(self) -> u32
        ensures { result ≡ bit_of self }
    {
        self as u32
    }

    // The method's name.
    fn name(self) -> &'static str
        ensures { result.now ≡ method_name self }
    {
        match self {
            DavMethod::Head => "HEAD",
            DavMethod::Get => "GET",
            DavMethod::Put => "PUT",
            DavMethod::Patch => "PATCH",
            DavMethod::Options => "OPTIONS",
            DavMethod::PropFind => "PROPFIND",
            DavMethod::PropPatch => "PROPPATCH",
            DavMethod::MkCol => "MKCOL",
            DavMethod::Copy => "COPY",
            DavMethod::Move => "MOVE",
            DavMethod::Delete => "DELETE",
            DavMethod::Lock => "LOCK",
            DavMethod::Unlock => "UNLOCK",
            DavMethod::Report => "REPORT",
            DavMethod::MkCalendar => "MKCALENDAR",
            DavMethod::MkAddressbook => "MKADDRESSBOOK",
        }
    }

    // The method that a text names, ASCII case ignored.
    fn named(text: &str) -> Option<DavMethod>
        ensures { MatchOption result (¬ (IsMethodName text.now)) (NamesMethod text.now) }
    {
        for method in ALL {
            if text.eq_ignore_ascii_case(method.name()) {
                return Some(method);
            }
        }
        None
    }
}

/// The method of this name. Names are case-sensitive (RFC 9110, section 9.1). Any other name is `UnknownDavMethod`.
impl TryFrom<&Method> for DavMethod {
    type Error = DavError;

    ghost use Rattle.dav_core.specs.Method.{GivesMethod};

    ghost try_from_gives = { λ m r. GivesMethod m.now r };

    fn try_from(method: &Method) -> Result<DavMethod, DavError> {
        let text = method.as_str();
        for method in ALL {
            if text == method.name() {
                return Ok(method);
            }
        }
        Err(DavError::UnknownDavMethod)
    }
}

/// A set of methods.
#[derive(Clone, Copy, Debug, PartialEq, Eq)]
pub struct DavMethodSet(u32);

impl Model for DavMethodSet {
    ghost use Rattle.std.specs.Prelude.{ℕ, ◌<◌, ◌^◌};

    ghost Value = { ℕ };

    ghost view = { λ s. s.0 };

    ghost invariant = { λ s. s.0 < 2 ^ 16 };

    ghost inverse = { λ n. record { 0 = n } };
}

impl DavMethodSet {
    ghost use Rattle.dav_core.specs.Method.{Has, IsNamedSet, texts_of};

    /// HEAD, GET and OPTIONS.
    pub const HTTP_RO: DavMethodSet = DavMethodSet(0x0013);

    /// HEAD, GET, PUT and OPTIONS.
    pub const HTTP_RW: DavMethodSet = DavMethodSet(0x0017);

    /// HEAD, GET, OPTIONS and PROPFIND.
    pub const WEBDAV_RO: DavMethodSet = DavMethodSet(0x0033);

    /// Every method.
    pub const WEBDAV_RW: DavMethodSet = DavMethodSet(0xffff);

    /// Every method.
    pub fn all() -> DavMethodSet
        ensures bits { result ≡ 65535 }
        ensures members { (m : DavMethod) → Has result m }
    {
        DavMethodSet::WEBDAV_RW
    }

    /// No method.
    pub fn none() -> DavMethodSet
        ensures bits { result ≡ 0 }
        ensures members { (m : DavMethod) → ¬ (Has result m) }
    {
        DavMethodSet(0)
    }

    /// Adds a method to the set.
    pub fn add(&mut self, method: DavMethod)
        ensures { (m : DavMethod) → Has self.new m ↔ ((m ≡ method) ⊎ Has self.old m) }
    {
        self.0 |= method.bit();
    }

    /// Takes a method out of the set.
    pub fn remove(&mut self, method: DavMethod)
        ensures { (m : DavMethod) → Has self.new m ↔ ((m ≢ method) × Has self.old m) }
    {
        self.0 &= !method.bit();
    }

    /// Whether the set has the method.
    pub fn contains(&self, method: DavMethod) -> bool
        ensures { IsTrue result ↔ Has self.now method }
    {
        self.0 & method.bit() != 0
    }

    /// The set of the methods that are named, ASCII case ignored. `InvalidMethod` where a text is no method's name.
    pub fn from_vec(names: &[&str]) -> Result<DavMethodSet, InvalidMethod>
        ensures { MatchResult result (IsNamedSet (texts_of names.now))
            (λ _. ¬ (All IsMethodName (texts_of names.now))) }
    {
        let mut set = DavMethodSet::none();
        for name in names {
            let Some(method) = DavMethod::named(name) else {
                return Err(InvalidMethod);
            };
            set.add(method);
        }
        Ok(set)
    }
}

/// A text isn't the name of a method.
#[derive(Clone, Copy, Debug, PartialEq, Eq, Error)]
#[error("InvalidMethod")]
pub struct InvalidMethod;
