//! What the headers of a PROPFIND say (RFC 4918, sections 9.1 and 10.2).
ghost use Rattle.std.specs.Prelude.{◌≡◌, codes, IfOk};
ghost use Rattle.std.specs.Option.{is_some};
ghost use Rattle.http_header.specs.HeaderMap.{get_all};
ghost use Rattle.dav_headers.specs.Value.{only_text};
ghost use Rattle.dav_engine.specs.Propfind as spec;
ghost use Rattle.dav_engine.specs.Reach.{reaches_below};

use crate::depth::{Reach, depth_in};
use crate::headers::{absent_if_invalid, values_of};
use dav_core::errors::NoMemory;
use dav_headers::{Depth, XLitmus, names};
use http_header::HeaderMap;
use std::alloc::Global;
use std::marker::Model;

/// What the headers say.
#[derive(Drop)]
pub struct FindHeaders {
    /// How far below its path the request applies.
    pub depth: Option<Depth>,
    /// Whether it tests servers.
    pub is_test: bool,
}

impl Model for FindHeaders {
    ghost use Rattle.dav_engine.specs.Propfind as said;

    ghost Value = { said.FindHeaders };

    ghost use Rattle.dav_engine.specs.FindView.{find_headers_of};

    ghost view = { find_headers_of };
}

// Whether a request tests servers: it has one X-Litmus, which is text.
fn is_test(alloc: Global, headers: &HeaderMap) -> Result<bool, NoMemory>
    ensures { IfOk result (λ test. test
        ≡ is_some (only_text (get_all headers.now (codes "x-litmus")))) }
{
    let values = values_of(alloc, headers, names::X_LITMUS())?;
    let test = absent_if_invalid(XLitmus::decode(alloc, &values))?;
    Ok(test.is_some())
}

impl FindHeaders {
    /// What these headers say; a header that doesn't decode counts as absent.
    pub fn decode(alloc: Global, headers: &HeaderMap) -> Result<FindHeaders, NoMemory>
        ensures { IfOk result (λ h. spec.AreFindHeaders headers.now h) }
    {
        Ok(FindHeaders {
            depth: depth_in(alloc, headers)?,
            is_test: is_test(alloc, headers)?,
        })
    }

    /// Whether the depth has a limit, or needs none.
    pub fn is_served(&self) -> bool
        ensures { result ≡ spec.is_served_depth self.now }
    {
        !(self.is_infinite() && !self.is_test)
    }

    // Whether the depth has no limit.
    fn is_infinite(&self) -> bool
        ensures { result ≡ spec.is_infinite self.now.depth }
    {
        matches!(self.depth, Some(Depth::Infinity))
    }

    /// Whether the resource itself is told of: without a depth only its members are.
    pub fn tells_itself(&self) -> bool
        ensures { result ≡ spec.tells_itself self.now.depth }
    {
        self.depth.is_some()
    }

    /// Whether each member is told of alone, or with everything below it.
    pub fn member_reach(&self) -> Reach
        ensures { reaches_below result ≡ spec.is_infinite self.now.depth }
    {
        if self.is_infinite() {
            Reach::WithAllBelow
        } else {
            Reach::Alone
        }
    }

    /// Whether its members are told of.
    pub fn tells_members(&self) -> bool
        ensures { result ≡ spec.tells_members self.now.depth }
    {
        !matches!(self.depth, Some(Depth::Zero))
    }
}
