//! How far below its path a request reaches (RFC 4918, section 10.2).
ghost use Rattle.std.specs.Prelude.{◌≡◌, codes, IfOk};
ghost use Rattle.http_header.specs.HeaderMap.{get_all};
ghost use Rattle.dav_headers.specs.Depth.{IsDepth};
ghost use Rattle.dav_engine.specs.Delete as spec;
ghost use Rattle.dav_engine.specs.Follows.{viewed};
ghost use Rattle.dav_engine.specs.Headers.{Decodes};
ghost use Rattle.dav_engine.specs.Reach.{reaches_below};
ghost use Rattle.dav_engine.specs.Walked.{goes_below};

use crate::headers::{absent_if_invalid, values_of};
use dav_core::errors::{DavError, DavResult, NoMemory};
use dav_headers::{Depth, names};
use http::StatusCode;
use http_header::HeaderMap;
use std::alloc::Global;

/// What of a path a request is for (RFC 4918, section 10.2).
#[derive(Clone, Copy, Debug)]
pub enum Reach {
    /// The path alone.
    Alone,
    /// It, and everything below it.
    WithAllBelow,
}

impl Reach {
    /// Whether everything below the path belongs to it.
    pub fn reaches_below(self) -> bool
        ensures { result ≡ reaches_below self }
    {
        matches!(self, Reach::WithAllBelow)
    }
}

// What the header Depth says.
pub(crate) fn depth_in(alloc: Global, headers: &HeaderMap) -> Result<Option<Depth>, NoMemory>
    ensures { IfOk result (λ depth. Decodes IsDepth (get_all headers.now (codes "depth")) depth) }
{
    let values = values_of(alloc, headers, names::DEPTH())?;
    absent_if_invalid(Depth::decode(alloc, &values))
}

// What a request with this Depth removes, copies or locks; the error for Depth 1.
pub(crate) fn whole_depth(depth: Option<Depth>) -> DavResult<Reach>
    ensures { viewed reaches_below result ≡ spec.whole_depth depth }
{
    match depth {
        None => Ok(Reach::WithAllBelow),
        Some(Depth::Default) => Ok(Reach::WithAllBelow),
        Some(Depth::Zero) => Ok(Reach::Alone),
        Some(Depth::One) => Err(DavError::Status(StatusCode::BAD_REQUEST)),
        Some(Depth::Infinity) => Ok(Reach::WithAllBelow),
    }
}

// What a removal or a copy at this depth takes: at any depth but 0 what is below a folder too.
pub(crate) fn reach_at(depth: Depth) -> Reach
    ensures { reaches_below result ≡ goes_below depth }
{
    match depth {
        Depth::Zero => Reach::Alone,
        Depth::Default | Depth::One | Depth::Infinity => Reach::WithAllBelow,
    }
}
