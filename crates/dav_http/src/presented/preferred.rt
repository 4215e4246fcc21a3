//! What a PROPFIND says of how much it wants to be told (RFC 7240; RFC 8144, section 2).
ghost use Rattle.std.specs.Prelude.{◌≡◌, [], IfOk, IsTrue, codes};
ghost use Rattle.http_header.specs.HeaderMap.{get_all};
ghost use Rattle.dav_presented.specs.Preferences.{prefers_minimal};
ghost use Rattle.dav_server.specs.Head.{values_of};
ghost use Rattle.dav_server.specs.Headers.{headers_of};
ghost use Rattle.dav_http.specs.Presented.{leaves_out};

use crate::head::Head;
use dav_core::errors::NoMemory;
use dav_engine::headers::values_of;
use dav_presented::preferences::{leaves_out_missing, prefers_minimal};
use dav_server::head::headers_of;
use http_header::{HeaderMap, HeaderName};
use std::alloc::Global;

/// How much a request wants to be told.
#[derive(Clone, Copy)]
pub struct Preferred {
    /// Whether its Prefer asks for a minimal reply (RFC 7240, section 4.2).
    pub is_minimal: bool,
    /// Whether it isn't told of what isn't there.
    pub leaves_out: bool,
}

// Whether a request says nothing of it.
fn says_nothing(head: &Head<'_>) -> bool
    ensures { IsTrue result → (values_of (codes "prefer") head.now.fields ≡ [])
        × (values_of (codes "brief") head.now.fields ≡ []) }
{
    head.lacks("prefer") && head.lacks("brief")
}

// The fields of a request; none of them where it says nothing.
fn fields_of(alloc: Global, head: &Head<'_>) -> Result<HeaderMap, NoMemory>
    ensures { IfOk result (λ headers.
        (get_all headers (codes "prefer")
        ≡ get_all (headers_of head.now.fields) (codes "prefer"))
        × (get_all headers (codes "brief")
        ≡ get_all (headers_of head.now.fields) (codes "brief"))) }
{
    if says_nothing(head) {
        return Ok(HeaderMap::new(alloc));
    }
    headers_of(alloc, head.view())
}

/// How much a request with this head wants to be told. `Err` where there is no memory.
pub fn preferred_in(alloc: Global, head: &Head<'_>) -> Result<Preferred, NoMemory>
    ensures minimal { IfOk result (λ p. p.is_minimal
        ≡ prefers_minimal (get_all (headers_of head.now.fields) (codes "prefer"))) }
    ensures leaves_out { IfOk result (λ p. p.leaves_out ≡ leaves_out head.now) }
{
    let headers = fields_of(alloc, head)?;
    let prefer = values_of(alloc, &headers, HeaderName::from_static("prefer"))?;
    let brief = values_of(alloc, &headers, HeaderName::from_static("brief"))?;
    Ok(Preferred {
        is_minimal: prefers_minimal(&prefer),
        leaves_out: leaves_out_missing(&prefer, &brief),
    })
}
