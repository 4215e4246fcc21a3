//! What the headers of a COPY or MOVE say (RFC 4918, sections 9.8, 9.9, 10.2, 10.3 and 10.6).
ghost use Rattle.std.specs.Prelude.{◌≡◌, ◌≢◌, codes, option_map, string_bytes, IfOk, IfErr, Err};
ghost use Rattle.http_header.specs.HeaderMap.{get_all};
ghost use Rattle.dav_core.specs.declared.errors.ParseError.TheVariants as parse;
ghost use Rattle.dav_core.specs.Status.{path_error};
ghost use Rattle.dav_headers.specs.Destination.{IsDestination};
ghost use Rattle.dav_headers.specs.Overwrite.{IsOverwrite};
ghost use Rattle.dav_engine.specs.Headers.{Decodes};
ghost use Rattle.dav_engine.specs.CopyMove as spec;
ghost use Rattle.dav_engine.specs.CopyView.{NamesBelow, NamesNoneBelow};

use crate::conditions::Conditions;
use crate::depth::depth_in;
use crate::headers::{absent_if_invalid, values_of};
use crate::request::DavRequest;
use dav_core::davpath::DavPath;
use dav_core::errors::{DavError, DavResult, NoMemory, ParseError};
use dav_headers::{Depth, Destination, Overwrite, names};
use http::StatusCode;
use http_header::HeaderMap;
use std::alloc::Global;
use std::marker::Model;

/// What the headers say.
#[derive(Drop)]
pub struct CopyHeaders {
    pub conditions: Conditions,
    pub depth: Option<Depth>,
    pub overwrite: Option<bool>,
    /// Where the copy goes, or the error that answers the request.
    pub destination: DavResult<DavPath>,
}

impl Model for CopyHeaders {
    ghost use Rattle.dav_engine.specs.CopyMove as said;

    ghost Value = { said.CopyHeaders };

    ghost use Rattle.dav_engine.specs.CopyView.{copy_headers_of};

    ghost view = { copy_headers_of };
}

// Whether what is at the destination may be overwritten.
fn overwrite_in(alloc: Global, headers: &HeaderMap) -> Result<Option<bool>, NoMemory>
    ensures { IfOk result (λ overwrite.
        Decodes IsOverwrite (get_all headers.now (codes "overwrite")) overwrite) }
{
    let values = values_of(alloc, headers, names::OVERWRITE())?;
    match absent_if_invalid(Overwrite::decode(alloc, &values))? {
        Some(overwrite) => Ok(Some(overwrite.0)),
        None => Ok(None),
    }
}

// The path that a text names below a prefix.
fn path_below(alloc: Global, text: &str, prefix: &str) -> Result<DavPath, ParseError>
    ensures ok { IfOk result (NamesBelow prefix.now text.now) }
    ensures err { IfErr result (NamesNoneBelow prefix.now text.now) }
{
    let mut path = DavPath::new(alloc, text)?;
    path.set_prefix(prefix)?;
    Ok(path)
}

// The error that answers a request whose Destination names no path.
fn no_destination(error: ParseError) -> Result<DavResult<DavPath>, NoMemory>
    ensures { IfOk result (λ d. (d ≡ Err (path_error error)) × (error ≢ parse.Memory)) }
{
    match error {
        ParseError::Memory => Err(NoMemory),
        other => Ok(Err(DavError::from(other))),
    }
}

// The path in Destination, as it is written.
fn destination_text(alloc: Global, headers: &HeaderMap) -> Result<Option<Destination>, NoMemory>
    ensures { IfOk result (λ text. Decodes IsDestination
        (get_all headers.now (codes "destination"))
        (option_map (λ d. string_bytes d.0) text)) }
{
    let values = values_of(alloc, headers, names::DESTINATION())?;
    absent_if_invalid(Destination::decode(alloc, &values))
}

/// Where a COPY or MOVE with the headers of this request goes, or the error that answers it (RFC 4918, section 10.3).
pub fn destination_in(alloc: Global, request: &DavRequest) -> Result<DavResult<DavPath>, NoMemory>
    ensures { IfOk result (λ d. spec.DestinationNames request.now.path.prefix
        (get_all request.now.headers (codes "destination")) d) }
{
    let Some(destination) = destination_text(alloc, &request.headers)? else {
        return Ok(Err(DavError::Status(StatusCode::BAD_REQUEST)));
    };
    match path_below(alloc, &destination.0, request.path.prefix()) {
        Ok(path) => Ok(Ok(path)),
        Err(error) => no_destination(error),
    }
}

impl CopyHeaders {
    /// What the headers of a request say of its path; a header that doesn't decode counts as absent.
    pub fn decode(alloc: Global, request: &DavRequest) -> Result<CopyHeaders, NoMemory>
        ensures { IfOk result (λ h. spec.AreCopyHeaders request.now.headers request.now.path h) }
    {
        let headers = &request.headers;
        Ok(CopyHeaders {
            conditions: Conditions::decode(alloc, request, &request.path)?,
            depth: depth_in(alloc, headers)?,
            overwrite: overwrite_in(alloc, headers)?,
            destination: destination_in(alloc, request)?,
        })
    }
}
