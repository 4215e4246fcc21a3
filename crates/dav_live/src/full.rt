//! What a response says where there is no room for what a request adds (RFC 4331, section 6; RFC 4918, section 16).
ghost use Rattle.std.specs.Prelude.{OnOk, codes};
ghost use Rattle.http_server.specs.Response.{IsBlank, IsResponse};
ghost use Rattle.dav_live.specs.Full.{IsFull, error_fields, error_text};

use bytes::Bytes;
use http::{HeaderValue, StatusCode};
use http_header::CONTENT_TYPE;
use http_server::Response;
use std::alloc::AllocError;

// Fills a response of 507 with this error.
fn fill_error(text: &'static [u8], response: &mut Response) -> Result<(), AllocError>
    requires { IsBlank response.old }
    ensures { OnOk result (IsResponse 507 error_fields text.now response.new) }
{
    response.status = StatusCode::INSUFFICIENT_STORAGE;
    response.body.push(Bytes::from_static(text))?;
    let kind = HeaderValue::from_static("application/xml; charset=utf-8");
    response.add_header(CONTENT_TYPE, kind)
}

/// Fills the response to a request that would pass a limit: 507, `quota-not-exceeded`.
pub fn fill_past(response: &mut Response) -> Result<(), AllocError>
    requires { IsBlank response.old }
    ensures { OnOk result
        (IsResponse 507 error_fields (error_text (codes "quota-not-exceeded")) response.new) }
{
    let text =
        b"<?xml version='1.0' encoding='utf-8'?>\n<D:error xmlns:D='DAV:'><D:quota-not-exceeded/></D:error>\n";
    fill_error(text, response)
}

/// Fills the response to a request for which there is no room: 507, `sufficient-disk-space`.
pub fn fill_full(response: &mut Response) -> Result<(), AllocError>
    requires { IsBlank response.old }
    ensures { OnOk result (IsFull response.new) }
{
    let text =
        b"<?xml version='1.0' encoding='utf-8'?>\n<D:error xmlns:D='DAV:'><D:sufficient-disk-space/></D:error>\n";
    fill_error(text, response)
}
