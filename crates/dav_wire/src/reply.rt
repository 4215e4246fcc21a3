//! Responses as bytes.
ghost use Rattle.std.specs.Prelude.{◌≡◌, ◌≢◌, ◌⊎◌, ◌^◌, ◌<◌, [], ◌++◌, None, Some, length, IfOk, IfErr, OnOk, if◌then◌else◌};
ghost use Rattle.http1.specs.Conn.{data_text, after_data, finish_text};
ghost use Rattle.http1.specs.Head.{pairs};
ghost use Rattle.http1.specs.Server.{response_refusal, planned_response, after_response, writing, with_writing, after_end};
ghost use Rattle.http1_typed.specs.Parts.{reason_of};
ghost use Rattle.http_server.specs.Encoding.{size_of};
ghost use Rattle.http_server.specs.Response.{fields, fields_of};
ghost use Rattle.dav_wire.specs.Place.{rest_text, after_rest};

use bytes::BufMut;
use http::{HeaderName, HeaderValue, StatusCode};
use http_server::{Response, Rope};
use http1::{BodySize, Header, Server, WriteError};
use std::alloc::{AllocError, Global};

// The fields as the connection writes them.
fn list_of<'a>(
    alloc: Global,
    headers: &'a [(HeaderName, HeaderValue)],
) -> Result<Vec<Header<'a>>, AllocError>
    ensures { IfOk result (λ list. pairs list.items ≡ fields headers.now) }
{
    let mut list = Vec::new(alloc);
    for header in headers {
        list.push(Header {
            name: header.0.as_bytes(),
            value: header.1.as_bytes(),
        })?;
    }
    Ok(list)
}

// The size of a body, as the head states it: for HEAD an empty body states none.
fn size_of(response: &Response) -> BodySize
    ensures value { result ≡ size_of response.now }
    ensures short { length response.now.body.items < 2 ^ 64 }
{
    match response.body.len() {
        0 => BodySize::Empty,
        len => BodySize::Known(len as u64),
    }
}

// The phrase of a status (RFC 9110, section 15).
fn phrase_of(status: StatusCode) -> &'static [u8]
    ensures { result.now ≡ reason_of status }
{
    status.canonical_reason().unwrap_or("").as_bytes()
}

/// Writes the head of a response. Where it is refused nothing is written.
pub(crate) fn write_head(
    alloc: Global,
    server: &mut Server,
    output: &mut Rope,
    response: &Response,
) -> Result<(), WriteError>
    ensures sendable { OnOk result (response_refusal server.old response.now.status
        (reason_of response.now.status) (size_of response.now) (fields_of response.now) ≡ None) }
    ensures text { OnOk result (output.new.items ≡ output.old.items
        ++ planned_response server.old response.now.status (reason_of response.now.status)
        (size_of response.now) (fields_of response.now)) }
    ensures next { OnOk result (server.new
        ≡ after_response server.old response.now.status (size_of response.now)
        (fields_of response.now)) }
    ensures short { OnOk result (length response.now.body.items < 2 ^ 64) }
    ensures refused { IfErr result (λ e. e ≢ WriteError.OutOfMemory
        → (response_refusal server.old response.now.status (reason_of response.now.status)
        (size_of response.now) (fields_of response.now) ≡ Some e)
        × (output.new.items ≡ output.old.items)) }
{
    let fields = list_of(alloc, &response.headers)?;
    let phrase = phrase_of(response.status);
    let size = size_of(response);
    server.write_response(output, response.status.as_u16(), phrase, &fields, size)
}

/// Writes the body, which HEAD gets none of, and the end.
pub(crate) fn write_rest(
    server: &mut Server,
    output: &mut Rope,
    body: &mut Rope,
    is_head: bool,
) -> Result<(), WriteError>
    ensures text { OnOk result (output.new.items ≡ output.old.items
        ++ rest_text is_head (writing server.old) body.old.items) }
    ensures next { OnOk result (server.new
        ≡ after_rest is_head server.old (length body.old.items)) }
{
    if !is_head {
        write_body(server, output, body)?;
    }
    server.write_end(output, &[])
}

// Writes the body, in the framing that the head states.
fn write_body(server: &mut Server, output: &mut Rope, body: &mut Rope) -> Result<(), WriteError>
    ensures text { OnOk result (output.new.items
        ≡ output.old.items ++ data_text (writing server.old) body.old.items) }
    ensures next { OnOk result (server.new
        ≡ with_writing server.old (after_data (writing server.old) (length body.old.items))) }
{
    let frame = server.frame_data(body.len())?;
    output.put_slice(frame.prefix())?;
    output.append(body)?;
    Ok(output.put_slice(frame.suffix())?)
}
