//! Replies as a connection sends them.
ghost use Rattle.std.specs.Prelude.{◌≡◌, ◌||◌, ◌++◌, not, IfOk, OnOk, bytes_eq, codes};
ghost use Rattle.http_server.specs.Response.{IsBlank, fields_of};
ghost use Rattle.dav_engine.specs.Reply.{headers_in};
ghost use Rattle.dav_http.specs.Sending.{IsSentAs, is_sent, sent_fields};
ghost use Rattle.dav_http.specs.Steps.{sent_bytes};

use bytes::Bytes;
use dav_engine::{Reply, ReplyBody};
use dav_xml::write;
use http_header::HeaderMap;
use http_server::Response;
use std::alloc::{AllocError, Global};

// The body of a reply: an element tree is sent as XML.
pub(crate) fn body_of(alloc: Global, body: ReplyBody) -> Result<Bytes, AllocError>
    ensures { IfOk result (λ sent. sent ≡ sent_bytes body) }
{
    match body {
        ReplyBody::Nothing => Ok(Bytes::from_static(b"")),
        ReplyBody::Bytes(bytes) => Ok(bytes),
        ReplyBody::Tree(element) => {
            let text = write(alloc, &element)?;
            Bytes::copy_from_slice(alloc, &text)
        }
    }
}

// Whether a field with this name is sent.
pub(crate) fn is_sent(is_head: bool, name: &str) -> bool
    ensures { result ≡ is_sent is_head name.now }
{
    is_head || name != "content-length"
}

// Adds the fields of a reply that are sent.
pub(crate) fn add_fields(
    fields: &HeaderMap,
    is_head: bool,
    response: &mut Response,
) -> Result<(), AllocError>
    ensures fields { OnOk result (fields_of response.new
        ≡ fields_of response.old ++ sent_fields is_head (headers_in fields.now)) }
    ensures status { OnOk result (response.new.status ≡ response.old.status) }
    ensures body { OnOk result (response.new.body ≡ response.old.body) }
{
    for (name, value) in fields.iter() {
        if is_sent(is_head, name.as_str()) {
            response.add_header(name.clone()?, value.clone()?)?;
        }
    }
    Ok(())
}

/// Fills a response with a reply: its status, its fields, but for Content-Length, of which the connection tells where the request
/// isn't a HEAD, and its body, an element tree as XML (RFC 9110, sections 6 and 8.6; RFC 4918, section 8.2).
pub fn send(
    alloc: Global,
    reply: Reply,
    is_head: bool,
    response: &mut Response,
) -> Result<(), AllocError>
    requires { IsBlank response.old }
    ensures { OnOk result (IsSentAs is_head reply response.new) }
{
    let Reply {
        status,
        headers,
        body,
    } = reply;
    add_fields(&headers, is_head, response)?;
    response.status = status;
    response.body.push(body_of(alloc, body)?)?;
    Ok(())
}
