//! What a response says in words that refuses, where it has no body of its own.
ghost use Rattle.std.specs.Prelude.{◌≡◌, ◌∷◌, ◌++◌, [], OnOk, codes};
ghost use Rattle.http_server.specs.Response.{fields_of};
ghost use Rattle.dav_wire.specs.Explained.{text_fields};
ghost use Rattle.dav_live.specs.Words.{IsExplained, has_content_field, is_of_content};

use bytes::Bytes;
use dav_wire::explanation;
use http::{HeaderName, HeaderValue};
use http_header::CONTENT_TYPE;
use http_server::Response;
use std::alloc::AllocError;

// Whether a field tells of the content (RFC 9110, sections 8.3 and 8.6).
fn is_of_content(name: &str) -> bool
    ensures { result ≡ is_of_content name.now }
{
    name == "content-length" || name == "content-type"
}

// Whether one of these fields tells of the content.
fn has_content_field(headers: &[(HeaderName, HeaderValue)]) -> bool
    ensures { result ≡ has_content_field headers.now }
{
    for header in headers {
        if is_of_content(header.0.as_str()) {
            return true;
        }
    }
    false
}

// Adds a line of text as the body of a response.
fn fill_text(text: &'static [u8], response: &mut Response) -> Result<(), AllocError>
    requires { response.old.body.items ≡ [] }
    ensures fields { OnOk result (fields_of response.new ≡ fields_of response.old
        ++ (codes "content-type", codes "text/plain; charset=utf-8") ∷ []) }
    ensures status { OnOk result (response.new.status ≡ response.old.status) }
    ensures body { OnOk result (response.new.body.items ≡ text.now) }
{
    response.body.push(Bytes::from_static(text))?;
    let kind = HeaderValue::from_static("text/plain; charset=utf-8");
    response.add_header(CONTENT_TYPE, kind)
}

// Fills the body of a response that has none with these words, if there are any.
fn fill_words(words: &'static [u8], response: &mut Response) -> Result<(), AllocError>
    requires { response.old.body.items ≡ [] }
    ensures fields { OnOk result (fields_of response.new
        ≡ fields_of response.old ++ text_fields words.now) }
    ensures status { OnOk result (response.new.status ≡ response.old.status) }
    ensures body { OnOk result (response.new.body.items ≡ words.now) }
{
    if words.is_empty() {
        return Ok(());
    }
    fill_text(words, response)
}

/// Adds what the status of a response means, in words, where there are words for it and the response tells of no content of its own.
pub fn explain(response: &mut Response) -> Result<(), AllocError>
    ensures { OnOk result (IsExplained response.old response.new) }
{
    if response.body.len() > 0 || has_content_field(&response.headers) {
        return Ok(());
    }
    fill_words(explanation(response.status.as_u16()), response)
}

/// How long the body of a response is, with the words that are added to it.
pub fn len_told(response: &Response) -> usize {
    match response.body.len() {
        0 if !has_content_field(&response.headers) => {
            explanation(response.status.as_u16()).len()
        }
        len => len,
    }
}
