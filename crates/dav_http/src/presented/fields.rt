//! The fields that come with a file (RFC 9110, sections 8.3, 14.3 and 14.4).
ghost use Rattle.std.specs.Prelude.{◌≡◌, ◌≤◌, ◌<◌, ◌++◌, ◌∷◌, [], IfOk, IfSome, IsTrue, MatchOption, OnOk, Some, bytes_eq, codes, map, option_map, string_bytes, if◌then◌else◌};
ghost use Rattle.std.specs.List.{filter};
ghost use Rattle.http_header.specs.FieldValue.{IsFieldValue, is_visible_text};
ghost use Rattle.http_server.specs.Response.{IsBlank, IsResponse, fields_of};
ghost use Rattle.dav_engine.specs.Reply.{headers_in};
ghost use Rattle.dav_http.specs.Presented.{HasNoQuery, IsAddressIn, IsNameIn, IsTypeAt, content_fields, fields_by, guards, range_field, with_type};
ghost use Rattle.percent_encoding.specs.Percent.{percent_decode};
ghost use Rattle.dav_http.specs.PresentedParts.{IsRangeText, IsValid};
ghost use Rattle.dav_presented.specs.Types.{acts};
ghost use Rattle.dav_http.specs.Sending.{sent_fields};

use crate::response::is_sent;
use dav_presented::parts::Sent;
use dav_presented::types::{acts, type_of};
use http::StatusCode;
use http_header::{
    ACCEPT_RANGES, CONTENT_RANGE, CONTENT_SECURITY_POLICY, HeaderMap, HeaderValue,
    HeaderValueError, X_CONTENT_TYPE_OPTIONS,
};
use http_server::Response;
use percent_encoding::percent_decode;
use std::alloc::{AllocError, Global};
use std::str;

// The status code of a number that is one.
fn status_code(number: u16) -> StatusCode
    requires { (100 ≤ number) × (number < 1000) }
    ensures { result ≡ number }
{
    match StatusCode::from_u16(number) {
        Ok(status) => status,
        Err(_) => unreachable!(),
    }
}

// What comes before the first question mark of a target, and what after it.
fn split_query(target: &str) -> Option<(&str, &str)>
    ensures { MatchOption result (HasNoQuery target.now)
        (λ p. (target.now ≡ p.0.now ++ 63 ∷ p.1.now) × HasNoQuery p.0.now) }
{
    target.split_once('?')
}

// The address in a target.
fn address_in(target: &str) -> &str
    ensures { IsAddressIn target.now result.now }
{
    match split_query(target) {
        Some((address, _)) => address,
        None => target,
    }
}

// The name in an address, which escapes these bytes.
fn name_in<'a>(address: &'a str, bytes: &'a [u8]) -> &'a str
    requires { bytes.now ≡ percent_decode address.now }
    ensures { IsNameIn address.now result.now }
{
    match str::from_utf8(bytes) {
        Ok(name) => name,
        Err(_) => address,
    }
}

/// The type of the file that a target names, if it has one by its name.
pub fn type_at(alloc: Global, target: &str) -> Result<Option<&'static str>, AllocError>
    ensures is { IfOk result (λ kind. IsTypeAt target.now (option_map (λ t. t.now) kind)) }
    ensures text { IfOk result (λ kind. IfSome kind (λ t. IsTrue (is_visible_text t.now))) }
{
    let address = address_in(target);
    let mut bytes = Vec::new(alloc);
    percent_decode(address.as_bytes()).append_to(&mut bytes)?;
    type_of(alloc, name_in(address, &bytes))
}

// The value of a field, with this type in the place of the one that says nothing.
fn typed_value(
    name: &str,
    value: &HeaderValue,
    kind: Option<&'static str>,
) -> Result<HeaderValue, AllocError>
    requires { IfSome kind (λ t. IsTrue (is_visible_text t.now)) }
    ensures { IfOk result (λ typed. (name.now, typed.bytes)
        ≡ with_type (option_map (λ t. t.now) kind.entry) (name.now, value.now.bytes)) }
{
    match kind {
        Some(kind)
            if name == "content-type"
                && value.as_bytes() == b"application/octet-stream".as_slice() => {
            Ok(HeaderValue::from_static(kind))
        }
        _ => value.clone(),
    }
}

// Adds the fields of a file that are sent, with its type.
fn add_typed(
    headers: &HeaderMap,
    is_head: bool,
    kind: Option<&'static str>,
    response: &mut Response,
) -> Result<(), AllocError>
    requires { IfSome kind (λ t. IsTrue (is_visible_text t.now)) }
    ensures fields { OnOk result (fields_of response.new ≡ fields_of response.old
        ++ map (with_type (option_map (λ t. t.now) kind.entry))
        (sent_fields is_head (headers_in headers.now))) }
    ensures status { OnOk result (response.new.status ≡ response.old.status) }
    ensures body { OnOk result (response.new.body ≡ response.old.body) }
{
    for (name, value) in headers.iter() {
        if is_sent(is_head, name.as_str()) {
            let typed = typed_value(name.as_str(), value, kind)?;
            response.add_header(name.clone()?, typed)?;
        }
    }
    Ok(())
}

// Adds the field by which a browser runs nothing in a file, where its type is one that acts.
fn add_sandbox(kind: &str, response: &mut Response) -> Result<(), AllocError>
    ensures fields { OnOk result (fields_of response.new ≡ fields_of response.old
        ++ (if acts kind.now then (codes "content-security-policy", codes "sandbox") ∷ []
        else [])) }
    ensures status { OnOk result (response.new.status ≡ response.old.status) }
    ensures body { OnOk result (response.new.body ≡ response.old.body) }
{
    if acts(kind) {
        let sandbox = HeaderValue::from_static("sandbox");
        return response.add_header(CONTENT_SECURITY_POLICY, sandbox);
    }
    Ok(())
}

// Adds the fields by which a browser takes a file for what its type says, and runs nothing in it.
fn add_guards(kind: Option<&'static str>, response: &mut Response) -> Result<(), AllocError>
    ensures fields { OnOk result (fields_of response.new ≡ fields_of response.old
        ++ guards (option_map (λ t. t.now) kind.entry)) }
    ensures status { OnOk result (response.new.status ≡ response.old.status) }
    ensures body { OnOk result (response.new.body ≡ response.old.body) }
{
    let Some(kind) = kind else {
        return Ok(());
    };
    response.add_header(X_CONTENT_TYPE_OPTIONS, HeaderValue::from_static("nosniff"))?;
    add_sandbox(kind, response)
}

// Adds the fields that come with a file or a part of it.
fn add_content_fields(
    headers: &HeaderMap,
    is_head: bool,
    kind: Option<&'static str>,
    response: &mut Response,
) -> Result<(), AllocError>
    requires { IfSome kind (λ t. IsTrue (is_visible_text t.now)) }
    ensures fields { OnOk result (fields_of response.new ≡ fields_of response.old
        ++ content_fields is_head (option_map (λ t. t.now) kind.entry) (headers_in headers.now)) }
    ensures status { OnOk result (response.new.status ≡ response.old.status) }
    ensures body { OnOk result (response.new.body ≡ response.old.body) }
{
    add_typed(headers, is_head, kind, response)?;
    response.add_header(ACCEPT_RANGES, HeaderValue::from_static("bytes"))?;
    add_guards(kind, response)
}

// Adds the tag of a file.
fn add_tag(headers: &HeaderMap, response: &mut Response) -> Result<(), AllocError>
    ensures fields { OnOk result (fields_of response.new ≡ fields_of response.old
        ++ filter (λ h. bytes_eq h.0 (codes "etag")) (headers_in headers.now)) }
    ensures status { OnOk result (response.new.status ≡ response.old.status) }
    ensures body { OnOk result (response.new.body ≡ response.old.body) }
{
    for (name, value) in headers.iter() {
        if name.as_str() == "etag" {
            response.add_header(name.clone()?, value.clone()?)?;
        }
    }
    Ok(())
}

// Adds the fields of a reply about a file that are sent with this status.
fn add_file_fields(
    headers: &HeaderMap,
    status: u16,
    is_head: bool,
    kind: Option<&'static str>,
    response: &mut Response,
) -> Result<(), AllocError>
    requires { IfSome kind (λ t. IsTrue (is_visible_text t.now)) }
    ensures fields { OnOk result (fields_of response.new ≡ fields_of response.old
        ++ fields_by status is_head (option_map (λ t. t.now) kind.entry) (headers_in headers.now)) }
    ensures status { OnOk result (response.new.status ≡ response.old.status) }
    ensures body { OnOk result (response.new.body ≡ response.old.body) }
{
    if status == 200 || status == 206 {
        return add_content_fields(headers, is_head, kind, response);
    }
    if status == 304 {
        return add_tag(headers, response);
    }
    Ok(())
}

// A text as the value of a field.
fn value_of(alloc: Global, text: &str) -> Result<HeaderValue, AllocError>
    requires { IsFieldValue text.now }
    ensures { IfOk result (λ value. value.bytes ≡ text.now) }
{
    match HeaderValue::from_bytes(alloc, text.as_bytes()) {
        Ok(value) => Ok(value),
        Err(HeaderValueError::OutOfMemory) => Err(AllocError),
        Err(HeaderValueError::Invalid) => unreachable!(),
    }
}

// Adds Content-Range, where there is one.
fn add_range(alloc: Global, text: Option<String>, response: &mut Response) -> Result<(), AllocError>
    requires { IsRangeText (option_map string_bytes text) }
    ensures fields { OnOk result (fields_of response.new ≡ fields_of response.old
        ++ range_field (option_map string_bytes text)) }
    ensures status { OnOk result (response.new.status ≡ response.old.status) }
    ensures body { OnOk result (response.new.body ≡ response.old.body) }
{
    match text {
        Some(text) => response.add_header(CONTENT_RANGE, value_of(alloc, text.as_str())?),
        None => Ok(()),
    }
}

/// Fills a response with what is sent of a file, with the fields of the reply and its type.
pub fn fill(
    alloc: Global,
    headers: &HeaderMap,
    is_head: bool,
    kind: Option<&'static str>,
    sent: Sent,
    response: &mut Response,
) -> Result<(), AllocError>
    requires blank { IsBlank response.old }
    requires text { IfSome kind (λ t. IsTrue (is_visible_text t.now)) }
    requires valid { IsValid sent.status (option_map string_bytes sent.content_range) }
    ensures { OnOk result (IsResponse sent.status
        (fields_by sent.status is_head (option_map (λ t. t.now) kind.entry)
        (headers_in headers.now) ++ range_field (option_map string_bytes sent.content_range))
        sent.body response.new) }
{
    let Sent {
        status,
        content_range,
        body,
    } = sent;
    add_file_fields(headers, status, is_head, kind, response)?;
    add_range(alloc, content_range, response)?;
    response.status = status_code(status);
    Ok(response.body.push(body)?)
}
