//! The fields of a head as a map of headers.
ghost use Rattle.std.specs.Prelude.{◌≡◌, ◌≤◌, length, map, IfOk, OnOk};
ghost use Rattle.http_header.specs.FieldName.{IsFieldName};
ghost use Rattle.http_header.specs.FieldValue.{IsFieldValue, plain_value};
ghost use Rattle.http_header.specs.HeaderMap.{append, RefusesAppend};
ghost use Rattle.http_header.specs.Token.{lowercase};
ghost use Rattle.httparse.specs.Spans.{header_bytes};
ghost use Rattle.dav_server.specs.Headers.{headers_of};
ghost use Rattle.dav_server.specs.HeadInside.{AreHeadersOf};

use super::RequestView;
use dav_core::errors::NoMemory;
use http_header::{
    HeaderMap, HeaderMapError, HeaderName, HeaderNameError, HeaderValue, HeaderValueError,
};
use httparse::spans::HeaderSpan;
use std::alloc::Global;

/// The fields of a head, each value after the others of its name (RFC 9110, section 5.3), with the names in lower case.
pub fn headers_of(alloc: Global, view: &RequestView<'_>) -> Result<HeaderMap, NoMemory>
    ensures { IfOk result (λ headers. headers ≡ headers_of view.now.fields) }
{
    collect(alloc, view.head, &view.headers[..view.count])
}

// The headers of a head.
fn collect(alloc: Global, head: &[u8], spans: &[HeaderSpan]) -> Result<HeaderMap, NoMemory>
    requires headers { AreHeadersOf head.now spans.now }
    requires few { length spans.now ≤ 64 }
    ensures { IfOk result (λ headers. headers
        ≡ headers_of (map (header_bytes head.now) spans.now)) }
{
    let mut headers = HeaderMap::new(alloc);
    for span in spans {
        let name = name_of(alloc, span.name.of(head))?;
        let value = value_of(alloc, span.value.of(head))?;
        append(&mut headers, name, value)?;
    }
    Ok(headers)
}

// The name of a field, in lower case.
fn name_of(alloc: Global, name: &[u8]) -> Result<HeaderName, NoMemory>
    requires { IsFieldName name.now }
    ensures { IfOk result (λ n. n ≡ lowercase name.now) }
{
    match HeaderName::from_bytes(alloc, name) {
        Ok(name) => Ok(name),
        Err(HeaderNameError::OutOfMemory) => Err(NoMemory),
        Err(HeaderNameError::Invalid) => unreachable!(),
    }
}

// The value of a field.
fn value_of(alloc: Global, value: &[u8]) -> Result<HeaderValue, NoMemory>
    requires { IsFieldValue value.now }
    ensures { IfOk result (λ v. v ≡ plain_value value.now) }
{
    match HeaderValue::from_bytes(alloc, value) {
        Ok(value) => Ok(value),
        Err(HeaderValueError::OutOfMemory) => Err(NoMemory),
        Err(HeaderValueError::Invalid) => unreachable!(),
    }
}

// Adds a value after the others of its name, where there is room for it.
fn append(headers: &mut HeaderMap, name: HeaderName, value: HeaderValue) -> Result<(), NoMemory>
    requires { ¬ RefusesAppend headers.old name }
    ensures { OnOk result (headers.new ≡ append headers.old name value) }
{
    match headers.append(name, value) {
        Ok(_) => Ok(()),
        Err(HeaderMapError::OutOfMemory) => Err(NoMemory),
        Err(HeaderMapError::MaxSizeReached) => unreachable!(),
    }
}
