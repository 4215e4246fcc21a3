//! The names of the headers.
ghost use Rattle.std.specs.Prelude.{◌≡◌, codes};

use http_header::HeaderName;

/// Content-Language (RFC 9110, section 8.5).
#[allow(non_snake_case)]
pub fn CONTENT_LANGUAGE() -> HeaderName
    ensures { result ≡ codes "content-language" }
{
    http_header::CONTENT_LANGUAGE
}

/// Content-Length (RFC 9110, section 8.6).
#[allow(non_snake_case)]
pub fn CONTENT_LENGTH() -> HeaderName
    ensures { result ≡ codes "content-length" }
{
    http_header::CONTENT_LENGTH
}

/// Content-Location (RFC 9110, section 8.7).
#[allow(non_snake_case)]
pub fn CONTENT_LOCATION() -> HeaderName
    ensures { result ≡ codes "content-location" }
{
    http_header::CONTENT_LOCATION
}

/// Content-Range (RFC 9110, section 14.4).
#[allow(non_snake_case)]
pub fn CONTENT_RANGE() -> HeaderName
    ensures { result ≡ codes "content-range" }
{
    http_header::CONTENT_RANGE
}

/// Content-Type (RFC 9110, section 8.3).
#[allow(non_snake_case)]
pub fn CONTENT_TYPE() -> HeaderName
    ensures { result ≡ codes "content-type" }
{
    http_header::CONTENT_TYPE
}

/// Depth (RFC 4918, section 10.2).
#[allow(non_snake_case)]
pub fn DEPTH() -> HeaderName
    ensures { result ≡ codes "depth" }
{
    HeaderName::from_static("depth")
}

/// Destination (RFC 4918, section 10.3).
#[allow(non_snake_case)]
pub fn DESTINATION() -> HeaderName
    ensures { result ≡ codes "destination" }
{
    HeaderName::from_static("destination")
}

/// ETag (RFC 9110, section 8.8.3).
#[allow(non_snake_case)]
pub fn ETAG() -> HeaderName
    ensures { result ≡ codes "etag" }
{
    http_header::ETAG
}

/// If (RFC 4918, section 10.4).
#[allow(non_snake_case)]
pub fn IF() -> HeaderName
    ensures { result ≡ codes "if" }
{
    HeaderName::from_static("if")
}

/// If-Match (RFC 9110, section 13.1.1).
#[allow(non_snake_case)]
pub fn IF_MATCH() -> HeaderName
    ensures { result ≡ codes "if-match" }
{
    http_header::IF_MATCH
}

/// If-None-Match (RFC 9110, section 13.1.2).
#[allow(non_snake_case)]
pub fn IF_NONE_MATCH() -> HeaderName
    ensures { result ≡ codes "if-none-match" }
{
    http_header::IF_NONE_MATCH
}

/// If-Range (RFC 9110, section 13.1.5).
#[allow(non_snake_case)]
pub fn IF_RANGE() -> HeaderName
    ensures { result ≡ codes "if-range" }
{
    http_header::IF_RANGE
}

/// Lock-Token (RFC 4918, section 10.5).
#[allow(non_snake_case)]
pub fn LOCK_TOKEN() -> HeaderName
    ensures { result ≡ codes "lock-token" }
{
    HeaderName::from_static("lock-token")
}

/// Overwrite (RFC 4918, section 10.6).
#[allow(non_snake_case)]
pub fn OVERWRITE() -> HeaderName
    ensures { result ≡ codes "overwrite" }
{
    HeaderName::from_static("overwrite")
}

/// Timeout (RFC 4918, section 10.7).
#[allow(non_snake_case)]
pub fn TIMEOUT() -> HeaderName
    ensures { result ≡ codes "timeout" }
{
    HeaderName::from_static("timeout")
}

/// X-Litmus, which the test suite litmus sends.
#[allow(non_snake_case)]
pub fn X_LITMUS() -> HeaderName
    ensures { result ≡ codes "x-litmus" }
{
    HeaderName::from_static("x-litmus")
}

/// X-Update-Range (SabreDAV's partial update by PATCH).
#[allow(non_snake_case)]
pub fn X_UPDATE_RANGE() -> HeaderName
    ensures { result ≡ codes "x-update-range" }
{
    HeaderName::from_static("x-update-range")
}

#[cfg(test)]
mod tests;
