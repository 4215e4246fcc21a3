//! What the methods are handed: requests and their bodies.
ghost use Rattle.std.specs.Prelude.{◌≡◌};
ghost use Rattle.dav_engine.specs.Lock as spec;

use bytes::Bytes;
use dav_core::davpath::DavPath;
use dav_core::element::Element;
use dav_core::method::DavMethod;
use http_header::HeaderMap;

/// A request: what is to be done, to what, and the fields of its head (RFC 9110, section 3.4).
#[derive(Drop)]
pub struct DavRequest {
    /// The method.
    pub method: DavMethod,
    /// The path that the target names, with the prefix that was cut from it.
    pub path: DavPath,
    /// The fields of the head.
    pub headers: HeaderMap,
}

/// The body of a request, handed in whole (RFC 9110, section 6.4).
#[derive(Drop)]
pub enum Body {
    /// No body.
    None,
    /// These bytes.
    Bytes(Bytes),
    /// The element tree that its bytes encode (RFC 4918, section 8.2).
    Tree(Element),
    /// Bytes that were to encode an element tree, and don't.
    Malformed,
}

// Whether there is no body.
pub(crate) fn is_absent(body: &Body) -> bool
    ensures { result ≡ spec.is_absent body.now }
{
    match body {
        Body::None => true,
        Body::Bytes(bytes) => bytes.is_empty(),
        Body::Tree(_) | Body::Malformed => false,
    }
}
