//! The body of a request, as its method takes it (RFC 9110, section 6.4).
ghost use Rattle.std.specs.Prelude.{◌≡◌};
ghost use Rattle.dav_engine.specs.Follows.{viewed};
ghost use Rattle.dav_server.specs.GivenBody.{given_body};
ghost use Rattle.dav_server.specs.Machine.{taken_by, body_for, TakesBytes, TakesTree, TakesNone};

use dav_core::errors::{DavError, DavResult};
use dav_core::method::DavMethod;
use dav_engine::Body;
use http::StatusCode;

/// The most levels of nested elements that a tree may have.
pub const MOST_DEPTH: usize = 64;

/// The body that a method is handed.
#[derive(Drop)]
pub enum Given<'b> {
    /// The one that came in.
    Whole(&'b Body),
    /// One in its place.
    Other(Body),
}

impl<'b> Given<'b> {
    ghost use Rattle.std.specs.Prelude.{◌≡◌};
    ghost use Rattle.dav_server.specs.GivenBody.{given_body};

    /// The body.
    pub fn as_body(&self) -> &Body
        ensures { result.now ≡ given_body self.now }
    {
        match self {
            Given::Whole(body) => body,
            Given::Other(body) => body,
        }
    }
}

/// The body that a method is handed: an empty one counts as none, and other bytes are no element tree. 415 for one that the
/// method doesn't take (RFC 9110, section 15.5.16); 400 for a tree of more than [`MOST_DEPTH`] levels.
pub fn body_for(method: DavMethod, body: &Body) -> DavResult<Given<'_>>
    ensures { viewed given_body result ≡ body_for (taken_by method) body.now }
{
    match method {
        DavMethod::Put => bytes_for(body),
        DavMethod::Patch => bytes_for(body),
        DavMethod::PropFind => tree_for(body),
        DavMethod::PropPatch => tree_for(body),
        DavMethod::Lock => tree_for(body),
        _ => none_for(body),
    }
}

const REFUSED: DavError = DavError::Status(StatusCode::UNSUPPORTED_MEDIA_TYPE);

// The body of a method that takes bytes.
fn bytes_for(body: &Body) -> DavResult<Given<'_>>
    ensures { viewed given_body result ≡ body_for TakesBytes body.now }
{
    match body {
        Body::None => Ok(Given::Other(Body::None)),
        Body::Bytes(bytes) if bytes.is_empty() => Ok(Given::Other(Body::None)),
        Body::Bytes(_) => Ok(Given::Whole(body)),
        _ => Err(REFUSED),
    }
}

// The body of a method that takes an element tree.
fn tree_for(body: &Body) -> DavResult<Given<'_>>
    ensures { viewed given_body result ≡ body_for TakesTree body.now }
{
    match body {
        Body::None => Ok(Given::Other(Body::None)),
        Body::Bytes(bytes) if bytes.is_empty() => Ok(Given::Other(Body::None)),
        Body::Bytes(_) => Ok(Given::Other(Body::Malformed)),
        Body::Tree(tree) if tree.depth() > MOST_DEPTH => {
            Err(DavError::Status(StatusCode::BAD_REQUEST))
        }
        Body::Tree(_) => Ok(Given::Whole(body)),
        Body::Malformed => Ok(Given::Other(Body::Malformed)),
    }
}

// The body of a method that takes none.
fn none_for(body: &Body) -> DavResult<Given<'_>>
    ensures { viewed given_body result ≡ body_for TakesNone body.now }
{
    match body {
        Body::None => Ok(Given::Other(Body::None)),
        Body::Bytes(bytes) if bytes.is_empty() => Ok(Given::Other(Body::None)),
        _ => Err(REFUSED),
    }
}
