//! The target of a request (RFC 9112, section 3.2).
ghost use Rattle.std.specs.Prelude.{◌≡◌, ◌≢◌, ◌↔◌, ℕ, List, Contains, IsTrue, IsErrOf};
ghost use Rattle.std.specs.Option.{option_copied};
ghost use Rattle.dav_core.specs.Path.{star, full_bytes, without_slash};
ghost use Rattle.dav_core.specs.declared.errors.DavError.TheVariants.{Status};
ghost use Rattle.dav_core.specs.declared.method.DavMethod.TheVariants.{Options};
ghost use Rattle.dav_server.specs.Target.{BeginsWithSlash};
ghost use Rattle.dav_server.specs.TargetCode.{GivesPath, GivesRead, GivesNamed, GivesCut, GivesTail};

#[cfg(test)]
mod tests;

use dav_core::davpath::DavPath;
use dav_core::errors::{DavError, DavResult};
use dav_core::method::DavMethod;
use http::StatusCode;
use http_uri::{Uri, UriError};
use std::alloc::Global;

/// The path that the target of a request names, cut after a prefix (a slash at the prefix's end doesn't count).
///
/// `*` names the server, whatever the prefix (RFC 9110, section 9.3.7); for other methods than OPTIONS it is
/// `Status(BAD_REQUEST)`. A target that begins with a slash names the path that `DavPath::new` reads. Any other target has
/// to be a URI with a scheme and an authority and without `#`, or it is `Status(BAD_REQUEST)`; the path is read in what
/// follows the authority, or in `/` where nothing does. `InvalidPath` and `ForbiddenPath` are those of `DavPath::new`;
/// `IllegalPath` where the path isn't at or below the prefix. `Memory` where memory runs out, never for a target that is refused
/// for `*` or for its `#`.
pub fn path_of(alloc: Global, method: DavMethod, target: &str, prefix: &str) -> DavResult<DavPath>
    ensures path { GivesPath prefix.now method target.now result }
    ensures star { target.now ≡ star → method ≢ Options → IsErrOf result (Status 400) }
    ensures fragment { ¬ BeginsWithSlash target.now → Contains target.now 35
        → IsErrOf result (Status 400) }
{
    if is_star(target) {
        return server_path(alloc, method, target);
    }
    let path = read(alloc, target)?;
    cut(path, prefix)
}

// The path of the whole server, for OPTIONS.
fn server_path(alloc: Global, method: DavMethod, target: &str) -> DavResult<DavPath>
    requires { target.now ≡ star }
    ensures path { (prefix : List ℕ) → GivesPath prefix method target.now result }
    ensures other { method ≢ Options → IsErrOf result (Status 400) }
{
    match method {
        DavMethod::Options => named(alloc, target),
        _ => Err(DavError::Status(StatusCode::BAD_REQUEST)),
    }
}

// The path in a target, without a prefix.
fn read(alloc: Global, target: &str) -> DavResult<DavPath>
    ensures path { GivesRead target.now result }
    ensures fragment { ¬ BeginsWithSlash target.now → Contains target.now 35
        → IsErrOf result (Status 400) }
{
    if begins_with_slash(target) {
        return named(alloc, target);
    }
    if has_fragment(target) {
        return Err(DavError::Status(StatusCode::BAD_REQUEST));
    }
    let uri = match Uri::from_str(alloc, target) {
        Ok(uri) => uri,
        Err(UriError::OutOfMemory) => return Err(DavError::Memory),
        Err(UriError::Invalid(_)) => return Err(DavError::Status(StatusCode::BAD_REQUEST)),
    };
    match tail(&uri) {
        Some(text) => named(alloc, text),
        None => Err(DavError::Status(StatusCode::BAD_REQUEST)),
    }
}

// The path that a text names.
fn named(alloc: Global, text: &str) -> DavResult<DavPath>
    ensures { GivesNamed text.now result }
{
    Ok(DavPath::new(alloc, text)?)
}

// The path after a prefix.
fn cut(mut path: DavPath, prefix: &str) -> DavResult<DavPath>
    ensures { GivesCut (without_slash prefix.now) (full_bytes path) result }
{
    path.set_prefix(prefix)?;
    Ok(path)
}

fn is_star(target: &str) -> bool
    ensures { IsTrue result ↔ (target.now ≡ star) }
{
    matches!(target.as_bytes(), [b'*'])
}

pub(crate) fn begins_with_slash(target: &str) -> bool
    ensures { IsTrue result ↔ BeginsWithSlash target.now }
{
    matches!(target.as_bytes(), [b'/', ..])
}

fn has_fragment(target: &str) -> bool
    ensures { IsTrue result ↔ Contains target.now 35 }
{
    target.as_bytes().contains(&b'#')
}

// What follows the authority of a URI with a scheme and an authority.
fn tail(uri: &Uri) -> Option<&str>
    ensures { GivesTail uri.now (option_copied result) }
{
    uri.scheme()?;
    uri.authority()?;
    Some(uri.path_and_query()?.as_str())
}
