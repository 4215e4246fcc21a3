//! The request that ends a lock whose time has passed (RFC 4918, sections 6.6 and 9.11).
ghost use Rattle.std.specs.Prelude.{◌≡◌, IfOk, string_bytes};
ghost use Rattle.dav_http.specs.Ending.{IsUnlockHead, unlock_text};

use dav_core::errors::NoMemory;
use dav_core::ls::DavLock;
use std::alloc::Global;

// The head of an UNLOCK for a path, with a token.
fn head_of(alloc: Global, path: &str, token: &str) -> Result<String, NoMemory>
    ensures { IfOk result (λ head. string_bytes head ≡ unlock_text path.now token.now) }
{
    let mut head = String::from_str(alloc, "UNLOCK ")?;
    head.push_str(path)?;
    head.push_str(" HTTP/1.1\r\nLock-Token: <")?;
    head.push_str(token)?;
    head.push_str(">\r\n\r\n")?;
    Ok(head)
}

/// The head of an UNLOCK of a lock: for its path, with its token.
pub fn unlock_head(alloc: Global, lock: &DavLock) -> Result<String, NoMemory>
    ensures { IfOk result (λ head. IsUnlockHead lock.now (string_bytes head)) }
{
    let path = lock.path.with_prefix().as_url_string(alloc)?;
    head_of(alloc, path.as_str(), lock.token.as_str())
}
