//! Requests that set more dead properties than a file or folder may have (RFC 4918, section 9.2.1).
ghost use Rattle.std.specs.Prelude.{◌≡◌, ◌≢◌, IfOk, false};
ghost use Rattle.std.specs.Bool.{Decides};
ghost use Rattle.dav_core.specs.declared.errors.DavError.TheVariants as DavError;
ghost use Rattle.dav_http.specs.Crowded.{AreTooMany};

use super::Handler;
use crate::head::Head;
use crate::setting::set_in;
use dav_core::davpath::DavPath;
use dav_core::errors::{DavError, NoMemory};
use dav_core::method::DavMethod;
use dav_server::target::path_of;
use dav_store::memfs::Stored;
use std::alloc::Global;

/// How many dead properties a file or folder may have.
const MOST_PROPERTIES: u64 = 50_000;

/// How many bytes they may have together.
const MOST_PROPERTY_BYTES: u64 = 8 * 1024 * 1024;

// Whether these are more properties, or more bytes of them, than are left where those are there.
fn are_too_many(there: Stored, set: Stored) -> bool
    ensures { Decides result (AreTooMany there set) }
{
    set.count > MOST_PROPERTIES.saturating_sub(there.count)
        || set.bytes > MOST_PROPERTY_BYTES.saturating_sub(there.bytes)
}

// No, where a target names no path; `NoMemory` where memory ran out.
fn nowhere(error: DavError) -> Result<bool, NoMemory>
    ensures { IfOk result (λ is. (is ≡ false) × (error ≢ DavError.Memory)) }
{
    match error {
        DavError::Memory => Err(NoMemory),
        _ => Ok(false),
    }
}

impl Handler {
    ghost use Rattle.std.specs.Prelude.{◌≡◌, IfOk, codes};
    ghost use Rattle.std.specs.Bool.{Decides};
    ghost use Rattle.dav_core.specs.Path.{names};
    ghost use Rattle.dav_core.specs.World.{node_at};
    ghost use Rattle.dav_store.specs.Used.{properties_of};
    ghost use Rattle.dav_http.specs.Crowded.{AreTooMany, IsCrowded};
    ghost use Rattle.dav_http.specs.Setting.{set_in};

    // Whether a body sets more than what is at a path may have besides.
    fn is_crowded_at(&self, alloc: Global, path: &DavPath, body: &[u8]) -> Result<bool, NoMemory>
        ensures { IfOk result (λ is. Decides is (AreTooMany (properties_of
            (node_at self.now.server.state.store.world (names path.now))) (set_in body.now))) }
    {
        let set = set_in(alloc, body)?;
        Ok(are_too_many(self.handler.fs().properties_of(path), set))
    }

    // Whether a PROPPATCH sets more than its target may have besides.
    fn is_crowded_by(&self, alloc: Global, head: &Head<'_>, body: &[u8]) -> Result<bool, NoMemory>
        requires { head.now.method ≡ codes "PROPPATCH" }
        ensures { IfOk result (λ is. Decides is
            (IsCrowded self.now.server head.now body.now)) }
    {
        match path_of(
            alloc,
            DavMethod::PropPatch,
            head.target(),
            self.handler.prefix(),
        ) {
            Ok(path) => self.is_crowded_at(alloc, &path, body),
            Err(error) => nowhere(error),
        }
    }

    // Whether a request is a PROPPATCH that sets more than its target may have besides.
    pub(super) fn is_crowded(
        &self,
        alloc: Global,
        head: &Head<'_>,
        body: &[u8],
    ) -> Result<bool, NoMemory>
        ensures { IfOk result (λ is. Decides is
            (IsCrowded self.now.server head.now body.now)) }
    {
        if head.method() == b"PROPPATCH".as_slice() {
            self.is_crowded_by(alloc, head, body)
        } else {
            Ok(false)
        }
    }
}
