//! The method of a request (RFC 9110, section 9).
ghost use Rattle.std.specs.Prelude.{◌≡◌, ◌↔◌, IsTrue};
ghost use Rattle.dav_core.specs.Method.{method_name};
ghost use Rattle.dav_server.specs.Method.{GivesServed};

#[cfg(test)]
mod tests;

use dav_core::errors::{DavError, DavResult};
use dav_core::method::DavMethod;
use dav_engine::methods::options::name_of;

// The methods that are served.
const SERVED: [DavMethod; 13] = [
    DavMethod::Head,
    DavMethod::Get,
    DavMethod::Put,
    DavMethod::Patch,
    DavMethod::Options,
    DavMethod::PropFind,
    DavMethod::PropPatch,
    DavMethod::MkCol,
    DavMethod::Copy,
    DavMethod::Move,
    DavMethod::Delete,
    DavMethod::Lock,
    DavMethod::Unlock,
];

// Whether a method has this name.
fn is_named(name: &[u8], method: DavMethod) -> bool
    ensures { IsTrue result ↔ (name.now ≡ method_name method) }
{
    name == name_of(method).as_bytes()
}

/// The method of this name, in this case (RFC 9110, section 9.1). `UnknownDavMethod` for any other name, and for REPORT,
/// MKCALENDAR and MKADDRESSBOOK, which aren't served. Allocates nothing.
pub fn method_of(name: &[u8]) -> DavResult<DavMethod>
    ensures { GivesServed name.now result }
{
    for method in SERVED {
        if is_named(name, method) {
            return Ok(method);
        }
    }
    Err(DavError::UnknownDavMethod)
}
