//! What it says that a file can't be opened.
ghost use Rattle.std.specs.Prelude.{◌≡◌};
ghost use Rattle.dav_core.specs.Metadata.{opening_of};
ghost use Rattle.dav_engine.specs.Put as spec;

use dav_core::fs::OpenOptions;
use http::StatusCode;

// The status where a file is missing or already there: 412 where a condition asked for that, else 409 (no folder is above
// the path).
pub(crate) fn missing_status(options: &OpenOptions) -> StatusCode
    ensures { result ≡ spec.missing_status (opening_of options.now) }
{
    if !options.create || options.create_new {
        StatusCode::PRECONDITION_FAILED
    } else {
        StatusCode::CONFLICT
    }
}
