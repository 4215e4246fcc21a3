//! What of a path follows another one (RFC 3986, section 3.3).
ghost use Rattle.std.specs.Prelude.{◌≡◌, option_map};
ghost use Rattle.dav_core.specs.Path.{rest_after};
ghost use Rattle.dav_core.specs.PathRef.{names_left};

use super::Segments;
use std::cmp::Ordering;

// The segments that follow those of the front; `None` where the path doesn't begin with the front.
pub(super) fn rest_after<'a>(
    mut front: Segments<'_>,
    mut path: Segments<'a>,
) -> Option<Segments<'a>>
    ensures { option_map names_left result
        ≡ rest_after (names_left front.entry) (names_left path.entry) }
{
    let Some(x) = front.next() else {
        return Some(path);
    };
    let Some(y) = path.next() else {
        return None;
    };
    match x.cmp(&y) {
        Ordering::Equal => rest_after(front, path),
        Ordering::Less => None,
        Ordering::Greater => None,
    }
}
