//! From the bytes of a head to what it says.

ghost use Rattle.std.specs.Prelude.{◌≡◌, IfOk, IfErr};
ghost use Rattle.dav_server.specs.Head.{Request, IsHead};

use super::{MOST_BYTES, MOST_FIELDS, RequestView};
use http::StatusCode;
use httparse::Status;
use httparse::spans::{EMPTY_HEADER_SPAN, parse_request};

/// Reads a head that is all of the bytes. Allocates nothing.
///
/// `BAD_REQUEST` where the bytes are no head of HTTP/1.x (RFC 9112, sections 2 to 5), where bytes follow it, and where it
/// has more than `MOST_BYTES` bytes or `MOST_FIELDS` fields.
pub fn read_head(head: &[u8]) -> Result<RequestView<'_>, StatusCode>
    ensures ok { IfOk result (IsHead head.now) }
    ensures err { IfErr result (λ status. (status ≡ 400) × ((r : Request) → ¬ IsHead head.now r)) }
{
    if head.len() > MOST_BYTES {
        return Err(StatusCode::BAD_REQUEST);
    }
    let mut headers = [EMPTY_HEADER_SPAN; MOST_FIELDS];
    let Ok(Status::Complete(spans)) = parse_request(head, &mut headers) else {
        return Err(StatusCode::BAD_REQUEST);
    };
    if spans.len != head.len() {
        return Err(StatusCode::BAD_REQUEST);
    }
    let Ok(target) = str::from_utf8(spans.path.of(head)) else {
        return Err(StatusCode::BAD_REQUEST);
    };
    Ok(RequestView {
        head,
        method: spans.method.of(head),
        target,
        headers,
        count: spans.headers,
    })
}
