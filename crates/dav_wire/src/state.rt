//! The limits of a connection, where it stands, and why it is closed.
ghost use Rattle.std.specs.Prelude.{◌≡◌};
ghost use Rattle.dav_wire.specs.Exchange.{takes_tree, most_of};
ghost use Rattle.dav_wire.specs.Refusals.{known_status, closing_head, is_bare, refusal_status};

use crate::answer::Rejection;
use http1::{Limits, ReadError, WriteError};

/// The limits of a connection.
#[derive(Clone, Copy, Debug, PartialEq, Eq)]
pub struct Config {
    /// Those of heads, of chunks and of trailers.
    pub limits: Limits,
    /// The most bytes of a body; a longer one is refused (413).
    pub max_body_len: usize,
    /// The same of a body that is an element tree: of PROPFIND, PROPPATCH and LOCK.
    pub max_tree_len: usize,
    /// No request is read while more bytes than this wait to be sent.
    pub max_pending: usize,
}

/// Where a connection stands.
#[derive(Clone, Copy, Debug, PartialEq, Eq)]
pub enum State {
    /// It answers requests.
    Open,
    /// What waits is its last text; then it is closed.
    Closing(Reason),
    /// Memory ran out or the answerer stopped. What waited is dropped.
    Aborted,
}

/// Why a connection is closed.
#[derive(Clone, Copy, Debug, PartialEq, Eq)]
pub enum Reason {
    /// The last request, or its response, asked for it (RFC 9112, section 9.6).
    Asked,
    /// The input ended, and not within a request.
    EndOfInput,
    /// The next request is refused.
    Refused(Refusal),
    /// The answerer doesn't take the next request, of whose head alone it knows (401, 403, 415, 421, 429, 501 or 503).
    Rejected(Rejection),
    /// The answerer's response can't be sent (500).
    Unsendable(WriteError),
}

/// Why a request is refused.
#[derive(Clone, Copy, Debug, PartialEq, Eq)]
pub enum Refusal {
    /// The input ended within it (400).
    Truncated,
    /// It can't be read (400, 414 or 431).
    Unreadable(ReadError),
    /// Its body is too long (413).
    BodyTooLong,
    /// Its body has a transfer coding other than `chunked` (501; RFC 9112, section 6.1).
    UnknownCoding,
    /// There is room for so many bytes of its body, and it has more (503; RFC 9110, section 15.6.4).
    NoRoom(usize),
}

impl Refusal {
    /// The status of the refusal (RFC 9110, section 15.5).
    pub fn status(self) -> u16
        ensures { result ≡ refusal_status self }
    {
        match self {
            Refusal::Truncated => 400,
            Refusal::Unreadable(error) => error.status(),
            Refusal::BodyTooLong => 413,
            Refusal::UnknownCoding => 501,
            Refusal::NoRoom(_) => 503,
        }
    }

    // Whether the response is bare, to a request that is a HEAD or not: where its head isn't known it is.
    pub(crate) fn is_bare(self, is_head: bool) -> bool
        ensures { result ≡ is_bare self is_head }
    {
        match self {
            Refusal::BodyTooLong | Refusal::NoRoom(_) => is_head,
            _ => true,
        }
    }

    /// Whether it is of a request whose head was read, for its body.
    pub(crate) fn is_of_body(self) -> bool {
        matches!(self, Refusal::BodyTooLong | Refusal::NoRoom(_))
    }
}

// Whether a method's body is an element tree.
fn takes_tree(method: &[u8]) -> bool
    ensures { result ≡ takes_tree method.now }
{
    method == b"PROPFIND".as_slice()
        || method == b"PROPPATCH".as_slice()
        || method == b"LOCK".as_slice()
}

// The most bytes of a body of this method.
pub(crate) fn most_of(config: &Config, method: &[u8]) -> usize
    ensures { result ≡ most_of config.now method.now }
{
    if takes_tree(method) {
        config.max_tree_len
    } else {
        config.max_body_len
    }
}

/// The status with which a connection answers itself; 400 stands for one that isn't known.
pub(crate) fn known_status(status: u16) -> u16
    ensures { result ≡ known_status status }
{
    match status {
        401 | 403 | 413 | 414 | 415 | 421 | 429 | 431 | 500 | 501 | 503 => status,
        _ => 400,
    }
}

/// The head of the last response of a connection that is closed with this status; 400 stands for one that isn't known.
pub(crate) fn closing_head(status: u16) -> &'static [u8]
    ensures { result.now ≡ closing_head (known_status status) }
{
    match status {
        401 =>
            b"HTTP/1.1 401 Unauthorized\r\nwww-authenticate: Basic realm=\"vuldarg\", charset=\"UTF-8\"\r\ncontent-type: text/plain; charset=utf-8\r\nconnection: close\r\ncontent-length: 48\r\n\r\n",
        403 =>
            b"HTTP/1.1 403 Forbidden\r\ncontent-type: text/plain; charset=utf-8\r\nconnection: close\r\ncontent-length: 40\r\n\r\n",
        413 =>
            b"HTTP/1.1 413 Payload Too Large\r\ncontent-type: text/plain; charset=utf-8\r\nconnection: close\r\ncontent-length: 39\r\n\r\n",
        414 => b"HTTP/1.1 414 URI Too Long\r\nconnection: close\r\ncontent-length: 0\r\n\r\n",
        415 =>
            b"HTTP/1.1 415 Unsupported Media Type\r\nconnection: close\r\ncontent-length: 0\r\n\r\n",
        421 =>
            b"HTTP/1.1 421 Misdirected Request\r\ncontent-type: text/plain; charset=utf-8\r\nconnection: close\r\ncontent-length: 50\r\n\r\n",
        429 =>
            b"HTTP/1.1 429 Too Many Requests\r\nretry-after: 60\r\ncontent-type: text/plain; charset=utf-8\r\nconnection: close\r\ncontent-length: 43\r\n\r\n",
        431 =>
            b"HTTP/1.1 431 Request Header Fields Too Large\r\nconnection: close\r\ncontent-length: 0\r\n\r\n",
        500 =>
            b"HTTP/1.1 500 Internal Server Error\r\nconnection: close\r\ncontent-length: 0\r\n\r\n",
        501 => b"HTTP/1.1 501 Not Implemented\r\nconnection: close\r\ncontent-length: 0\r\n\r\n",
        503 =>
            b"HTTP/1.1 503 Service Unavailable\r\nretry-after: 1\r\ncontent-type: text/plain; charset=utf-8\r\nconnection: close\r\ncontent-length: 41\r\n\r\n",
        _ => b"HTTP/1.1 400 Bad Request\r\nconnection: close\r\ncontent-length: 0\r\n\r\n",
    }
}
