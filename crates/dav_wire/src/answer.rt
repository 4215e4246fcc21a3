//! What judges and answers the requests of a connection.
ghost use Rattle.std.specs.Prelude.{◌≡◌, List, ℕ, Option, IfOk, OnOk};
ghost use Rattle.http_server.specs.declared.response.Response.{Response};
ghost use Rattle.http_server.specs.Response.{IsBlank};
ghost use Rattle.dav_wire.specs.declared.answer.Asked.{Asked};
ghost use Rattle.dav_wire.specs.declared.answer.Rejection.{Rejection};
ghost use Rattle.dav_wire.specs.Refusals.{rejection_status};

use bytes::Bytes;
use http_server::Response;
use std::alloc::{AllocError, AllocFailed};

/// A request as it came: the very bytes of its head, with the empty lines before it, and its body without its chunks
/// (RFC 9112, sections 2.2, 3, 6 and 7.1).
#[derive(Drop)]
pub struct Asked {
    /// The bytes of the head, to the empty line that ends it.
    pub head: Bytes,
    /// The body, decoded and whole.
    pub body: Bytes,
}

/// Why an answerer doesn't take a request, of whose head alone it knows (RFC 9110, sections 15.5 and 15.6).
#[derive(Clone, Copy, Debug, PartialEq, Eq)]
pub enum Rejection {
    /// A field of its head has a value that isn't allowed (400).
    BadRequest,
    /// It doesn't show who makes it, and has to (401); the response challenges its sender (RFC 9110, section 11.6.1).
    Unauthorized,
    /// It is forbidden, whoever makes it (403).
    Forbidden,
    /// It has a body, and its method takes none (415).
    UnsupportedMediaType,
    /// It is for another server (421).
    Misdirected,
    /// Too many came like it: it may be sent again after a minute (429; RFC 6585, section 4).
    TooManyRequests,
    /// Its method isn't served (501).
    NotImplemented,
    /// There is no room for its body (503).
    Unavailable,
}

impl Rejection {
    /// The status of the response (RFC 9110, sections 15.5 and 15.6; RFC 6585, section 4).
    pub fn status(self) -> u16
        ensures { result ≡ rejection_status self }
    {
        match self {
            Rejection::BadRequest => 400,
            Rejection::Unauthorized => 401,
            Rejection::Forbidden => 403,
            Rejection::UnsupportedMediaType => 415,
            Rejection::Misdirected => 421,
            Rejection::TooManyRequests => 429,
            Rejection::NotImplemented => 501,
            Rejection::Unavailable => 503,
        }
    }
}

/// Why the answerer, or its connection, can't go on: nothing more may be sent.
#[derive(Clone, Copy, Debug, PartialEq, Eq)]
pub enum Stop {
    /// Memory ran out.
    Memory,
    /// The disk failed.
    Disk,
}

impl From<AllocError> for Stop {
    ghost use Rattle.std.specs.Prelude.{◌≡◌};
    ghost use Rattle.dav_wire.specs.declared.answer.Stop.TheVariants.{Memory};

    ghost from_gives = { λ _ stop. stop ≡ Memory };

    fn from(_error: AllocError) -> Stop {
        Stop::Memory
    }
}

impl<T: Drop> From<AllocFailed<T>> for Stop {
    ghost use Rattle.std.specs.Prelude.{◌≡◌};
    ghost use Rattle.dav_wire.specs.declared.answer.Stop.TheVariants.{Memory};

    ghost from_gives = { λ _ stop. stop ≡ Memory };

    fn from(_error: AllocFailed<T>) -> Stop {
        Stop::Memory
    }
}

/// What judges the heads of requests, and answers those requests that it takes, each once and in order.
pub trait Answerer {
    // In the first state the request with these bytes as its head is not taken, for this reason, or may go on, which leaves
    // the second state.
    ghost judges: { Self → List ℕ → Option Rejection → Self → Type 0 };

    // In the first state this request may get this response, which leaves the second state.
    ghost answers: { Self → Asked → Response → Self → Type 0 };

    /// Judges a request by the bytes of its head, with the empty lines before it, before anything of its body is taken and
    /// before `100 Continue` is sent (RFC 9110, section 10.1.1). With a reason, the connection answers with the status of that
    /// and is closed; without one, it goes on to the request's body.
    fn judge(&mut self, head: &[u8]) -> Result<Option<Rejection>, Stop>
        ensures { IfOk result (λ verdict. judges self.old head.now verdict self.new) };

    /// Hears that the connection itself refuses a request with these bytes as its head, with this status, for its body. The answerer
    /// stays as it is.
    fn hear_refused(&mut self, head: &[u8], status: u16)
        ensures { self.new ≡ self.old };

    /// Fills `response`, which comes as a 200 without fields and body. The connection adds `content-length` and
    /// `connection` where they are needed, and sends no body to HEAD (RFC 9110, sections 8.6 and 9.3.2).
    fn answer(&mut self, asked: &Asked, response: &mut Response) -> Result<(), Stop>
        requires { IsBlank response.old }
        ensures { OnOk result (answers self.old asked.now response.new self.new) };
}
