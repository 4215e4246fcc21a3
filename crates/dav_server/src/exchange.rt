//! What comes in with a request: the token that a lock is granted with, and the moment.
ghost use Rattle.std.specs.Prelude.{◌≡◌, ◌≢◌, ◌↔◌, [], IsTrue, All, Contains};
ghost use Rattle.dav_server.specs.GrantToken.{IsTokenByte, IsReserved, IsGrantToken};

#[cfg(test)]
mod tests;

use crate::head::{headers_of, read_head};
use crate::moment::Moment;
pub use crate::moment::{BadMoment, LAST_MOMENT};
use crate::naming::{is_if_token, is_lock_token};
use dav_core::errors::NoMemory;
use dav_engine::Body;
use std::alloc::Global;
use std::marker::Model;
use thiserror::Error;

// A quote and the brackets.
const BARRED: &[u8] = b"\"()<>[]{}";

/// The token that a lock is granted with, if the request is granted one (RFC 4918, section 6.5).
#[derive(Debug, Drop)]
pub struct GrantToken {
    text: String,
}

impl Model for GrantToken {
    ghost use Rattle.std.specs.Prelude.{ℕ, List, string_bytes};
    ghost use Rattle.dav_server.specs.GrantToken.{IsGrantToken};

    ghost Value = { List ℕ };

    ghost view = { λ t. string_bytes t.text };

    ghost invariant = { λ t. IsGrantToken (string_bytes t.text) };
}

impl GrantToken {
    ghost use Rattle.std.specs.Prelude.{◌≡◌};
    ghost use Rattle.dav_server.specs.GrantToken.{IsGrantToken};
    ghost use Rattle.dav_server.specs.Token.{GivesToken};

    /// The token of a text. `Refused` where the text is empty, begins with `DAV:`, or has a byte other than printable ASCII
    /// without spaces, quotes `"` and the brackets `()<>[]{}`; `Memory` where memory runs out.
    pub fn new(alloc: Global, text: &str) -> Result<GrantToken, TokenError>
        ensures { GivesToken text.now result }
    {
        if !is_grant_token(text) {
            return Err(TokenError::Refused);
        }
        Ok(GrantToken {
            text: String::from_str(alloc, text)?,
        })
    }

    /// The token's text.
    pub fn as_str(&self) -> &str
        ensures text { result.now ≡ self.now }
        ensures token { IsGrantToken self.now }
    {
        self.text.as_str()
    }
}

/// Why a text is no token to grant a lock with.
#[derive(Clone, Copy, Debug, PartialEq, Eq, Error)]
pub enum TokenError {
    /// It is empty or reserved, or a byte isn't allowed in it.
    #[error("Refused")]
    Refused,
    /// Memory ran out.
    #[error("Memory")]
    Memory,
}

impl From<NoMemory> for TokenError {
    ghost use Rattle.std.specs.Prelude.{◌≡◌};
    ghost use Rattle.dav_server.specs.declared.exchange.TokenError.TheVariants.{Memory};

    ghost from_gives = { λ _ e. e ≡ Memory };

    fn from(_error: NoMemory) -> TokenError {
        TokenError::Memory
    }
}

fn is_grant_token(text: &str) -> bool
    ensures { IsTrue result ↔ IsGrantToken text.now }
{
    !text.is_empty() && are_token_bytes(text.as_bytes()) && !is_reserved(text)
}

fn are_token_bytes(text: &[u8]) -> bool
    ensures { IsTrue result ↔ All IsTokenByte text.now }
{
    text.iter().all(|byte| is_token_byte(*byte))
}

fn is_token_byte(byte: u8) -> bool
    ensures { IsTrue result ↔ IsTokenByte byte }
{
    byte.is_ascii_graphic() && !is_among(byte, BARRED)
}

fn is_among(byte: u8, bytes: &[u8]) -> bool
    ensures { IsTrue result ↔ Contains bytes.now byte }
{
    bytes.contains(&byte)
}

fn is_reserved(text: &str) -> bool
    ensures { IsTrue result ↔ IsReserved text.now }
{
    text.as_bytes().starts_with(b"DAV:")
}

/// A request as it comes in. It borrows its head.
#[derive(Drop)]
pub struct Exchange<'a> {
    pub(crate) head: &'a [u8],
    pub(crate) body: Body,
    pub(crate) principal: Option<&'a str>,
    pub(crate) moment: Moment,
    pub(crate) token: Option<GrantToken>,
}

impl<'a> Model for Exchange<'a> {
    ghost use Rattle.dav_engine.specs.contracts.request.Body as request_body;
    ghost use Rattle.dav_server.specs.Machine as said;
    ghost use Rattle.dav_server.specs.ServerCode.{coded_asked};

    ghost Value = { said.Exchange };

    ghost coded = { coded_asked request_body.the_row.coded };

    ghost use Rattle.dav_server.specs.ExchangeView.{asked};

    ghost view = { asked };
}

impl<'a> Exchange<'a> {
    ghost use Rattle.std.specs.Prelude.{◌≡◌, ◌≤◌, ◌↔◌, IsTrue, IsOk, IfOk, OnErr};
    ghost use Rattle.std.specs.Option.{option_copied};
    ghost use Rattle.dav_server.specs.Head.{Request, IsHead};
    ghost use Rattle.dav_server.specs.Naming.{NamesToken};

    /// A request: the bytes of its head, its body, who makes it, when, in seconds since 1970, and the token for a lock that
    /// it creates. `BadMoment` past 253402300799, the end of the year 9999. Allocates nothing.
    pub fn new(
        head: &'a [u8],
        body: Body,
        principal: Option<&'a str>,
        moment: u64,
        token: Option<GrantToken>,
    ) -> Result<Exchange<'a>, BadMoment>
        ensures ok { IsOk result ↔ (moment ≤ 253402300799) }
        ensures value { IfOk result (λ x. x ≡ record {
          head = head.now;
          body = body;
          principal = option_copied principal.entry;
          moment = moment;
          token = token;
        }) }
    {
        let moment = Moment::new(moment)?;
        Ok(Exchange {
            head,
            body,
            principal,
            moment,
            token,
        })
    }

    /// Whether the request names a token of a lock: by its If, under `Not` too, or by its Lock-Token, whose angle brackets
    /// don't count (RFC 4918, sections 10.4 and 10.5). Bytes that are no head name nothing.
    ///
    /// `NoMemory` where memory runs out, and only where the bytes are a head.
    pub fn names(&self, alloc: Global, token: &str) -> Result<bool, NoMemory>
        ensures ok { IfOk result (λ named. IsTrue named ↔ NamesToken self.now token.now) }
        ensures err { OnErr result ((r : Request) × IsHead self.now.head r) }
    {
        let Ok(view) = read_head(self.head) else {
            return Ok(false);
        };
        let headers = headers_of(alloc, &view)?;
        let named = is_lock_token(alloc, &headers, token)?;
        if named {
            return Ok(true);
        }
        is_if_token(alloc, &headers, token)
    }
}
