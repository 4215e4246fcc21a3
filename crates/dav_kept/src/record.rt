//! Requests, and their records as the journal has them. Numbers are big-endian.
ghost use Rattle.std.specs.Prelude.{◌≡◌, ◌≢◌, ◌++◌, ◌<◌, ◌^◌, ℕ, List, MatchOption, IfSome, OnOk, length, Option};
ghost use Rattle.std.specs.Int.{w16, w64, from_be_bytes, to_be_bytes};
ghost use Rattle.std.specs.Option.{option_copied};
ghost use Rattle.dav_kept.specs.Records.{IsRecordText, optional_bytes, sized_bytes};

use bytes::Bytes;
use std::alloc::AllocError;
use std::marker::Model;
use std::str;

/// A request (RFC 9110, section 3.4): when it came, in seconds since 1970, who made it, the token
/// for a lock that it creates (RFC 4918, section 6.5), its head and its body.
#[derive(Drop)]
pub struct Request<'a> {
    pub moment: u64,
    pub principal: Option<&'a str>,
    pub token: Option<&'a str>,
    pub head: &'a [u8],
    pub body: &'a Bytes,
}

impl<'a> Model for Request<'a> {
    ghost use Rattle.std.specs.Option.{option_copied};
    ghost use Rattle.dav_kept.specs.Records.{IsBoundedRequest, RequestView};

    ghost Value = { RequestView };

    ghost view = { λ r. record {
      moment = r.moment;
      principal = option_copied r.principal;
      token = option_copied r.token;
      head = r.head.now;
      body = r.body.now;
    } };

    ghost invariant = { λ r. IsBoundedRequest (record {
      moment = r.moment;
      principal = option_copied r.principal;
      token = option_copied r.token;
      head = r.head.now;
      body = r.body.now;
    }) };
}

/// A request that was answered, and the status of its reply.
#[derive(Drop)]
pub struct Record<'a> {
    pub moment: u64,
    pub status: u16,
    pub principal: Option<&'a str>,
    pub token: Option<&'a str>,
    pub head: &'a [u8],
    pub body: &'a [u8],
}

impl<'a> Model for Record<'a> {
    ghost use Rattle.std.specs.Option.{option_copied};
    ghost use Rattle.dav_kept.specs.Records.{RecordView};

    ghost Value = { RecordView };

    ghost view = { λ r. record {
      request = record {
        moment = r.moment;
        principal = option_copied r.principal;
        token = option_copied r.token;
        head = r.head.now;
        body = r.body.now;
      };
      status = r.status;
    } };
}

// Adds a text, with its length.
pub fn put(out: &mut Vec<u8>, bytes: &[u8]) -> Result<(), AllocError>
    ensures { OnOk result (out.new.items ≡ out.old.items ++ sized_bytes bytes.now) }
{
    out.extend_from_slice(&(bytes.len() as u64).to_be_bytes())?;
    out.extend_from_slice(bytes)
}

// Adds a text that may be missing.
fn put_option(out: &mut Vec<u8>, text: Option<&str>) -> Result<(), AllocError>
    ensures { OnOk result (out.new.items
        ≡ out.old.items ++ optional_bytes (option_copied text.entry)) }
{
    match text {
        Some(text) => {
            out.push(1)?;
            put(out, text.as_bytes())
        }
        None => {
            out.push(0)?;
            Ok(())
        }
    }
}

// Eight bytes as a number.
fn number(bytes: &[u8]) -> u64
    ensures { length bytes.now ≡ 8 → result ≡ from_be_bytes w64 bytes.now }
{
    match bytes {
        [a, b, c, d, e, f, g, h] => u64::from_be_bytes([*a, *b, *c, *d, *e, *f, *g, *h]),
        _ => 0,
    }
}

// Two bytes as a status.
fn status_of(bytes: &[u8]) -> u16
    ensures { length bytes.now ≡ 2 → result ≡ from_be_bytes w16 bytes.now }
{
    match bytes {
        [high, low] => u16::from_be_bytes([*high, *low]),
        _ => 0,
    }
}

// The number at the start of bytes, and what follows it.
pub fn number_in(bytes: &[u8]) -> Option<(u64, &[u8])>
    ensures { IfSome result (λ p. bytes.now ≡ to_be_bytes w64 p.0 ++ p.1.now) }
{
    let front = bytes.get(..8)?;
    Some((number(front), bytes.get(8..)?))
}

// The text at the start of bytes, and what follows it.
pub fn taken(bytes: &[u8]) -> Option<(&[u8], &[u8])>
    ensures fits { IfSome result (λ p. length p.0.now < 2 ^ 64) }
    ensures taken { MatchOption result
        ((text rest : List ℕ) → length text < 2 ^ 64 → bytes.now ≢ sized_bytes text ++ rest)
        (λ p. bytes.now ≡ sized_bytes p.0.now ++ p.1.now) }
{
    let len = usize::try_from(number(bytes.get(..8)?)).ok()?;
    let rest = bytes.get(8..)?;
    Some((rest.get(..len)?, rest.get(len..)?))
}

// The text at the start of bytes, which is UTF-8, and what follows it.
fn valid_text(bytes: &[u8]) -> Option<(&str, &[u8])>
    ensures text { IfSome result (λ p. IsRecordText p.0.now) }
    ensures taken { MatchOption result
        ((text rest : List ℕ) → IsRecordText text → bytes.now ≢ sized_bytes text ++ rest)
        (λ p. bytes.now ≡ sized_bytes p.0.now ++ p.1.now) }
{
    let (text, rest) = taken(bytes)?;
    let text = str::from_utf8(text).ok()?;
    Some((text, rest))
}

// The text at the start of bytes that may be missing, and what follows it.
fn taken_option(bytes: &[u8]) -> Option<(Option<&str>, &[u8])>
    ensures text { IfSome result (λ p. IfSome (option_copied p.0) (λ t. IsRecordText t)) }
    ensures taken { MatchOption result
        ((text : Option (List ℕ)) (rest : List ℕ) → IfSome text (λ t. IsRecordText t)
        → bytes.now ≢ optional_bytes text ++ rest)
        (λ p. bytes.now ≡ optional_bytes (option_copied p.0) ++ p.1.now) }
{
    match bytes {
        [0, rest @ ..] => Some((None, rest)),
        [1, rest @ ..] => {
            let (text, rest) = valid_text(rest)?;
            Some((Some(text), rest))
        }
        _ => None,
    }
}

// The moment and the status at the start of bytes, and what follows them.
fn when_in(bytes: &[u8]) -> Option<(u64, u16, &[u8])>
    ensures { MatchOption result
        ((moment status : ℕ) (rest : List ℕ) → bytes.now
        ≢ to_be_bytes w64 moment ++ (to_be_bytes w16 status ++ rest))
        (λ p. (bytes.now ≡ to_be_bytes w64 p.0 ++ (to_be_bytes w16 p.1 ++ p.2.now))
        × (p.0 < 2 ^ 64) × (p.1 < 2 ^ 16)) }
{
    let moment = number(bytes.get(..8)?);
    let rest = bytes.get(8..)?;
    let status = status_of(rest.get(..2)?);
    Some((moment, status, rest.get(2..)?))
}

// The principal and the token at the start of bytes, and what follows them.
fn who_in(bytes: &[u8]) -> Option<(Option<&str>, Option<&str>, &[u8])>
    ensures text { IfSome result (λ p. IfSome (option_copied p.0) (λ t. IsRecordText t)
        × IfSome (option_copied p.1) (λ t. IsRecordText t)) }
    ensures taken { MatchOption result
        ((who token : Option (List ℕ)) (rest : List ℕ) → IfSome who (λ t. IsRecordText t)
        → IfSome token (λ t. IsRecordText t)
        → bytes.now ≢ optional_bytes who ++ (optional_bytes token ++ rest))
        (λ p. bytes.now
        ≡ optional_bytes (option_copied p.0) ++ (optional_bytes (option_copied p.1) ++ p.2.now)) }
{
    let (principal, rest) = taken_option(bytes)?;
    let (token, rest) = taken_option(rest)?;
    Some((principal, token, rest))
}

// The head and the body at the start of bytes, and what follows them.
fn what_in(bytes: &[u8]) -> Option<(&[u8], &[u8], &[u8])>
    ensures fits { IfSome result (λ p. (length p.0.now < 2 ^ 64) × (length p.1.now < 2 ^ 64)) }
    ensures taken { MatchOption result
        ((head body rest : List ℕ) → length head < 2 ^ 64 → length body < 2 ^ 64
        → bytes.now ≢ sized_bytes head ++ (sized_bytes body ++ rest))
        (λ p. bytes.now ≡ sized_bytes p.0.now ++ (sized_bytes p.1.now ++ p.2.now)) }
{
    let (head, rest) = taken(bytes)?;
    let (body, rest) = taken(rest)?;
    Some((head, body, rest))
}

/// The most bytes of a record besides its texts.
const AROUND: usize = 64;

impl<'a> Request<'a> {
    ghost use Rattle.std.specs.Prelude.{◌≡◌, ◌≤◌, ◌-◌, ◌^◌, ℕ, length, min};
    ghost use Rattle.dav_kept.specs.Records.{IsRecord, record_bytes};

    /// At least as many bytes as the record of the request takes, or the most that there can be.
    pub fn size(&self) -> usize
        ensures { (status : ℕ) → min (2 ^ 64 - 1)
            (length (record_bytes (record { request = self.now; status = status }))) ≤ result }
    {
        let principal = self.principal.unwrap_or("").len();
        let token = self.token.unwrap_or("").len();
        AROUND
            .saturating_add(principal)
            .saturating_add(token)
            .saturating_add(self.head.len())
            .saturating_add(self.body.len())
    }

    /// The record of the request, where its reply has this status.
    pub fn record(&self, status: u16) -> Record<'a>
        ensures record { result ≡ record { request = self.now; status = status } }
        ensures is { IsRecord result }
    {
        Record {
            moment: self.moment,
            status,
            principal: self.principal,
            token: self.token,
            head: self.head,
            body: self.body.as_slice(),
        }
    }
}

impl<'a> Record<'a> {
    ghost use Rattle.std.specs.Prelude.{◌≡◌, ◌++◌, ℕ, List, IfSome, IsSomeAnd, OnOk};
    ghost use Rattle.dav_kept.specs.Records.{IsRecord, RecordView, record_bytes};

    /// The request of the record, whose body these bytes are.
    pub fn request<'b>(&self, body: &'b Bytes) -> Request<'b>
    where
        'a: 'b,
        requires is { IsRecord self.now }
        requires body { body.now ≡ self.now.request.body }
        ensures { result ≡ self.now.request }
    {
        Request {
            moment: self.moment,
            principal: self.principal,
            token: self.token,
            head: self.head,
            body,
        }
    }

    /// Adds the record to bytes.
    pub fn write(&self, out: &mut Vec<u8>) -> Result<(), AllocError>
        ensures { OnOk result (out.new.items ≡ out.old.items ++ record_bytes self.now) }
    {
        self.write_front(out)?;
        out.extend_from_slice(self.body)
    }

    /// Adds what the record has before the bytes of its body, which follow.
    pub fn write_front(&self, out: &mut Vec<u8>) -> Result<(), AllocError>
        ensures { OnOk result (out.new.items ++ self.now.request.body
            ≡ out.old.items ++ record_bytes self.now) }
    {
        out.extend_from_slice(&self.moment.to_be_bytes())?;
        out.extend_from_slice(&self.status.to_be_bytes())?;
        put_option(out, self.principal)?;
        put_option(out, self.token)?;
        put(out, self.head)?;
        out.extend_from_slice(&(self.body.len() as u64).to_be_bytes())?;
        Ok(())
    }

    /// The record at the start of bytes, and what follows it. `None` where they start with no
    /// record.
    pub fn read(bytes: &'a [u8]) -> Option<(Record<'a>, &'a [u8])>
        ensures is { IfSome result (λ p. IsRecord p.0) }
        ensures whole { IfSome result (λ p. bytes.now ≡ record_bytes p.0 ++ p.1.now) }
        ensures back { (r : RecordView) (rest : List ℕ) → IsRecord r
            → bytes.now ≡ record_bytes r ++ rest
            → IsSomeAnd result (λ p. (p.0 ≡ r) × (p.1.now ≡ rest)) }
    {
        let (moment, status, rest) = when_in(bytes)?;
        let (principal, token, rest) = who_in(rest)?;
        let (head, body, rest) = what_in(rest)?;
        let record = Record {
            moment,
            status,
            principal,
            token,
            head,
            body,
        };
        Some((record, rest))
    }
}
