//! Tokens that locks are granted with (RFC 4918, section 6.5), and moments.
use super::*;
use crate::asserting::same;
use crate::davhandler::HandlerError;
use crate::moment::Moment;
use crate::rows::{NoRow, Player, play_rows, unescaped};
use std::str;
use std::test::Fail;

const TOKENS: &str = r##"# tokens
urn:t:1 -> urn:t:1
opaquelocktoken:a-b -> opaquelocktoken:a-b
! -> !
~ -> ~
dav:x -> dav:x
xDAV: -> xDAV:
DAV -> DAV
*'\x5C -> *'\x5C
# other texts
 -> Refused
DAV:x -> Refused
DAV: -> Refused
a b -> Refused
 a -> Refused
a\t -> Refused
a"b -> Refused
(a -> Refused
a) -> Refused
<a> -> Refused
[ -> Refused
] -> Refused
{ -> Refused
} -> Refused
a\x7F -> Refused
\xC3\xA9 -> Refused
"##;

// The head of a request, and a token, one after the other, and whether the request names the token.
const NAMES: &str = r##"# no header names a token
PUT /a HTTP/1.1\r\n\r\n | urn:t:1 -> false
PUT /a HTTP/1.1\r\nX: <urn:t:1>\r\n\r\n | urn:t:1 -> false
# If names its state tokens
PUT /a HTTP/1.1\r\nIf: (<urn:t:1>)\r\n\r\n | urn:t:1 -> true
PUT /a HTTP/1.1\r\nIf: (<urn:t:1>)\r\n\r\n | urn:t:2 -> false
PUT /a HTTP/1.1\r\nIf: (<urn:t:1>)\r\n\r\n | urn:t -> false
PUT /a HTTP/1.1\r\nIf: (<urn:t:1>)\r\n\r\n | <urn:t:1> -> false
PUT /a HTTP/1.1\r\nif: (["x"] <urn:t:1>) (<urn:t:2>)\r\n\r\n | urn:t:2 -> true
PUT /a HTTP/1.1\r\nif: (["x"] <urn:t:1>) (<urn:t:2>)\r\n\r\n | "x" -> false
# under Not too
PUT /a HTTP/1.1\r\nIf: (Not <urn:t:1>)\r\n\r\n | urn:t:1 -> true
# an If that doesn't decode, and two of them, name nothing
PUT /a HTTP/1.1\r\nIf: (<urn:t:1>\r\n\r\n | urn:t:1 -> false
PUT /a HTTP/1.1\r\nIf: (<urn:t:1>)\r\nIf: (<urn:t:2>)\r\n\r\n | urn:t:1 -> false
# Lock-Token names what its only value has between angle brackets
UNLOCK /a HTTP/1.1\r\nLock-Token: <urn:t:1>\r\n\r\n | urn:t:1 -> true
UNLOCK /a HTTP/1.1\r\nLock-Token: <<urn:t:1>>>\r\n\r\n | urn:t:1 -> true
UNLOCK /a HTTP/1.1\r\nLock-Token: urn:t:1\r\n\r\n | urn:t:1 -> true
UNLOCK /a HTTP/1.1\r\nLock-Token: <urn:<t>:1>\r\n\r\n | urn:<t>:1 -> true
UNLOCK /a HTTP/1.1\r\nLock-Token: <urn:t:1>\r\n\r\n | <urn:t:1> -> false
UNLOCK /a HTTP/1.1\r\nLock-Token: <urn:t:1>\r\nLock-Token: <urn:t:2>\r\n\r\n | urn:t:1 -> false
UNLOCK /a HTTP/1.1\r\nLock-Token: <urn:t:1>\r\nLock-Token: <urn:t:2>\r\n\r\n | urn:t:2 -> false
UNLOCK /a HTTP/1.1\r\nLock-Token: <urn:t:\xE9>\r\n\r\n | urn:t: -> false
# both name tokens
PUT /a HTTP/1.1\r\nIf: (<urn:t:1>)\r\nLock-Token: <urn:t:2>\r\n\r\n | urn:t:1 -> true
PUT /a HTTP/1.1\r\nIf: (<urn:t:1>)\r\nLock-Token: <urn:t:2>\r\n\r\n | urn:t:2 -> true
# bytes that are no head name nothing
 | urn:t:1 -> false
If: (<urn:t:1>) | urn:t:1 -> false
PUT /a HTTP/1.1\r\nIf: (<urn:t:1>)\r\n\r\nmore | urn:t:1 -> false
"##;

// Asks whether a request names a token.
#[derive(Drop)]
struct Naming;

impl Player for Naming {
    fn begin(&mut self, _alloc: Global) -> Result<(), Fail> {
        Ok(())
    }

    fn answer(&mut self, alloc: Global, question: &'static str) -> Result<Vec<u8>, Fail> {
        let (head, token) = question.split_once(" | ").ok_or(NoRow(question))?;
        let head = unescaped(alloc, head)?;
        let exchange = Exchange::new(&head, Body::None, None, 1, None)?;
        let named = exchange.names(alloc, token)?;
        Ok(format!(in alloc; "{named}")?.into_bytes())
    }
}

#[test]
fn names_tokens(rt: HostRuntime) -> Result<(), Fail> {
    play_rows(&rt, &mut Naming, NAMES)
}

// Asks for the token of a text.
#[derive(Drop)]
struct Tokens;

impl Player for Tokens {
    fn begin(&mut self, _alloc: Global) -> Result<(), Fail> {
        Ok(())
    }

    fn answer(&mut self, alloc: Global, question: &'static str) -> Result<Vec<u8>, Fail> {
        let text = unescaped(alloc, question)?;
        match GrantToken::new(alloc, str::from_utf8(&text)?) {
            Ok(token) => Ok(Vec::from_slice(alloc, token.as_str().as_bytes())?),
            Err(error) => Ok(format!(in alloc; "{error}")?.into_bytes()),
        }
    }
}

#[test]
fn takes_tokens(rt: HostRuntime) -> Result<(), Fail> {
    play_rows(&rt, &mut Tokens, TOKENS)
}

// All errors of this crate.
#[test]
fn shows_errors(rt: HostRuntime) -> Result<(), Fail> {
    let shown = format!(in rt.alloc();
        "{} {} {} {} {}",
        TokenError::Refused,
        TokenError::Memory,
        BadMoment,
        HandlerError::BadPrefix,
        HandlerError::Memory
    )?;
    same(
        &rt,
        &shown.as_str(),
        &"Refused Memory BadMoment BadPrefix Memory",
    );
    Ok(())
}

#[test]
fn ends_with_the_year_9999(rt: HostRuntime) -> Result<(), Fail> {
    let last = Moment::new(LAST_MOMENT)?.seconds;
    same(
        &rt,
        &[LAST_MOMENT, last],
        &[253_402_300_799, 253_402_300_799],
    );
    same(&rt, &Moment::new(LAST_MOMENT + 1).err(), &Some(BadMoment));
    Ok(())
}

// Whether a request is taken at a moment.
fn is_taken(moment: u64) -> bool {
    Exchange::new(b"", Body::None, None, moment, None).is_ok()
}

#[test]
fn takes_requests_up_to_the_year_9999(rt: HostRuntime) {
    let taken = [
        is_taken(0),
        is_taken(253_402_300_799),
        is_taken(253_402_300_800),
    ];
    same(&rt, &taken, &[true, true, false]);
}
