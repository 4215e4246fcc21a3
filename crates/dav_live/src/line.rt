//! The line that is logged of a request.
ghost use Rattle.std.specs.Prelude.{◌≡◌, ◌++◌, ◌∷◌, List, ℕ, [], IfOk, OnOk, string_bytes};
ghost use Rattle.dav_live.specs.Line.{line_text, word_text};

use jiff::Timestamp;
use percent_encoding::{AsciiSet, CONTROLS, ascii_set, percent_encode};
use std::alloc::{AllocError, Global};

/// What is escaped in a word of a line: controls, spaces, and what isn't ASCII.
pub const SPACED: AsciiSet = ascii_set!(CONTROLS.add(b' '));

/// A request that was answered: when, in seconds since 1970, to which address, whom it said to be from, what it asked for, and
/// the status and the bytes of the reply's body.
#[derive(Clone, Copy)]
pub struct Answered<'a> {
    pub moment: u64,
    pub address: &'a [u8],
    pub user: &'a [u8],
    pub method: &'a [u8],
    pub target: &'a [u8],
    pub status: u16,
    pub bytes: usize,
}

// A word of a line: `-` for no bytes; else these, escaped where they aren't visible ASCII (RFC 3986, section 2.1), and a
// space. So no request can make a line look like two, or like another's.
fn push_word(line: &mut String, word: &[u8]) -> Result<(), AllocError>
    ensures { OnOk result (string_bytes line.new
        ≡ string_bytes line.old ++ (word_text word.now ++ 32 ∷ [])) }
{
    if word.is_empty() {
        line.push_str("-")?;
    } else {
        percent_encode(word, SPACED).append_to(line)?;
    }
    line.push_str(" ")
}

// A moment as the internet writes it (RFC 3339, section 5.6); `-` where it has more digits than that can write.
pub(crate) fn date_text(alloc: Global, moment: u64) -> Result<String, AllocError> {
    let Ok(seconds) = i64::try_from(moment) else {
        return String::from_str(alloc, "-");
    };
    match Timestamp::from_second(seconds) {
        Ok(date) => format!(in alloc; "{date}"),
        Err(_) => String::from_str(alloc, "-"),
    }
}

/// The line of a request: date, address, user, method, target, status and bytes, with a space after each but the last.
pub fn line_of(alloc: Global, told: &Answered<'_>) -> Result<String, AllocError>
    ensures { IfOk result (λ line. (date : List ℕ) × (string_bytes line
        ≡ line_text date told.now.address.now told.now.user.now told.now.method.now
        told.now.target.now told.now.status told.now.bytes)) }
{
    let mut line = date_text(alloc, told.moment)?;
    line.push_str(" ")?;
    push_word(&mut line, told.address)?;
    push_word(&mut line, told.user)?;
    push_word(&mut line, told.method)?;
    push_word(&mut line, told.target)?;
    let (status, bytes) = (told.status, told.bytes);
    let end = format!(in alloc; "{status} {bytes}")?;
    line.push_str(end.as_str())?;
    Ok(line)
}
