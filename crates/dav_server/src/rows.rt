//! Tests as rows of text: a question, ` -> `, and the answer that is expected.
//!
//! A line `# ..` is the title of the rows after it, which begin with a fresh state. Bytes that would break a line or can't
//! be seen in it are written `\r`, `\n`, `\t` or, in hexadecimal digits, `\x7F`.
use std::alloc::{AllocError, AllocGlobal, Global};
use std::process::Abort;
use std::str;
use std::test::Fail;

/// A line is no row, or a part of it isn't what it should be.
#[derive(Clone, Copy, Debug)]
pub(crate) struct NoRow(pub(crate) &'static str);

/// What answers the questions of rows.
pub(crate) trait Player {
    /// Forgets what the rows before did.
    fn begin(&mut self, alloc: Global) -> Result<(), Fail>;

    /// The answer to a question.
    fn answer(&mut self, alloc: Global, question: &'static str) -> Result<Vec<u8>, Fail>;
}

/// Plays the rows. The test fails at the first row whose answer isn't the expected one, and where a line is no row or a
/// title has no rows.
pub(crate) fn play_rows<R: Abort + AllocGlobal, P: Player>(
    rt: &R,
    player: &mut P,
    rows: &'static str,
) -> Result<(), Fail> {
    let blocks = rows.strip_prefix("# ").ok_or(NoRow(rows))?;
    for block in blocks.split("\n# ") {
        play_block(rt, player, block)?;
    }
    Ok(())
}

// Plays the rows below one title.
fn play_block<R: Abort + AllocGlobal, P: Player>(
    rt: &R,
    player: &mut P,
    block: &'static str,
) -> Result<(), Fail> {
    let (title, rows) = block.split_once('\n').ok_or(NoRow(block))?;
    if rows.is_empty() {
        return Err(NoRow(block))?;
    }
    player.begin(rt.alloc())?;
    for line in rows.lines() {
        play_row(rt, player, title, line)?;
    }
    Ok(())
}

// Plays one row.
fn play_row<R: Abort + AllocGlobal, P: Player>(
    rt: &R,
    player: &mut P,
    title: &str,
    line: &'static str,
) -> Result<(), Fail> {
    let (question, expected) = line.split_once(" -> ").ok_or(NoRow(line))?;
    let answer = player.answer(rt.alloc(), question)?;
    let answer = escaped(rt.alloc(), &answer)?;
    let text = str::from_utf8(&answer).unwrap_or("");
    assert!(*rt; text == expected, "{title}\n{line}\nanswered: {text}");
    Ok(())
}

// One line for bytes, as rows write them.
fn escaped(alloc: Global, bytes: &[u8]) -> Result<Vec<u8>, AllocError> {
    let mut text = Vec::new(alloc);
    for byte in bytes {
        add_escaped(&mut text, *byte)?;
    }
    Ok(text)
}

// Adds a byte, as rows write it.
fn add_escaped(text: &mut Vec<u8>, byte: u8) -> Result<(), AllocError> {
    match byte {
        b'\r' => text.extend_from_slice(b"\\r"),
        b'\n' => text.extend_from_slice(b"\\n"),
        b'\t' => text.extend_from_slice(b"\\t"),
        b'\\' => text.extend_from_slice(b"\\x5C"),
        b' '..=b'~' => text.extend_from_slice(&[byte]),
        _ => text.extend_from_slice(&[b'\\', b'x', digit(byte / 16), digit(byte % 16)]),
    }
}

// A hexadecimal digit.
fn digit(value: u8) -> u8 {
    *b"0123456789ABCDEF".get(value as usize).unwrap_or(&b'?')
}

/// The bytes that a part of a row writes.
pub(crate) fn unescaped(alloc: Global, text: &'static str) -> Result<Vec<u8>, Fail> {
    let mut bytes = Vec::new(alloc);
    let mut parts = text.split('\\');
    let first = parts.next().unwrap_or("");
    bytes.extend_from_slice(first.as_bytes())?;
    for part in parts {
        add_escape(&mut bytes, part)?;
    }
    Ok(bytes)
}

// Adds the bytes of an escape without its backslash, and of what follows it.
fn add_escape(bytes: &mut Vec<u8>, part: &'static str) -> Result<(), Fail> {
    let (byte, rest) = escape(part.as_bytes()).ok_or(NoRow(part))?;
    bytes.push(byte)?;
    Ok(bytes.extend_from_slice(rest)?)
}

// The byte that an escape denotes, and what follows it. The text begins after the backslash.
fn escape(text: &[u8]) -> Option<(u8, &[u8])> {
    match text {
        [b'r', rest @ ..] => Some((b'\r', rest)),
        [b'n', rest @ ..] => Some((b'\n', rest)),
        [b't', rest @ ..] => Some((b'\t', rest)),
        [b'x', high, low, rest @ ..] => Some((of_digits(*high, *low)?, rest)),
        _ => None,
    }
}

// The byte of two hexadecimal digits.
fn of_digits(high: u8, low: u8) -> Option<u8> {
    Some(value_of(high)?.wrapping_mul(16) | value_of(low)?)
}

// The value of a hexadecimal digit.
fn value_of(digit: u8) -> Option<u8> {
    match digit {
        b'0'..=b'9' => Some(digit - b'0'),
        b'A'..=b'F' => Some(digit - b'A' + 10),
        _ => None,
    }
}
