//! Reads the names of a path from its text, in one pass, into one buffer.
ghost use Rattle.std.specs.Prelude.{◌≡◌, ℕ, ◌==◌, ◌↔◌, List, All, MatchResult, OnOk, IfErr, IsTrue};
ghost use Rattle.std.specs.List.{position, position_or_len};
ghost use Rattle.percent_encoding.specs.Percent.{percent_decode};
ghost use Rattle.dav_core.specs.Path.{Path, parent_piece, IsBarred, joined, path_bytes};
ghost use Rattle.dav_core.specs.Target.{IsTextByte, IsRooted, IsClosed, before_query, pieces_of};
ghost use Rattle.dav_core.specs.Buffer.{Kept, AddsPiece, IsRefusedBy, IsKind, IsLastSlash};

use crate::errors::ParseError;
use percent_encoding::percent_decode;
use std::alloc::Global;

/// What a decoded piece is.
pub(super) enum Kind {
    Name,
    Blank,
    Parent,
    Bad,
}

// A zero byte or a slash, which no name holds.
fn is_barred(b: u8) -> bool
    ensures { IsTrue result ↔ IsBarred b }
{
    b == 0 || b == b'/'
}

fn kind_of(piece: &[u8]) -> Kind
    ensures { IsKind piece.now result }
{
    match piece {
        [] | [b'.'] => Kind::Blank,
        [b'.', b'.'] => Kind::Parent,
        _ => {
            if piece.iter().any(|b| is_barred(*b)) {
                Kind::Bad
            } else {
                Kind::Name
            }
        }
    }
}

// The place of the last slash.
fn last_slash(buf: &[u8]) -> Option<usize>
    ensures { IsLastSlash buf.now result }
{
    let mut i = buf.len();
    while i > 0 {
        i -= 1;
        if buf[i] == b'/' {
            return Some(i);
        }
    }
    None
}

// Removes the last name.
fn drop_last(buf: &mut Vec<u8>) -> Result<(), ParseError>
    ensures { (ps : List (List ℕ)) → Kept ps buf.old.items
        → AddsPiece ps parent_piece result buf.new.items }
{
    match last_slash(buf) {
        Some(i) => {
            buf.truncate(i);
            Ok(())
        }
        None => Err(ParseError::ForbiddenPath),
    }
}

// Adds a piece, which may have escapes.
fn add_piece(buf: &mut Vec<u8>, piece: &[u8]) -> Result<(), ParseError>
    ensures { (ps : List (List ℕ)) → Kept ps buf.old.items
        → AddsPiece ps (percent_decode piece.now) result buf.new.items }
{
    let start = buf.len();
    buf.push(b'/')?;
    percent_decode(piece).append_to(buf)?;
    match kind_of(&buf[start + 1..]) {
        Kind::Name => Ok(()),
        Kind::Blank => {
            buf.truncate(start);
            Ok(())
        }
        Kind::Parent => {
            buf.truncate(start);
            drop_last(buf)
        }
        Kind::Bad => Err(ParseError::InvalidPath),
    }
}

// The place of the first such byte.
fn first_place(bytes: &[u8], byte: u8) -> Option<usize>
    ensures { result ≡ position (λ b. b == byte) bytes.now }
{
    bytes.iter().position(|b| *b == byte)
}

/// How many bytes come before the first such byte: all where there is none.
pub(super) fn len_before(bytes: &[u8], byte: u8) -> usize
    ensures { result ≡ position_or_len (λ b. b == byte) bytes.now }
{
    first_place(bytes, byte).unwrap_or(bytes.len())
}

/// What comes before the first `?`.
pub(super) fn before_query(src: &[u8]) -> &[u8]
    ensures { result.now ≡ before_query src.now }
{
    &src[..len_before(src, b'?')]
}

/// The names that the pieces of a text leave, each after a slash.
pub(super) fn read_names(alloc: Global, src: &[u8]) -> Result<Vec<u8>, ParseError>
    ensures { MatchResult result (λ buf. Kept (pieces_of src.now) buf.items)
        (IsRefusedBy (pieces_of src.now)) }
{
    let mut buf = Vec::new(alloc);
    for piece in before_query(src).split(|b| *b == b'/') {
        add_piece(&mut buf, piece)?;
    }
    Ok(buf)
}

/// Adds the slash at the end of a path that is closed or has no names.
pub(super) fn close(buf: &mut Vec<u8>, closed: bool) -> Result<(), ParseError>
    ensures ok { OnOk result ((names : Path) → buf.old.items ≡ joined names → buf.new.items
        ≡ path_bytes names closed) }
    ensures err { IfErr result (λ e. e ≡ ParseError.Memory) }
{
    if closed || buf.is_empty() {
        buf.push(b'/')?;
    }
    Ok(())
}

fn is_text(src: &[u8]) -> bool
    ensures { IsTrue result ↔ All IsTextByte src.now }
{
    src.iter().all(|b| matches!(*b, 32..=126) && *b != b'#')
}

/// Whether a text can name a path.
pub(super) fn is_rooted(src: &[u8]) -> bool
    ensures { IsTrue result ↔ IsRooted src.now }
{
    matches!(src, [b'/', ..]) && is_text(src)
}

/// Whether a text ends in a slash.
pub(super) fn ends_in_slash(text: &[u8]) -> bool
    ensures { IsClosed text.now result }
{
    match text {
        [.., b'/'] => true,
        _ => false,
    }
}
