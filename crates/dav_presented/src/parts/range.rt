//! Byte ranges (RFC 9110, section 14.1.2).
ghost use Rattle.std.specs.Prelude.{◌≡◌, ◌<◌, ◌≤◌, length, IfOk};
ghost use Rattle.dav_presented.specs.Range.{bytes_between, part_of, IsSpec, IsWithin};

use bytes::Bytes as Shared;
use std::alloc::AllocError;

/// One range of bytes, as a Range names it (RFC 9110, section 14.1.1). Places count from 0.
#[derive(Clone, Copy, Debug, PartialEq, Eq)]
pub enum Spec {
    /// `5-`: from a place on.
    From(usize),
    /// `5-9`: from one place to another, both among them.
    Between(usize, usize),
    /// `-5`: so many bytes at the end.
    Suffix(usize),
}

/// What a range asks of a representation (RFC 9110, section 14.1.2).
#[derive(Clone, Copy, Debug, PartialEq, Eq)]
pub enum Part {
    /// All of its bytes, of which there are none.
    Whole,
    /// The bytes from one place to another, both among them.
    Bytes(usize, usize),
    /// No byte is in the range.
    Unsatisfiable,
}

/// What a range asks of a representation of `len` bytes (RFC 9110, section 14.1.2): of a range that
/// ends behind the last byte those that are there, of a suffix that is too long all of them.
pub fn part_of(spec: Spec, len: usize) -> Part
    requires { IsSpec spec }
    ensures is { result ≡ part_of spec len }
    ensures within { IsWithin len result }
{
    match spec {
        Spec::From(first) if first < len => Part::Bytes(first, len - 1),
        Spec::Between(first, last) if first < len => Part::Bytes(first, last.min(len - 1)),
        Spec::From(_) | Spec::Between(_, _) => Part::Unsatisfiable,
        Spec::Suffix(0) => Part::Unsatisfiable,
        Spec::Suffix(_) if len == 0 => Part::Whole,
        Spec::Suffix(count) => Part::Bytes(len - count.min(len), len - 1),
    }
}

/// The bytes from one place to another, both among them (RFC 9110, section 14.1.2). The bytes
/// themselves are shared, not copied; `Err` where there is no memory to share them.
pub fn shown(body: &Shared, first: usize, last: usize) -> Result<Shared, AllocError>
    requires { (first ≤ last) × (last < length body.now) }
    ensures { IfOk result (λ part. part ≡ bytes_between first last body.now) }
{
    let len = body.len();
    let end = if last < len { last + 1 } else { len };
    body.slice(first..end)
}
