//! The reports of the front and the orders to it. Numbers are little-endian.
ghost use Rattle.std.specs.Prelude.{◌≡◌, ◌<◌, ◌^◌, ◌++◌, ◌∷◌, [], IsTrue, IsFalse, OnOk, length};
ghost use Rattle.std.specs.Int.{w32, w64, to_le_bytes};
ghost use Rattle.dav_turns.specs.Frames.{Begins, BeginsWith, IsHead, ReportView, head_bytes, order_bytes};

use std::alloc::AllocError;

/// The front began, with random bytes.
pub const HELLO: u8 = 0;
/// A connection came, from the address that the bytes are.
pub const OPENED: u8 = 1;
/// Bytes came on a connection; none are its end.
pub const GOT: u8 = 2;
/// What was ordered to be sent is sent.
pub const SENT: u8 = 3;
/// A connection is gone.
pub const GONE: u8 = 4;
/// A second passed.
pub const TICK: u8 = 5;
/// The list of the users was written anew: its bytes.
pub const USERS: u8 = 6;
/// So many bytes are free for files: eight bytes.
pub const ROOM: u8 = 7;

/// Report when the bytes are sent.
pub const TELL: u8 = 0;
/// Send the bytes, then read once: nothing of a request came.
pub const READ: u8 = 1;
/// Send the bytes, then close.
pub const CLOSE: u8 = 2;
/// Send the bytes, then read once: a part of a head came.
pub const READ_HEAD: u8 = 3;
/// Send the bytes, then read once: a head came, and its body isn't whole.
pub const READ_BODY: u8 = 4;

/// The bytes of a report before those that came.
pub const HEAD: usize = 25;

/// The most bytes that a report has.
pub const MOST: usize = 65_536;

/// A report: the slot of a connection, what happened there, when, in the seconds of a clock that goes
/// on steadily and is never set, and in seconds since 1970 by the date, and the bytes that came.
#[derive(Clone, Copy, Debug)]
pub struct Report<'r> {
    pub slot: u32,
    pub kind: u8,
    pub seconds: u64,
    pub date: u64,
    pub bytes: &'r [u8],
}

/// What bytes begin with.
#[derive(Clone, Copy, Debug)]
pub enum Next<'r> {
    /// A whole report.
    Whole(Report<'r>),
    /// The beginning of one, or nothing.
    Part,
    /// No report: it has too many bytes.
    Wrong,
}

// The head of a report, with the count of the bytes that follow.
#[derive(Clone, Copy, Debug)]
struct Head {
    slot: u32,
    kind: u8,
    len: usize,
    seconds: u64,
    date: u64,
}

/// What the input begins with.
pub fn next_in(input: &[u8]) -> Next<'_>
    ensures { Begins input.now result }
{
    let Some(head) = input.get(..HEAD) else {
        return Next::Part;
    };
    let head = head_in(head);
    if head.len > MOST {
        return Next::Wrong;
    }
    let rest = &input[HEAD..];
    if rest.len() < head.len {
        return Next::Part;
    }
    Next::Whole(Report {
        slot: head.slot,
        kind: head.kind,
        seconds: head.seconds,
        date: head.date,
        bytes: &rest[..head.len],
    })
}

/// Whether bytes begin with a whole report.
#[tactic(auto, using(crate::proofs::Readings::none_begun))]
pub fn has_report(bytes: &[u8]) -> bool
    ensures some { IsTrue result → (t : ReportView) × BeginsWith bytes.now t }
    ensures none { IsFalse result → (t : ReportView) → BeginsWith bytes.now t → ⊥ }
{
    match next_in(bytes) {
        Next::Whole(_) => true,
        Next::Part => false,
        Next::Wrong => false,
    }
}

// Reads the head of a report.
fn head_in(bytes: &[u8]) -> Head
    requires { length bytes.now ≡ HEAD }
    ensures bytes { bytes.now ≡ head_bytes result.slot result.kind result.len result.seconds
        result.date }
    ensures fits { IsHead result.slot result.len result.seconds result.date }
{
    let (front, clocks) = bytes.split_at(9);
    let (seconds, date) = clocks.split_at(8);
    let (slot, kind, len) = front_in(front);
    Head {
        slot,
        kind,
        len,
        seconds: number_in(seconds),
        date: number_in(date),
    }
}

// The slot, the kind and the length in the first bytes of a report.
fn front_in(bytes: &[u8]) -> (u32, u8, usize)
    requires { length bytes.now ≡ 9 }
    ensures bytes { bytes.now
        ≡ to_le_bytes w32 result.0 ++ result.1 ∷ [] ++ to_le_bytes w32 result.2 }
    ensures fits { result.2 < 2 ^ 32 }
{
    match bytes {
        [a, b, c, d, kind, e, f, g, h] => (
            u32::from_le_bytes([*a, *b, *c, *d]),
            *kind,
            u32::from_le_bytes([*e, *f, *g, *h]) as usize,
        ),
        _ => (0, TICK, 0),
    }
}

// The number of eight bytes.
fn number_in(bytes: &[u8]) -> u64
    requires { length bytes.now ≡ 8 }
    ensures { bytes.now ≡ to_le_bytes w64 result }
{
    match bytes {
        [a, b, c, d, e, f, g, h] => u64::from_le_bytes([*a, *b, *c, *d, *e, *f, *g, *h]),
        _ => 0,
    }
}

/// Adds an order: to send bytes on a connection, and what to do then.
pub fn add_order(output: &mut Vec<u8>, slot: u32, next: u8, bytes: &[u8]) -> Result<(), AllocError>
    requires { length bytes.now < 2 ^ 32 }
    ensures { OnOk result (output.new.items ≡ output.old.items
        ++ order_bytes (record { slot = slot; next = next; bytes = bytes.now })) }
{
    output.extend_from_slice(&slot.to_le_bytes())?;
    output.push(next)?;
    output.extend_from_slice(&(bytes.len() as u32).to_le_bytes())?;
    output.extend_from_slice(bytes)
}
