//! Bodies whose element tree would be far larger than they are.
ghost use Rattle.std.specs.Prelude.{◌≡◌, ◌==◌, ◌<◌, length, unwrap_or};
ghost use Rattle.std.specs.Bool.{Decides};
ghost use Rattle.std.specs.List.{position};
ghost use Rattle.dav_live.specs.Swollen.{IsSwollen, IsSwollenAt, is_quote, marks, quoted_at};

/// The most bytes that the namespaces of all elements and attributes may come to: 32 MiB.
const MOST: usize = 33_554_432;

// Whether a byte is a quotation mark.
fn is_quote(byte: u8) -> bool
    ensures { result ≡ is_quote byte }
{
    byte == b'"' || byte == b'\''
}

// Where the first byte like this one is.
fn place_of(bytes: &[u8], byte: u8) -> Option<usize>
    ensures { result ≡ position (λ b. b == byte) bytes.now }
{
    bytes.iter().position(|b| *b == byte)
}

// How many bytes come before the first one like this one; all where there is none.
fn before(bytes: &[u8], byte: u8) -> usize
    ensures { result ≡ unwrap_or (position (λ b. b == byte) bytes.now) (length bytes.now) }
{
    place_of(bytes, byte).unwrap_or(bytes.len())
}

// How many bytes begin an element, end one, or follow the name of an attribute.
fn marks(bytes: &[u8]) -> usize
    ensures { result ≡ marks bytes.now }
{
    bytes.iter().filter(|b| **b == b'<' || **b == b'=').count()
}

// How many bytes follow the one at a place, up to the next one like it, or up to the end.
fn quoted_at(bytes: &[u8], place: usize) -> usize
    requires { place < length bytes.now }
    ensures { result ≡ quoted_at bytes.now place }
{
    before(&bytes[place + 1..], bytes[place])
}

// Whether a quotation mark is at a place behind which so much comes that as many names with it as this come to too much.
fn is_swollen_at(bytes: &[u8], place: usize, marks: usize) -> bool
    requires { place < length bytes.now }
    ensures { Decides result (IsSwollenAt bytes.now place marks) }
{
    is_quote(bytes[place]) && quoted_at(bytes, place).saturating_mul(marks) > MOST
}

/// Whether the element tree that bytes encode could be far larger than they are.
pub fn is_swollen(bytes: &[u8]) -> bool
    ensures { Decides result (IsSwollen bytes.now) }
{
    let marks = marks(bytes);
    for place in 0..bytes.len() {
        if is_swollen_at(bytes, place, marks) {
            return true;
        }
    }
    false
}
