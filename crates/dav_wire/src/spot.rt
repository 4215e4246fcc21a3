//! Where a reader is in the chunks of a body (RFC 9112, section 7.1).
ghost use Rattle.std.specs.Prelude.{◌≡◌};
ghost use Rattle.dav_wire.specs.Spots.{after_line, next_spot, spot_after, to_come};

use httparse::parse_hex_digit;

/// A place between two bytes of chunks. It keeps how much is to come, which `http1` has and doesn't tell.
#[derive(Clone, Copy, Debug, PartialEq, Eq)]
pub(crate) enum Spot {
    /// Before or within the digits of a size: those that came are this number.
    Size(u64),
    /// After the digits of a size, in its line; or in the line end after a chunk's data, where it is 0.
    Line(u64),
    /// Within the data of a chunk, of which so many bytes are to come; or after it, before its line end.
    Data(u64),
}

// The place after the line of a size, or, where it is 0, after a chunk.
fn after_line(size: u64) -> Spot
    ensures { result ≡ after_line size }
{
    if size == 0 {
        Spot::Size(0)
    } else {
        Spot::Data(size)
    }
}

impl Spot {
    /// How many bytes of a chunk's data are to come, once the line of its size came.
    pub(crate) fn to_come(self) -> u64
        ensures { result ≡ to_come self }
    {
        match self {
            Spot::Data(left) => left,
            _ => 0,
        }
    }

    // The place after one byte.
    fn next(self, byte: u8) -> Spot
        ensures { result ≡ next_spot self byte }
    {
        match self {
            Spot::Size(size) => match parse_hex_digit(byte) {
                Some(digit) if size < 1 << 60 => Spot::Size(size * 16 + digit),
                _ => Spot::Line(size),
            },
            Spot::Line(size) if byte == b'\n' => after_line(size),
            Spot::Line(size) => Spot::Line(size),
            Spot::Data(0) => Spot::Line(0),
            Spot::Data(left) => Spot::Data(left - 1),
        }
    }

    /// The place after these bytes.
    pub(crate) fn after(self, bytes: &[u8]) -> Spot
        ensures { result ≡ spot_after self bytes.now }
    {
        let (mut spot, mut at) = (self, 0usize);
        while at < bytes.len() {
            let data = spot.to_come().min((bytes.len() - at) as u64);
            if data > 0 {
                spot = Spot::Data(spot.to_come() - data);
                at += data as usize;
            } else {
                spot = spot.next(bytes[at]);
                at += 1;
            }
        }
        spot
    }
}
