//! The head of a request, as bytes (RFC 9112, sections 2 to 5; RFC 9110, section 5).

ghost use Rattle.std.specs.Prelude.{◌≡◌, ◌≤◌, ◌<◌, [], MatchOption, get_or, length};
ghost use Rattle.std.specs.Iterator.{YieldsFirstRef, item_count};
ghost use Rattle.dav_server.specs.Head.{is_same_name, values_of};

mod headers;
mod read;
#[cfg(test)]
mod tests;

pub use headers::headers_of;
use httparse::spans::HeaderSpan;
pub use read::read_head;
use std::marker::Model;

/// The most bytes that a head has.
pub const MOST_BYTES: usize = 65_536;
/// The most fields that a head has.
pub const MOST_FIELDS: usize = 64;

/// What a head says, in slices of its bytes.
#[derive(Drop)]
pub struct RequestView<'a> {
    head: &'a [u8],
    method: &'a [u8],
    target: &'a str,
    headers: [HeaderSpan; MOST_FIELDS],
    count: usize,
}

impl<'a> Model for RequestView<'a> {
    ghost use Rattle.std.specs.Prelude.{◌≤◌, length, map, take, All};
    ghost use Rattle.httparse.specs.Spans.{IsHeaderWithin, header_bytes};
    ghost use Rattle.dav_server.specs.Head.{Request, AreFields};

    ghost Value = { Request };

    ghost view = { λ v. record {
      method = v.method.now;
      target = v.target.now;
      fields = map (header_bytes v.head.now) (take v.count v.headers);
    } };

    ghost use Rattle.dav_server.specs.HeadInside.{IsView};

    ghost invariant = { λ v. IsView v };
}

impl<'a> RequestView<'a> {
    /// The method, as it is in the request line (RFC 9112, section 3.1).
    pub fn method(&self) -> &'a [u8]
        ensures { result.now ≡ self.now.method }
    {
        self.method
    }

    /// The target, as it is in the request line (RFC 9112, section 3.2).
    pub fn target(&self) -> &'a str
        ensures { result.now ≡ self.now.target }
    {
        self.target
    }

    /// The name and the value of the field at this place, the first of which is 0; none where there are fewer. The value has no
    /// optional whitespace (OWS) around it (RFC 9110, section 5).
    pub fn field(&self, place: usize) -> Option<(&'a [u8], &'a [u8])>
        ensures { MatchOption result (length self.now.fields ≤ place)
            (λ f. (place < length self.now.fields)
            × (get_or self.now.fields place ([], []) ≡ (f.0.now, f.1.now))) }
    {
        let header = self.headers[..self.count].get(place)?;
        Some((header.name.of(self.head), header.value.of(self.head)))
    }

    /// The values of the fields with this name, in order, without the optional whitespace (OWS) around them. ASCII case
    /// makes no difference in a name (RFC 9110, section 5.1).
    pub fn values<'n>(&'n self, name: &'n str) -> Values<'a, 'n>
        ensures { result ≡ values_of name.now self.now.fields }
    {
        Values {
            head: self.head,
            name,
            rest: &self.headers[..self.count],
        }
    }
}

fn is_same_name(a: &[u8], b: &str) -> bool
    ensures { result ≡ is_same_name a.now b.now }
{
    a.eq_ignore_ascii_case(b.as_bytes())
}

/// The values of the fields with one name, in order.
#[derive(Drop)]
pub struct Values<'a, 'n> {
    head: &'a [u8],
    name: &'n str,
    rest: &'n [HeaderSpan],
}

impl<'a, 'n> Model for Values<'a, 'n> {
    ghost use Rattle.std.specs.Prelude.{ℕ, List, length, map, All};
    ghost use Rattle.httparse.specs.Spans.{IsHeaderWithin, header_bytes};
    ghost use Rattle.dav_server.specs.Head.{values_of};

    ghost Value = { List (List ℕ) };

    ghost view = { λ v. values_of v.name.now (map (header_bytes v.head.now) v.rest.now) };

    ghost invariant = { λ v. All (IsHeaderWithin (length v.head.now)) v.rest.now };
}

impl<'a, 'n> Iterator for Values<'a, 'n> {
    type Item = &'a [u8];

    ghost next_gives = { YieldsFirstRef (λ values. values) };

    ghost remaining = { item_count (λ values. values) };

    fn next(&mut self) -> Option<&'a [u8]> {
        while let Some((header, rest)) = self.rest.split_first() {
            self.rest = rest;
            let name = header.name.of(self.head);
            if is_same_name(name, self.name) {
                return Some(header.value.of(self.head));
            }
        }
        None
    }
}
