//! Tokens of locks, and lines of the log.
use super::unescaped;
use crate::line::{Answered, line_of};
use crate::token::token_text;
use std::alloc::{AllocError, Global};
use std::test::Fail;

/// Sixteen random bytes, as two digits each, and a number: the token. The digests are those of `openssl dgst -sha256` over the random
/// bytes and the eight of the number. By RFC 9562, sections 4.1, 4.2 and 5.8: the four highest bits of byte 6 are 1000, the version, and
/// the two highest of byte 8 are 10, the variant.
const TOKENS: &str = "\
# the digests begin with 818638ad150c9042, 112ac280cda01f4c and 8e87288ec6709484: of one token the next isn't seen
000102030405060708090a0b0c0d0e0f 0 -> urn:uuid:818638ad-150c-8000-8200-000000000000
000102030405060708090a0b0c0d0e0f 1 -> urn:uuid:112ac280-cda0-8f00-8c00-000000000001
000102030405060708090a0b0c0d0e0f 2 -> urn:uuid:8e87288e-c670-8400-8400-000000000002
# 234db4e93950f6fb
000102030405060708090a0b0c0d0e0f 72623859790382856 -> urn:uuid:234db4e9-3950-8601-bb02-030405060708
# each random byte counts: 8f56e6cc94f48e81 and 2749514cb59d50f8
000102030405060708090a0b0c0d0e0e 1 -> urn:uuid:8f56e6cc-94f4-8e00-8100-000000000001
010102030405060708090a0b0c0d0e0f 1 -> urn:uuid:2749514c-b59d-8000-b800-000000000001
# each byte of the number counts, twice: 9d908ecfb6b256de, 0fba003e5d627560, c8fbb61313593757, 85526ba79728a470, a8fcff1e96727411 and
# 47a154dee35bba6e
00000000000000000000000000000000 0 -> urn:uuid:9d908ecf-b6b2-8600-9e00-000000000000
00000000000000000000000000000000 18446744073709551615 -> urn:uuid:0fba003e-5d62-85ff-a0ff-ffffffffffff
00000000000000000000000000000000 9223372036854775808 -> urn:uuid:c8fbb613-1359-8780-9700-000000000000
00000000000000000000000000000000 72057594037927936 -> urn:uuid:85526ba7-9728-8401-b000-000000000000
00000000000000000000000000000000 281474976710656 -> urn:uuid:a8fcff1e-9672-8400-9101-000000000000
00000000000000000000000000000000 281474976710655 -> urn:uuid:47a154de-e35b-8a00-ae00-ffffffffffff
# 596d8eb33ca3bd38 and 44a5f7891570e563
ffffffffffffffffffffffffffffffff 0 -> urn:uuid:596d8eb3-3ca3-8d00-b800-000000000000
ffffffffffffffffffffffffffffffff 18446744073709551615 -> urn:uuid:44a5f789-1570-85ff-a3ff-ffffffffffff
";

/// Moment, status and bytes; address, user, method and target, in which `^` is CRLF: the line. Dates by RFC 3339, escapes by
/// RFC 3986, section 2.1.
const LINES: &str = "\
0 200 0 | 127.0.0.1 | anna | GET | / -> 1970-01-01T00:00:00Z 127.0.0.1 anna GET / 200 0
951782399 201 0 | ::1 | bert | PUT | /a -> 2000-02-28T23:59:59Z ::1 bert PUT /a 201 0
951868799 204 0 | ::1 | bert | PUT | /a -> 2000-02-29T23:59:59Z ::1 bert PUT /a 204 0
1893553445 207 4158 | 10.0.0.1 | - | PROPFIND | /a%20b -> 2030-01-02T03:04:05Z 10.0.0.1 - PROPFIND /a%20b 207 4158
4107542399 500 18446744073709551615 | h | u | M | t -> 2100-02-28T23:59:59Z h u M t 500 18446744073709551615
18446744073709551615 200 0 | h | u | M | t -> - h u M t 200 0
0 401 0 |  |  |  |  -> 1970-01-01T00:00:00Z - - - - 401 0
0 401 0 | h | an na | M | t -> 1970-01-01T00:00:00Z h an%20na M t 401 0
0 401 0 | h | anna^2030-01-02T03:04:05Z h root GET / 200 0 | M | t -> 1970-01-01T00:00:00Z h anna%0D%0A2030-01-02T03:04:05Z%20h%20root%20GET%20/%20200%200 M t 401 0
0 401 0 | h | \t\u{1}\u{7f} | M | t -> 1970-01-01T00:00:00Z h %09%01%7F M t 401 0
0 401 0 | h | żółć | M | t -> 1970-01-01T00:00:00Z h %C5%BC%C3%B3%C5%82%C4%87 M t 401 0
0 200 5 | h | a%b\"c\\'<>| | G=T | /x?y#z -> 1970-01-01T00:00:00Z h a%b\"c\\'<>| G=T /x?y#z 200 5
";

// The bytes of two digits each.
fn random_in(digits: &str) -> [u8; 16] {
    let mut bytes = [0u8; 16];
    for (place, byte) in bytes.iter_mut().enumerate() {
        let from = place.saturating_mul(2);
        let digits = digits.get(from..from.saturating_add(2)).unwrap_or("");
        *byte = u8::from_str_radix(digits, 16).unwrap_or(0);
    }
    bytes
}

// The line of a row.
fn line_in(alloc: Global, input: &str) -> Result<String, Fail> {
    let mut parts = input.split(" | ");
    let mut numbers = parts.next().unwrap_or("").split(' ');
    let moment = numbers.next().unwrap_or("").parse::<u64>()?;
    let status = numbers.next().unwrap_or("").parse::<u16>()?;
    let count = numbers.next().unwrap_or("").parse::<usize>()?;
    let address = unescaped(alloc, parts.next().unwrap_or(""))?;
    let user = unescaped(alloc, parts.next().unwrap_or(""))?;
    let told = Answered {
        moment,
        address: &address,
        user: &user,
        method: parts.next().unwrap_or("").as_bytes(),
        target: parts.next().unwrap_or("").as_bytes(),
        status,
        bytes: count,
    };
    Ok(line_of(alloc, &told)?)
}

#[test]
fn tokens_and_lines_are_these(rt: HostRuntime) -> Result<(), Fail> {
    for row in TOKENS.lines() {
        if let Some((input, wanted)) = row.rsplit_once(" -> ") {
            let (digits, number) = input.split_once(' ').ok_or("a row without a number")?;
            let number = number.parse::<u64>()?;
            let found = token_text(rt.alloc(), &random_in(digits), number)?;
            assert!(&rt; found.as_str() == wanted, "{row}\ngives: {found}");
        }
    }
    for row in LINES.lines() {
        if let Some((input, wanted)) = row.rsplit_once(" -> ") {
            let found = line_in(rt.alloc(), input)?;
            assert!(&rt; found.as_str() == wanted, "{row}\ngives: {found}");
        }
    }
    Ok(())
}
