//! The text of a head (RFC 9112, sections 3 and 5).
ghost use Rattle.std.specs.Prelude.{◌≡◌, ◌++◌, ◌∷◌, ◌≤◌, ◌==◌, ◌&&◌, not, if◌then◌else◌, [], IfOk, OnOk, codes, false, flat_map, length, true};
ghost use Rattle.std.specs.List.{list_any};
ghost use Rattle.httparse.specs.Ascii.{crlf_bytes};
ghost use Rattle.dav_server.specs.Head.{is_same_name};
ghost use Rattle.dav_http.specs.Kept.{addressed, depth_field, is_kept, is_rooted, kept_field, kept_fields, left_out, timeout_field};
ghost use Rattle.dav_http.specs.HeadText.{field_line, head_text, request_line};

use dav_server::head::{MOST_FIELDS, RequestView};
use std::alloc::{AllocError, Global};

// Whether the names are the same, in letters of either case.
fn is_same(name: &[u8], other: &[u8]) -> bool
    ensures { result ≡ is_same_name name.now other.now }
{
    name.eq_ignore_ascii_case(other)
}

// Whether fields with this name speak of the connection or show who asks.
fn is_left_out(name: &[u8]) -> bool
    ensures { result ≡ list_any (is_same_name name.now) left_out }
{
    is_same(name, b"authorization")
        || is_same(name, b"proxy-authorization")
        || is_same(name, b"cookie")
        || is_same(name, b"host")
        || is_same(name, b"transfer-encoding")
}

// Whether fields with this name are kept.
fn is_kept(is_lock: bool, name: &[u8]) -> bool
    ensures { result ≡ is_kept is_lock name.now }
{
    !(is_left_out(name) || (is_lock && is_same(name, b"timeout")))
}

// Adds a request line (RFC 9112, section 3).
fn put_line(out: &mut Vec<u8>, method: &[u8], target: &str) -> Result<(), AllocError>
    ensures { OnOk result (out.new.items ≡ out.old.items ++ request_line method.now target.now) }
{
    out.extend_from_slice(method)?;
    out.push(b' ')?;
    out.extend_from_slice(target.as_bytes())?;
    out.extend_from_slice(b" HTTP/1.1\r\n")
}

// Adds the name of a field, and its colon.
fn put_name(out: &mut Vec<u8>, name: &[u8]) -> Result<(), AllocError>
    ensures { OnOk result (out.new.items ≡ out.old.items ++ name.now ++ 58 ∷ []) }
{
    out.extend_from_slice(name)?;
    Ok(out.push(b':')?)
}

// Adds a field line (RFC 9112, section 5).
fn put_field(out: &mut Vec<u8>, name: &[u8], value: &[u8]) -> Result<(), AllocError>
    ensures { OnOk result (out.new.items ≡ out.old.items ++ field_line (name.now, value.now)) }
{
    put_name(out, name)?;
    out.extend_from_slice(value)?;
    out.extend_from_slice(b"\r\n")
}

// Whether a text begins with a slash.
fn is_rooted(text: &[u8]) -> bool
    ensures { result ≡ is_rooted text.now }
{
    match text.first() {
        Some(byte) => *byte == b'/',
        None => false,
    }
}

// Whether this byte of an If begins an address that is written as a path.
fn begins_path(quoted: bool, byte: u8, rest: &[u8]) -> bool
    ensures { result ≡ (not quoted && (byte == 60 && is_rooted rest.now)) }
{
    !quoted && (byte == b'<' && is_rooted(rest))
}

// Adds a byte of an If; a scheme and a host besides where it begins an address that is written as a path.
fn put_byte(out: &mut Vec<u8>, quoted: bool, byte: u8, rest: &[u8]) -> Result<(), AllocError>
    ensures { OnOk result (out.new.items ≡ out.old.items
        ++ (if not quoted && (byte == 60 && is_rooted rest.now) then codes "<http://localhost"
        else byte ∷ [])) }
{
    if begins_path(quoted, byte, rest) {
        out.extend_from_slice(b"<http://localhost")
    } else {
        Ok(out.push(byte)?)
    }
}

// Whether a quote is open behind a byte.
fn is_quoted_behind(quoted: bool, byte: u8) -> bool
    ensures { result ≡ (if byte == 34 then not quoted else quoted) }
{
    if byte == b'"' { !quoted } else { quoted }
}

// Adds the bytes of an If, in which each address of a resource is a whole URL.
fn put_addressed(out: &mut Vec<u8>, value: &[u8]) -> Result<(), AllocError>
    ensures { OnOk result (out.new.items ≡ out.old.items ++ addressed false value.now) }
{
    let mut quoted = false;
    let mut rest = value;
    while let Some((byte, after)) = rest.split_first() {
        put_byte(out, quoted, *byte, after)?;
        quoted = is_quoted_behind(quoted, *byte);
        rest = after;
    }
    Ok(())
}

// Adds the line of an If, in which each address of a resource is a whole URL (RFC 4918, section 10.4).
fn put_if(out: &mut Vec<u8>, name: &[u8], value: &[u8]) -> Result<(), AllocError>
    ensures { OnOk result (out.new.items
        ≡ out.old.items ++ field_line (name.now, addressed false value.now)) }
{
    put_name(out, name)?;
    put_addressed(out, value)?;
    out.extend_from_slice(b"\r\n")
}

// Adds the line of a field that is kept.
fn put_kept(out: &mut Vec<u8>, name: &[u8], value: &[u8]) -> Result<(), AllocError>
    ensures { OnOk result (out.new.items
        ≡ out.old.items ++ field_line (kept_field (name.now, value.now))) }
{
    if is_same(name, b"if") {
        put_if(out, name, value)
    } else {
        put_field(out, name, value)
    }
}

// Adds the fields of a head that are kept.
fn put_fields(out: &mut Vec<u8>, view: &RequestView<'_>, is_lock: bool) -> Result<(), AllocError>
    requires { length view.now.fields ≤ 64 }
    ensures { OnOk result (out.new.items
        ≡ out.old.items ++ flat_map field_line (kept_fields is_lock view.now.fields)) }
{
    for place in 0..MOST_FIELDS {
        let Some((name, value)) = view.field(place) else {
            break;
        };
        if is_kept(is_lock, name) {
            put_kept(out, name, value)?;
        }
    }
    Ok(())
}

// Adds a Timeout of so many seconds (RFC 4918, section 10.7).
fn put_timeout(alloc: Global, out: &mut Vec<u8>, seconds: u32) -> Result<(), AllocError>
    ensures { OnOk result (out.new.items ≡ out.old.items ++ field_line (timeout_field seconds)) }
{
    let value = format!(in alloc; "Second-{seconds}")?;
    put_field(out, b"timeout", value.as_bytes())
}

// Adds the empty line at the end of a head (RFC 9112, section 2.1).
fn put_end(out: &mut Vec<u8>) -> Result<(), AllocError>
    ensures { OnOk result (out.new.items ≡ out.old.items ++ crlf_bytes) }
{
    out.extend_from_slice(b"\r\n")
}

// The request line and the fields of a head that are kept.
fn started(alloc: Global, view: &RequestView<'_>, is_lock: bool) -> Result<Vec<u8>, AllocError>
    requires { length view.now.fields ≤ 64 }
    ensures { IfOk result (λ t. t.items ≡ request_line view.now.method view.now.target
        ++ flat_map field_line (kept_fields is_lock view.now.fields)) }
{
    let mut out = Vec::new(alloc);
    put_line(&mut out, view.method(), view.target())?;
    put_fields(&mut out, view, is_lock)?;
    Ok(out)
}

// A head with its end.
fn ended(out: Vec<u8>) -> Result<Vec<u8>, AllocError>
    ensures { IfOk result (λ t. t.items ≡ out.items ++ crlf_bytes) }
{
    let mut out = out;
    put_end(&mut out)?;
    Ok(out)
}

/// A head with the request line and the fields of another that are kept.
pub fn other_text(alloc: Global, view: &RequestView<'_>) -> Result<Vec<u8>, AllocError>
    requires { length view.now.fields ≤ 64 }
    ensures { IfOk result (λ t. t.items ≡ head_text view.now.method view.now.target
        (kept_fields false view.now.fields)) }
{
    ended(started(alloc, view, false)?)
}

/// The head of a PROPFIND with the request line and the fields of another that are kept, and a Depth of 1 (RFC 4918, section 10.2).
pub fn depth_text(alloc: Global, view: &RequestView<'_>) -> Result<Vec<u8>, AllocError>
    requires { length view.now.fields ≤ 64 }
    ensures { IfOk result (λ t. t.items ≡ head_text view.now.method view.now.target
        (kept_fields false view.now.fields ++ depth_field ∷ [])) }
{
    let mut out = started(alloc, view, false)?;
    put_field(&mut out, b"depth", b"1")?;
    ended(out)
}

/// The head of a LOCK with the request line and the fields of another that are kept, and a Timeout of so many seconds.
pub fn lock_text(alloc: Global, view: &RequestView<'_>, seconds: u32) -> Result<Vec<u8>, AllocError>
    requires { length view.now.fields ≤ 64 }
    ensures { IfOk result (λ t. t.items ≡ head_text view.now.method view.now.target
        (kept_fields true view.now.fields ++ timeout_field seconds ∷ [])) }
{
    let mut out = started(alloc, view, true)?;
    put_timeout(alloc, &mut out, seconds)?;
    ended(out)
}
