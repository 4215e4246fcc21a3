//! Values of the field Authorization.
use super::{marked, parts};
use dav_access::credentials_of;
use std::alloc::{AllocError, Global};
use std::test::Fail;

// A field's value, and the name and the password that it shows; `!` where it shows none.
const ROWS: &str = "\
# the examples of RFC 7617, sections 2 and 2.1
Basic QWxhZGRpbjpvcGVuIHNlc2FtZQ== -> Aladdin|open sesame
Basic dGVzdDoxMjPCow== -> test|123£
# the scheme in letters of either case, and spaces
basic YW5uYTp4 -> anna|x
BASIC YW5uYTp4 -> anna|x
bAsIc YW5uYTp4 -> anna|x
Basic    YW5uYTp4 -> anna|x
BasicYW5uYTp4 -> !
Basic ⇥YW5uYTp4 -> !
Basic⇥YW5uYTp4 -> !
 Basic YW5uYTp4 -> !
Digest YW5uYTp4 -> !
Basics YW5uYTp4 -> !
Basic -> !
Basic  -> !
# colons: the first ends the name
Basic YW5uYTp4Onk= -> anna|x:y
Basic Ong= -> |x
Basic YW5uYTo= -> anna|
Basic YW5uYQ== -> !
# Base64 (RFC 4648, section 4): padded, without bits that are left, of its alphabet
Basic YW5uYTp4eQ== -> anna|xy
Basic YW5uYTp4eQ -> !
Basic YW5uYTp4eR== -> !
Basic YW5uYTp4eQ= -> !
Basic YW5uYTp4eQ=== -> !
Basic YW5uYTp4eQ== == -> !
Basic YW5u YTp4eQ== -> !
Basic YW5uYTp4eQ==⇥ -> !
Basic YTo_Pz8_ -> !
Basic YTo/Pz8/ -> a|????
Basic YTo-Pj4- -> !
Basic YTo+Pj4+ -> a|>>>>
# not in UTF-8: a colon and the byte E9, and it in ISO 8859-1
Basic Oek= -> !
Basic dGVzdDoxMjOj -> !
";

// The name and the password that a value shows.
fn shown(alloc: Global, value: &str) -> Result<String, AllocError> {
    match credentials_of(alloc, value.as_bytes())? {
        Some(shown) => format!(in alloc; "{}|{}", shown.name, shown.password),
        None => String::from_str(alloc, "!"),
    }
}

#[test]
fn credentials_are_read(rt: HostRuntime) -> Result<(), Fail> {
    for row in ROWS.lines() {
        if let Some((value, wanted)) = parts(row) {
            let value = marked(rt.alloc(), value)?;
            let found = shown(rt.alloc(), &value)?;
            assert!(&rt; found.as_str() == wanted, "{row}\ngives: {found}");
        }
    }
    Ok(())
}
