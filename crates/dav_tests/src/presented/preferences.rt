//! What a request says of how much it wants to be told.
use super::{halves, values};
use dav_presented::preferences::leaves_out_missing;
use std::alloc::Global;
use std::test::Fail;

// The fields of a request, and whether it isn't told of what isn't there (RFC 7240, sections 2 and 4.2, of which the examples are; RFC 8144,
// section 2.1; MS-WDVME, section 2.2).
const ROWS: &str = "\
Prefer: return=minimal -> yes
Prefer: return=representation -> no
Accept: text/xml -> no
Prefer: -> no
# several preferences, and several fields
Prefer: respond-async, wait=100, return=minimal -> yes
Prefer: return=minimal, depth-noroot -> yes
Prefer: depth-noroot,return=minimal -> yes
Prefer: wait=10 | Prefer: return=minimal -> yes
Prefer: return=minimal | Prefer: wait=10 -> yes
Prefer: handling=lenient | Prefer: wait=100 | Prefer: respond-async -> no
# of several of one name the first counts
Prefer: return=representation, return=minimal -> no
Prefer: return=minimal, return=representation -> yes
Prefer: return=representation | Prefer: return=minimal -> no
# letters of either case, white space around, parameters
Prefer: Return=Minimal -> yes
Prefer:   return = minimal   ,  wait=1 -> yes
Prefer: return=minimal; foo=bar -> yes
Prefer: return=minimal;foo, wait=1 -> yes
Prefer: foo; return=minimal -> no
Prefer: foo; bar=return=minimal -> no
# what isn't understood asks for nothing
Prefer: return -> no
Prefer: return= -> no
Prefer: return=minimal=1 -> no
Prefer: returns=minimal -> no
Prefer: minimal -> no
Prefer: return minimal -> no
Prefer: foo=\"a, return=minimal\" -> no
Prefer: foo=\"a\" | Prefer: return=minimal -> yes
# the clients of Microsoft
Brief: t -> yes
Brief: T -> yes
Brief: f -> no
Brief: true -> no
Brief: -> no
Brief: t | Brief: f -> no
Brief: f | Prefer: return=minimal -> yes
Brief: t | Prefer: return=representation -> yes
";

fn played(alloc: Global, fields: &str) -> Result<&'static str, Fail> {
    let prefer = values(alloc, fields, "Prefer")?;
    let brief = values(alloc, fields, "Brief")?;
    if leaves_out_missing(&prefer, &brief) {
        Ok("yes")
    } else {
        Ok("no")
    }
}

#[test]
fn reads_preferences(rt: HostRuntime) -> Result<(), Fail> {
    for row in ROWS.lines() {
        if let Some((input, wanted)) = halves(row) {
            let found = played(rt.alloc(), input)?;
            assert!(&rt; found == wanted, "{row}\ngives: {found}");
        }
    }
    Ok(())
}
