use super::*;
use crate::asserting::{is_row, parts, same};
use crate::laws;
use std::alloc::Global;
use std::process::Abort;
use std::test::Fail;

// A row: the method of a request between bars, ` -> `, and what it is known as.
const ROWS: &str = "
method |HEAD| -> Ok(Head)
method |GET| -> Ok(Get)
method |PUT| -> Ok(Put)
method |PATCH| -> Ok(Patch)
method |OPTIONS| -> Ok(Options)
method |PROPFIND| -> Ok(PropFind)
method |PROPPATCH| -> Ok(PropPatch)
method |MKCOL| -> Ok(MkCol)
method |COPY| -> Ok(Copy)
method |MOVE| -> Ok(Move)
method |DELETE| -> Ok(Delete)
method |LOCK| -> Ok(Lock)
method |UNLOCK| -> Ok(Unlock)
method |REPORT| -> Ok(Report)
method |MKCALENDAR| -> Ok(MkCalendar)
method |MKADDRESSBOOK| -> Ok(MkAddressbook)
method |get| -> Err(UnknownDavMethod)
method |POST| -> Err(UnknownDavMethod)
method |PROPFINDS| -> Err(UnknownDavMethod)
";

// Plays a row; the test fails where the method is known as something else, or isn't in the set of all methods alone.
fn play(rt: &impl Abort, alloc: Global, row: &str) -> Result<(), Fail> {
    let (_, text, wanted) = parts(row).ok_or("a line is no row")?;
    let found = DavMethod::try_from(&Method::from_bytes(alloc, text.as_bytes())?);
    if let Ok(method) = found {
        let (all, none) = (DavMethodSet::all(), DavMethodSet::none());
        assert!(rt; all.contains(method) && !none.contains(method), "{row}");
    }
    let outcome = format!(in alloc; "{found:?}")?;
    assert!(rt; outcome.as_str() == wanted, "{row}\ngives: {outcome}");
    Ok(())
}

#[test]
fn knows_methods(rt: HostRuntime) -> Result<(), Fail> {
    let mut count = 0u32;
    for line in ROWS.lines() {
        if is_row(line) {
            play(&rt, rt.alloc(), line)?;
            count = count.wrapping_add(1);
        }
    }
    same(&rt, &count, &19);
    Ok(())
}

#[test]
fn changes_sets(rt: HostRuntime) {
    let mut set = DavMethodSet::HTTP_RO;
    set.add(DavMethod::Put);
    let with_put = set;
    set.remove(DavMethod::Put);
    set.add(DavMethod::PropFind);
    set.add(DavMethod::PropFind);
    let with_propfind = set;
    set.remove(DavMethod::Get);
    let without_get = [set.contains(DavMethod::Get), set.contains(DavMethod::Head)];
    let wanted = [DavMethodSet::HTTP_RW, DavMethodSet::WEBDAV_RO];
    same(&rt, &[with_put, with_propfind], &wanted);
    same(&rt, &without_get, &[false, true]);
}

#[test]
fn reads_sets(rt: HostRuntime) {
    let found = [
        DavMethodSet::from_vec(&["Get", "lock"]),
        DavMethodSet::from_vec(&[]),
        DavMethodSet::from_vec(&["x"]),
        DavMethodSet::from_vec(&["GET", "HTTP_RO"]),
    ];
    let wanted = [
        Ok(DavMethodSet(2050)),
        Ok(DavMethodSet::none()),
        Err(InvalidMethod),
        Err(InvalidMethod),
    ];
    same(&rt, &found, &wanted);
}

#[test]
fn keeps_constant_sets(rt: HostRuntime) {
    let (http_ro, http_rw, webdav_ro, webdav_rw) = laws::constant_sets();
    let found = [http_ro, http_rw, webdav_ro, webdav_rw, DavMethodSet::all()];
    let wanted = [
        DavMethodSet(19),
        DavMethodSet(23),
        DavMethodSet(51),
        DavMethodSet(65535),
        DavMethodSet(65535),
    ];
    same(&rt, &found, &wanted);
}
