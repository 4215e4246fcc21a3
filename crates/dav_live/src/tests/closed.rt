//! Which requests a server takes that may only be read, and which logins have to wait.
use super::unescaped;
use crate::admission::{Admission, Decision};
use crate::lists::Lists;
use crate::settings::Settings;
use bytes::Bytes;
use dav_http::Head;
use std::alloc::Global;
use std::test::Fail;

/// A request line, and what becomes of it where requests may only read, and where they may do all.
const LINES: &str = "\
# safe methods (RFC 9110, section 9.2.1; RFC 4918, section 9.1)
GET /a -> run, run
HEAD /a -> run, run
OPTIONS * -> run, run
PROPFIND /a -> run, run
# all others
PUT /a -> 403, run
PATCH /a -> 403, run
DELETE /a -> 403, run
MKCOL /a -> 403, run
COPY /a -> 403, run
MOVE /a -> 403, run
PROPPATCH /a -> 403, run
LOCK /a -> 403, run
UNLOCK /a -> 403, run
POST /a -> 403, run
get /a -> 403, run
REPORT /a -> 403, run
# what is refused anyway keeps its status
PUT /a?HOST -> 421, 421
";

/// Who is shown, in Base64, or `-`: the name and the password that are a login where there is a list of users.
const SHOWN: &str = "\
# the scheme Basic (RFC 7617, section 2)
Basic YW5uYTph -> anna a
basic YW5uYTph -> anna a
Basic YW5uYTo= -> anna 
Basic OmE= ->  a
Basic YW5uYTphOmI= -> anna a:b
Basic YW5uYQ== -> none
Bearer YW5uYTph -> none
- -> none
";

const USERS: &str = "anna:$5$rounds=1000$aa$cmob.H6VwkE8xIr8zdDIAFWpJIWmR7fuGoc.Dgzztq/";

// What goes by these users, where requests may only read, or all.
fn admission(alloc: Global, users: Option<&[u8]>, read_only: bool) -> Result<Admission, Fail> {
    let settings = Settings {
        prefix: String::new(alloc),
        hosts: Vec::new(alloc),
        lock_time: 500,
        strict: false,
        read_only,
        most_body: 1_000_000,
        most_waiting: 1_000_000,
        limits: Vec::new(alloc),
        only: Vec::new(alloc),
        short_journal: 1_000_000,
        logs: false,
    };
    let lists = Lists::read(alloc, users, None)?;
    Ok(Admission::new(alloc, settings, lists, 1_000_000_000)?)
}

// The status of a request that isn't run.
fn status(admission: &mut Admission, head: &Head<'_>) -> Result<u16, Fail> {
    match admission.decide(head, &Bytes::from_static(b""), 0) {
        Ok(Decision::Refused(refused)) => Ok(refused.reason.status().as_u16()),
        Ok(Decision::Look(_) | Decision::Run(_)) => Ok(200),
        Err(_) => Err("memory".into()),
    }
}

// A text as it is. A text that a function gives is known to be UTF-8, as a format wants it.
fn same(text: &str) -> &str {
    text
}

// The status that a row has.
fn wanted_in(text: &str) -> u16 {
    text.parse::<u16>().unwrap_or(200)
}

#[test]
fn requests_only_read(rt: HostRuntime) -> Result<(), Fail> {
    let alloc = rt.alloc();
    let mut closed = admission(alloc, None, true)?;
    let mut open = admission(alloc, None, false)?;
    let mut count = 0usize;
    for row in LINES.lines() {
        let Some((line, wanted)) = row.split_once(" -> ") else {
            continue;
        };
        let host = if line.ends_with("?HOST") {
            "other"
        } else {
            "localhost"
        };
        let text = format!(in alloc; "{line} HTTP/1.1^Host: {host}^^")?;
        let bytes = unescaped(alloc, text.as_str())?;
        let head = Head::read(&bytes).ok_or("no head")?;
        let (first, second) = wanted.split_once(", ").ok_or("one status")?;
        let found = status(&mut closed, &head)?;
        assert!(&rt; found == wanted_in(first), "{row}: {found}");
        assert!(&rt;
            closed.is_closed_to(&head) == (first == "403" || first == "421"),
            "{row}"
        );
        let found = status(&mut open, &head)?;
        assert!(&rt; found == wanted_in(second), "{row}: {found}");
        assert!(&rt; !open.is_closed_to(&head), "{row}");
        count = count.saturating_add(1);
    }
    assert!(&rt; count == 17, "{count} rows");
    Ok(())
}

#[test]
fn logins_are_shown(rt: HostRuntime) -> Result<(), Fail> {
    let alloc = rt.alloc();
    let users = admission(alloc, Some(USERS.as_bytes()), false)?;
    let nobody = admission(alloc, None, false)?;
    let mut count = 0usize;
    for row in SHOWN.lines() {
        let Some((value, wanted)) = row.split_once(" -> ") else {
            continue;
        };
        let field = if value == "-" {
            "Accept"
        } else {
            "Authorization"
        };
        let (field, value) = (same(field), same(value));
        let text = format!(in alloc; "GET /a HTTP/1.1^Host: localhost^{field}: {value}^^")?;
        let bytes = unescaped(alloc, text.as_str())?;
        let head = Head::read(&bytes).ok_or("no head")?;
        let Ok(found) = users.login_of(&head) else {
            return Err("memory".into());
        };
        let told = match found {
            Some(login) => format!(in alloc; "{} {}", login.name, login.password)?,
            None => String::from_str(alloc, "none")?,
        };
        assert!(&rt; told.as_str() == wanted, "{row}: {told}");
        assert!(&rt; matches!(nobody.login_of(&head), Ok(None)), "{row}");
        count = count.saturating_add(1);
    }
    assert!(&rt; count == 8, "{count} rows");
    Ok(())
}
