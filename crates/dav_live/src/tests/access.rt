//! Which requests are let in, and have leave, and what is read of users and rules.
use super::unescaped;
use crate::admission::{Admission, Decision, Reason};
use crate::lists::{Lists, ListsError};
use crate::settings::Settings;
use bytes::Bytes;
use dav_http::Head;
use dav_shards::{Part, first_folder};
use dav_wire::Rejection;
use std::alloc::Global;
use std::test::Fail;

// The passwords are `a` and `b`; the secrets are those that crypt(3) makes of them.
const USERS: &str = "\
anna:$5$rounds=1000$aa$cmob.H6VwkE8xIr8zdDIAFWpJIWmR7fuGoc.Dgzztq/
ben:$5$rounds=1000$bb$/QpW6tSa28xZsm1Vzo/GoJMbh/4YYzZok938meuPUO7
";

const RULES: &str = "\
read   /public  everybody
read   /shared  users
write  /anna    anna
";

/// Who is shown, in Base64, or `-`, and the lines of a head, between bars, below the prefix `/dav`: what becomes of it by users and rules,
/// by rules alone that name everybody, and by users alone; `run`, `look` or a status, with the user.
const REQUESTS: &str = "\
# nobody is shown: 401 where nobody may
- | GET /dav/public/a -> run, run, 401
- | GET /dav/shared/a -> 401, 401, 401
- | PUT /dav/public/a -> 401, 401, 401
- | OPTIONS * -> run, run, 401
# a user is shown: 403 where he may not, whatever is there
YW5uYTph | GET /dav/public/a -> run anna, run, run anna
YW5uYTph | GET /dav/shared/a -> run anna, 401, run anna
YW5uYTph | PUT /dav/shared/a -> 403 anna, 401, run anna
YW5uYTph | PUT /dav/anna/a -> run anna, 401, run anna
YmVuOmI= | PUT /dav/anna/a -> 403 ben, 401, run ben
# a folder on the way may be looked at, of paths of If that may be read
YmVuOmI= | GET /dav -> look ben, look, run ben
- | PROPFIND /dav/ -> 401, look, 401
YW5uYTph | OPTIONS /dav -> look anna, look, run anna
YW5uYTph | HEAD /dav/x/.. -> look anna, look, run anna
YW5uYTph | PROPPATCH /dav -> 403 anna, 401, run anna
YW5uYTph | PROPFIND /dav/ben -> 403 anna, 401, run anna
YW5uYTph | PROPFIND /dav | If: </dav/ben> (<urn:t>) -> 403 anna, 401, run anna
YW5uYTph | PROPFIND /dav | If: </dav/anna> (<urn:t>) -> look anna, 401, run anna
# the most bytes of a body are the most that a place may be
YW5uYTph | PATCH /dav/anna/a | X-Update-Range: bytes=1000000- -> run anna, 401, run anna
YW5uYTph | PATCH /dav/anna/a | X-Update-Range: bytes=1000001- -> 413 anna, 401, 413 anna
YW5uYTph | PATCH /dav/anna/a | X-Update-Range: bytes=1000000000000-1000000000003 -> 413 anna, 401, 413 anna
YW5uYTph | PUT /dav/anna/a | Content-Range: bytes 1000001-1000001/* -> 413 anna, 401, 413 anna
YW5uYTph | PUT /dav/shared/a | Content-Range: bytes 1000001-1000001/* -> 403 anna, 401, 413 anna
YW5uYTph | PATCH /dav/anna/a | X-Update-Range: append -> run anna, 401, run anna
YW5uYTph | PATCH /dav/anna/a | X-Update-Range: bytes=-5 -> run anna, 401, run anna
YW5uYTph | GET /dav/anna/a | X-Update-Range: bytes=1000001- -> run anna, 401, run anna
# a wrong password, a stranger, and what is no name and password: 401, also for what everybody may read
YW5uYTp4 | GET /dav/public/a -> 401 anna, run, 401 anna
ZG9yYTph | GET /dav/public/a -> 401 dora, run, 401 dora
YW5uYQ== | GET /dav/public/a -> 401, run, 401
# leave is asked of the head that is run: of an If with a path, which is run with a whole URL (RFC 4918, section 10.4.2)
YW5uYTph | PUT /dav/anna/a | If: </dav/shared/b> ([\"1\"]) -> run anna, 401, run anna
YW5uYTph | PUT /dav/anna/a | If: </dav/ben/b> ([\"1\"]) -> 403 anna, 401, run anna
YW5uYTph | GET /dav/public/a | If: <http://localhost/dav/ben/b> ([\"1\"]) -> 403 anna, 401, run anna
YW5uYTph | LOCK /dav/anna/a | Timeout: Infinite -> run anna, 401, run anna
YW5uYTph | LOCK /dav/shared/a | Timeout: Infinite -> 403 anna, 401, run anna
YW5uYTph | PROPFIND /dav/shared -> run anna, 401, run anna
# of Destination
YW5uYTph | COPY /dav/shared/a | Destination: /dav/anna/b -> run anna, 401, run anna
YW5uYTph | COPY /dav/shared/a | Destination: /dav/anna/%2e%2e/ben/b -> 403 anna, 401, run anna
YW5uYTph | MOVE /dav/shared/a | Destination: /dav/anna/b -> 403 anna, 401, run anna
# of the path that the machine reads
YW5uYTph | GET /dav/anna/../ben/a -> 403 anna, 401, run anna
YW5uYTph | GET //dav//shared/a -> run anna, 401, run anna
# what isn't at or below the prefix, and a method that isn't served
YW5uYTph | GET /other -> 404 anna, 404, 404 anna
YW5uYTph | REPORT /dav/ben -> run anna, run, run anna
# another host
YW5uYTph | GET /dav/ben | Host: evil.example -> 421, 421, 421
";

/// The same, by users and rules, and by rules alone that name everybody, of a server that has the first folders `public` and `anna` alone.
const ELSEWHERE: &str = "\
- | GET /dav/public/a -> run, run
YW5uYTph | PUT /dav/anna/a -> run anna, 401
YW5uYTph | GET /dav/shared/a -> 421 anna, 401
YW5uYTph | GET /dav/publicly/a -> 403 anna, 401
YW5uYTph | COPY /dav/public/a | Destination: /dav/anna/a -> run anna, 401
# leave comes first
- | GET /dav/shared/a -> 401, 401
YW5uYTph | PUT /dav/shared/a -> 403 anna, 401
YW5uYTph | MOVE /dav/anna/a | Destination: /dav/shared/a -> 403 anna, 401
# a folder on the way that isn't here
YW5uYTph | PROPFIND /dav -> 421 anna, 421
- | GET /dav/ -> 401, 421
YW5uYTph | OPTIONS * -> run anna, run
# a list of If that speaks of what isn't here, and the most bytes of a body
YW5uYTph | PUT /dav/anna/a | If: </dav/shared/b> (Not <DAV:no-lock>) -> 412 anna, 401
YW5uYTph | PUT /dav/anna/a | If: </dav/public/b> (Not <DAV:no-lock>) -> run anna, 401
YW5uYTph | GET /dav/shared/a | X-Update-Range: bytes=1000001- -> 421 anna, 401
YW5uYTph | PATCH /dav/anna/a | If: </dav/shared/b> ([\"1\"]) | X-Update-Range: bytes=1000001- -> 412 anna, 401
";

/// The same, of requests with a long body, by users and rules: the status by which no byte of it is taken, and the user; or `-`.
const LONG: &str = "\
- | PUT /dav/public/a -> 401
YW5uYTp4 | PUT /dav/anna/a -> 401 anna
YW5uYTph | PUT /dav/anna/a -> -
YW5uYTph | PUT /dav/shared/a -> 403 anna
YW5uYTph | PUT /dav/anna/a | If: </dav/ben/b> ([\"1\"]) -> 403 anna
YW5uYTph | PUT /other/a -> -
YW5uYTph | PROPFIND /dav -> -
YW5uYTph | PROPFIND /dav/ben -> 403 anna
";

/// The lists of users and the rules, each line after `;`, and `-` where there is none: what is wrong with them, or `ok`.
const LISTS: &str = "\
-  | - -> ok
USERS | - -> ok
- | read /public everybody -> ok
USERS | read / anna;write /ben ben -> ok
USERS | # nothing -> ok
USERS |  -> ok
x | - -> users: line 1 isn't name:$5$.. as `vuldarg user NAME` writes it, or its name can't be written in XML
 | - -> users: there is no user in it
x | y -> users: line 1 isn't name:$5$.. as `vuldarg user NAME` writes it, or its name can't be written in XML
USERS | read / anna;wirte /ben ben -> access: line 2: there is no right 'wirte'
USERS | read -> access: line 1: there is no path in it
USERS | ;;read /a/../../b anna -> access: line 3: its path can't be read: ForbiddenPath
USERS | read / -> access: line 1: it names nobody
USERS | read / beb -> access: line 1: there is no user 'beb'
- | read / anna -> access: line 1: there is no user 'anna'
- | read / users -> access: line 1: there is no user 'users'
USERS | read / @staff -> access: line 1: there is no group '@staff'
USERS | @a = anna;@a = ben -> access: line 2: the group '@a' is defined twice
USERS | @a = dora -> access: line 1: there is no user 'dora'
";

// What goes by the users and the rules, with these first folders.
fn by_both(alloc: Global, only: &[&str]) -> Result<Admission, Fail> {
    let lists = Lists::read(alloc, Some(USERS.as_bytes()), Some(RULES.as_bytes()))?;
    admission(alloc, lists, only)
}

// What goes by the rules of everybody alone, with these first folders.
fn by_rules(alloc: Global, only: &[&str]) -> Result<Admission, Fail> {
    let lists = Lists::read(alloc, None, Some("read /public everybody".as_bytes()))?;
    admission(alloc, lists, only)
}

// What goes by the users alone.
fn by_users(alloc: Global) -> Result<Admission, Fail> {
    let lists = Lists::read(alloc, Some(USERS.as_bytes()), None)?;
    admission(alloc, lists, &[])
}

// What goes by these users and rules, below `/dav`, with the first folders of these names alone, or with all.
fn admission(alloc: Global, lists: Lists, only: &[&str]) -> Result<Admission, Fail> {
    let mut folders = Vec::new(alloc);
    for name in only {
        folders.push(first_folder(alloc, name)?.ok_or("no name")?)?;
    }
    let settings = Settings {
        prefix: String::from_str(alloc, "/dav")?,
        hosts: Vec::new(alloc),
        lock_time: 500,
        strict: false,
        read_only: false,
        most_body: 1_000_000,
        most_waiting: 1_000_000,
        limits: Vec::new(alloc),
        only: folders,
        short_journal: 1_000_000,
        logs: false,
    };
    Ok(Admission::new(alloc, settings, lists, 1_000_000_000)?)
}

// The head of a row, with these fields besides.
fn head_in(alloc: Global, input: &str, more: &str) -> Result<Vec<u8>, Fail> {
    let (shown, lines) = input.split_once(" | ").ok_or("a row without a head")?;
    let mut head = String::new(alloc);
    for (place, line) in lines.split(" | ").enumerate() {
        head.push_str(line)?;
        head.push_str(if place == 0 { " HTTP/1.1^" } else { "^" })?;
    }
    if shown != "-" {
        head.push_str("Authorization: Basic ")?;
        head.push_str(shown)?;
        head.push('^')?;
    }
    head.push_str(more)?;
    head.push('^')?;
    Ok(unescaped(alloc, head.as_str())?)
}

// A word and a user, if there is one.
fn said(alloc: Global, word: &str, user: &str) -> Result<String, Fail> {
    let gap = if user.is_empty() { "" } else { " " };
    Ok(format!(in alloc; "{word}{gap}{user}")?)
}

// What becomes of a request.
fn decided(alloc: Global, admission: &mut Admission, head: &Head<'_>) -> Result<String, Fail> {
    let Ok(decision) = admission.decide(head, &Bytes::from_static(b"x"), 0) else {
        return Err("memory".into());
    };
    match decision {
        Decision::Run(admitted) => said(alloc, "run", admitted.user()),
        Decision::Look(admitted) => said(alloc, "look", admitted.user()),
        Decision::Refused(refused) => {
            let status = match refused.reason {
                Reason::BadPort => "400",
                Reason::Misdirected | Reason::Elsewhere(Part::Target) => "421",
                Reason::Unauthorized => "401",
                Reason::Forbidden | Reason::ReadOnly => "403",
                Reason::Elsewhere(Part::Destination) => "502",
                Reason::Elsewhere(Part::Condition) => "412",
                Reason::TooLong => "414",
                Reason::Outside => "404",
                Reason::TooFar | Reason::Swollen => "413",
            };
            said(alloc, status, refused.user.as_str())
        }
    }
}

#[test]
fn requests_are_let_in(rt: HostRuntime) -> Result<(), Fail> {
    let alloc = rt.alloc();
    let mut both = by_both(alloc, &[])?;
    let mut rules = by_rules(alloc, &[])?;
    let mut users = by_users(alloc)?;
    for row in REQUESTS.lines() {
        let Some((input, wanted)) = row.rsplit_once(" -> ") else {
            continue;
        };
        let bytes = head_in(alloc, input, "")?;
        let head = Head::read(&bytes).ok_or("no head")?;
        let one = decided(alloc, &mut both, &head)?;
        let other = decided(alloc, &mut rules, &head)?;
        let third = decided(alloc, &mut users, &head)?;
        let found = format!(in alloc; "{one}, {other}, {third}")?;
        assert!(&rt; found.as_str() == wanted, "{row}\ngives: {found}");
    }
    Ok(())
}

#[test]
fn requests_elsewhere_are_refused(rt: HostRuntime) -> Result<(), Fail> {
    let alloc = rt.alloc();
    let mut both = by_both(alloc, &["public", "anna"])?;
    let mut rules = by_rules(alloc, &["public", "anna"])?;
    for row in ELSEWHERE.lines() {
        let Some((input, wanted)) = row.rsplit_once(" -> ") else {
            continue;
        };
        let bytes = head_in(alloc, input, "")?;
        let head = Head::read(&bytes).ok_or("no head")?;
        let one = decided(alloc, &mut both, &head)?;
        let other = decided(alloc, &mut rules, &head)?;
        let found = format!(in alloc; "{one}, {other}")?;
        assert!(&rt; found.as_str() == wanted, "{row}\ngives: {found}");
    }
    Ok(())
}

// By which status a request isn't taken, and of whom it is.
fn judged(alloc: Global, admission: &mut Admission, head: &Head<'_>) -> Result<String, Fail> {
    let Ok(judgement) = admission.judge(head) else {
        return Err("memory".into());
    };
    let Some(rejected) = judgement else {
        return said(alloc, "-", "");
    };
    match rejected.why {
        Rejection::Unauthorized => said(alloc, "401", rejected.user.as_str()),
        Rejection::Forbidden => said(alloc, "403", rejected.user.as_str()),
        _ => said(alloc, "?", ""),
    }
}

#[test]
fn long_bodies_need_leave(rt: HostRuntime) -> Result<(), Fail> {
    let alloc = rt.alloc();
    let mut both = by_both(alloc, &[])?;
    for row in LONG.lines() {
        let Some((input, wanted)) = row.rsplit_once(" -> ") else {
            continue;
        };
        let bytes = head_in(alloc, input, "Content-Length: 1000000^")?;
        let head = Head::read(&bytes).ok_or("no head")?;
        let found = judged(alloc, &mut both, &head)?;
        assert!(&rt; found.as_str() == wanted, "{row}\ngives: {found}");
    }
    Ok(())
}

// A text of a row, if there is one.
fn text_in(alloc: Global, text: &str) -> Result<Option<String>, Fail> {
    match text.trim() {
        "-" => Ok(None),
        "USERS" => Ok(Some(String::from_str(alloc, USERS)?)),
        lines => Ok(Some(lines.replace(alloc, ";", "\n")?)),
    }
}

// What is wrong with users and rules, or `ok`.
fn listed(alloc: Global, users: Option<&str>, access: Option<&str>) -> Result<String, Fail> {
    let read = Lists::read(
        alloc,
        users.map(|text| text.as_bytes()),
        access.map(|text| text.as_bytes()),
    );
    match read {
        Ok(_) => Ok(String::from_str(alloc, "ok")?),
        Err(error) => Ok(format!(in alloc; "{error}")?),
    }
}

// The report of users and rules.
fn report_of(alloc: Global, users: Option<&str>, access: Option<&str>) -> Result<Vec<u8>, Fail> {
    let mut report = Vec::from_slice(alloc, users.unwrap_or("").as_bytes())?;
    if let Some(access) = access {
        report.push(0)?;
        report.extend_from_slice(access.as_bytes())?;
    }
    Ok(report)
}

#[test]
fn users_and_rules_are_read_together(rt: HostRuntime) -> Result<(), Fail> {
    let alloc = rt.alloc();
    let bytes = head_in(alloc, "YW5uYTph | PUT /dav/shared/a", "")?;
    let head = Head::read(&bytes).ok_or("no head")?;
    for row in LISTS.lines() {
        let Some((input, wanted)) = row.rsplit_once(" -> ") else {
            continue;
        };
        let (users, access) = input.split_once(" | ").ok_or("a row without rules")?;
        let users = text_in(alloc, users)?;
        let access = text_in(alloc, access)?;
        let found = listed(alloc, users.as_deref(), access.as_deref())?;
        assert!(&rt; found.as_str() == wanted, "{row}\ngives: {found}");
        // The same where they are reported: at a fault both are as they were.
        let mut both = by_both(alloc, &[])?;
        let report = report_of(alloc, users.as_deref(), access.as_deref())?;
        let fault = match both.hear_users(&report) {
            Ok(Some(ListsError::Memory)) | Err(_) => return Err("memory".into()),
            Ok(fault) => fault,
        };
        let is_there = users.is_some() || access.is_some();
        assert!(&rt;
            fault.is_some() == (wanted != "ok" || !is_there),
            "{row}, reported"
        );
        if fault.is_some() {
            let then = decided(alloc, &mut both, &head)?;
            assert!(&rt; then.as_str() == "403 anna", "{row}, then: {then}");
        }
    }
    Ok(())
}
