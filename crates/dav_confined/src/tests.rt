//! Which requests have leave, as rows of text.
use crate::leave::{Asked, may_end};
use crate::{has_leave, may_look, may_unlock, only_reads};
use dav_access::{Rules, Users, file};
use dav_core::davpath::DavPath;
use dav_core::ls::{DavLock, DavLockSystem};
use dav_server::method::method_of;
use dav_store::memls::MemLs;
use std::alloc::{AllocError, Global};
use std::test::Fail;

const USERS: &str = "\
anna:$5$rounds=1000$aa$ih1prkhg9Lg0AGuY3ILPnD.W7vwH5Hc6Fu72rE8aTE2
ben:$5$rounds=1000$aa$ih1prkhg9Lg0AGuY3ILPnD.W7vwH5Hc6Fu72rE8aTE2
cleo:$5$rounds=1000$aa$ih1prkhg9Lg0AGuY3ILPnD.W7vwH5Hc6Fu72rE8aTE2
";

// Anna may read `/shared` and write `/anna`; cleo may end locks at `/shared`.
const RULES: &str = "\
read   /public  everybody
read   /shared  users
write  /anna    anna
admin  /shared  cleo
";

// Who, or `-` for nobody, the method, the target, Destination and the paths of If, or `-`; whether it has leave.
const REQUESTS: &str = "\
# methods that read
- GET /public/a - - -> yes
- GET /shared/a - - -> no
anna GET /shared/a - - -> yes
anna HEAD /shared/a - - -> yes
anna OPTIONS /shared/a - - -> yes
anna PROPFIND /shared - - -> yes
anna PROPFIND / - - -> no
anna OPTIONS / - - -> no
anna GET / - - -> no
- OPTIONS * - - -> yes
# methods that write
anna PUT /anna/a - - -> yes
anna PUT /shared/a - - -> no
anna PATCH /shared/a - - -> no
anna MKCOL /shared/a - - -> no
anna DELETE /shared/a - - -> no
anna PROPPATCH /shared/a - - -> no
anna LOCK /shared/a - - -> no
anna DELETE /anna - - -> yes
anna LOCK /anna - - -> yes
cleo PUT /shared/a - - -> yes
- PUT /public/a - - -> no
# UNLOCK reads at its target
anna UNLOCK /shared/a - - -> yes
anna UNLOCK /ben - - -> no
# COPY reads at its source, MOVE writes there
anna COPY /shared/a /anna/a - -> yes
anna MOVE /shared/a /anna/a - -> no
anna COPY /anna/a /shared/a - -> no
anna MOVE /anna/a /anna/b - -> yes
anna MOVE /anna/a /shared/b - -> no
anna COPY /ben/a /anna/a - -> no
anna COPY /anna/a - - -> yes
# Destination counts for COPY and MOVE alone
anna PUT /anna/a /shared/a - -> yes
# the paths of If
anna GET /shared/a - /shared/a -> yes
anna GET /shared/a - /anna/b,/shared/c -> yes
anna GET /shared/a - /anna/b,/ben/c -> no
anna PUT /anna/a - /ben -> no
- OPTIONS * - /shared -> no
";

// Who, or `-` for nobody, and the lines of a head, between bars; whether it may look below the prefix `/dav`, and whether it only reads
// what may be read.
const LOOKS: &str = "\
# what leads to a grant, by methods that read
anna | PROPFIND /dav -> yes no
anna | OPTIONS /dav/ -> yes no
anna | GET /dav/x/.. -> yes no
anna | HEAD /dav -> yes no
- | PROPFIND /dav -> yes no
anna | PROPPATCH /dav -> no no
anna | UNLOCK /dav -> no no
anna | COPY /dav -> no no
# what doesn't
anna | PROPFIND /dav/ben -> no no
- | PROPFIND /dav/shared -> no no
# what may be read may be seen
anna | PROPFIND /dav/shared -> yes yes
anna | GET /dav/anna/a -> yes yes
anna | PUT /dav/anna/a -> no no
# the paths of If
anna | PROPFIND /dav | If: <http://host/dav/ben> (<urn:t>) -> no no
anna | PROPFIND /dav | If: <http://host/dav/anna> (<urn:t>) -> yes no
anna | GET /dav/anna/a | If: <http://host/dav/ben> (<urn:t>) -> no no
# what the machine doesn't read
anna | REPORT /dav -> no yes
anna | PROPFIND /other -> no yes
";

// Who, the principal of a lock and its path; whether who may end it.
const LOCKS: &str = "\
anna anna /anna/a -> yes
anna anna /shared/a -> no
anna ben /anna/a -> no
anna - /anna/a -> no
cleo ben /shared/a -> yes
cleo - /shared -> yes
cleo ben / -> no
cleo cleo /shared -> yes
- - /public/a -> no
- anna /anna/a -> no
";

// Who, or `-` for nobody, and the lines of a head, between bars; whether it has leave below the prefix `/dav`.
const HEADS: &str = "\
# the path that the machine reads in the target
anna | GET /dav/shared/a -> yes
anna | GET /dav/%73hared/a -> yes
anna | GET //dav//shared//a -> yes
anna | GET /dav/ben/./../shared/a -> yes
anna | GET http://host/dav/shared/a -> yes
anna | GET /dav/anna/../ben/a -> no
anna | GET /dav/anna/%2e%2e/ben/a -> no
anna | GET http://host/dav/anna/%2E%2E/ben -> no
anna | GET /dav -> no
anna | PUT /dav/anna/a -> yes
anna | PUT /dav/shared/a -> no
- | PUT /dav/anna/a -> no
- | GET /dav/public/a -> yes
- | OPTIONS * -> yes
# what the machine doesn't read has leave: it is answered with an error
anna | GET /other/ben -> yes
anna | GET /dav/../../ben -> yes
anna | GET * -> yes
anna | REPORT /dav/ben -> yes
anna | get /dav/ben -> yes
anna | GET /dav/ben | no field -> yes
# Destination, read as a target is
anna | COPY /dav/shared/a | Destination: /dav/anna/b -> yes
anna | COPY /dav/shared/a | Destination: http://host/dav/anna/b -> yes
anna | COPY /dav/shared/a | destination: /dav/anna/%2e%2e/ben/b -> no
anna | COPY /dav/shared/a | Destination: /dav/shared/b -> no
anna | MOVE /dav/anna/a | Destination: /dav/anna/b -> yes
anna | MOVE /dav/anna/a | Destination: /dav/ben/b -> no
anna | MOVE /dav/shared/a | Destination: /dav/anna/b -> no
anna | PUT /dav/anna/a | Destination: /dav/ben/b -> yes
anna | COPY /dav/shared/a | Destination: /other/b -> yes
anna | COPY /dav/shared/a | Destination: /dav/ben/b | Destination: /dav/anna/b -> yes
# the lists of If
anna | PUT /dav/anna/a | If: ([\"1\"]) -> yes
anna | PUT /dav/anna/a | If: <http://host/dav/shared/b> ([\"1\"]) -> yes
anna | PUT /dav/anna/a | If: <http://host/dav/ben/b> ([\"1\"]) -> no
anna | PUT /dav/anna/a | If: <http://host/dav/ben/b> (<urn:uuid:1>) -> no
anna | GET /dav/shared/a | If: <http://host/dav/anna/%2e%2e/ben/b> (Not [\"1\"]) -> no
anna | GET /dav/shared/a | If: <http://host/dav/shared/b> ([\"1\"]) <http://host/dav/ben> ([\"1\"]) -> no
- | OPTIONS * | If: <http://host/dav/shared> ([\"1\"]) -> no
# an If that means nothing speaks of no path
anna | GET /dav/shared/a | If: <http://host/dav/ben/b> ([\"1\"] -> yes
# an UNLOCK reads at its target
anna | UNLOCK /dav/shared/a | Lock-Token: <urn:uuid:1> -> yes
anna | UNLOCK /dav/ben/a | Lock-Token: <urn:uuid:1> -> no
";

// Who and the lines of a head, between bars; whether that ends no lock that he may not end. There are locks of anna on `/anna`
// (urn:uuid:1), of ben on `/shared` (urn:uuid:2), of nobody on `/` (urn:uuid:3) and of anna on `/shared/s` (urn:uuid:4).
const UNLOCKS: &str = "\
anna | UNLOCK /dav/anna | Lock-Token: <urn:uuid:1> -> yes
anna | UNLOCK /dav/anna/a/b | Lock-Token: urn:uuid:1 -> yes
ben | UNLOCK /dav/anna/a | Lock-Token: <urn:uuid:1> -> no
- | UNLOCK /dav/anna | Lock-Token: <urn:uuid:1> -> no
anna | UNLOCK /dav/shared/a | Lock-Token: <urn:uuid:2> -> no
ben | UNLOCK /dav/shared/a | Lock-Token: <urn:uuid:2> -> no
cleo | UNLOCK /dav/shared/a | Lock-Token: <urn:uuid:2> -> yes
cleo | UNLOCK /dav/shared/a | Lock-Token: <urn:uuid:3> -> no
anna | UNLOCK /dav/anna/a | Lock-Token: <<urn:uuid:3>> -> no
# one's own lock, where one may read alone
anna | UNLOCK /dav/shared/s | Lock-Token: <urn:uuid:4> -> no
cleo | UNLOCK /dav/shared/s/t | Lock-Token: <urn:uuid:4> -> yes
# no lock is named
anna | UNLOCK /dav/shared/a | Lock-Token: <urn:uuid:1> -> yes
anna | UNLOCK /dav/shared | Lock-Token: <urn:uuid:4> -> yes
anna | UNLOCK /dav/shared | Lock-Token: <urn:uuid:22> -> yes
anna | UNLOCK /dav/shared -> yes
anna | UNLOCK /dav/shared | Lock-Token: <urn:uuid:2> | Lock-Token: <urn:uuid:2> -> yes
anna | DELETE /dav/shared | Lock-Token: <urn:uuid:2> -> yes
anna | unlock /dav/shared | Lock-Token: <urn:uuid:2> -> yes
anna | UNLOCK /other/shared | Lock-Token: <urn:uuid:2> -> yes
anna | UNLOCK /dav/shared | Lock-Token -> yes
";

fn rules_of(alloc: Global) -> Result<Rules, Fail> {
    let users = Users::read(alloc, USERS)?;
    Ok(file::read(alloc, RULES.as_bytes(), Some(&users))?.rules)
}

// A word, where it isn't `-`.
fn word_of(text: &str) -> Option<&str> {
    if text == "-" { None } else { Some(text) }
}

// What a row asks for, and who.
fn asked_of<'r>(alloc: Global, row: &'r str) -> Result<(Option<&'r str>, Asked), Fail> {
    let mut words = row.split(' ');
    let who = words.next().ok_or("a row without a principal")?;
    let method = words.next().ok_or("a row without a method")?;
    let path = words.next().ok_or("a row without a target")?;
    let destination = words.next().ok_or("a row without a Destination")?;
    let spoken = words.next().ok_or("a row without an If")?;
    let mut spoken_of = Vec::new(alloc);
    if let Some(paths) = word_of(spoken) {
        for path in paths.split(',') {
            spoken_of.push(DavPath::new(alloc, path)?)?;
        }
    }
    let destination = match word_of(destination) {
        Some(path) => Some(DavPath::new(alloc, path)?),
        None => None,
    };
    let asked = Asked {
        method: method_of(method.as_bytes())?,
        path: DavPath::new(alloc, path)?,
        destination,
        spoken_of,
    };
    Ok((word_of(who), asked))
}

// A row's input and what is expected of it; `None` for a title.
fn parts(row: &str) -> Option<(&str, &str)> {
    if row.starts_with("# ") {
        return None;
    }
    row.rsplit_once(" -> ")
}

#[test]
fn requests_have_leave(rt: HostRuntime) -> Result<(), Fail> {
    let rules = rules_of(rt.alloc())?;
    for row in REQUESTS.lines() {
        if let Some((input, wanted)) = parts(row) {
            let (who, asked) = asked_of(rt.alloc(), input)?;
            let found = asked.has_leave(&rules, who);
            assert!(&rt; found == (wanted == "yes"), "{row}");
        }
    }
    Ok(())
}

// A lock of a principal at a path.
fn lock_of(alloc: Global, principal: Option<&str>, path: &str) -> Result<DavLock, AllocError> {
    let path = DavPath::from_parts(alloc, "", path.as_bytes())?;
    let principal = match principal {
        Some(name) => Some(String::from_str(alloc, name)?),
        None => None,
    };
    Ok(DavLock {
        token: String::from_str(alloc, "urn:uuid:1")?,
        path,
        principal,
        owner: None,
        timeout_at: None,
        timeout: None,
        shared: false,
        deep: true,
    })
}

#[test]
fn locks_may_be_ended(rt: HostRuntime) -> Result<(), Fail> {
    let rules = rules_of(rt.alloc())?;
    for row in LOCKS.lines() {
        if let Some((input, wanted)) = parts(row) {
            let (who, lock) = input.split_once(' ').ok_or("a row without a lock")?;
            let (principal, path) = lock.split_once(' ').ok_or("a row without a path")?;
            let lock = lock_of(rt.alloc(), word_of(principal), path)?;
            let found = may_end(&rules, word_of(who), &lock);
            assert!(&rt; found == (wanted == "yes"), "{row}");
        }
    }
    Ok(())
}

// The bytes of a head with these lines, between bars.
fn head_of(alloc: Global, lines: &str) -> Result<String, Fail> {
    let mut head = String::new(alloc);
    for (place, line) in lines.split(" | ").enumerate() {
        head.push_str(line)?;
        if place == 0 {
            head.push_str(" HTTP/1.1")?;
        }
        head.push_str("\r\n")?;
    }
    head.push_str("\r\n")?;
    Ok(head)
}

#[test]
fn heads_have_leave(rt: HostRuntime) -> Result<(), Fail> {
    let rules = rules_of(rt.alloc())?;
    for row in HEADS.lines() {
        if let Some((input, wanted)) = parts(row) {
            let (who, lines) = input.split_once(" | ").ok_or("a row without a head")?;
            let head = head_of(rt.alloc(), lines)?;
            let found = has_leave(rt.alloc(), &rules, word_of(who), head.as_bytes(), "/dav")?;
            assert!(&rt; found == (wanted == "yes"), "{row}");
        }
    }
    Ok(())
}

// `yes` or `no`.
fn word(is: bool) -> &'static str {
    if is { "yes" } else { "no" }
}

#[test]
fn heads_look(rt: HostRuntime) -> Result<(), Fail> {
    let rules = rules_of(rt.alloc())?;
    for row in LOOKS.lines() {
        if let Some((input, wanted)) = parts(row) {
            let (who, lines) = input.split_once(" | ").ok_or("a row without a head")?;
            let who = word_of(who);
            let head = head_of(rt.alloc(), lines)?;
            let looks = may_look(rt.alloc(), &rules, who, head.as_bytes(), "/dav")?;
            let reads = only_reads(rt.alloc(), &rules, who, head.as_bytes(), "/dav")?;
            let found = format!(in rt.alloc(); "{} {}", word(looks), word(reads))?;
            assert!(&rt; found.as_str() == wanted, "{row}, gives: {found}");
        }
    }
    Ok(())
}

// The locks that the rows speak of.
fn locks(alloc: Global) -> Result<MemLs, Fail> {
    let mut locks = MemLs::new(alloc)?;
    for (principal, path, token) in [
        (None, "/", "urn:uuid:3"),
        (Some("anna"), "/anna", "urn:uuid:1"),
        (Some("ben"), "/shared", "urn:uuid:2"),
        (Some("anna"), "/shared/s", "urn:uuid:4"),
    ] {
        let path = DavPath::new(alloc, path)?;
        let made = locks.lock(alloc, &path, principal, None, None, true, true, token, 0);
        if made.is_err() {
            return Err("a lock that isn't made".into());
        }
    }
    Ok(locks)
}

#[test]
fn unlocks_end_what_they_may(rt: HostRuntime) -> Result<(), Fail> {
    let rules = rules_of(rt.alloc())?;
    let locks = locks(rt.alloc())?;
    for row in UNLOCKS.lines() {
        if let Some((input, wanted)) = parts(row) {
            let (who, lines) = input.split_once(" | ").ok_or("a row without a head")?;
            let head = head_of(rt.alloc(), lines)?;
            let bytes = head.as_bytes();
            let found = may_unlock(rt.alloc(), &rules, word_of(who), bytes, "/dav", &locks)?;
            assert!(&rt; found == (wanted == "yes"), "{row}");
        }
    }
    Ok(())
}
