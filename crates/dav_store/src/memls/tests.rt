//! Calls of a list of locks as rows. The expected answers were worked out by hand from RFC 4918, sections 6, 7 and
//! 9.10.
//!
//! A line `# title` begins a new list. Each other line is a call and, after ` -> `, its answer: `ok`, a refusal, or
//! what the call returns. Locks are requested at second 100, for 60 seconds where they are timed. `nodes` is no call: it
//! tells whether the index has nodes below its root. `reload` goes on with the list that is read from what is saved of it.
ghost use Rattle.std.specs.Prelude.{◌<◌, IfSome};

use super::*;
use std::test::Fail;

const ROWS: &str = r##"
# exclusive locks of anna, asked for, refreshed, checked and ended
lock /a/b exclusive,infinite,timed t1 anna -> ends 160
lock /a exclusive,infinite,timed t3 anna -> Conflict
lock /a exclusive,timed t2 anna -> ends 160
reload / -> all
discover /a/b/c -> t1
ended / 159 -> none
ended / 160 -> t1
refresh /a/b t1 30 -> ends 180 after 30
ended / 179 -> t2
refresh /a t1 -> NotThere
check /a/b/c ben -> t1
check /a/b/c anna -> free
check /a anna infinite -> t2
unlock /a/b/c t1 -> ok
unlock /a/b/c t1 -> refused
discover /a -> t2
delete /a -> ok
discover /a ->
# shared locks, listed with the shortest path first
lock /a shared,infinite t2 -> never ends
ended / 18446744073709551615 -> none
lock /a/b shared,infinite t1 -> never ends
lock /a/b shared,infinite t3 -> never ends
reload / -> all
discover /a/b/c -> t2 t1 t3
# a path below a lock of infinite depth; the lock ends, and is granted again
lock /a exclusive,infinite t1 anna -> never ends
check /a/b/c ben -> t1
discover /a/b -> t1
lock /a/b/c exclusive t2 ben -> Conflict
unlock /a t1 -> ok
check /a/b/c ben -> free
discover /a/b ->
lock /a exclusive,infinite t1 anna -> never ends
check /a/b/c ben -> t1
unlock /a t1 -> ok
nodes / -> none
lock /a/b/c exclusive t2 ben -> never ends
nodes / -> some
reload / -> all
nodes / -> some
unlock /a/b/c t2 -> ok
nodes / -> none
reload / -> all
check /a/b/c ben -> free
# a folder with several locks below, which end with it; a lock of infinite depth asked above others
lock /a/b/c exclusive t2 anna -> never ends
lock /a/b/d exclusive,infinite t3 anna -> never ends
lock /a/e exclusive t4 anna -> never ends
lock /a exclusive,infinite t5 anna -> Conflict
lock /a exclusive t6 anna -> never ends
check /a/b ben -> free
check /a/b ben infinite -> t2
check /a/b/d/x ben -> t3
delete /a/b -> ok
check /a/b ben infinite -> free
check /a/b/d/x ben -> free
discover /a/e -> t4
lock /a/b exclusive,infinite t7 anna -> never ends
check /a/b/c ben -> t7
delete /a -> ok
nodes / -> none
check / ben infinite -> free
lock / exclusive,infinite t8 anna -> never ends
check /x ben -> t8
"##;

// A row: the name of a call and its arguments.
pub(crate) type Row<'a> = [&'a str; 5];

pub(crate) fn row(line: &str) -> Row<'_> {
    let (call, rest) = line.split_once(' ').unwrap_or((line, ""));
    let (first, rest) = rest.split_once(' ').unwrap_or((rest, ""));
    let (second, rest) = rest.split_once(' ').unwrap_or((rest, ""));
    let (third, fourth) = rest.split_once(' ').unwrap_or((rest, ""));
    [call, first, second, third, fourth]
}

pub(crate) fn has_word(words: &str, sought: &str) -> bool {
    words.split(',').any(|word| word == sought)
}

// Makes the call of a row, and returns its answer as text.
pub(crate) fn play(alloc: Global, ls: &mut MemLs, row: Row<'_>) -> Result<String, Fail> {
    let at = DavPath::new(alloc, row[1])?;
    let done = match row[0] {
        "lock" => return lock(alloc, ls, &at, row),
        "refresh" => return refresh(alloc, ls, &at, row),
        "check" => return check(alloc, ls, &at, row),
        "discover" => return discover(alloc, ls, &at),
        "nodes" => return nodes(alloc, ls),
        "reload" => return reload(alloc, ls),
        "ended" => return ended(alloc, ls, row[2]),
        "unlock" => ls.unlock(&at, row[2]).is_ok(),
        _ => ls.delete(&at).is_ok(),
    };
    Ok(String::from_str(alloc, if done { "ok" } else { "refused" })?)
}

// For how long a lock of a kind is asked.
pub(crate) fn timeout_of(kind: &str) -> Option<u64>
    ensures { IfSome result (λ seconds. seconds < 1000) }
{
    if has_word(kind, "timed") {
        Some(60)
    } else {
        None
    }
}

// The token of the first lock that ended by a second.
fn ended(alloc: Global, ls: &MemLs, second: &str) -> Result<String, Fail> {
    let token = match ls.first_ended(second.parse::<u64>()?) {
        Some(lock) => lock.token.as_str(),
        None => "none",
    };
    Ok(String::from_str(alloc, token)?)
}

// The answer to a request for a lock, as text.
pub(crate) fn granted(alloc: Global, answer: Result<DavLock, LockRefusal>) -> Result<String, Fail> {
    Ok(match answer {
        Ok(lock) => match lock.timeout_at {
            Some(second) => format!(in alloc; "ends {second}")?,
            None => String::from_str(alloc, "never ends")?,
        },
        Err(refusal) => format!(in alloc; "{refusal}")?,
    })
}

fn lock(alloc: Global, ls: &mut MemLs, at: &DavPath, row: Row<'_>) -> Result<String, Fail> {
    let [_, _, kind, token, who] = row;
    let principal = if who.is_empty() { None } else { Some(who) };
    let (shared, deep) = (has_word(kind, "shared"), has_word(kind, "infinite"));
    let timeout = timeout_of(kind);
    let answer = ls.lock(
        alloc, at, principal, None, timeout, shared, deep, token, 100,
    );
    granted(alloc, answer)
}

// For how long a lock is to last from now on.
pub(crate) fn timeout_after(seconds: &str) -> Option<u64>
    ensures { IfSome result (λ seconds. seconds < 1000) }
{
    match seconds.parse::<u64>() {
        Ok(seconds) if seconds < 1000 => Some(seconds),
        _ => None,
    }
}

// The answer to a refresh, as text.
pub(crate) fn refreshed(
    alloc: Global,
    answer: Result<DavLock, RefreshRefusal>,
) -> Result<String, Fail> {
    Ok(match answer {
        Ok(lock) => {
            let (second, seconds) = (lock.timeout_at.unwrap_or(0), lock.timeout.unwrap_or(0));
            format!(in alloc; "ends {second} after {seconds}")?
        }
        Err(refusal) => format!(in alloc; "{refusal}")?,
    })
}

// A refresh at second 150.
fn refresh(alloc: Global, ls: &mut MemLs, at: &DavPath, row: Row<'_>) -> Result<String, Fail> {
    let answer = ls.refresh(alloc, at, row[2], timeout_after(row[3]), 150);
    refreshed(alloc, answer)
}

// Saves the list, and goes on with what is read of that; whether all of it was read.
fn reload(alloc: Global, ls: &mut MemLs) -> Result<String, Fail> {
    let mut saved = Vec::new(alloc);
    ls.save(&mut saved)?;
    let (again, rest) = MemLs::load(alloc, 1, &saved)?;
    let is_all = rest.is_empty();
    *ls = again;
    Ok(String::from_str(alloc, if is_all { "all" } else { "not all" })?)
}

// Whether the index has nodes below its root.
fn nodes(alloc: Global, ls: &MemLs) -> Result<String, Fail> {
    let are_none = match &ls.index {
        Some(counts) => counts.is_root_alone(alloc),
        None => true,
    };
    Ok(String::from_str(alloc, if are_none { "none" } else { "some" })?)
}

// The answer to a check where t1 is submitted: the token of the lock that conflicts, if one does.
fn check(alloc: Global, ls: &MemLs, at: &DavPath, row: Row<'_>) -> Result<String, Fail> {
    let mut tokens = Vec::new(alloc);
    tokens.push(String::from_str(alloc, "t1")?)?;
    let deep = row[3] == "infinite";
    let token = match ls.check(at, Some(row[2]), false, deep, &tokens) {
        Ok(()) => "free",
        Err(lock) => lock.token.as_str(),
    };
    Ok(String::from_str(alloc, token)?)
}

// Adds the token of a lock that was discovered.
pub(crate) fn with_token(tokens: &mut String, token: &str) -> Result<(), Fail> {
    if !tokens.is_empty() {
        tokens.push(' ')?;
    }
    Ok(tokens.push_str(token)?)
}

fn discover(alloc: Global, ls: &MemLs, at: &DavPath) -> Result<String, Fail> {
    let mut tokens = String::new(alloc);
    for lock in ls.discover(alloc, at)? {
        with_token(&mut tokens, &lock.token)?;
    }
    Ok(tokens)
}

#[test]
fn plays_rows(rt: HostRuntime) -> Result<(), Fail> {
    let alloc = rt.alloc();
    let mut ls = MemLs::new(alloc)?;
    let mut count = 0usize;
    for line in ROWS.lines().skip(1) {
        if line.starts_with('#') {
            ls = MemLs::new(alloc)?;
            continue;
        }
        let (asked, wanted) = line.split_once(" ->").unwrap_or((line, " no answer"));
        let found = play(alloc, &mut ls, row(asked))?;
        assert!(rt; found.as_str() == wanted.trim(), "{line}: {found}");
        count = count.saturating_add(1);
    }
    assert!(rt; count > 15);
    Ok(())
}
