//! The text of the rules, and who may do what by it.
use super::{marked, parts};
use dav_access::{Right, Rules, Users, file};
use dav_core::davpath::DavPath;
use std::alloc::{AllocError, Global};
use std::test::Fail;

// The users of all rows but those that say that there are none.
const USERS: &str = "\
anna:$5$rounds=1000$aa$ih1prkhg9Lg0AGuY3ILPnD.W7vwH5Hc6Fu72rE8aTE2
ben:$5$rounds=1000$aa$ih1prkhg9Lg0AGuY3ILPnD.W7vwH5Hc6Fu72rE8aTE2
cleo:$5$rounds=1000$aa$ih1prkhg9Lg0AGuY3ILPnD.W7vwH5Hc6Fu72rE8aTE2
Anna Schmidt:$5$rounds=1000$aa$ih1prkhg9Lg0AGuY3ILPnD.W7vwH5Hc6Fu72rE8aTE2
@x:$5$rounds=1000$aa$ih1prkhg9Lg0AGuY3ILPnD.W7vwH5Hc6Fu72rE8aTE2
zoë:$5$rounds=1000$aa$ih1prkhg9Lg0AGuY3ILPnD.W7vwH5Hc6Fu72rE8aTE2
";

// A text, and what is said of it.
const TEXTS: &str = "\
# good texts
 -> read
↵↵ ⇥ ↵ -> read
read /public everybody -> read
⇥read⇥/public⇥ everybody ␍↵write /anna anna␍↵ -> read
read /a everybody users anna @staff↵@staff = ben cleo -> read
@staff = ben↵read /a @staff -> read
read /a %61nna Anna%20Schmidt %40x zo%C3%AB zoë -> read
read / anna -> read
admin /a%20b//c/../d/./ anna -> read
#read -> read
# nothing that is a comment is read↵  #write -> read
# no such right
rede /a anna -> line 1: there is no right 'rede'
# the first fault of a line, and the first line with one
Read /a anna -> line 1: there is no right 'Read'
see /a anna -> line 1: there is no right 'see'
↵#↵none -> line 3: there is no right 'none'
read /a anna↵write /b beb↵rede -> line 2: there is no user 'beb'
@staff anna -> line 1: there is no right '@staff'
= /a anna -> line 1: there is no right '='
# no path
read -> line 1: there is no path in it
read anna /a -> line 1: its path can't be read: InvalidPath
read a anna -> line 1: its path can't be read: InvalidPath
read * anna -> line 1: its path can't be read: InvalidPath
read /a%2Fb anna -> line 1: its path can't be read: InvalidPath
read /a%00 anna -> line 1: its path can't be read: InvalidPath
read /a#b anna -> line 1: its path can't be read: InvalidPath
read /ä anna -> line 1: its path can't be read: InvalidPath
read /a/../../b anna -> line 1: its path can't be read: ForbiddenPath
read http://host/a anna -> line 1: its path can't be read: InvalidPath
# nobody
read /a -> line 1: it names nobody
@staff = -> line 1: it names nobody
# no such user
read /a beb -> line 1: there is no user 'beb'
read /a Anna -> line 1: there is no user 'Anna'
read /a anna beb ceb -> line 1: there is no user 'beb'
read /a Everybody -> line 1: there is no user 'Everybody'
read /a %65verybody -> line 1: there is no user '%65verybody'
read /a Anna Schmidt -> line 1: there is no user 'Anna'
@staff = anna everybody -> line 1: there is no user 'everybody'
@staff = users -> line 1: there is no user 'users'
@staff = @staff -> line 1: there is no user '@staff'
read /a @staff↵@staff = beb -> line 2: there is no user 'beb'
# no such group
read /a @staff -> line 1: there is no group '@staff'
read /a @staff↵@Staff = anna -> line 1: there is no group '@staff'
read /a @staff↵@staff= anna -> line 1: there is no group '@staff'
read /a @x -> line 1: there is no group '@x'
# a group twice
@staff = anna↵@other = anna↵@staff = ben -> line 3: the group '@staff' is defined twice
@staff = anna↵@staff = beb -> line 2: the group '@staff' is defined twice
read /a @staff↵@staff = anna↵@staff = anna -> line 3: the group '@staff' is defined twice
";

// A text where there is no list of users, and what is said of it.
const WITHOUT_USERS: &str = "\
read /public everybody -> read
read /public users -> line 1: there is no user 'users'
read /public anna -> line 1: there is no user 'anna'
@staff = anna -> line 1: there is no user 'anna'
read /public @staff -> line 1: there is no group '@staff'
";

// A list of users with a name that is taken.
const TAKEN: &str = "\
everybody:$5$rounds=1000$aa$ih1prkhg9Lg0AGuY3ILPnD.W7vwH5Hc6Fu72rE8aTE2 -> no user may be called `everybody` or `users`
anna:$5$rounds=1000$aa$ih1prkhg9Lg0AGuY3ILPnD.W7vwH5Hc6Fu72rE8aTE2↵users:$5$rounds=1000$aa$ih1prkhg9Lg0AGuY3ILPnD.W7vwH5Hc6Fu72rE8aTE2 -> no user may be called `everybody` or `users`
Users:$5$rounds=1000$aa$ih1prkhg9Lg0AGuY3ILPnD.W7vwH5Hc6Fu72rE8aTE2 -> read
";

// The rules of the rows below.
const RULES: &str = "\
read   /public          everybody
read   /projects        users
write  /projects        @staff
write  /anna            anna
admin  /projects/one    ben
read   /deep/down/here  cleo
@staff = cleo ben
";

// Who, or `-` for nobody, and a path; the highest right, or `-` for none.
const MAY: &str = "\
- / -> see
- /public -> read
- /public/a/b -> read
- /publicly -> -
- /Public -> -
- /projects -> -
anna / -> see
anna /public/a -> read
anna /anna -> write
anna /anna/a/b -> write
anna /anna%20 -> -
anna /projects/one -> read
anna /deep -> -
ben /anna -> -
ben /projects -> write
ben /projects/one -> admin
ben /projects/one/a -> admin
ben /projects/two -> write
cleo /projects/one -> write
cleo /deep -> see
cleo /deep/down -> see
cleo /deep/down/here -> read
cleo /deep/down/here/a -> read
cleo /deep/down/there -> -
cleo /deep/up -> -
dora /projects -> read
Anna /anna -> -
";

// What is said of a text.
fn said(alloc: Global, text: &str, users: Option<&Users>) -> Result<String, AllocError> {
    match file::read(alloc, text.as_bytes(), users) {
        Ok(_) => String::from_str(alloc, "read"),
        Err(error) => format!(in alloc; "{error}"),
    }
}

#[test]
fn rules_are_read(rt: HostRuntime) -> Result<(), Fail> {
    let users = Users::read(rt.alloc(), USERS)?;
    for row in TEXTS.lines() {
        if let Some((text, wanted)) = parts(row) {
            let text = marked(rt.alloc(), text)?;
            let found = said(rt.alloc(), &text, Some(&users))?;
            assert!(&rt; found.as_str() == wanted, "{row}\ngives: {found}");
        }
    }
    Ok(())
}

#[test]
fn rules_are_read_without_users(rt: HostRuntime) -> Result<(), Fail> {
    for row in WITHOUT_USERS.lines() {
        if let Some((text, wanted)) = parts(row) {
            let found = said(rt.alloc(), text, None)?;
            assert!(&rt; found.as_str() == wanted, "{row}\ngives: {found}");
        }
    }
    Ok(())
}

#[test]
fn names_may_be_taken(rt: HostRuntime) -> Result<(), Fail> {
    for row in TAKEN.lines() {
        if let Some((list, wanted)) = parts(row) {
            let users = Users::read(rt.alloc(), &marked(rt.alloc(), list)?)?;
            let found = said(rt.alloc(), "read /a everybody", Some(&users))?;
            assert!(&rt; found.as_str() == wanted, "{row}\ngives: {found}");
        }
    }
    Ok(())
}

#[test]
fn words_are_utf_8(rt: HostRuntime) -> Result<(), Fail> {
    for text in [b"rede\n\xff".as_slice(), b"# \xe4\n", b"read /a \xc3"] {
        let found = match file::read(rt.alloc(), text, None) {
            Ok(_) => String::from_str(rt.alloc(), "read")?,
            Err(error) => format!(in rt.alloc(); "{error}")?,
        };
        assert!(&rt; found.as_str() == "it isn't UTF-8", "gives: {found}");
    }
    Ok(())
}

// The highest right of a principal at a path.
fn highest(rules: &Rules, who: Option<&str>, path: &DavPath) -> &'static str {
    if rules.may(who, Right::Admin, path) {
        "admin"
    } else if rules.may(who, Right::Write, path) {
        "write"
    } else if rules.may(who, Right::Read, path) {
        "read"
    } else if rules.may(who, Right::See, path) {
        "see"
    } else {
        "-"
    }
}

#[test]
fn rights_are_granted(rt: HostRuntime) -> Result<(), Fail> {
    let users = Users::read(rt.alloc(), USERS)?;
    let access = file::read(rt.alloc(), RULES.as_bytes(), Some(&users))?;
    for row in MAY.lines() {
        if let Some((input, wanted)) = parts(row) {
            let (who, path) = input.split_once(' ').ok_or("a row without a path")?;
            let who = if who == "-" { None } else { Some(who) };
            let path = DavPath::new(rt.alloc(), path)?;
            let found = highest(&access.rules, who, &path);
            assert!(&rt; found == wanted, "{row}\ngives: {found}");
        }
    }
    Ok(())
}
