//! Wrong logins, and who waits after them.
use super::parts;
use dav_access::Logins;
use std::alloc::{AllocError, Global};
use std::test::Fail;

// Wrong logins, each `name@address` and its second, `name+password` one that is right, `name-password`
// one that is wrong, at second 0, `N*` and `N+` so many wrong and right ones of as many names and
// addresses, and `restart` what is kept of them and recalled; then who comes next, with the password `pw`, and for how many seconds that waits.
const WAITS: &str = "\
# none, and a few
 | anna@a 0 -> 0
anna@a 0 | anna@a 0 -> 0
anna@a 0, anna@a 0, anna@a 0, anna@a 0 | anna@a 0 -> 0
# five of a name from an address; another name doesn't wait there, nor the name elsewhere
anna@a 0, anna@a 0, anna@a 0, anna@a 0, anna@a 0 | anna@a 0 -> 60
anna@a 0, anna@a 0, anna@a 0, anna@a 0, anna@a 0 | anna@z 0 -> 0
anna@a 0, anna@a 0, anna@a 0, anna@a 0, anna@a 0 | bert@a 0 -> 0
anna@a 0, anna@a 0, anna@a 0, anna@a 0, anna@a 0 | Anna@a 0 -> 0
anna@a 0, anna@b 0, anna@c 0, anna@d 0, anna@e 0 | anna@a 0 -> 0
anna@a 0, anna@b 0, anna@c 0, anna@d 0, anna@e 0 | anna@z 0 -> 0
@a 0, @a 0, @a 0, @a 0, @a 0 | @a 0 -> 60
# twenty from an address, of any names
n0@a 0, n1@a 0, n2@a 0, n3@a 0, n4@a 0, n5@a 1, n6@a 1, n7@a 1, n8@a 1, n9@a 1, n10@a 2, n11@a 2, n12@a 2, n13@a 2, n14@a 2, n15@a 3, n16@a 3, n17@a 3, n18@a 3 | e@a 9 -> 0
n0@a 0, n1@a 0, n2@a 0, n3@a 0, n4@a 0, n5@a 1, n6@a 1, n7@a 1, n8@a 1, n9@a 1, n10@a 2, n11@a 2, n12@a 2, n13@a 2, n14@a 2, n15@a 3, n16@a 3, n17@a 3, n18@a 3, n19@a 3 | e@a 9 -> 60
n0@a 0, n1@a 0, n2@a 0, n3@a 0, n4@a 0, n5@a 1, n6@a 1, n7@a 1, n8@a 1, n9@a 1, n10@a 2, n11@a 2, n12@a 2, n13@a 2, n14@a 2, n15@a 3, n16@a 3, n17@a 3, n18@a 3, n19@a 3 | n0@b 9 -> 0
n0@a 0, n1@a 0, n2@a 0, n3@a 0, n4@a 0, n5@a 1, n6@a 1, n7@a 1, n8@a 1, n9@a 1, n10@a 2, n11@a 2, n12@a 2, n13@a 2, n14@a 2, n15@a 3, n16@a 3, n17@a 3, n18@a 3, n19@a 3 | e@a 62 -> 0
# after a minute
anna@a 0, anna@a 10, anna@a 20, anna@a 30, anna@a 40 | anna@a 59 -> 60
anna@a 0, anna@a 10, anna@a 20, anna@a 30, anna@a 40 | anna@a 60 -> 0
anna@a 0, anna@a 10, anna@a 20, anna@a 30, anna@a 40, anna@a 60 | anna@a 69 -> 60
anna@a 0, anna@a 10, anna@a 20, anna@a 30, anna@a 40, anna@a 60 | anna@a 70 -> 0
anna@a 0, bert@b 100, anna@a 100, anna@a 100, anna@a 100, anna@a 100 | anna@a 100 -> 0
# eight in a second, for who erred
6* 5, anna@a 5 | anna@a 5 -> 0
7* 5, anna@a 5 | anna@a 5 -> 1
7* 5, anna@a 5 | bert@a 5 -> 1
7* 5, anna@a 6 | anna@a 6 -> 0
7* 5, anna@a 65 | anna@a 5 -> 0
# sixteen, for who didn't
7* 5, anna@a 5 | anna@b 5 -> 0
15* 5 | anna@a 5 -> 0
16* 5 | anna@a 5 -> 1
16* 5 | anna@a 6 -> 0
17* 5 | anna@a 5 -> 1
# who was let in isn't kept out, but with another password
anna+pw, anna@a 0, anna@a 0, anna@a 0, anna@a 0, anna@a 0 | anna@a 0 -> 0
anna+pw, 1024* 0 | anna@0 0 -> 0
anna+other, anna@a 0, anna@a 0, anna@a 0, anna@a 0, anna@a 0 | anna@a 0 -> 60
ann+apw, 16* 0 | anna@a 0 -> 1
bert+pw, anna@a 0, anna@a 0, anna@a 0, anna@a 0, anna@a 0 | anna@a 0 -> 60
anna+pw, anna@a 0, anna@a 0, anna@a 0, anna@a 0, anna-pw | anna@a 0 -> 60
anna+pw, anna-pw, anna+pw, 16* 0 | anna@a 0 -> 0
anna+pw, anna+pw, anna-pw, 15* 0 | anna@a 0 -> 1
anna+pw, 1023+ , 16* 0 | anna@a 0 -> 0
anna+pw, 1024+ , 16* 0 | anna@a 0 -> 1
# over a restart it is known who was let in, and not what was wrong
anna+pw, restart, anna@a 0, anna@a 0, anna@a 0, anna@a 0, anna@a 0 | anna@a 0 -> 0
anna+pw, anna-pw, restart, anna@a 0, anna@a 0, anna@a 0, anna@a 0, anna@a 0 | anna@a 0 -> 60
anna+pw, 1023+ , restart, restart, 16* 0 | anna@a 0 -> 0
anna+pw, 1024+ , restart, 16* 0 | anna@a 0 -> 1
anna@a 0, anna@a 0, anna@a 0, anna@a 0, anna@a 0, restart | anna@a 0 -> 0
# at most 1,024 are known
1024* 5, anna@a 5 | anna@a 5 -> 1
1024* 5, anna@a 5, anna@a 5, anna@a 5, anna@a 5, anna@a 5 | anna@a 64 -> 0
";

// Notes one wrong login, or so many.
fn note(alloc: Global, logins: &mut Logins, who: &str, now: u64) -> Result<(), AllocError> {
    if let Some((name, address)) = who.split_once('@') {
        logins.hear_address(address.as_bytes())?;
        return logins.note_wrong(name.as_bytes(), b"no", now);
    }
    let (count, is_right) = match who.split_once('+') {
        Some((count, _)) => (count, true),
        None => (who.trim_end_matches('*'), false),
    };
    for number in 0..count.parse::<u64>().unwrap_or(0) {
        let text = format!(in alloc; "{number}")?;
        if is_right {
            logins.note_right(text.as_bytes(), b"yes")?;
        } else {
            logins.hear_address(text.as_bytes())?;
            logins.note_wrong(text.as_bytes(), b"no", now)?;
        }
    }
    Ok(())
}

const SALT: [u8; 16] = *b"the salt of rows";

// The logins of which these bytes were kept.
fn recalled(alloc: Global, bytes: &[u8]) -> Result<Logins, Fail> {
    Ok(Logins::recalled(alloc, bytes)?.ok_or("bytes of no logins")?)
}

// What is known of them after a restart.
fn restarted(alloc: Global, logins: &Logins) -> Result<Logins, Fail> {
    recalled(alloc, &logins.known_bytes(alloc)?)
}

// How long the login waits that comes after the others of a row.
fn waited(alloc: Global, input: &str) -> Result<u64, Fail> {
    let (before, next) = input.split_once(" | ").ok_or("a row without a login")?;
    let mut logins = recalled(alloc, &SALT)?;
    for login in before.split(", ") {
        if login == "restart" {
            logins = restarted(alloc, &logins)?;
        } else if let Some((name, password)) = login.split_once('-') {
            logins.note_wrong(name.as_bytes(), password.as_bytes(), 0)?;
        } else if let Some((name, password)) = login.split_once('+')
            && password != " "
        {
            logins.note_right(name.as_bytes(), password.as_bytes())?;
        } else if let Some((who, at)) = login.split_once(' ') {
            note(alloc, &mut logins, who, at.parse::<u64>().unwrap_or(0))?;
        }
    }
    let (who, at) = next.split_once(' ').ok_or("a login without a time")?;
    let (name, address) = who.split_once('@').ok_or("a login without an address")?;
    logins.hear_address(address.as_bytes())?;
    Ok(logins.wait_of(name.as_bytes(), b"pw", at.parse::<u64>().unwrap_or(0)))
}

#[test]
fn wrong_logins_wait(rt: HostRuntime) -> Result<(), Fail> {
    let mut count = 0usize;
    for row in WAITS.lines() {
        if let Some((input, wanted)) = parts(row) {
            let found = waited(rt.alloc(), input)?;
            let wanted = wanted.parse::<u64>().unwrap_or(u64::MAX);
            assert!(&rt; found == wanted, "{row}\ngives: {found}");
            count = count.saturating_add(1);
        }
    }
    assert!(&rt; count == 46, "{count} rows");
    Ok(())
}

// The salt, and what `sha256sum` says of it with `anna:pw` behind it.
const KNOWN: [u8; 48] = *b"the salt of rows\
\x42\x62\x17\xf9\x7e\x61\xf2\x85\x0e\x13\xd9\x38\x08\xc8\x7e\x68\
\xfb\x5a\xfc\x3c\x2b\xe8\xb6\x2a\xd4\x66\x61\x45\xeb\x74\x37\x47";

// Whether bytes from the front of these are those of logins.
fn are_known(alloc: Global, bytes: &[u8], len: usize) -> Result<bool, Fail> {
    let front = bytes.get(..len).ok_or("fewer bytes")?;
    Ok(Logins::recalled(alloc, front)?.is_some())
}

#[test]
fn right_logins_are_kept(rt: HostRuntime) -> Result<(), Fail> {
    let alloc = rt.alloc();
    let mut logins = recalled(alloc, &SALT)?;
    assert!(&rt; logins.note_right(b"anna", b"pw")?);
    assert!(&rt; !logins.note_right(b"anna", b"pw")?);
    let kept = logins.known_bytes(alloc)?;
    assert!(&rt; kept.as_slice() == KNOWN.as_slice());
    for len in [0usize, 15, 17, 47] {
        assert!(&rt; !are_known(alloc, &kept, len)?, "{len} bytes");
    }
    let many = [7u8; 32_816];
    assert!(&rt; are_known(alloc, &many, 32_784)?);
    assert!(&rt; !are_known(alloc, &many, 32_816)?);
    Ok(())
}
