//! A server that is saved and loaded, as rows. The expected answers are those of RFC 4918 and RFC 9110, and the bytes were
//! worked out by hand.
use super::{answer, fits, unescaped};
use dav_http::Handler;
use dav_saved::LoadError;
use std::alloc::{AllocError, Global};
use std::process::Abort;
use std::test::Fail;

// Requests with their answers, as in a session, before the server is saved.
const BEFORE: &str = "\
PUT /a HTTP/1.1^^hello -> 201 |
MKCOL /d HTTP/1.1^^ -> 201 |
PUT /d/n HTTP/1.1^^hallo -> 201 |
PROPPATCH /a HTTP/1.1^^<propertyupdate xmlns='DAV:'><set><prop><x:p xmlns:x='urn:x' x:b='1'>v &lt;</x:p></prop></set></propertyupdate> -> 207 *
LOCK /d HTTP/1.1^^<lockinfo xmlns='DAV:'><lockscope><exclusive/></lockscope><locktype><write/></locktype><owner><href>http://e/</href></owner></lockinfo> -> 200 *
";

// Requests that are asked of both: of the server that was saved, and of the one that was loaded.
const AFTER: &str = "\
GET /a HTTP/1.1^^ -> 200 |hello
PROPFIND /a HTTP/1.1^Depth: 0^^<propfind xmlns='DAV:'><prop><x:p xmlns:x='urn:x'/></prop></propfind> -> 207 *
PROPFIND / HTTP/1.1^Depth: 1^^ -> 207 *
PROPFIND /d HTTP/1.1^Depth: 1^^<propfind xmlns='DAV:'><prop><lockdiscovery/></prop></propfind> -> 207 *
PUT /d/n HTTP/1.1^^x -> 423 *
PUT /d/n HTTP/1.1^If: (<urn:t>)^^x -> 204 |
PUT /a HTTP/1.1^^other -> 204 |
PROPFIND / HTTP/1.1^Depth: 1^^ -> 207 *
UNLOCK /d HTTP/1.1^Lock-Token: <urn:t>^^ -> 204 |
PUT /d/n HTTP/1.1^^y -> 204 |
";

// Bytes, and whether a server is loaded of them: `#n` is the number n in eight bytes, `'t'` the text t, any other word a
// byte. `ROOT` is the world of the root alone, whose next change number is 1.
const LOADED: &str = "\
ROOT #0 -> yes
ROOT #0 0 -> no
ROOT -> no
ROOT #1 #1 't' #0 #1 '/' 0 0 0 0 0 0 -> yes
ROOT #1 #0 #0 #1 '/' 0 0 0 0 0 0 -> no
ROOT #1 #1 1 #0 #1 '/' 0 0 0 0 0 0 -> no
ROOT #1 #1 't' #0 #0 0 0 0 0 0 0 -> no
ROOT #1 #1 't' #0 #1 '/' 0 1 0 #1 'o' 1 #1 'D' 1 #4 'DAV:' #0 #0 0 0 0 0 -> yes
ROOT #1 #1 't' #0 #1 '/' 0 1 0 #1 'o' 1 #1 'D' 0 #0 #0 0 0 0 0 -> no
#1 #1 #0 #0 #0 0 #1 #1 'n' #1 'p' 1 0 #1 'p' 0 1 #1 'n' #0 #0 #0 #0 #0 -> yes
#1 #1 #0 #0 #0 0 #1 #1 'n' #1 'p' 1 0 #1 'p' 0 1 #0 #0 #0 #0 #0 #0 -> no
#1 #1 #0 #0 #0 0 #1 #1 'n' #1 'p' 1 0 #1 'p' 0 1 #1 'n' #0 #2 1 #1 'a' 1 #1 'b' #0 #0 #0 -> no
#1 #1 #0 #0 #0 1 #0 #0 #0 #0 #0 -> no
";

const ROOT: &str = "#1 #1 #0 #0 #0 0 #0 #0 #0";

// Asserts that a server answers a request as its row says.
fn ask(rt: &impl Abort, alloc: Global, server: &mut Handler, row: &str) -> Result<Vec<u8>, Fail> {
    let (input, wanted) = row.split_once(" -> ").ok_or("no answer")?;
    let input = unescaped(alloc, input)?;
    let found = answer(alloc, server, &input)?;
    assert!(*rt; fits(&found, wanted), "{row}");
    Ok(found)
}

// Asserts that two servers answer a request alike, and as its row says.
fn ask_both(
    rt: &impl Abort,
    alloc: Global,
    one: &mut Handler,
    other: &mut Handler,
    row: &str,
) -> Result<(), Fail> {
    let first = ask(rt, alloc, one, row)?;
    let second = ask(rt, alloc, other, row)?;
    assert!(*rt; first == second, "{row}");
    Ok(())
}

// The server that is loaded of what is saved of this one.
fn reloaded(rt: &impl Abort, alloc: Global, server: &Handler) -> Result<Handler, Fail> {
    let mut saved = Vec::new(alloc);
    assert!(*rt; server.save(alloc, &mut saved)?);
    let mut loaded = Handler::new(alloc, "")?;
    loaded.load(alloc, &saved)?;
    Ok(loaded)
}

#[test]
fn saved_servers_answer_the_same(rt: HostRuntime) -> Result<(), Fail> {
    let mut server = Handler::new(rt.alloc(), "")?;
    for row in BEFORE.lines() {
        ask(&rt, rt.alloc(), &mut server, row)?;
    }
    let mut loaded = reloaded(&rt, rt.alloc(), &server)?;
    for row in AFTER.lines() {
        ask_both(&rt, rt.alloc(), &mut server, &mut loaded, row)?;
    }
    Ok(())
}

// Adds the bytes that a word means.
fn push_word(bytes: &mut Vec<u8>, word: &str) -> Result<(), AllocError> {
    if let Some(number) = word.strip_prefix('#') {
        let number = number.parse::<u64>().unwrap_or(u64::MAX);
        bytes.extend_from_slice(&number.to_be_bytes())
    } else if let Some(text) = word.strip_prefix('\'') {
        bytes.extend_from_slice(text.trim_end_matches('\'').as_bytes())
    } else {
        bytes.push(word.parse::<u8>().unwrap_or(u8::MAX))?;
        Ok(())
    }
}

// Adds the bytes that words mean.
fn push_words(bytes: &mut Vec<u8>, words: &str) -> Result<(), AllocError> {
    for word in words.split(' ') {
        push_word(bytes, word)?;
    }
    Ok(())
}

// The bytes of a row.
fn bytes_of(alloc: Global, row: &str) -> Result<Vec<u8>, AllocError> {
    let mut bytes = Vec::new(alloc);
    match row.strip_prefix("ROOT") {
        Some(rest) => {
            push_words(&mut bytes, ROOT)?;
            if let Some(rest) = rest.strip_prefix(' ') {
                push_words(&mut bytes, rest)?;
            }
        }
        None => push_words(&mut bytes, row)?,
    }
    Ok(bytes)
}

#[test]
fn what_no_server_saves_is_refused(rt: HostRuntime) -> Result<(), Fail> {
    let alloc = rt.alloc();
    let mut server = Handler::new(alloc, "")?;
    for row in LOADED.lines() {
        let (words, wanted) = row.split_once(" -> ").ok_or(row)?;
        let found = match server.load(alloc, &bytes_of(alloc, words)?) {
            Ok(()) => "yes",
            Err(LoadError::NotSaved) => "no",
            Err(LoadError::Memory) => "out of memory",
        };
        assert!(rt; found == wanted, "{row}: {found}");
    }
    Ok(())
}
