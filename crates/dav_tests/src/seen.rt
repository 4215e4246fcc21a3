//! What is told of folders on the way to what may be read, as rows of text. In a row `^` is CRLF.
use bytes::Bytes;
use dav_access::{Rules, Users, file};
use dav_core::davpath::DavPath;
use dav_core::element::{Element, XmlNode};
use dav_engine::{Caller, Reply, ReplyBody};
use dav_http::Handler;
use dav_seen::way_reply;
use std::alloc::Global;
use std::test::Fail;

const USERS: &str = "\
anna:$5$rounds=1000$aa$ih1prkhg9Lg0AGuY3ILPnD.W7vwH5Hc6Fu72rE8aTE2
ben:$5$rounds=1000$aa$ih1prkhg9Lg0AGuY3ILPnD.W7vwH5Hc6Fu72rE8aTE2
";

const RULES: &str = "\
read   /public     everybody
write  /anna       anna
read   /far/off    anna
read   /far/away   anna
read   /far/a.txt  ben
write  /gone       anna
";

// Requests by which the server is filled.
const FILLED: &str = "\
MKCOL /public HTTP/1.1^^
MKCOL /anna HTTP/1.1^^
MKCOL /ben HTTP/1.1^^
MKCOL /far HTTP/1.1^^
MKCOL /far/off HTTP/1.1^^
PUT /far/a.txt HTTP/1.1^^
PUT /far/b.txt HTTP/1.1^^
";

// Who, or `-` for nobody, and a head; the status, and where a listing comes each address, with what is told of it under 200 and 404, `*` for
// what the server tells of what may be read.
const TOLD: &str = "\
# of who may read below: what is on the way, and what may be read (RFC 4918, section 9.1)
anna PROPFIND / HTTP/1.1^Depth: 0^^ -> 207 /=resourcetype
anna PROPFIND / HTTP/1.1^Depth: 1^^ -> 207 /=resourcetype /far/=resourcetype /public/=* /anna/=*
ben PROPFIND / HTTP/1.1^Depth: 1^^ -> 207 /=resourcetype /far/=resourcetype /public/=*
- PROPFIND / HTTP/1.1^^ -> 207 /=resourcetype /public/=*
anna PROPFIND /far HTTP/1.1^Depth: 1^^ -> 207 /far/=resourcetype /far/off/=*
ben PROPFIND /far/ HTTP/1.1^Depth: 1^^ -> 207 /far/=resourcetype /far/a.txt=*
# names that aren't told are under 404
anna PROPFIND / HTTP/1.1^Depth: 0^^<propfind xmlns='DAV:'><prop><getetag/><resourcetype/></prop></propfind> -> 207 /=resourcetype,404,getetag
anna PROPFIND / HTTP/1.1^Depth: 0^^<propfind xmlns='DAV:'><propname/></propfind> -> 207 /=resourcetype
# too deep, no document (RFC 4918, sections 8.2 and 9.1.1)
anna PROPFIND / HTTP/1.1^Depth: infinity^^ -> 403
anna PROPFIND / HTTP/1.1^Depth: Infinity^^ -> 403
anna PROPFIND / HTTP/1.1^Depth: 0^^<propfind -> 400
# no folder is there, or a file
anna PROPFIND /gone HTTP/1.1^^ -> 404
ben PROPFIND /far/a.txt HTTP/1.1^^ -> 404
anna OPTIONS /gone HTTP/1.1^^ -> 404
# other methods, and what is no request
anna OPTIONS / HTTP/1.1^^ -> 200
anna GET / HTTP/1.1^^ -> 405
anna PUT / HTTP/1.1^^ -> 405
anna REPORT / HTTP/1.1^^ -> 404
";

// The rules of the rows.
fn rules_of(alloc: Global) -> Result<Rules, Fail> {
    let users = Users::read(alloc, USERS)?;
    Ok(file::read(alloc, RULES.as_bytes(), Some(&users))?.rules)
}

// A word, or none where it is `-`.
fn word_of(word: &str) -> Option<&str> {
    if word == "-" { None } else { Some(word) }
}

// Who makes a request of the rows.
fn caller(who: Option<&str>) -> Caller<'_> {
    Caller {
        principal: who,
        moment: 1_000_000_000,
        token: None,
    }
}

// The bytes of a row, where `^` is CRLF: a head and a body.
fn request_of(alloc: Global, text: &str) -> Result<(Vec<u8>, Bytes), Fail> {
    let (head, body) = text
        .split_once("^^")
        .ok_or("a row without an end of its head")?;
    let mut bytes = String::new(alloc);
    for line in head.split("^") {
        bytes.push_str(line)?;
        bytes.push_str("\r\n")?;
    }
    bytes.push_str("\r\n")?;
    let body = Bytes::copy_from_slice(alloc, body.as_bytes())?;
    Ok((Vec::from_slice(alloc, bytes.as_bytes())?, body))
}

// A server that was filled by the requests.
fn filled(alloc: Global) -> Result<Handler, Fail> {
    let mut handler = Handler::new(alloc, "")?;
    for row in FILLED.lines() {
        let (head, body) = request_of(alloc, row)?;
        let _ = handler.handle(alloc, &head, body, &caller(None))?;
    }
    Ok(handler)
}

// The first child element with a name.
fn child<'e>(element: &'e Element, name: &str) -> Option<&'e Element> {
    for it in element.child_elems() {
        if it.name.as_str() == name {
            return Some(it);
        }
    }
    None
}

// Adds what is told of a response: its address, and the names of its properties.
fn add_response(alloc: Global, said: &mut String, response: &Element) -> Result<(), Fail> {
    let href = child(response, "href").ok_or("a response without an address")?;
    said.push(' ')?;
    said.push_str(href.get_text(alloc)?.ok_or("no address")?.as_str())?;
    said.push('=')?;
    let mut names = String::new(alloc);
    for propstat in response.child_elems() {
        if let Some(prop) = child(propstat, "prop") {
            if !names.is_empty() {
                names.push_str(",404")?;
            }
            for property in prop.child_elems() {
                if !names.is_empty() {
                    names.push(',')?;
                }
                names.push_str(property.name.as_str())?;
            }
        }
    }
    let is_whole = names.as_str().starts_with("creationdate,");
    said.push_str(if is_whole { "*" } else { names.as_str() })?;
    Ok(())
}

// What is told by a reply.
fn said_by(alloc: Global, reply: &Reply) -> Result<String, Fail> {
    let status = reply.status.as_u16();
    let mut said = format!(in alloc; "{status}")?;
    if let ReplyBody::Tree(tree) = &reply.body {
        for node in &tree.children {
            if let XmlNode::Element(element) = node
                && element.name.as_str() == "response"
            {
                add_response(alloc, &mut said, element)?;
            }
        }
    }
    Ok(said)
}

#[test]
fn ways_are_told(rt: HostRuntime) -> Result<(), Fail> {
    let alloc = rt.alloc();
    let rules = rules_of(alloc)?;
    let mut handler = filled(alloc)?;
    for row in TOLD.lines() {
        let Some((input, wanted)) = row.rsplit_once(" -> ") else {
            continue;
        };
        let (who, request) = input.split_once(" ").ok_or("a row without a request")?;
        let (head, body) = request_of(alloc, request)?;
        let caller = caller(word_of(who));
        let reply = way_reply(alloc, &rules, &mut handler, &head, &body, &caller)?;
        let said = said_by(alloc, &reply)?;
        assert!(&rt; said.as_str() == wanted, "{row}\ngives: {said}");
    }
    Ok(())
}
