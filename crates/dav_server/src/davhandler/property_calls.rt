//! The calls of `PropWriter` by themselves. What is expected was worked out by hand from RFC 4918, sections 9.1 and 14.
use super::engine_calls::{EngineRequest, request_of};
use super::*;
use crate::rows::{NoRow, Player, play_rows};
use bytes::Bytes;
use dav_core::element::Element;
use dav_engine::ReplyBody;
use dav_engine::properties::prop_writer::PropWriter;
use dav_engine::reply::multistatus::Sender;
use dav_store::memfs::MemFs;
use dav_store::memls::MemLs;
use http_header::HeaderMap;
use std::collections::BTreeMap;
use std::test::Fail;

// What is written, with semicolons between: the element that asks, with the names of properties of `DAV:`; then paths of which the
// properties are found, paths with a status and a name, `set_tx`, perhaps with the path of a response that the sender has, and `flush`.
// At /f is a file of one byte. Behind ` -> ` are the status of the reply and its type, and the responses: each with its path, its
// statuses, and names of properties with their texts.
const WRITTEN: &str = r##"# a property that is found, and one that is forbidden
prop getcontentlength; /f; flush; /g 403 foo -> 207 application/xml; charset=utf-8; /f 200 getcontentlength=1; /g 403 foo
prop getcontentlength; /f; /g 403 foo -> 207 application/xml; charset=utf-8; /f 200 getcontentlength=1; /g 403 foo
prop getcontentlength; /f; /g 403 foo; flush; flush -> 207 application/xml; charset=utf-8; /f 200 getcontentlength=1; /g 403 foo
prop getcontentlength; flush; /g 403 foo; /f -> 207 application/xml; charset=utf-8; /g 403 foo; /f 200 getcontentlength=1
# with a sender, before what is written or behind it, and with two, of which one has a response
prop getcontentlength; set_tx; /f; flush; /g 403 foo -> 207 application/xml; charset=utf-8; /f 200 getcontentlength=1; /g 403 foo
prop getcontentlength; set_tx; /f; flush; /g 403 foo; flush; flush -> 207 application/xml; charset=utf-8; /f 200 getcontentlength=1; /g 403 foo
prop getcontentlength; /f; flush; set_tx; flush; /g 403 foo -> 207 application/xml; charset=utf-8; /f 200 getcontentlength=1; /g 403 foo
prop getcontentlength; set_tx; /f; /g 403 foo -> 207 application/xml; charset=utf-8; /f 200 getcontentlength=1; /g 403 foo
prop getcontentlength; set_tx; /f; flush; set_tx; /g 403 foo; flush -> 207 application/xml; charset=utf-8; /f 200 getcontentlength=1; /g 403 foo
prop getcontentlength; set_tx; /f; flush; /g 403 foo; set_tx /h -> 207 application/xml; charset=utf-8; /h; /f 200 getcontentlength=1; /g 403 foo
# what isn't found is left out, and where nothing is, there is no status
prop getetag foo; /f -> 207 application/xml; charset=utf-8; /f 200 getetag="2"
prop foo; /f -> 207 application/xml; charset=utf-8; /f
# names alone
propname; /f -> 207 application/xml; charset=utf-8; /f 200 creationdate getcontentlength getcontenttype getetag getlastmodified lockdiscovery resourcetype supportedlock
# what became of changes; nothing at all
propertyupdate; /f 403 a; /f 200 b -> 207 application/xml; charset=utf-8; /f 403 a; /f 200 b
allprop -> 207 application/xml; charset=utf-8
"##;

// A property of `DAV:`.
fn property(alloc: Global, name: &str) -> Result<Element, NoMemory> {
    let mut element = Element::new(alloc, name)?;
    element.namespace = Some(String::from_str(alloc, "DAV:")?);
    Ok(element)
}

// A writer for the element that a text names.
fn begun(alloc: Global, reply: &mut Reply, text: &'static str) -> Result<PropWriter, Fail> {
    let asked: EngineRequest = request_of(alloc, "PROPFIND /f")?;
    let mut names = text.split(' ');
    let element = names.next().ok_or(NoRow(text))?;
    let mut properties = Vec::new(alloc);
    for name in names {
        properties.push(property(alloc, name)?)?;
    }
    Ok(PropWriter::new(alloc, &asked.request, reply, element, properties, None)?)
}

// An element with one element in it, which has a text.
fn saying(alloc: Global, outer: &str, inner: &str, text: &str) -> Result<Element, Fail> {
    let mut said = Element::new(alloc, inner)?;
    said.text(text)?;
    let mut element = Element::new(alloc, outer)?;
    element.push_element(said)?;
    Ok(element)
}

// A sender that has a response for the path behind a blank, if one is named.
fn sender(alloc: Global, has: &str) -> Result<Sender<Element>, Fail> {
    let mut tx = Vec::new(alloc);
    if let Some(path) = has.strip_prefix(' ') {
        tx.push(saying(alloc, "response", "href", path)?)?;
    }
    Ok(tx)
}

// One property under a status.
fn group(alloc: Global, status: &str, name: &str) -> Result<BTreeMap<u16, Vec<Element>>, Fail> {
    let mut properties = Vec::new(alloc);
    properties.push(property(alloc, name)?)?;
    let mut groups = BTreeMap::new(alloc);
    groups.insert(status.parse::<u16>()?, properties)?;
    Ok(groups)
}

// Adds the properties of an element, with their texts.
fn add_properties(alloc: Global, out: &mut String, element: &Element) -> Result<(), Fail> {
    for property in element.child_elems() {
        out.push(' ')?;
        out.push_str(&property.name)?;
        if let Some(text) = property.get_text(alloc)? {
            out.push('=')?;
            out.push_str(&text)?;
        }
    }
    Ok(())
}

// Adds the status of properties, and these.
fn add_status(alloc: Global, out: &mut String, propstat: &Element) -> Result<(), Fail> {
    for part in propstat.child_elems() {
        if let Some(line) = part.get_text(alloc)? {
            out.push(' ')?;
            out.push_str(line.split(' ').nth(1).unwrap_or(""))?;
        }
    }
    for part in propstat.child_elems() {
        add_properties(alloc, out, part)?;
    }
    Ok(())
}

// Adds a response.
fn add_response(alloc: Global, out: &mut String, response: &Element) -> Result<(), Fail> {
    out.push_str("; ")?;
    for part in response.child_elems() {
        match part.get_text(alloc)? {
            Some(address) => out.push_str(&address)?,
            None => add_status(alloc, out, part)?,
        }
    }
    Ok(())
}

// A reply's status and type, and the responses of an element.
fn told(alloc: Global, reply: &Reply, tree: &Element) -> Result<String, Fail> {
    let mut out = format!(in alloc; "{}", reply.status.as_u16())?;
    for (_, value) in reply.headers.iter() {
        out.push(' ')?;
        out.push_str(value.to_str()?)?;
    }
    for response in tree.child_elems() {
        add_response(alloc, &mut out, response)?;
    }
    Ok(out)
}

// Writes properties of what is in a store.
#[derive(Drop)]
struct Written<F: DavFileSystem + Drop, L: DavLockSystem + Drop> {
    fs: F,
    ls: Option<L>,
}

impl<F: DavFileSystem + Drop, L: DavLockSystem + Drop> Written<F, L> {
    // Does what a part of a row says.
    fn write(
        &mut self,
        alloc: Global,
        writer: &mut PropWriter,
        part: &'static str,
    ) -> Result<(), Fail> {
        if part == "flush" {
            return Ok(writer.flush()?);
        }
        if let Some(has) = part.strip_prefix("set_tx") {
            return Ok(writer.set_tx(sender(alloc, has)?)?);
        }
        let mut words = part.split(' ');
        let path = DavPath::new(alloc, words.next().unwrap_or(""))?;
        match (words.next(), words.next()) {
            (Some(status), Some(name)) => {
                Ok(writer.write_propresponse(alloc, &path, group(alloc, status, name)?)?)
            }
            _ => {
                let meta = self.fs.metadata(&path)?;
                let ls = self.ls.as_ref();
                Ok(writer.write_props(alloc, &mut self.fs, ls, &path, &meta)?)
            }
        }
    }
}

impl Player for Written<MemFs, MemLs> {
    fn begin(&mut self, _alloc: Global) -> Result<(), Fail> {
        Ok(())
    }

    fn answer(&mut self, alloc: Global, question: &'static str) -> Result<Vec<u8>, Fail> {
        let mut reply = Reply {
            status: StatusCode::OK,
            headers: HeaderMap::new(alloc),
            body: ReplyBody::Nothing,
        };
        let mut parts = question.split("; ");
        let mut writer = begun(alloc, &mut reply, parts.next().unwrap_or(""))?;
        for part in parts {
            self.write(alloc, &mut writer, part)?;
        }
        let tree = writer.close(alloc)?;
        Ok(told(alloc, &reply, &tree)?.into_bytes())
    }
}

// A store with a file of one byte at /f, and no locks.
fn store_of_a_file(alloc: Global) -> Result<Written<MemFs, MemLs>, Fail> {
    let mut server = tests::lockless_server(alloc)?;
    let head = b"PUT /f HTTP/1.1\r\n\r\n";
    let exchange = Exchange::new(head, Body::Bytes(Bytes::from_static(b"x")), None, 1, None)?;
    let _ = server.handle(alloc, &exchange)?;
    Ok(Written {
        fs: server.fs,
        ls: server.ls,
    })
}

#[test]
fn writes_properties(rt: HostRuntime) -> Result<(), Fail> {
    let mut written = store_of_a_file(rt.alloc())?;
    play_rows(&rt, &mut written, WRITTEN)
}
