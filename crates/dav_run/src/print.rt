//! Replies as JSON.
ghost use Rattle.std.specs.Prelude.{◌≡◌, ◌++◌, ◌∷◌, [], codes, true, IfOk, OnOk, string_bytes};
ghost use Rattle.serde_json.specs.Written.{compact_text, members_text};
ghost use Rattle.serde_json.specs.View.{view};
ghost use Rattle.dav_engine.specs.Reply.{headers_in};
ghost use Rattle.dav_run.specs.Print.{body_data, headers_data, rest_members, line_of, place_data, place_line};
ghost use Rattle.dav_run.specs.TreeData.{Adds, tokens_of};

use crate::tree::write_tree;
use dav_engine::{Reply, ReplyBody};
use http_header::HeaderMap;
use json::Writer;
use serde_json::{Map, Value, json};
use std::alloc::{AllocError, Global};

/// The line of a reply: an object with the members `body`, `headers` and `status`, and a newline. The body is null,
/// or the lower-case hexadecimal digits of its bytes as the member `hex`, or the tree as the member `element`. The
/// headers are an object, in byte order of their names: of a name with several values the last one counts, and what
/// isn't UTF-8 is printed as U+FFFD.
pub fn reply_line(alloc: Global, reply: &Reply) -> Result<Vec<u8>, AllocError>
    ensures { IfOk result (λ line. line.items ≡ line_of reply.now) }
{
    let mut line = body_text(alloc, &reply.body)?;
    line.extend_from_slice(rest_text(alloc, reply)?.as_bytes())?;
    Ok(line)
}

/// The line before the replies of a run alone: an object with the member `alone`, the place of a request counted from 0,
/// and a newline.
pub fn alone_line(alloc: Global, place: usize) -> Result<String, AllocError>
    ensures { IfOk result (λ line. string_bytes line ≡ place_line place) }
{
    let mut line = place_value(alloc, place)?.to_string(alloc)?;
    line.push('\n')?;
    Ok(line)
}

// A place as an object.
fn place_value(alloc: Global, place: usize) -> Result<Value, AllocError>
    ensures { IfOk result (λ value. view value ≡ place_data place) }
{
    json!(in alloc; {"alone": place})
}

// The beginning of a reply's object, up to the end of the body. Its text is written once.
fn body_text(alloc: Global, body: &ReplyBody) -> Result<Vec<u8>, AllocError>
    ensures { IfOk result (λ bytes.
        bytes.items ≡ codes "{\"body\":" ++ compact_text (body_data body.now)) }
{
    let mut text = Vec::new(alloc);
    text.extend_from_slice("{\"body\":".as_bytes())?;
    let mut out = Writer::new(text);
    write_body(&mut out, alloc, body)?;
    Ok(out.into_inner())
}

// A body as JSON.
fn write_body(out: &mut Writer, alloc: Global, body: &ReplyBody) -> Result<(), AllocError>
    ensures { OnOk result (Adds out.old out.new (tokens_of (body_data body.now))) }
{
    match body {
        ReplyBody::Nothing => out.null(),
        ReplyBody::Bytes(bytes) => {
            let digits = hex::encode(alloc, bytes.as_slice())?;
            out.begin_object()?;
            out.key("hex")?;
            out.string(&digits)?;
            out.end_object()
        }
        ReplyBody::Tree(tree) => {
            out.begin_object()?;
            out.key("element")?;
            write_tree(out, tree)?;
            out.end_object()
        }
    }
}

// What follows the body in the line of a reply.
fn rest_text(alloc: Global, reply: &Reply) -> Result<String, AllocError>
    ensures { IfOk result (λ text.
        string_bytes text ≡ members_text true (rest_members reply.now) ++ 10 ∷ []) }
{
    let headers = headers_value(alloc, &reply.headers)?.to_string(alloc)?;
    let status = reply.status.as_u16();
    format!(in alloc; ",\"headers\":{headers},\"status\":{status}}}\n")
}

// The headers as JSON.
fn headers_value(alloc: Global, headers: &HeaderMap) -> Result<Value, AllocError>
    ensures { IfOk result (λ value. view value ≡ headers_data (headers_in headers.now)) }
{
    let mut members = Map::new(alloc);
    for (name, value) in headers.iter() {
        let value = String::from_utf8_lossy(alloc, value.as_bytes())?;
        serde_json::put(&mut members, alloc, name.as_str(), Value::String(value))?;
    }
    Ok(Value::Object(members))
}
