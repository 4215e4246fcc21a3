//! Replies (RFC 9110, sections 8 and 15).
ghost use Rattle.std.specs.Prelude.{◌≡◌, ◌≤◌, codes, decimal, IfOk, IsOkAnd, OnOk, OnErr};
ghost use Rattle.http_header.specs.HeaderMap.{insert};
ghost use Rattle.http_header.specs.FieldValue.{plain_value};
ghost use Rattle.dav_core.specs.Metadata.{tag_of};
ghost use Rattle.dav_core.specs.Path.{full_bytes};
ghost use Rattle.dav_core.specs.UrlText.{path_text};
ghost use Rattle.dav_core.specs.World.{last_moment};
ghost use Rattle.dav_engine.specs.Multistatus.{xml_type};
ghost use Rattle.dav_engine.specs.Reply.{error_reply, headers_in, with_tag, with_validators};
ghost use Rattle.dav_engine.specs.declared.reply.ReplyBody.TheVariants.{Tree};

pub mod multistatus;
pub(crate) mod tree;

use crate::date::date_value;
use bytes::Bytes;
use dav_core::davpath::DavPath;
use dav_core::element::Element;
use dav_core::errors::{DavError, NoMemory};
use dav_core::fs::DavMetaData;
use dav_headers::names;
use http::StatusCode;
use http_header::{HeaderMap, HeaderName, HeaderValue};
use std::alloc::Global;
use std::marker::Model;

/// The body of a reply.
#[derive(Drop)]
pub enum ReplyBody {
    /// No body.
    Nothing,
    /// These bytes.
    Bytes(Bytes),
    /// An element tree, which is sent as XML (RFC 4918, section 8.2).
    Tree(Element),
}

/// A reply: its status, its headers and its body.
#[derive(Drop)]
pub struct Reply {
    /// The status (RFC 9110, section 15).
    pub status: StatusCode,
    /// The headers.
    pub headers: HeaderMap,
    /// The body.
    pub body: ReplyBody,
}

impl Model for Reply {
    ghost use Rattle.dav_engine.specs.Reply.{headers_in};
    ghost use Rattle.dav_engine.specs.Reply as said;
    ghost use Rattle.dav_engine.specs.StateCode.{coded_response};
    ghost use Rattle.dav_engine.specs.contracts.reply.ReplyBody as reply_body;

    ghost Value = { said.Reply };

    ghost coded = { coded_response reply_body.the_row.coded };

    ghost view = { λ r. record {
      status = r.status;
      headers = headers_in r.headers;
      body = r.body;
    } };
}

/// Sets a header, in place of the values that it had.
pub fn set_header(
    headers: &mut HeaderMap,
    name: HeaderName,
    value: HeaderValue,
) -> Result<(), NoMemory>
    ensures ok { OnOk result (headers.new ≡ insert headers.old name value) }
    ensures err { OnErr result (headers.new ≡ headers.old) }
{
    match headers.insert(name, value) {
        Ok(_) => Ok(()),
        Err(_) => Err(NoMemory),
    }
}

// The tag of a change number, in quotes (RFC 9110, section 8.8.3).
fn tag_value(alloc: Global, number: u64) -> Result<HeaderValue, NoMemory>
    ensures { IfOk result (λ v. v ≡ plain_value (tag_of number)) }
{
    let tag = format!(in alloc; "\"{number:x}\"")?;
    HeaderValue::from_string(tag).map_err(|_| NoMemory)
}

/// Sets the entity tag of a change number, where there is one (RFC 9110, section 8.8.3).
pub fn set_tag(alloc: Global, headers: &mut HeaderMap, number: Option<u64>) -> Result<(), NoMemory>
    ensures { OnOk result (headers.new ≡ with_tag headers.old number) }
{
    let Some(number) = number else {
        return Ok(());
    };
    let tag = tag_value(alloc, number)?;
    set_header(headers, names::ETAG(), tag)
}

/// Sets the validators of a file: its tag (RFC 9110, section 8.8.3), where it has a number, and when it was last changed
/// (section 8.8.2).
pub fn set_validators(
    alloc: Global,
    headers: &mut HeaderMap,
    file: &DavMetaData,
) -> Result<(), NoMemory>
    requires { file.now.modified ≤ last_moment }
    ensures { OnOk result (headers.new ≡ with_validators headers.old file.now) }
{
    set_tag(alloc, headers, file.number)?;
    let date = date_value(alloc, file.modified)?;
    set_header(headers, http_header::LAST_MODIFIED, date)
}

/// Sets `content-length`: how many bytes the body has (RFC 9110, section 8.6).
pub fn set_length(alloc: Global, headers: &mut HeaderMap, len: u64) -> Result<(), NoMemory>
    ensures { OnOk result (headers.new
        ≡ insert headers.old (codes "content-length") (plain_value (decimal len))) }
{
    let value = HeaderValue::from_u64(alloc, len)?;
    set_header(headers, names::CONTENT_LENGTH(), value)
}

/// Sets `content-location`: the text of the path in a URL, with the prefix (RFC 9110, section 8.7).
pub fn set_location(alloc: Global, headers: &mut HeaderMap, path: &DavPath) -> Result<(), NoMemory>
    ensures { OnOk result (headers.new
        ≡ insert headers.old (codes "content-location")
        (plain_value (path_text (full_bytes path.now)))) }
{
    let text = path.with_prefix().as_url_string(alloc)?;
    let value = HeaderValue::from_string(text).map_err(|_| NoMemory)?;
    set_header(headers, names::CONTENT_LOCATION(), value)
}

/// Sets `content-type`: an element tree is sent as XML (RFC 4918, section 8.2).
pub fn set_xml_type(headers: &mut HeaderMap) -> Result<(), NoMemory>
    ensures ok { OnOk result (headers.new
        ≡ insert headers.old (codes "content-type") (plain_value xml_type.1)) }
    ensures err { OnErr result (headers.new ≡ headers.old) }
{
    let xml = HeaderValue::from_static("application/xml; charset=utf-8");
    set_header(headers, names::CONTENT_TYPE(), xml)
}

/// A reply with an element tree, where there was memory for its headers and for the tree.
pub(crate) fn tree_reply(
    status: StatusCode,
    headers: Result<HeaderMap, NoMemory>,
    tree: Result<Element, NoMemory>,
) -> Result<Reply, NoMemory>
    ensures { IfOk result (λ r. IsOkAnd headers (λ entries. IsOkAnd tree (λ root. r ≡ record {
      status = status;
      headers = headers_in entries;
      body = Tree root;
    }))) }
{
    let headers = headers?;
    let body = ReplyBody::Tree(tree?);
    Ok(Reply {
        status,
        headers,
        body,
    })
}

impl Reply {
    /// The reply to a request that an error ended: its status without a body, with `content-length: 0`, and with
    /// `connection: close` exactly where the error closes the connection (RFC 9110, sections 7.6.1 and 8.6).
    pub fn of_error(alloc: Global, error: DavError) -> Result<Reply, NoMemory>
        ensures { IfOk result (λ r. r ≡ error_reply error) }
    {
        let mut headers = HeaderMap::new(alloc);
        if error.must_close() {
            let close = HeaderValue::from_static("close");
            set_header(&mut headers, http_header::CONNECTION, close)?;
        }
        set_length(alloc, &mut headers, 0)?;
        Ok(Reply {
            status: error.statuscode(),
            headers,
            body: ReplyBody::Nothing,
        })
    }
}
