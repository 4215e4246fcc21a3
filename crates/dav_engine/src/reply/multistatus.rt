//! What a method did at several paths, and the reply that reports it (RFC 4918, section 13).
ghost use Rattle.std.specs.Prelude.{◌≡◌, ◌⊎◌, ◌++◌, ◌∷◌, [], map, string_bytes, IfOk, IfErr, OnOk, OnErr, Ok, Err};
ghost use Rattle.std.specs.Option.{unwrap_or};
ghost use Rattle.http.specs.StatusCode.{reason_phrase};
ghost use Rattle.dav_core.specs.declared.errors.DavError.{DavError as Error};
ghost use Rattle.dav_core.specs.Status.{dav_status};
ghost use Rattle.dav_engine.specs.Multistatus.{href, status_element, status_line, response_for, last_error, multistatus, multi_reply};
ghost use Rattle.dav_engine.specs.Multistatus as spec;

use crate::reply::tree::{declaring_dav, saying, with_child};
use crate::reply::{Reply, ReplyBody, set_xml_type, tree_reply};
use dav_core::davpath::DavPath;
use dav_core::element::Element;
use dav_core::errors::{DavError, DavResult, NoMemory};
use http::StatusCode;
use http_header::HeaderMap;
use std::alloc::Global;
use std::marker::Model;

/// What sends values: they are kept, in order.
pub type Sender<T> = Vec<T>;

/// Paths with the statuses that report what was done there, in order.
#[derive(Drop)]
pub struct MultiError {
    items: Sender<(DavPath, StatusCode)>,
}

impl Model for MultiError {
    ghost use Rattle.std.specs.Prelude.{List};
    ghost use Rattle.dav_engine.specs.Multistatus.{PathStatus};

    ghost Value = { List PathStatus };

    ghost view = { λ errors. errors.items.items };
}

impl MultiError {
    /// A collector that adds to these paths and statuses.
    pub fn new(items: Sender<(DavPath, StatusCode)>) -> MultiError
        ensures { result ≡ items.items }
    {
        MultiError { items }
    }

    /// Adds a path with the status of an error, after the others. Where memory runs out, the collector stays as it was.
    pub fn add_status<E: Into<DavError>>(
        &mut self,
        path: &DavPath,
        status: E,
    ) -> Result<(), NoMemory>
        ensures ok { OnOk result ((e : Error) × E.converts status e
            × (self.new ≡ self.old ++ (path.now, dav_status e) ∷ [])) }
        ensures err { OnErr result (self.new ≡ self.old) }
    {
        let error: DavError = status.into();
        let path = path.clone()?;
        self.items.push((path, error.statuscode()))?;
        Ok(())
    }

    /// The status that was added last, as an error; `ChanError` where none was.
    pub fn last_error(&self) -> DavError
        ensures { result ≡ last_error self.now }
    {
        match self.items.last() {
            Some(item) => DavError::Status(item.1),
            None => DavError::ChanError,
        }
    }

    /// The paths and statuses that were added, in order.
    pub fn into_items(self) -> Vec<(DavPath, StatusCode)>
        ensures { result.items ≡ self }
    {
        self.items
    }
}

// Where a path is.
pub(crate) fn href(alloc: Global, path: &DavPath) -> Result<Element, NoMemory>
    ensures { IfOk result (λ e. e ≡ href path.now) }
{
    let text = path.with_prefix().as_url_string(alloc)?;
    saying(alloc, "D:href", &text)
}

// The reason phrase of a status; empty where it has none.
fn phrase_of(status: u16) -> &'static str
    ensures { result.now ≡ unwrap_or (reason_phrase status) [] }
{
    match StatusCode::from_u16(status) {
        Ok(status) => status.canonical_reason().unwrap_or(""),
        Err(_) => "",
    }
}

// A status as a line of text.
fn status_line(alloc: Global, status: u16) -> Result<String, NoMemory>
    ensures { IfOk result (λ line. string_bytes line ≡ status_line status) }
{
    let phrase = phrase_of(status);
    format!(in alloc; "HTTP/1.1 {status} {phrase}")
}

// A status in an element.
pub(crate) fn status_element(alloc: Global, status: u16) -> Result<Element, NoMemory>
    ensures { IfOk result (λ e. e ≡ status_element status) }
{
    let line = status_line(alloc, status)?;
    saying(alloc, "D:status", &line)
}

// The status as it is listed: success is 200.
fn listed_status(status: StatusCode) -> StatusCode
    ensures { result ≡ spec.listed_status status }
{
    if status == StatusCode::NO_CONTENT {
        StatusCode::OK
    } else {
        status
    }
}

// The response for one path.
fn response_for(alloc: Global, path: &DavPath, status: StatusCode) -> Result<Element, NoMemory>
    ensures { IfOk result (λ e. e ≡ response_for (path.now, status)) }
{
    let response = with_child(Element::new2(alloc, "D:response"), href(alloc, path));
    let listed = listed_status(status).as_u16();
    with_child(response, status_element(alloc, listed))
}

// The element with the responses for all paths.
fn multistatus(alloc: Global, items: &[(DavPath, StatusCode)]) -> Result<Element, NoMemory>
    ensures { IfOk result (λ e. e ≡ multistatus (map response_for items.now)) }
{
    let mut element = declaring_dav(alloc, "D:multistatus")?;
    for item in items {
        let response = response_for(alloc, &item.0, item.1)?;
        element.push_element(response)?;
    }
    Ok(element)
}

// A reply that has a status alone.
pub(crate) fn status_reply(alloc: Global, status: StatusCode) -> Reply
    ensures { result ≡ spec.status_reply status }
{
    Reply {
        status,
        headers: HeaderMap::new(alloc),
        body: ReplyBody::Nothing,
    }
}

// 207 with the responses for all paths.
fn multistatus_reply(alloc: Global, items: &[(DavPath, StatusCode)]) -> Result<Reply, NoMemory>
    ensures { IfOk result (λ r. r ≡ spec.multistatus_reply items.now) }
{
    let tree = multistatus(alloc, items);
    let mut headers = HeaderMap::new(alloc);
    set_xml_type(&mut headers)?;
    tree_reply(StatusCode::MULTI_STATUS, Ok(headers), tree)
}

/// The reply to a request for a path that reports what was done at these paths (RFC 4918, section 13): the status alone where
/// the only one is that path, else 207 with one response for each, in order, where 204 is shown as 200.
///
/// `ChanError` where there is none; `Memory` where an allocation fails.
pub fn multi_error(
    alloc: Global,
    path: &DavPath,
    items: Vec<(DavPath, StatusCode)>,
) -> DavResult<Reply>
    ensures ok { IfOk result (λ reply. multi_reply path.now items.items ≡ Ok reply) }
    ensures err { IfErr result
        (λ e. (e ≡ DavError.Memory) ⊎ (multi_reply path.now items.items ≡ Err e)) }
    ensures none { items.items ≡ [] → result ≡ Err DavError.ChanError }
{
    let Some((first, others)) = items.split_first() else {
        return Err(DavError::ChanError);
    };
    if others.is_empty() && first.0 == *path {
        return Ok(status_reply(alloc, first.1));
    }
    Ok(multistatus_reply(alloc, &items)?)
}
