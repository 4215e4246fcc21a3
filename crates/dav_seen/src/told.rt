//! What is told of a folder on the way (RFC 4918, sections 14.16 and 14.24).
ghost use Rattle.std.specs.Prelude.{◌≡◌, ◌∷◌, [], IfOk, IsOkAnd, codes, map};
ghost use Rattle.dav_core.specs.Element.{named_by, text, with_child};
ghost use Rattle.dav_engine.specs.Multistatus.{dav_element, dav_text, declares_dav, href, multistatus};
ghost use Rattle.dav_engine.specs.Multistatus as engine;
ghost use Rattle.dav_seen.specs.Told as spec;

use dav_core::davpath::DavPath;
use dav_core::element::Element;
use dav_core::errors::NoMemory;
use dav_engine::reply::{set_header, set_xml_type};
use dav_engine::{Reply, ReplyBody};
use http::StatusCode;
use http_header::{ALLOW, HeaderMap, HeaderName, HeaderValue};
use std::alloc::Global;

// An element with an element in it, where there was memory for both.
fn holding(alloc: Global, name: &str, child: Result<Element, NoMemory>) -> Result<Element, NoMemory>
    ensures { IfOk result (λ e. IsOkAnd child (λ c. e ≡ with_child (named_by name.now) c)) }
{
    let mut element = Element::new2(alloc, name)?;
    element.push_element(child?)?;
    Ok(element)
}

// An element with a text in it.
fn saying(alloc: Global, name: &str, value: &str) -> Result<Element, NoMemory>
    ensures { IfOk result (λ e. e ≡ with_child (named_by name.now) (text value.now)) }
{
    let mut element = Element::new2(alloc, name)?;
    element.text(value)?;
    Ok(element)
}

// An element with one more child, where there was memory for both.
fn with_child(
    element: Result<Element, NoMemory>,
    child: Result<Element, NoMemory>,
) -> Result<Element, NoMemory>
    ensures { IfOk result (λ e. IsOkAnd element (λ parent. IsOkAnd child (λ c.
        e ≡ with_child parent c))) }
{
    let mut element = element?;
    element.push_element(child?)?;
    Ok(element)
}

// An element without children that declares the prefix of the namespace `DAV:`.
fn declaring_dav(alloc: Global, name: &str) -> Result<Element, NoMemory>
    ensures { IfOk result (λ e. e ≡ declares_dav (named_by name.now)) }
{
    let mut element = Element::new2(alloc, name)?;
    element.ns("D", "DAV:")?;
    Ok(element)
}

// The property that something is a folder.
fn folder_type(alloc: Global) -> Result<Element, NoMemory>
    ensures { IfOk result (λ e. e ≡ spec.folder_type) }
{
    holding(
        alloc,
        "D:resourcetype",
        Element::new2(alloc, "D:collection"),
    )
}

// That property, under 200.
fn folder_propstat(alloc: Global) -> Result<Element, NoMemory>
    ensures { IfOk result (λ e. e ≡ dav_element (codes "propstat")
        (dav_element (codes "prop") (spec.folder_type ∷ [])
        ∷ dav_text (codes "status") (codes "HTTP/1.1 200 OK") ∷ [])) }
{
    let prop = holding(alloc, "D:prop", folder_type(alloc));
    let propstat = holding(alloc, "D:propstat", prop);
    with_child(propstat, saying(alloc, "D:status", "HTTP/1.1 200 OK"))
}

// Where a path is.
fn href(alloc: Global, path: &DavPath) -> Result<Element, NoMemory>
    ensures { IfOk result (λ e. e ≡ href path.now) }
{
    let text = path.with_prefix().as_url_string(alloc)?;
    saying(alloc, "D:href", &text)
}

// The response for a folder on the way.
fn way_response(alloc: Global, path: &DavPath) -> Result<Element, NoMemory>
    ensures { IfOk result (λ e. e ≡ spec.way_response path.now) }
{
    let response = holding(alloc, "D:response", href(alloc, path));
    with_child(response, folder_propstat(alloc))
}

/// The multistatus for folders on the way.
pub fn multistatus(alloc: Global, paths: &[DavPath]) -> Result<Element, NoMemory>
    ensures { IfOk result (λ e. e ≡ multistatus (map spec.way_response paths.now)) }
{
    let mut element = declaring_dav(alloc, "D:multistatus")?;
    for path in paths {
        element.push_element(way_response(alloc, path)?)?;
    }
    Ok(element)
}

/// A reply that has a status alone.
pub fn status_reply(alloc: Global, status: StatusCode) -> Reply
    ensures { result ≡ engine.status_reply status }
{
    Reply {
        status,
        headers: HeaderMap::new(alloc),
        body: ReplyBody::Nothing,
    }
}

/// 207 with a multistatus.
pub fn listing_reply(alloc: Global, tree: Element) -> Result<Reply, NoMemory>
    ensures { IfOk result (λ r. r ≡ spec.listing_reply tree) }
{
    let mut headers = HeaderMap::new(alloc);
    set_xml_type(&mut headers)?;
    Ok(Reply {
        status: StatusCode::MULTI_STATUS,
        headers,
        body: ReplyBody::Tree(tree),
    })
}

// The error where all below a folder is asked for.
fn finite_depth(alloc: Global) -> Result<Element, NoMemory>
    ensures { IfOk result (λ e. e ≡ declares_dav (dav_element (codes "error")
        (dav_element (codes "propfind-finite-depth") [] ∷ []))) }
{
    let mut element = declaring_dav(alloc, "D:error")?;
    element.push_element(Element::new2(alloc, "D:propfind-finite-depth")?)?;
    Ok(element)
}

/// 403 where all below a folder is asked for.
pub fn too_deep_reply(alloc: Global) -> Result<Reply, NoMemory>
    ensures { IfOk result (λ r. r ≡ spec.too_deep_reply) }
{
    let tree = finite_depth(alloc)?;
    let mut headers = HeaderMap::new(alloc);
    set_xml_type(&mut headers)?;
    Ok(Reply {
        status: StatusCode::FORBIDDEN,
        headers,
        body: ReplyBody::Tree(tree),
    })
}

/// What an OPTIONS is told of a folder on the way.
pub fn way_options(alloc: Global) -> Result<Reply, NoMemory>
    ensures { IfOk result (λ r. r ≡ spec.way_options) }
{
    let mut headers = HeaderMap::new(alloc);
    let classes = HeaderValue::from_static("1,2,3,sabredav-partialupdate");
    set_header(&mut headers, HeaderName::from_static("dav"), classes)?;
    let author = HeaderValue::from_static("DAV");
    set_header(
        &mut headers,
        HeaderName::from_static("ms-author-via"),
        author,
    )?;
    let allow = HeaderValue::from_static("OPTIONS,PROPFIND");
    set_header(&mut headers, ALLOW, allow)?;
    Ok(Reply {
        status: StatusCode::OK,
        headers,
        body: ReplyBody::Nothing,
    })
}
