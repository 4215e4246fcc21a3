//! Listings that are shown response by response (RFC 4918, sections 9.1 and 14.16).
ghost use Rattle.std.specs.Prelude.{◌≡◌, ◌∷◌, ◌++◌, [], false, true, map, IfOk, OnOk, Some};
ghost use Rattle.std.specs.Result.{result_ok};
ghost use Rattle.http_server.specs.Response.{IsBlank, IsResponse};
ghost use Rattle.dav_core.specs.Element.{children_of, is_element, with_children};
ghost use Rattle.dav_core.specs.ElementView.{node_tree};
ghost use Rattle.dav_xml.specs.Namespaces.{document};
ghost use Rattle.dav_xml.specs.Written.{document_of};
ghost use Rattle.dav_http.specs.Listing as spec;
ghost use Rattle.dav_http.specs.Listing.{IsBegun, ShowsListing, asks_for_room, whole_text};
ghost use Rattle.dav_http.specs.Presented.{applied, leaves_out};
ghost use Rattle.dav_http.specs.Room.{room_in};
ghost use Rattle.dav_http.specs.Sending.{sent_fields};

mod pieces;

use super::{Store, add_applied, used_in};
use crate::head::Head;
use crate::presented::preferred::preferred_in;
use crate::response::add_fields;
use bytes::Bytes;
use dav_core::element::{Element, XmlNode};
use dav_core::errors::NoMemory;
use dav_engine::{Reply, Takes};
use dav_presented::minimal::answered_to;
use dav_presented::quota::{Room, asks_for_quota, with_quota};
use dav_presented::typed::with_types;
use dav_xml::XmlError;
use http_server::{Response, Rope};
use pieces::Pieces;
use std::alloc::{AllocError, Global};
use std::marker::Model;

// What is read of the body of a PROPFIND, if anything is.
fn asked_in(alloc: Global, body: &[u8]) -> Result<Option<Element>, NoMemory>
    ensures { IfOk result (λ asked. asked ≡ result_ok (document body.now)) }
{
    match dav_xml::read(alloc, body) {
        Ok(propfind) => Ok(Some(propfind)),
        Err(XmlError::Memory) => Err(NoMemory),
        Err(XmlError::Fault(_)) => Ok(None),
    }
}

// Whether the room of folders is asked for.
fn asks_for_room(asked: &Option<Element>) -> bool
    ensures { result ≡ asks_for_room asked.now }
{
    match asked {
        Some(propfind) => asks_for_quota(propfind),
        None => false,
    }
}

// The room of a store; any room where it isn't asked for, since that of a large store is dear.
fn room_for(alloc: Global, store: Store<'_>, is_asked: bool) -> Result<Room, NoMemory>
    ensures { IfOk result (λ room. is_asked ≡ true → room ≡ room_in store.entry) }
{
    let available = store.available;
    if !is_asked {
        return Ok(Room { used: 0, available });
    }
    let used = used_in(alloc, store)?;
    Ok(Room { used, available })
}

// A multistatus as it is shown by what was read of the body of the request.
fn shown_by(
    alloc: Global,
    leaves_out: bool,
    room: Room,
    asked: &Option<Element>,
    told: Element,
) -> Result<Element, NoMemory>
    ensures { IfOk result (λ sent. sent ≡ spec.shown_by leaves_out room asked.now told) }
{
    let told = with_types(alloc, told)?;
    match asked {
        Some(propfind) => {
            let told = with_quota(alloc, room, propfind, told)?;
            answered_to(alloc, leaves_out, propfind, told)
        }
        None => Ok(told),
    }
}

// An element with these children.
fn with_nodes(root: Element, nodes: Vec<XmlNode>) -> Element
    ensures { result ≡ with_children root (map node_tree nodes.items) }
{
    let Element {
        name,
        prefix,
        namespace,
        attributes,
        ..
    } = root;
    Element {
        name,
        prefix,
        namespace,
        attributes,
        children: nodes,
    }
}

// A multistatus with this response alone, and the children that it had.
fn alone(
    alloc: Global,
    root: Element,
    response: Element,
) -> Result<(Element, Vec<XmlNode>), NoMemory>
    ensures told { IfOk result (λ p. p.0 ≡ with_children root (response ∷ [])) }
    ensures had { IfOk result (λ p. map node_tree p.1.items ≡ children_of root) }
    ensures element { is_element root ≡ true }
{
    let mut one = Vec::with_capacity(alloc, 1)?;
    one.push(XmlNode::Element(response))?;
    let Element {
        name,
        prefix,
        namespace,
        attributes,
        children,
    } = root;
    let told = Element {
        name,
        prefix,
        namespace,
        attributes,
        children: one,
    };
    Ok((told, children))
}

/// What takes the responses to a PROPFIND, one after another, as they are made, and writes each as the client is shown it: so no
/// more of them than one is a tree at a time (RFC 4918, sections 9.1 and 14.16).
#[derive(Drop)]
pub struct Listing {
    leaves_out: bool,
    room: Room,
    asked: Option<Element>,
    root: Option<Element>,
    text: Pieces,
}

impl Model for Listing {
    ghost use Rattle.dav_http.specs.Listing.{Listed};
    ghost use Rattle.dav_http.specs.ListingCode.{coded_listed};

    ghost Value = { Listed };

    ghost coded = { coded_listed };

    ghost view = { λ l. record {
      leaves_out = l.leaves_out;
      room = l.room;
      asked = l.asked;
      root = l.root;
      text = l.text;
    } };
}

impl Listing {
    ghost use Rattle.std.specs.Prelude.{◌≡◌, ◌∷◌, [], IfOk, OnOk, Some};
    ghost use Rattle.dav_core.specs.Element.{with_children};
    ghost use Rattle.dav_http.specs.Listing.{IsBegun, shown_in, text_with};
    ghost use Rattle.dav_http.specs.Presented.{leaves_out};
    ghost use Rattle.dav_http.specs.Room.{room_in};

    /// What takes the responses to a PROPFIND with this head and this body, from a server of which this is the store. `Err` where
    /// there is no memory.
    pub fn new(
        alloc: Global,
        head: &Head<'_>,
        body: &[u8],
        store: Store<'_>,
    ) -> Result<Listing, NoMemory>
        ensures { IfOk result (IsBegun (leaves_out head.now) (room_in store.entry) body.now) }
    {
        let preferred = preferred_in(alloc, head)?;
        let asked = asked_in(alloc, body)?;
        let room = room_for(alloc, store, asks_for_room(&asked))?;
        Ok(Listing {
            leaves_out: preferred.leaves_out,
            room,
            asked,
            root: None,
            text: Pieces::new(alloc),
        })
    }

    // A multistatus as it is shown.
    fn shown(&self, alloc: Global, told: Element) -> Result<Element, NoMemory>
        ensures { IfOk result (λ sent. sent ≡ shown_in self.now told) }
    {
        shown_by(alloc, self.leaves_out, self.room, &self.asked, told)
    }

    // Takes a response within this multistatus.
    fn add(&mut self, alloc: Global, root: Element, response: Element) -> Result<(), NoMemory>
        ensures { OnOk result (self.new ≡ record self.old {
          root = Some root;
          text = text_with self.old (Some root) response;
        }) }
    {
        let (told, children) = alone(alloc, root, response)?;
        let sent = self.shown(alloc, told)?;
        self.text.add(alloc, &sent)?;
        self.root = Some(with_nodes(sent, children));
        Ok(())
    }
}

impl Takes for Listing {
    ghost use Rattle.dav_http.specs.Listing.{opened, taken};

    ghost opened = { opened };

    ghost taken = { taken };

    // Allocates nothing.
    fn open(&mut self, alloc: Global, multistatus: Element) -> Result<(), NoMemory> {
        self.root = Some(with_nodes(multistatus, Vec::new(alloc)));
        self.text = Pieces::new(alloc);
        Ok(())
    }

    fn take(&mut self, alloc: Global, response: Element) -> Result<(), NoMemory> {
        match self.root.take() {
            Some(root) => self.add(alloc, root, response),
            None => Ok(()),
        }
    }
}

// The document of a multistatus without a response.
fn written(alloc: Global, root: &Element) -> Result<Rope, AllocError>
    ensures { IfOk result (λ rope. rope.items ≡ document_of root.now) }
{
    let mut rope = Rope::new(alloc);
    rope.push(Bytes::from_vec(dav_xml::write(alloc, root)?)?)?;
    Ok(rope)
}

// The document of all that was taken within a multistatus.
fn ended(alloc: Global, root: &Element, text: Pieces) -> Result<Rope, AllocError>
    ensures { IfOk result (λ rope. rope.items ≡ whole_text (Some root.now) text) }
{
    if text.is_empty() {
        return written(alloc, root);
    }
    let mut text = text;
    text.end(root)?;
    text.into_rope()
}

// The document of all that a listing took.
fn whole_text(alloc: Global, listing: Listing) -> Result<Rope, AllocError>
    ensures { IfOk result (λ rope. rope.items ≡ whole_text listing.root listing.text) }
{
    let Listing { root, text, .. } = listing;
    match root {
        Some(root) => ended(alloc, &root, text),
        None => Ok(Rope::new(alloc)),
    }
}

// Fills a response with the status and the fields of a reply, and with the document of all that a listing took of it.
fn fill_listing(
    alloc: Global,
    head: &Head<'_>,
    reply: Reply,
    listing: Listing,
    response: &mut Response,
) -> Result<(), AllocError>
    requires { IsBlank response.old }
    ensures { OnOk result (IsResponse reply.status
        (sent_fields false reply.headers ++ applied head.now reply)
        (whole_text listing.root listing.text) response.new) }
{
    let preferred = preferred_in(alloc, head)?;
    let is_applied = reply.status.as_u16() == 207 && preferred.is_minimal;
    let Reply {
        status,
        headers,
        ..
    } = reply;
    response.body = whole_text(alloc, listing)?;
    response.status = status;
    add_fields(&headers, false, response)?;
    add_applied(is_applied, response)
}

/// Fills a response with the status and the fields of a reply to a PROPFIND with this head, and with the document of all that a
/// listing took of it; that is what `present` sends of the reply with all responses in one tree. `Err` where there is no memory.
pub fn present_listing(
    alloc: Global,
    head: &Head<'_>,
    reply: Reply,
    listing: Listing,
    response: &mut Response,
) -> Result<(), AllocError>
    requires { IsBlank response.old }
    ensures sent { OnOk result (IsResponse reply.status
        (sent_fields false reply.headers ++ applied head.now reply)
        (whole_text listing.root listing.text) response.new) }
    ensures shown { OnOk result (ShowsListing head.now reply listing response.new) }
{
    fill_listing(alloc, head, reply, listing, response)
}
