//! Properties of resources, as the reply to a request tells them (RFC 4918, sections 9.1, 14 and 15).
ghost use Rattle.std.specs.Prelude.{◌≡◌, ◌≤◌, ◌∷◌, [], IfOk, IfErr, IsSome, OnOk, OnErr};
ghost use Rattle.std.specs.Option.{option_copied};
ghost use Rattle.dav_core.specs.World.{last_moment};
ghost use Rattle.dav_core.specs.declared.errors.DavError.TheVariants as DavError;
ghost use Rattle.dav_engine.specs.ConditionView.{locks_in};
ghost use Rattle.dav_engine.specs.Properties.{properties_of, property_response, told_by, writer, telling_of};
ghost use Rattle.dav_engine.specs.PropertyView.{groups_in};
ghost use Rattle.dav_engine.specs.PropWriter.{all_written, flushed, sends_to, unwritten, waits, BeginsReply, Writes};

use crate::properties::found::response_of;
use crate::properties::kind::Telling;
use crate::properties::live::{Quota, Resource};
use crate::properties::response::property_response;
use crate::properties::response_writer::opened;
use crate::properties::writer::Writer;
use crate::reply::multistatus::Sender;
use crate::reply::{Reply, set_xml_type};
use crate::request::DavRequest;
use dav_core::davpath::DavPath;
use dav_core::element::Element;
use dav_core::errors::{DavResult, NoMemory};
use dav_core::fs::{DavFileSystem, DavMetaData};
use dav_core::ls::DavLockSystem;
use http::StatusCode;
use std::alloc::Global;
use std::collections::BTreeMap;
use std::marker::Model;

// The element for all responses, with these.
fn told_by(alloc: Global, writer: &Writer, responses: Vec<Element>) -> Result<Element, NoMemory>
    ensures { IfOk result (λ e. e ≡ told_by writer.now responses.items) }
{
    let mut element = opened(alloc, writer.telling, &writer.properties)?;
    for response in responses {
        element.push_element(response)?;
    }
    Ok(element)
}

/// What tells properties of resources: each has a response, and all responses are the children of one element.
#[derive(Drop)]
pub struct PropWriter {
    // How they are told.
    writer: Writer,
    // What is known of the quota.
    quota: Option<Quota>,
    // What the responses are moved to, where it was set.
    tx: Option<Sender<Element>>,
    // The responses that weren't moved yet.
    waiting: Vec<Element>,
}

impl Model for PropWriter {
    ghost use Rattle.std.specs.Option.{option_map};
    ghost use Rattle.dav_engine.specs.PropWriter as said;
    ghost use Rattle.dav_engine.specs.WriterCode.{coded_writing};
    ghost use Rattle.dav_engine.specs.contracts.properties.kind.Telling as kind;

    ghost Value = { said.PropWriter };

    ghost coded = { coded_writing kind.the_row.coded };

    ghost view = { λ w. record {
      writer = w.writer;
      quota = w.quota;
      sent = option_map (λ s. s.items) w.tx;
      waiting = w.waiting.items;
    } };
}

impl PropWriter {
    /// Begins the reply to a request that tells properties: its status is 207, and it has `content-type`. `name` is that of the
    /// element that asks for them (RFC 4918, sections 14.2, 14.18, 14.19 and 14.20): `prop` for the given properties;
    /// `allprop` for them and then all that every resource has; `propname` for names alone; `propertyupdate` for what became
    /// of changes. Under another name the given ones are followed by those that are told under `propname`.
    ///
    /// `Memory` where memory runs out; the reply then stays as it was.
    pub fn new(
        alloc: Global,
        request: &DavRequest,
        reply: &mut Reply,
        name: &str,
        props: Vec<Element>,
        principal: Option<&str>,
    ) -> DavResult<PropWriter>
        ensures writer { IfOk result (λ w. w ≡ unwritten (writer (telling_of name.now)
            request.now.headers (option_copied principal.entry) props.items)) }
        ensures reply { OnOk result (BeginsReply reply.old reply.new) }
        ensures unchanged { OnErr result (reply.new ≡ reply.old) }
        ensures memory { IfErr result (λ e. e ≡ DavError.Memory) }
    {
        let telling = Telling::by_name(name);
        let writer = Writer::new(alloc, telling, &request.headers, principal, props)?;
        set_xml_type(&mut reply.headers)?;
        reply.status = StatusCode::MULTI_STATUS;
        Ok(PropWriter {
            writer,
            quota: None,
            tx: None,
            waiting: Vec::new(alloc),
        })
    }

    /// Sends the responses to a sender from now on. What it has already comes first, and then what was sent before, if there was
    /// another sender. Those that wait do so until `flush`.
    ///
    /// `Memory` where memory runs out, never where there was no sender before; all then stays as it was.
    pub fn set_tx(&mut self, mut tx: Sender<Element>) -> DavResult<()>
        ensures ok { OnOk result (self.new ≡ sends_to self.old tx.items) }
        ensures err { OnErr result (self.new ≡ self.old) }
        ensures first { OnErr result (IsSome self.old.sent) }
        ensures memory { IfErr result (λ e. e ≡ DavError.Memory) }
    {
        if let Some(sent) = &mut self.tx {
            tx.append(sent)?;
        }
        self.tx = Some(tx);
        Ok(())
    }

    /// Adds the response for what was found at a path, of which this is the metadata (RFC 4918, section 9.1): under 200 the
    /// properties that are told and found, and then all that the store keeps there. What isn't found is left out, and where
    /// nothing is, there is no status. The quota is asked for once, at the first property that wants it.
    ///
    /// `Memory` where memory runs out; the responses then stay as they were, and so does what is known of the quota.
    pub fn write_props<F: DavFileSystem, L: DavLockSystem>(
        &mut self,
        alloc: Global,
        fs: &mut F,
        ls: Option<&L>,
        path: &DavPath,
        meta: &DavMetaData,
    ) -> DavResult<()>
        requires created { meta.now.created ≤ last_moment }
        requires modified { meta.now.modified ≤ last_moment }
        ensures writes { Writes (locks_in L.locks ls.entry)
            (properties_of self.old.writer path.now meta.now)
            self.old self.new (F.state fs.old) result (F.state fs.new) }
        ensures stays { OnErr result (self.new ≡ self.old) }
        ensures memory { IfErr result (λ e. e ≡ DavError.Memory) }
    {
        let mut known = self.quota;
        let resource = Resource { path, meta };
        let response = response_of(fs, ls, alloc, &self.writer, resource, &mut known)?;
        self.waiting.push(response)?;
        self.quota = known;
        Ok(())
    }

    /// Adds the response for one path: properties under their statuses, in rising order; a status without properties is
    /// told too. `Memory` where memory runs out; the responses then stay as they were.
    pub fn write_propresponse(
        &mut self,
        alloc: Global,
        path: &DavPath,
        props: BTreeMap<u16, Vec<Element>>,
    ) -> DavResult<()>
        ensures ok { OnOk result (self.new
            ≡ waits self.old (property_response path.now (groups_in props) ∷ [])) }
        ensures err { OnErr result (self.new ≡ self.old) }
        ensures memory { IfErr result (λ e. e ≡ DavError.Memory) }
    {
        let response = property_response(alloc, path, props)?;
        self.waiting.push(response)?;
        Ok(())
    }

    /// Moves the responses that wait to the sender, in order; before one is set they wait on, for the next `flush` or for `close`.
    /// `Memory` where memory runs out; they then wait on.
    pub fn flush(&mut self) -> DavResult<()>
        ensures ok { OnOk result (self.new ≡ flushed self.old) }
        ensures err { OnErr result (self.new ≡ self.old) }
        ensures memory { IfErr result (λ e. e ≡ DavError.Memory) }
    {
        if let Some(tx) = &mut self.tx {
            tx.append(&mut self.waiting)?;
        }
        Ok(())
    }

    /// The element with all responses, in order (RFC 4918, section 14.16): what the sender has, and then those that wait. It
    /// declares the namespaces of the properties that are told, of those that the server knows, and none where outcomes are told.
    /// `Memory` where memory runs out.
    pub fn close(self, alloc: Global) -> DavResult<Element>
        ensures ok { IfOk result (λ e. e ≡ told_by self.writer (all_written self)) }
        ensures memory { IfErr result (λ e. e ≡ DavError.Memory) }
    {
        let PropWriter {
            writer,
            tx,
            mut waiting,
            ..
        } = self;
        let mut responses = tx.unwrap_or(Vec::new(alloc));
        responses.append(&mut waiting)?;
        Ok(told_by(alloc, &writer, responses)?)
    }
}
