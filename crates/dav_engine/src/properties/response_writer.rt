//! Properties of resources, as they are told response by response (RFC 4918, sections 9.1, 13 and 14).
ghost use Rattle.std.specs.Prelude.{◌≡◌, ◌≤◌, [], IfOk, IsOkAnd};
ghost use Rattle.std.specs.List.{list_any};
ghost use Rattle.dav_core.specs.World.{last_moment};
ghost use Rattle.dav_engine.specs.ConditionView.{locks_in};
ghost use Rattle.dav_engine.specs.Properties.{properties_of, is_in};
ghost use Rattle.dav_engine.specs.ResponseWriter.{alone, hands_on, started, Tells};
ghost use Rattle.dav_engine.specs.Declaring.{declared, declares_namespaces, opened};
ghost use Rattle.dav_engine.specs.Multistatus.{multistatus};

use crate::properties::found::response_of;
use crate::properties::kind::{Telling, is_in};
use crate::properties::live::{Quota, Resource};
use crate::properties::takes::Takes;
use crate::properties::writer::Writer;
use crate::reply::tree::declaring_dav;
use dav_core::element::Element;
use dav_core::errors::NoMemory;
use dav_core::fs::DavFileSystem;
use dav_core::ls::DavLockSystem;
use std::alloc::Global;
use std::marker::Model;

// Whether one of the properties is of this namespace.
fn has_in(space: &str, properties: &[Element]) -> bool
    ensures { result ≡ list_any (is_in space.now) properties.now }
{
    properties.iter().any(|property| is_in(space, property))
}

// Declares a namespace, where a property has it (Namespaces in XML 1.0, section 3).
fn declare(
    element: Result<Element, NoMemory>,
    prefix: &str,
    space: &str,
    properties: &[Element],
) -> Result<Element, NoMemory>
    ensures { IfOk result (λ e. IsOkAnd element (λ root.
        e ≡ declared prefix.now space.now properties.now root)) }
{
    let mut element = element?;
    if has_in(space, properties) {
        element.ns(prefix, space)?;
    }
    Ok(element)
}

// Whether the namespaces of properties are declared: not where outcomes are told.
fn declares_namespaces(telling: Telling) -> bool
    ensures { result ≡ declares_namespaces telling }
{
    !matches!(telling, Telling::Outcomes)
}

// The element for responses, without any.
fn multistatus(alloc: Global) -> Result<Element, NoMemory>
    ensures { IfOk result (λ e. e ≡ multistatus []) }
{
    declaring_dav(alloc, "D:multistatus")
}

/// The element for all responses, without any.
pub(crate) fn opened(
    alloc: Global,
    telling: Telling,
    properties: &[Element],
) -> Result<Element, NoMemory>
    ensures { IfOk result (λ e. e ≡ opened telling properties.now) }
{
    let element = multistatus(alloc);
    if !declares_namespaces(telling) {
        return element;
    }
    let element = declare(element, "A", "http://apache.org/dav/props/", properties);
    let element = declare(element, "Z", "urn:schemas-microsoft-com:", properties);
    let element = declare(element, "nc", "http://nextcloud.org/ns", properties);
    declare(element, "oc", "http://owncloud.org/ns", properties)
}

/// What tells properties of resources: each has a response, and the multistatus of all responses is handed on in parts.
#[derive(Drop)]
pub struct ResponseWriter<T: Takes> {
    // How they are told.
    writer: Writer,
    // What is known of the quota.
    quota: Option<Quota>,
    // What takes the responses.
    finished: T,
}

impl<T: Takes> Model for ResponseWriter<T> {
    ghost use Rattle.dav_engine.specs.ResponseWriter as said;
    ghost use Rattle.dav_engine.specs.WriterCode.{coded_responses};
    ghost use Rattle.dav_engine.specs.contracts.properties.kind.Telling as kind;

    ghost Value = { said.ResponseWriter T };

    ghost coded = { coded_responses T.code kind.the_row.coded };

    ghost view = { λ w. record {
      writer = w.writer;
      quota = w.quota;
      finished = w.finished;
    } };
}

impl<T: Takes + Drop> ResponseWriter<T> {
    /// Hands the multistatus on without any response.
    pub(crate) fn started(
        alloc: Global,
        writer: Writer,
        to: T,
    ) -> Result<ResponseWriter<T>, NoMemory>
        ensures { IfOk result (λ w. w ≡ started T.opened writer to) }
    {
        let mut finished = to;
        let multistatus = opened(alloc, writer.telling, &writer.properties)?;
        finished.open(alloc, multistatus)?;
        Ok(ResponseWriter {
            writer,
            quota: None,
            finished,
        })
    }

    /// What took the responses.
    pub(crate) fn into_finished(self) -> T
        ensures { result ≡ self.finished }
    {
        self.finished
    }
}

impl<T: Takes> ResponseWriter<T> {
    /// Hands the response for a resource on.
    pub(crate) fn tell<F: DavFileSystem, L: DavLockSystem>(
        &mut self,
        alloc: Global,
        fs: &mut F,
        ls: Option<&L>,
        resource: Resource<'_>,
    ) -> Result<(), NoMemory>
        requires created { resource.meta.now.created ≤ last_moment }
        requires modified { resource.meta.now.modified ≤ last_moment }
        ensures { Tells (locks_in L.locks ls.entry) (hands_on T.taken) alone
            (properties_of self.old.writer resource.entry.path.now resource.entry.meta.now)
            self.old (λ _. self.new) (F.state fs.old) result (F.state fs.new) }
    {
        let mut known = self.quota;
        let response = response_of(fs, ls, alloc, &self.writer, resource, &mut known)?;
        self.finished.take(alloc, response)?;
        self.quota = known;
        Ok(())
    }
}
