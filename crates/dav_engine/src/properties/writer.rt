//! How properties are told (RFC 4918, section 9.1).
ghost use Rattle.std.specs.Prelude.{◌≡◌, IfOk};
ghost use Rattle.std.specs.Option.{option_copied};
ghost use Rattle.dav_engine.specs.Properties as spec;

use crate::headers::text_of;
use crate::properties::kind::{Telling, wanted_properties};
use crate::reply::tree::copy_of;
use dav_core::element::Element;
use dav_core::errors::NoMemory;
use http_header::{HeaderMap, USER_AGENT};
use std::alloc::Global;
use std::marker::Model;

/// How properties are told: what for, to which program, and for whom; and the properties.
#[derive(Drop)]
pub struct Writer {
    /// What they are told for.
    pub telling: Telling,
    /// The program that asks.
    pub agent: String,
    /// Who asks, where that is known.
    pub principal: Option<String>,
    /// The properties, in order.
    pub properties: Vec<Element>,
}

impl Model for Writer {
    ghost use Rattle.dav_engine.specs.Properties as word;
    ghost use Rattle.dav_engine.specs.WriterCode.{coded_writer};
    ghost use Rattle.dav_engine.specs.contracts.properties.kind.Telling as kind;

    ghost Value = { word.Writer };

    ghost coded = { coded_writer kind.the_row.coded };

    ghost use Rattle.dav_engine.specs.PropertyView.{writer_of};

    ghost view = { writer_of };
}

// The program that asks: the first User-Agent; empty where there is none, or where it isn't text (RFC 9110, section 10.1.5).
fn user_agent(headers: &HeaderMap) -> &str
    ensures { result.now ≡ spec.user_agent headers.now }
{
    match headers.get(USER_AGENT) {
        Some(value) => text_of(value).unwrap_or(""),
        None => "",
    }
}

impl Writer {
    /// What is to be told of each resource, in the reply to a request with these headers.
    pub fn new(
        alloc: Global,
        telling: Telling,
        headers: &HeaderMap,
        principal: Option<&str>,
        given: Vec<Element>,
    ) -> Result<Writer, NoMemory>
        ensures { IfOk result (λ w. w
            ≡ spec.writer telling headers.now (option_copied principal.entry) given.items) }
    {
        let agent = user_agent(headers);
        let properties = wanted_properties(alloc, telling, agent.as_bytes(), given)?;
        Ok(Writer {
            telling,
            agent: String::from_str(alloc, agent)?,
            principal: copy_of(alloc, principal)?,
            properties,
        })
    }
}
