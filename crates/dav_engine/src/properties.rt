//! Properties of resources (RFC 4918, sections 4 and 15): what is asked for, those that the server knows and those that are stored,
//! what is found of them, and how a reply tells it.
pub(crate) mod found;
pub(crate) mod kind;
pub(crate) mod live;
pub mod locks;
pub mod prop_writer;
pub(crate) mod response;
pub(crate) mod response_writer;
pub(crate) mod stored;
pub mod takes;
pub(crate) mod writer;
