//! The methods of a WebDAV server, over any store and any locks (RFC 4918, RFC 9110).
#![tactic(auto)]

pub mod conditions;
mod date;
pub mod davinner;
mod depth;
mod folder;
pub mod headers;
pub mod laws;
mod lock_scope;
pub mod lock_token;
mod locks;
pub mod methods;
mod opening;
pub mod properties;
pub mod reply;
pub mod request;

pub use davinner::{Asker, Caller, DavInner};
pub use methods::copy_move::destination_in;
pub use methods::propfind::gathered;
pub use properties::takes::{Gathered, Takes};
pub use reply::{Reply, ReplyBody};
pub use request::{Body, DavRequest};
