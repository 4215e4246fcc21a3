//! HTTP requests to a WebDAV server in memory: the bytes of a head and of a body in, a response out (RFC 9110; RFC 4918).
//!
//! The server is `Handler`; a step of it is a step of the machine of `dav_server`, and the tree of each reply is read by its client.
//! `send` makes a reply the response of a connection. `Head` is a head that was read, for who asks more of it before: of it the
//! part that is run and kept is again a head.
#![tactic(auto)]

mod ending;
mod handler;
mod head;
pub mod laws;
mod owner;
mod placed;
mod presented;
mod response;
mod sendable;
mod setting;
mod uploaded;

pub use ending::unlock_head;
pub use handler::{HandleError, Handler, may_be_refused, method_of};
pub use head::{Head, is_lock, is_safe, leaves, takes_tree};
pub use placed::{begins_past, firsts_in};
pub use presented::{Listing, Store, present, present_listing};
pub use response::send;
pub use sendable::is_sendable_if_any;
pub use setting::set_in;
pub use uploaded::{TimeRequest, time_request};
