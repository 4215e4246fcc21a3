//! A WebDAV server: from the bytes of a request to its reply, and whole runs (RFC 9112; RFC 4918, section 8).
#![tactic(auto)]

#[cfg(test)]
mod asserting;
mod body;
pub mod davhandler;
pub mod exchange;
mod handle_gethead;
pub mod head;
pub mod laws;
#[cfg(test)]
mod lock_lists;
pub mod method;
mod moment;
mod naming;
pub mod refusing;
#[cfg(test)]
mod rows;
pub mod run;
pub mod target;
