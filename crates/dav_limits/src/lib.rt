//! How much a server may hold: limits of files and of bytes, at paths and below them (RFC 4331; RFC 4918, section 11.5).
#![tactic(auto)]

mod added;
mod part;
mod past;
mod watches;

pub use past::is_past;
pub use watches::{Noted, Watch, Watches};
