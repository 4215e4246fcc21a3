//! What may be seen of a folder on the way to what may be read: that it is there, and of its members those that lead there too, or that
//! may be read.
#![tactic(auto)]

mod error;
pub mod laws;
mod names;
mod reading;
mod reply;
mod told;
mod ways;

pub use error::LookError;
pub use reply::way_reply;
