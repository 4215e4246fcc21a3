//! Servers that have some folders alone (RFC 9110, section 15.5.20; RFC 4918, sections 9.8.5, 9.9.4 and 10.4).
#![tactic(auto)]

mod folder;
pub mod laws;
mod parts;
#[cfg(test)]
mod tests;

pub use folder::first_folder;
pub use parts::{Part, elsewhere_in};
