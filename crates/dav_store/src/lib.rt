//! Files, folders and locks in memory (RFC 4918, sections 5 to 7).
#![tactic(auto)]

#[cfg(test)]
mod asserting;
mod entries;
pub mod laws;
#[cfg(test)]
mod listed;
pub mod memfs;
pub mod memls;
mod names;
mod node;
pub mod passing;
mod paths;
mod properties;
#[cfg(test)]
mod tests;
pub mod tree;
