//! Paths, errors, elements and methods, and what file stores and lists of locks are (RFC 3986; RFC 4918, sections 4 to 7).
#![tactic(auto)]

#[cfg(test)]
mod asserting;
pub mod davpath;
pub mod davprop;
pub mod element;
pub mod errors;
pub mod fs;
pub mod laws;
pub mod ls;
pub mod method;
