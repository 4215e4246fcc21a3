//! What a request may change and what its answer may tell of, by the paths that it names; and what rules of
//! access keep by that.
#![tactic(auto)]

pub mod laws;
pub mod leave;
mod reading;
#[cfg(test)]
mod tests;
mod unlocking;

pub use reading::{has_leave, may_look, only_reads};
pub use unlocking::may_unlock;
