//! A disk that is written only as long as a claim beside it is one's own: so where a lock has failed, an earlier opening of a state
//! tells nothing as kept once a later one has claimed it.
#![tactic(auto)]

mod claimed;
mod claims;
pub mod laws;

pub use claimed::Claimed;
pub use claims::Claims;
