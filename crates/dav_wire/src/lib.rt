//! The bytes of one connection: requests are cut from what comes in, an answerer answers each, and the replies are
//! written (RFC 9112).
#![tactic(auto)]

mod answer;
mod explained;
mod intake;
mod laws;
mod line;
mod peer;
mod reply;
mod spot;
mod state;
#[cfg(test)]
mod tests;

pub use answer::{Answerer, Asked, Rejection, Stop};
pub use explained::explanation;
pub use laws::{
    calls_are_requests, chunks_state_their_sizes, connections_never_stall, heads_stand_alone,
    refusals_are_read,
};
pub use peer::Peer;
pub use state::{Config, Reason, Refusal, State};
