//! A server behind another one: it hears what that one keeps, answers what only reads, and keeps nothing.
#![tactic(auto)]

mod following;
pub mod laws;
mod replays;
mod shown;
#[cfg(test)]
mod tests;

pub use following::Following;
pub use replays::Replays;
pub use shown::Shown;
