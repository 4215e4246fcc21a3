//! All connections of a live server, behind one stream of reports and one of orders.
//!
//! A front moves bytes between sockets and this program. It reports what happened to each
//! connection, and carries out one order for each report. Here each report goes to the connection
//! of its slot, and nothing is released before all that was answered is kept.
#![tactic(auto)]

mod config;
mod connection;
mod frames;
mod keeper;
mod laws;
mod pipe;
mod table;
#[cfg(test)]
mod tests;
mod turns;

pub use config::TurnsConfig;
pub use frames::has_report;
pub use keeper::{Keeper, TurnError};
pub use laws::{
    bodies_fit, orders_answer_what_came, reads_are_at_rest, reports_have_one_reading,
    streams_are_turns,
};
pub use pipe::{Pipe, ReadError};
pub use turns::Turns;
