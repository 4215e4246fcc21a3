//! A live server: all connections and what is kept, behind one stream of reports and one of orders.
//!
//! A front moves bytes between sockets and this server. It reports what happened to each connection, and carries out one order for
//! each report. Here the bytes are cut into requests, the head of each is judged before its body is taken, each is answered by the handler, and what may change something is in
//! the journal and synced before any reply of its turn is handed out.
#![tactic(auto)]

mod admission;
mod clock;
mod ends;
mod fault;
mod follower;
mod full;
mod hosts;
pub mod laws;
mod limits;
mod line;
mod lists;
mod live;
mod locked;
mod machine;
mod numbers;
mod page;
mod rejection;
mod room;
mod service;
mod settings;
mod swollen;
#[cfg(test)]
mod tests;
mod token;
mod told;
mod words;

pub use dav_access::{AccessError, Limit, Logins, Measure, UsersError};
pub use dav_shards::first_folder;
pub use fault::{Fault, OpenError};
pub use follower::Follower;
pub use limits::limit_of_all;
pub use lists::{Lists, ListsError};
pub use live::{Live, Watch};
pub use settings::Settings;
