//! What a server answered is kept: its state is that of the run of the requests in its journal,
//! over each restart.
#![tactic(auto)]

mod batch;
mod error;
mod followed;
mod following;
mod former;
mod handler;
mod journal;
mod kept;
pub mod laws;
mod over_journal;
mod record;

pub use error::{HandleError, KeptError};
pub use followed::Followed;
pub use following::Follows;
pub use former::adopt;
pub use handler::{Asks, Effect, Handles};
pub use journal::Keeps;
pub use kept::{Kept, is_due};
pub use record::{Record, Request};
