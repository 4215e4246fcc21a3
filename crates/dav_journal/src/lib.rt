//! A file to which blocks are appended, each with its length and digests, and from which they are read again.
#![tactic(auto)]

mod block;
mod elder;
mod error;
mod journal;
mod mark;
mod pair;
mod parts;
mod write;

pub use error::JournalError;
pub use journal::{Journal, keep_and_crash, stands_for_one_list};
pub use pair::{
    Pair, late_marks_change_nothing, pair_stands_for_one_list, reads_what_it_stands_for,
    renew_and_crash, what_was_passed_is_not_own,
};
