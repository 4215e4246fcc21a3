//! Parts of what a GET is answered, and conditions on dates and tags (RFC 9110, sections 13 and 14).
mod range;
mod sent;
mod verdict;

pub use range::{Part, Spec, part_of, shown};
pub use sent::{Sent, presented};
pub use verdict::{Conditions, Verdict, decide};
