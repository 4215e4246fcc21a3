//! What a client is shown of the machine's replies: parts of files (RFC 9110, section 14), conditions
//! by date and weak tag (section 13), the properties that a resource doesn't have (RFC 4918, section
//! 9.1), media types by the names of files (RFC 9110, section 8.3), and the names of properties that
//! clients know (RFC 4918, section 14.18).
//!
//! Each function takes what the machine answered, and gives what is sent in its place.
#![tactic(auto)]

pub mod fields;
pub mod laws;
pub mod minimal;
pub mod missing;
pub mod names;
pub mod parts;
pub mod preferences;
pub mod quota;
mod responses;
mod texts;
pub mod times;
pub mod typed;
pub mod types;
