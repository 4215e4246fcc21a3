//! The properties in a multistatus: the types of files by their names (RFC 4918, section 15.5), the times
//! that clients set (section 15.7), and usual names (section 14.18).
mod changed;
mod usual;

pub use changed::{outcomes, with_types};
