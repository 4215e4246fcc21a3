//! How what is kept is saved as bytes, and read again.
#![tactic(auto)]

mod elements;
mod errors;
pub mod laws;
mod locks;
mod reading;
#[cfg(test)]
mod tests;
mod trees;
mod values;
mod writing;

pub use elements::put_element;
pub use errors::LoadError;
pub use locks::{lock_of, put_lock};
pub use reading::{bytes_of, number_of, optional_of, string_of, text_of};
pub use trees::element_of;
pub use values::{put_value, value_of};
pub use writing::{put_bytes, put_number, put_optional, put_text};
