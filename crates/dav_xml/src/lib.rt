//! XML texts to element trees, and back (XML 1.0; Namespaces in XML 1.0).
//!
//! A text is UTF-8, without a document type. Blanks between elements are texts of the tree too.
#![tactic(auto)]

mod by_child;
mod bytes;
mod error;
mod front;
pub mod laws;
mod markup;
mod names;
mod namespaces;
mod nesting;
mod prefixed;
mod references;
mod scope;
mod token;
mod writing;
mod written;

pub use by_child::{push_child, push_closing, push_content, push_opening};
pub use error::{Fault, XmlError};
pub use front::is_legal;
pub use namespaces::read;
pub use prefixed::with_prefix;
pub use writing::write;
pub use written::known;
