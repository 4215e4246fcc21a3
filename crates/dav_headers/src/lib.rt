//! Typed headers: what their values mean, and how they are written (RFC 9110, RFC 4918).
#![tactic(auto)]

#[cfg(test)]
mod asserting;
pub mod content;
pub mod depth;
pub mod destination;
mod elements;
pub mod errors;
pub mod etag;
pub mod etag_list;
pub mod if_header;
pub mod language;
pub mod laws;
pub mod length;
pub mod names;
pub mod overwrite;
pub mod range;
#[cfg(test)]
mod tests;
pub mod timeout;
pub mod tokens;
mod values;

pub use content::{ContentLocation, ContentType};
pub use depth::Depth;
pub use destination::Destination;
pub use errors::HeaderError;
pub use etag::ETag;
pub use etag_list::{ETagList, IfMatch, IfNoneMatch, IfRange};
pub use if_header::{If, IfCondition, IfItem, IfList};
pub use language::ContentLanguage;
pub use length::ContentLength;
pub use overwrite::Overwrite;
pub use range::{ContentRange, XUpdateRange};
pub use timeout::{DavTimeout, Timeout};
pub use tokens::{LockToken, XLitmus};
