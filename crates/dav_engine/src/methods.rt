//! The methods, each with what is its own below it (RFC 4918, section 9; RFC 9110, section 9.3). GET and HEAD are `dav_server`'s.
pub(crate) mod copy_move;
pub(crate) mod delete;
pub(crate) mod lock;
pub(crate) mod mkcol;
pub mod options;
pub(crate) mod propfind;
pub(crate) mod proppatch;
pub(crate) mod put;
pub(crate) mod unlock;
