//! What a line of the rules limits.
use crate::grant::Grant;
use crate::rules::Rules;
use dav_core::davpath::DavPath;

/// What a limit is of.
#[derive(Clone, Copy, Debug, PartialEq, Eq)]
pub enum Measure {
    /// Files and folders.
    Files,
    /// The bytes of files.
    Space,
}

/// A limit: at its path and below it there may be at most so much.
#[derive(Drop)]
pub struct Limit {
    pub path: DavPath,
    pub measure: Measure,
    /// Files and folders, or bytes.
    pub most: u64,
}

/// Who may do what, and how much there may be.
#[derive(Drop)]
pub struct Access {
    pub rules: Rules,
    /// In the order of their lines.
    pub limits: Vec<Limit>,
}

// What a line says.
#[derive(Drop)]
pub enum Said {
    Granted(Vec<Grant>),
    Limited(Limit),
}
