//! What a server is told when it begins.
use dav_access::Limit;
use dav_core::davpath::DavPath;

/// The settings of a server.
#[derive(Drop)]
pub struct Settings {
    /// The prefix of its paths.
    pub prefix: String,
    /// The names of its host, besides those of the machine itself.
    pub hosts: Vec<String>,
    /// Whether requests may only read.
    pub read_only: bool,
    /// The most seconds for which a lock is granted.
    pub lock_time: u32,
    /// Whether a PROPFIND without a Depth is left to the machine, which tells of a folder's members alone, and of a file nothing;
    /// else it is one of Depth 1 (RFC 4918, section 9.1).
    pub strict: bool,
    /// The most bytes of a body, but for XML.
    pub most_body: u64,
    /// The most bytes of the bodies that are being read, of all connections together.
    pub most_waiting: u64,
    /// The bytes of a journal past which it may begin anew with a snapshot.
    pub short_journal: usize,
    /// How much the server may hold: files and folders, and bytes, at paths and below them. Those of the rules hold besides.
    pub limits: Vec<Limit>,
    /// The folders that the server has: what is neither at one of them nor below it is elsewhere. All, where none is told.
    pub only: Vec<DavPath>,
    /// Whether a line is written of each request.
    pub logs: bool,
}
