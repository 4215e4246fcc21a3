//! A request that a script asks for.
ghost use Rattle.std.specs.Prelude.{◌≤◌};

use dav_core::errors::FsError;
use dav_engine::Body;
use dav_server::exchange::GrantToken;

/// A request of a script.
#[derive(Drop)]
pub struct Request {
    /// The request line and the fields, as they are on the wire.
    pub head: Vec<u8>,
    /// What follows the head.
    pub body: Body,
    /// Who makes the request, where that is known.
    pub principal: Option<String>,
    /// When the request is made, in seconds since 1970; at most [`dav_server::exchange::LAST_MOMENT`].
    pub moment: u64,
    /// The token for a lock that the request creates.
    pub token: Option<GrantToken>,
    /// The refusals of the store's calls, the first call first: `None` lets a call through, and an error is its
    /// answer. Calls after the last one are let through.
    pub refusals: Vec<Option<FsError>>,
    ghost in_time: { moment ≤ 253402300799 },
}
