//! The limits of the connections of a server.
use dav_wire::Config;

/// The limits of the connections of a server.
#[derive(Clone, Copy, Debug, PartialEq, Eq)]
pub struct TurnsConfig {
    /// Those of each.
    pub connection: Config,
    /// The most bytes of the bodies that are being read, of all connections together. A request
    /// whose body would be beyond that is refused (503).
    pub max_waiting: usize,
}
