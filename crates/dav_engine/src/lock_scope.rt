//! Whether a lock is exclusive or shared (RFC 4918, sections 6.2 and 14.13).
ghost use Rattle.std.specs.Prelude.{◌≡◌};
ghost use Rattle.dav_engine.specs.LockScope.{is_shared};

/// Which locks may be granted beside a lock (RFC 4918, section 6.2).
#[derive(Clone, Copy, Debug)]
pub enum LockScope {
    /// None.
    Exclusive,
    /// Other shared locks.
    Shared,
}

impl LockScope {
    /// The scope of a lock that is shared, or isn't.
    pub fn of(shared: bool) -> LockScope
        ensures { is_shared result ≡ shared }
    {
        if shared {
            LockScope::Shared
        } else {
            LockScope::Exclusive
        }
    }

    /// Whether it is that of shared locks.
    pub fn is_shared(self) -> bool
        ensures { result ≡ is_shared self }
    {
        matches!(self, LockScope::Shared)
    }
}
