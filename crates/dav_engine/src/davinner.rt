//! One request while it is answered.
ghost use Rattle.std.specs.Prelude.{◌≡◌};
ghost use Rattle.dav_engine.specs.Asker.{caller_at};

use dav_core::fs::DavFileSystem;
use dav_core::ls::DavLockSystem;
use dav_core::method::DavMethodSet;
use std::marker::Model;

/// Who makes a request, when, and the token of the lock that it may be granted.
#[derive(Drop)]
pub struct Caller<'c> {
    /// Who makes the request, where that is known.
    pub principal: Option<&'c str>,
    /// When it is made, in seconds since 1970; at most 253402300799, which is the end of the year 9999.
    pub moment: u64,
    /// The token for a lock that the request creates.
    pub token: Option<&'c str>,
}

impl<'c> Model for Caller<'c> {
    ghost use Rattle.dav_engine.specs.Caller as said;

    ghost Value = { said.Caller };

    ghost use Rattle.dav_engine.specs.CallerView.{caller_of};

    ghost view = { caller_of };
}

/// Who a request is answered for: who makes it, and the token of the lock that it may be granted.
#[derive(Drop)]
pub struct Asker<'c> {
    /// Who makes the request, where that is known.
    pub principal: Option<&'c str>,
    /// The token for a lock that the request creates.
    pub token: Option<&'c str>,
}

impl<'c> Model for Asker<'c> {
    ghost use Rattle.dav_engine.specs.Asker as said;

    ghost Value = { said.Asker };

    ghost view = { said.asker_of };
}

impl<'c> Asker<'c> {
    // Who makes a request, and that it is made at this moment.
    pub(crate) fn at(&self, moment: u64) -> Caller<'c>
        ensures { result ≡ caller_at moment self.now }
    {
        Caller {
            principal: self.principal,
            moment,
            token: self.token,
        }
    }
}

/// One request while it is answered, on the borrowed store and locks of a server. The methods of a server are its functions.
#[derive(Drop)]
pub struct DavInner<'a, 'b, 'c, F: DavFileSystem, L: DavLockSystem> {
    /// The store.
    pub fs: &'a mut F,
    /// The locks, where there is a lock system.
    pub ls: &'a mut Option<L>,
    /// The methods that are allowed.
    pub allow: DavMethodSet,
    /// When the request is made, in seconds since 1970; at most 253402300799, which is the end of the year 9999.
    pub moment: u64,
    /// Who makes the request, and the token for a lock that it creates.
    pub caller: &'b Asker<'c>,
}
