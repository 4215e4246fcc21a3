//! What a line of the rules grants.
ghost use Rattle.std.specs.Prelude.{◌≡◌};
ghost use Rattle.std.specs.Option.{option_copied};

use crate::name::Name;
use dav_core::davpath::DavPath;

/// Whom a grant is for.
#[derive(Drop)]
pub enum Whom {
    /// Everybody, also who shows no name.
    Everybody,
    /// Each user who shows a name and its password.
    EachUser,
    /// The user with this name.
    User(Name),
}

impl Whom {
    ghost use Rattle.dav_access.specs.Rules.{is_for};

    /// Whether this principal is meant.
    pub fn is_for(&self, who: Option<&str>) -> bool
        ensures { result ≡ is_for self.now (option_copied who.entry) }
    {
        match self {
            Whom::Everybody => true,
            Whom::EachUser => who.is_some(),
            Whom::User(name) => match who {
                Some(who) => name.as_str() == who,
                None => false,
            },
        }
    }
}

/// What may be done at a path. Each right includes those before it.
#[derive(Clone, Copy, Debug, PartialEq, Eq)]
pub enum Right {
    /// To learn that it is there.
    See,
    /// To read what is there.
    Read,
    /// To change what is there.
    Write,
    /// To end the locks of others there.
    Admin,
}

impl Right {
    ghost use Rattle.dav_access.specs.Rules.{includes};

    /// Whether who has this right has the other.
    pub fn includes(self, other: Right) -> bool
        ensures { result ≡ includes self other }
    {
        match self {
            Right::Admin => true,
            Right::Write => !matches!(other, Right::Admin),
            Right::Read => matches!(other, Right::See | Right::Read),
            Right::See => matches!(other, Right::See),
        }
    }
}

/// A grant: it holds at its path and at all paths below it.
#[derive(Drop)]
pub struct Grant {
    pub whom: Whom,
    pub right: Right,
    pub path: DavPath,
}

impl Grant {
    ghost use Rattle.dav_core.specs.Path.{names};
    ghost use Rattle.dav_access.specs.Rules.{gives, leads_to};

    /// Whether it gives this principal a right at a path.
    pub fn gives(&self, who: Option<&str>, right: Right, path: &DavPath) -> bool
        ensures { result ≡ gives (option_copied who.entry) right (names path.now) self.now }
    {
        self.whom.is_for(who) && (self.right.includes(right) && path.is_at_or_under(&self.path))
    }

    /// Whether the path is on the way to what it gives this principal.
    pub fn leads_to(&self, who: Option<&str>, path: &DavPath) -> bool
        ensures { result ≡ leads_to (option_copied who.entry) (names path.now) self.now }
    {
        self.whom.is_for(who) && self.path.is_under(path)
    }
}
