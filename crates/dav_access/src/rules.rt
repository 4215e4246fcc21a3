//! The rules of a server.
use crate::grant::{Grant, Right};
use dav_core::davpath::DavPath;
use std::marker::Model;

/// Who may read and write which folders: what no grant gives is refused.
#[derive(Drop)]
pub struct Rules {
    grants: Vec<Grant>,
}

impl Model for Rules {
    ghost use Rattle.std.specs.Prelude.{List};
    ghost use Rattle.dav_access.specs.declared.grant.Grant.{Grant};

    ghost Value = { List Grant };

    ghost view = { λ r. r.grants.items };
}

impl Rules {
    ghost use Rattle.std.specs.Prelude.{◌≡◌};
    ghost use Rattle.std.specs.List.{list_any};
    ghost use Rattle.std.specs.Option.{option_copied};
    ghost use Rattle.dav_core.specs.Path.{names};
    ghost use Rattle.dav_access.specs.Rules.{gives, has_right, leads_to};

    /// The rules with these grants, in any order.
    pub fn new(grants: Vec<Grant>) -> Rules
        ensures { result ≡ grants.items }
    {
        Rules { grants }
    }

    /// The grants.
    pub fn grants(&self) -> &[Grant]
        ensures { result.now ≡ self.now }
    {
        &self.grants
    }

    /// Whether this principal, none where no name was shown, has a right at a path.
    pub fn may(&self, who: Option<&str>, right: Right, path: &DavPath) -> bool
        ensures { result ≡ has_right self.now (option_copied who.entry) right (names path.now) }
    {
        match right {
            Right::See => self.gives(who, right, path) || self.leads_to(who, path),
            Right::Read | Right::Write | Right::Admin => self.gives(who, right, path),
        }
    }

    // Whether a grant gives this principal a right at a path.
    fn gives(&self, who: Option<&str>, right: Right, path: &DavPath) -> bool
        ensures { result
            ≡ list_any (gives (option_copied who.entry) right (names path.now)) self.now }
    {
        self.grants
            .iter()
            .any(|grant| grant.gives(who, right, path))
    }

    // Whether the path is on the way to what this principal has a right to.
    fn leads_to(&self, who: Option<&str>, path: &DavPath) -> bool
        ensures { result ≡ list_any (leads_to (option_copied who.entry) (names path.now)) self.now }
    {
        self.grants.iter().any(|grant| grant.leads_to(who, path))
    }
}
