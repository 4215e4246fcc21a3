//! Which requests have leave by rules of access.
ghost use Rattle.std.specs.Prelude.{◌≡◌, ◌↔◌, IsTrue};
ghost use Rattle.std.specs.List.{list_all};
ghost use Rattle.std.specs.Option.{option_copied};
ghost use Rattle.dav_core.specs.Path.{names};
ghost use Rattle.dav_access.specs.Rules.{may_read};
ghost use Rattle.dav_server.specs.TagLaws.{is_safe};
ghost use Rattle.dav_confined.specs.Asked.{may_write_at};
ghost use Rattle.dav_confined.specs.Leave.{MayEnd, needed};

use dav_access::{Right, Rules};
use dav_core::davpath::DavPath;
use dav_core::ls::DavLock;
use dav_core::method::DavMethod;
use std::marker::Model;

/// What a head asks for, as the machine reads it.
#[derive(Drop)]
pub struct Asked {
    /// The method.
    pub method: DavMethod,
    /// The path that the target names.
    pub path: DavPath,
    /// The path that Destination names, if it names one.
    pub destination: Option<DavPath>,
    /// The paths that the lists of If speak of.
    pub spoken_of: Vec<DavPath>,
}

impl Model for Asked {
    ghost use Rattle.std.specs.Prelude.{map};
    ghost use Rattle.dav_core.specs.Path.{names};
    ghost use Rattle.dav_confined.specs.Asked.{AskedView};

    ghost Value = { AskedView };

    ghost view = { λ a. record {
      method = a.method;
      path = a.path;
      destination = a.destination;
      spoken_of = map names a.spoken_of.items;
    } };
}

/// The right that a method needs at its target: to write, where it changes what is there or locks it; else to read.
pub fn needed(method: DavMethod) -> Right
    ensures { result ≡ needed method }
{
    match method {
        DavMethod::Put
        | DavMethod::Patch
        | DavMethod::MkCol
        | DavMethod::Delete
        | DavMethod::Move
        | DavMethod::PropPatch
        | DavMethod::Lock => Right::Write,
        _ => Right::Read,
    }
}

// Whether a method only reads.
fn is_safe(method: DavMethod) -> bool
    ensures { result ≡ is_safe method }
{
    matches!(
        method,
        DavMethod::Get | DavMethod::Head | DavMethod::Options | DavMethod::PropFind
    )
}

// Whether a principal may write at the path, if there is one.
fn may_write_at(rules: &Rules, who: Option<&str>, path: &Option<DavPath>) -> bool
    ensures { result ≡ may_write_at rules.now (option_copied who.entry) path.now }
{
    match path {
        Some(path) => rules.may(who, Right::Write, path),
        None => true,
    }
}

// Whether a principal may read at each of these paths.
fn may_read_each(rules: &Rules, who: Option<&str>, paths: &[DavPath]) -> bool
    ensures { result
        ≡ list_all (λ p. may_read rules.now (option_copied who.entry) (names p)) paths.now }
{
    paths.iter().all(|path| rules.may(who, Right::Read, path))
}

impl Asked {
    ghost use Rattle.std.specs.Prelude.{◌≡◌, ◌↔◌, IsTrue};
    ghost use Rattle.std.specs.List.{list_all};
    ghost use Rattle.std.specs.Option.{option_copied};
    ghost use Rattle.dav_server.specs.Machine.{Exchange, Settings};
    ghost use Rattle.dav_access.specs.Rules.{may_read};
    ghost use Rattle.dav_confined.specs.Asked.{IsAsked, has_destination, has_leave, has_target};
    ghost use Rattle.dav_confined.specs.Leave.{HasLeave};
    ghost use Rattle.dav_confined.specs.Sight.{MayLook, may_look, only_reads};

    // Whether a principal has the right that the method needs at its target.
    fn has_target(&self, rules: &Rules, who: Option<&str>) -> bool
        ensures { result ≡ has_target rules.now (option_copied who.entry) self.now }
    {
        self.path.is_star() || rules.may(who, needed(self.method), &self.path)
    }

    // Whether a principal has the right that COPY and MOVE need at the path that Destination names.
    fn has_destination(&self, rules: &Rules, who: Option<&str>) -> bool
        ensures { result ≡ has_destination rules.now (option_copied who.entry) self.now.method
            self.now.destination }
    {
        match self.method {
            DavMethod::Copy | DavMethod::Move => may_write_at(rules, who, &self.destination),
            _ => true,
        }
    }

    // Whether a principal may read at all paths that the lists of If speak of.
    fn may_read_all(&self, rules: &Rules, who: Option<&str>) -> bool
        ensures { result
            ≡ list_all (may_read rules.now (option_copied who.entry)) self.now.spoken_of }
    {
        may_read_each(rules, who, &self.spoken_of)
    }

    // Whether it has leave.
    fn is_granted(&self, rules: &Rules, who: Option<&str>) -> bool
        ensures { result ≡ has_leave rules.now (option_copied who.entry) self.now }
    {
        self.has_target(rules, who)
            && (self.has_destination(rules, who) && self.may_read_all(rules, who))
    }

    // Whether it only reads what may be seen.
    fn is_look(&self, rules: &Rules, who: Option<&str>) -> bool
        ensures { result ≡ may_look rules.now (option_copied who.entry) self.now }
    {
        is_safe(self.method)
            && (rules.may(who, Right::See, &self.path) && self.may_read_all(rules, who))
    }

    /// Whether a request of this principal, none where no name was shown, that asks for this may look: it only reads, of a path of
    /// which its principal may see that something is there.
    pub fn may_look(&self, rules: &Rules, who: Option<&str>) -> bool
        ensures { (s : Settings) (x : Exchange) → x.principal ≡ option_copied who.entry
            → IsAsked s x self.now → (IsTrue result ↔ MayLook rules.now s x) }
    {
        self.is_look(rules, who)
    }

    /// Whether a request of this principal that asks for this only reads, at what its principal may read.
    pub fn only_reads(&self, rules: &Rules, who: Option<&str>) -> bool
        ensures { result ≡ only_reads rules.now (option_copied who.entry) self.now }
    {
        is_safe(self.method)
            && (rules.may(who, Right::Read, &self.path) && self.may_read_all(rules, who))
    }

    /// Whether a request of this principal, none where no name was shown, that asks for this has leave.
    pub fn has_leave(&self, rules: &Rules, who: Option<&str>) -> bool
        ensures { (s : Settings) (x : Exchange) → x.principal ≡ option_copied who.entry
            → IsAsked s x self.now → (IsTrue result ↔ HasLeave rules.now s x) }
    {
        self.is_granted(rules, who)
    }
}

/// Whether a principal may end a lock: its own, where it may write at the lock's path; another's, where it may end the locks of others
/// there.
pub fn may_end(rules: &Rules, who: Option<&str>, lock: &DavLock) -> bool
    ensures { IsTrue result ↔ MayEnd rules.now (option_copied who.entry) lock.now }
{
    if rules.may(who, Right::Admin, &lock.path) {
        return true;
    }
    is_own(who, lock) && rules.may(who, Right::Write, &lock.path)
}

// Whether a lock is this principal's.
fn is_own(who: Option<&str>, lock: &DavLock) -> bool
    ensures { IsTrue result ↔ (lock.now.principal ≡ option_copied who.entry) }
{
    match (&lock.principal, who) {
        (Some(principal), Some(who)) => principal.as_str() == who,
        (None, None) => true,
        _ => false,
    }
}
