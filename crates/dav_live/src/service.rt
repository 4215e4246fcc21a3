//! What answers the requests of all connections: it asks the rooms in their order.
mod answering;
mod following;
mod hearing;
mod trying;

use crate::admission::Admission;
use crate::ends::Ends;
use crate::fault::OpenError;
use crate::limits::joined;
use crate::lists::Lists;
use crate::live::Watch;
use crate::settings::Settings;
use crate::told::Told;
use dav_access::Logins;
use dav_kept::{Keeps, Kept, KeptError};
use dav_wire::Stop;
use std::alloc::Global;

/// A server with its journal, who may ask it, and what there is to tell of that.
#[derive(Drop)]
pub struct Service<H, J> {
    alloc: Global,
    admission: Admission,
    logins: Logins,
    kept: Kept<H, J>,
    told: Told,
    most_body: u64,
    most_waiting: u64,
    short_journal: usize,
    /// Whether a request was answered since the last second.
    is_asked: bool,
}

impl<H: Ends + Drop, J: Keeps + Drop> Service<H, J> {
    ghost use Rattle.std.specs.Prelude.{◌≡◌, ◌⊎◌, ◌<◌, ◌++◌, ℕ, List, [], Option, None, IfOk, OnOk, length, map, min, replicate, string_bytes};
    ghost use Rattle.dav_core.specs.World.{last_moment};
    ghost use Rattle.dav_kept.specs.Kept.{Snapshot, answer_step, held_by, is_new, journal_of};
    ghost use Rattle.dav_kept.specs.Life.{IsRunSince};
    ghost use Rattle.dav_live.specs.Runs.{IsOneRun, IsOpened, Saves, StaysKept};
    ghost use Rattle.dav_access.specs.Logins.{no_logins};
    ghost use Rattle.dav_live.specs.Numbered.{AreNumbered};
    ghost use Rattle.dav_live.specs.Serving.{StaysAll, admission_of, held_of, kept_of, logins_of};

    /// A service of this handler, as the requests of the journal leave it.
    pub fn open(
        alloc: Global,
        handler: H,
        journal: J,
        lists: Lists,
        settings: Settings,
    ) -> Result<Service<H, J>, OpenError>
        ensures run { IfOk result (λ s. (start : Option Snapshot) × (blocks : List (List ℕ))
            × (J.is_clean (journal_of (kept_of s)) → J.has_so_far journal []
            → IsOpened H.answers H.loads J.has_read handler start blocks (kept_of s))) }
        ensures clean { IfOk result (λ s. J.is_clean (journal_of (kept_of s))
            → J.is_clean journal) }
        ensures empty { IfOk result (λ s. (held_of s).batch ≡ []) }
        ensures logins { IfOk result (λ s. logins_of s ≡ no_logins) }
        ensures admission { IfOk result (λ s. admission_of s ≡ record {
          prefix = string_bytes settings.prefix;
          hosts = map string_bytes settings.hosts.items;
          lock_time = settings.lock_time;
          strict = settings.strict;
          read_only = settings.read_only;
          users = lists.users;
          rules = lists.rules;
          own = settings.limits.items;
          limits = settings.limits.items ++ lists.limits.items;
          only = settings.only.items;
          moment = min (held_of s).latest last_moment;
          seconds = None;
          random = replicate 16 0;
          most_body = settings.most_body;
        }) }
    {
        let kept = Kept::open(alloc, handler, journal, preface(settings.prefix.as_str()))?;
        let told = Told::new(alloc, settings.logs);
        let (most_body, most_waiting) = (settings.most_body, settings.most_waiting);
        let short_journal = settings.short_journal;
        let admission = Admission::new(alloc, settings, lists, kept.latest())?;
        let limits = joined(alloc, admission.limits(), &[])?;
        kept.handler().see_limits(limits);
        Ok(Service {
            alloc,
            admission,
            logins: Logins::new(alloc),
            kept,
            told,
            most_body,
            most_waiting,
            short_journal,
            is_asked: false,
        })
    }

    /// After which place of the state's file how many bytes follow that `begin` drops: what a crash left of a block that was
    /// never answered. 0 where none follow but zeros.
    pub fn rest(&mut self) -> Result<(usize, usize), OpenError>
        ensures opened { (first : H) (start : Option Snapshot) (blocks : List (List ℕ))
            → IsOpened H.answers H.loads J.has_read first start blocks (kept_of self.old)
            → IsOpened H.answers H.loads J.has_read first start blocks (kept_of self.new) }
        ensures place { IfOk result (λ p. p.0 ≡ J.ends_at (journal_of (kept_of self.new))) }
        ensures clean { J.is_clean (journal_of (kept_of self.new))
            → J.is_clean (journal_of (kept_of self.old)) }
    {
        match self.kept.rest() {
            Ok(rest) => Ok(rest),
            Err(error) => Err(error.into()),
        }
    }

    /// What answers the requests.
    pub fn handler(&self) -> &H
        ensures { result.now ≡ (held_of self.now).state }
    {
        self.kept.handler()
    }

    /// Whether nothing was ever kept: the state has no block.
    pub fn is_new(&self) -> bool
        ensures { result ≡ is_new (kept_of self.now) }
    {
        self.kept.is_new()
    }

    /// Reads bytes of the state's file.
    pub fn read(&mut self, at: usize, piece: &mut [u8]) -> Result<(), OpenError>
        ensures opened { (first : H) (start : Option Snapshot) (blocks : List (List ℕ))
            → IsOpened H.answers H.loads J.has_read first start blocks (kept_of self.old)
            → IsOpened H.answers H.loads J.has_read first start blocks (kept_of self.new) }
        ensures bytes { OnOk result (J.is_clean (journal_of (kept_of self.new))
            → 0 < length piece.old
            → J.has_bytes (journal_of (kept_of self.old)) at piece.new) }
        ensures clean { J.is_clean (journal_of (kept_of self.new))
            → J.is_clean (journal_of (kept_of self.old)) }
    {
        match self.kept.read(at, piece) {
            Ok(()) => Ok(()),
            Err(error) => Err(error.into()),
        }
    }

    /// Makes the state ready for requests: drops what isn't whole, and notes this opening, where the disk has room. A journal that is long
    /// begins anew.
    pub fn begin(&mut self) -> Result<(), OpenError>
        ensures run { (first : H) (start : Option Snapshot) (blocks : List (List ℕ))
            → IsOpened H.answers H.loads J.has_read first start blocks (kept_of self.old)
            → (since : IsRunSince (answer_step H.answers) H.saved H.is_saveable first start
            blocks (held_of self.old)) → AreNumbered 0 since.all.records
            → OnOk result (J.is_clean (journal_of (kept_of self.new))
            → IsOneRun H.answers H.saved H.is_saveable J.kept first since.all.records
            (kept_of self.new)) }
        ensures clean { J.is_clean (journal_of (kept_of self.new))
            → J.is_clean (journal_of (kept_of self.old)) }
    {
        self.make_ready()?;
        match self.shorten(self.short_journal) {
            Ok(()) => Ok(()),
            Err(error) => Err(error.into()),
        }
    }

    // Makes the journal ready for requests.
    fn make_ready(&mut self) -> Result<(), OpenError>
        ensures run { (first : H) (start : Option Snapshot) (blocks : List (List ℕ))
            → IsOpened H.answers H.loads J.has_read first start blocks (kept_of self.old)
            → (since : IsRunSince (answer_step H.answers) H.saved H.is_saveable first start
            blocks (held_of self.old)) → AreNumbered 0 since.all.records
            → OnOk result (J.is_clean (journal_of (kept_of self.new))
            → IsOneRun H.answers H.saved H.is_saveable J.kept first since.all.records
            (kept_of self.new)) }
        ensures clean { J.is_clean (journal_of (kept_of self.new))
            → J.is_clean (journal_of (kept_of self.old)) }
    {
        match self.kept.begin() {
            Ok(_) => Ok(()),
            Err(error) => Err(error.into()),
        }
    }

    // Lets the journal begin anew with a snapshot, where it takes more than so many bytes and twice what it took at the last one.
    pub(super) fn shorten(&mut self, least: usize) -> Result<(), KeptError>
        ensures same { admission_of self.new ≡ admission_of self.old }
        ensures logins { logins_of self.new ≡ logins_of self.old }
        ensures keeps { OnOk result (StaysKept J.is_clean J.kept (kept_of self.old)
            (kept_of self.new)
            ⊎ Saves H.saved H.is_saveable J.is_clean J.kept (kept_of self.old)
            (kept_of self.new)) }
        ensures clean { J.is_clean (journal_of (kept_of self.new))
            → J.is_clean (journal_of (kept_of self.old)) }
    {
        if self.kept.is_long(least) {
            self.kept.snapshot()?;
        }
        Ok(())
    }

    /// The most bytes of a body that isn't an element tree.
    pub fn most_body(&self) -> u64 {
        self.most_body
    }

    /// The most bytes of the bodies that are being read, of all connections together.
    pub fn most_waiting(&self) -> u64 {
        self.most_waiting
    }

    /// Goes on with what is known of logins.
    pub fn know(&mut self, logins: Logins)
        ensures logins { logins_of self.new ≡ logins }
        ensures same { StaysAll self.old self.new }
    {
        self.logins = logins;
    }

    /// Tells what there is to be told.
    pub fn tell<L: Watch>(&mut self, watch: &mut L)
        ensures { self.new ≡ self.old }
    {
        if !self.told.lines().is_empty() {
            watch.tell(self.told.lines());
        }
        if !self.told.notices().is_empty() {
            watch.say(self.told.notices());
        }
        if self.told.are_logins_due()
            && let Ok(bytes) = self.logins.known_bytes(self.alloc)
        {
            watch.know(&bytes);
        }
        self.told.clear();
    }
}

// What the journal begins with: the prefix, or a slash.
pub fn preface(prefix: &str) -> &[u8] {
    if prefix.is_empty() {
        b"/"
    } else {
        prefix.as_bytes()
    }
}

// Why a server stops whose requests can't be kept.
fn stop_of(error: KeptError) -> Stop {
    match error {
        KeptError::Memory => Stop::Memory,
        _ => Stop::Disk,
    }
}
