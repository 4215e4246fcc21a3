//! A service goes on with what another server keeps, and may take that one's place.
ghost use Rattle.std.specs.Prelude.{◌≡◌, List, [], ℕ, IfErr, IfOk, Option, OnOk};
ghost use Rattle.dav_kept.specs.Kept.{Snapshot, journal_of};
ghost use Rattle.dav_live.specs.Admission.{gone_on};
ghost use Rattle.dav_live.specs.Serving.{admission_of, held_of, kept_of, logins_of};

use crate::ends::Ends;
use crate::fault::OpenError;
use crate::limits::joined;
use crate::service::{Service, preface, stop_of};
use dav_follow::Replays;
use dav_kept::{Follows, Keeps, Kept};
use dav_wire::Stop;

impl<H: Ends + Drop, J: Keeps + Drop> Service<H, J> {
    ghost use Rattle.dav_kept.specs.Followed.{TakesOver};
    ghost use Rattle.dav_live.specs.Runs.{IsOpened};

    /// Goes on from this handler, as the requests of another journal leave it. After an error it is as it was.
    pub fn open_anew(&mut self, handler: H, journal: J) -> Result<(), OpenError>
        ensures run { OnOk result ((start : Option Snapshot) × (blocks : List (List ℕ))
            × (J.is_clean (journal_of (kept_of self.new)) → J.has_so_far journal []
            → IsOpened H.answers H.loads J.has_read handler start blocks (kept_of self.new))) }
        ensures clean { OnOk result (J.is_clean (journal_of (kept_of self.new))
            → J.is_clean journal) }
        ensures empty { OnOk result ((held_of self.new).batch ≡ []) }
        ensures admission { OnOk result (admission_of self.new
            ≡ gone_on (held_of self.new).latest (admission_of self.old)) }
        ensures logins { logins_of self.new ≡ logins_of self.old }
        ensures failed { IfErr result (λ _. self.new ≡ self.old) }
    {
        let kept = Kept::open(
            self.alloc,
            handler,
            journal,
            preface(self.admission.prefix()),
        )?;
        let limits = joined(self.alloc, self.admission.limits(), &[])?;
        kept.handler().see_limits(limits);
        self.admission.go_on_from(kept.latest());
        self.kept = kept;
        Ok(())
    }

    /// Takes the place of who kept what was heard, over another opening of it: no request is run again. `Damaged` where that has not
    /// the blocks that were heard.
    pub fn take_over<K: Keeps + Drop>(self, journal: K) -> Result<Service<H, K>, OpenError>
        ensures over { IfOk result (λ s. TakesOver H.answers J.ends_at K.is_clean K.has_so_far
            K.has_read K.ends_at (kept_of self) journal (kept_of s)) }
        ensures admission { IfOk result (λ s. admission_of s
            ≡ gone_on (held_of s).latest (admission_of self)) }
        ensures logins { IfOk result (λ s. logins_of s ≡ logins_of self) }
    {
        let Service {
            alloc,
            mut admission,
            logins,
            kept,
            told,
            most_body,
            most_waiting,
            short_journal,
            ..
        } = self;
        let kept = kept.take_over(journal)?;
        admission.go_on_from(kept.latest());
        Ok(Service {
            alloc,
            admission,
            logins,
            kept,
            told,
            most_body,
            most_waiting,
            short_journal,
            is_asked: false,
        })
    }
}

impl<H: Ends + Drop, J: Follows + Drop> Replays for Service<H, J> {
    ghost use Rattle.dav_live.specs.Behind.{HearsKept};

    ghost replayed = { λ old goes new. HearsKept H.answers J.is_clean J.is_unturned J.has_so_far
        J.has_all old goes new };

    ghost is_at_rest = { λ s. (held_of s).batch ≡ [] };

    fn replay(&mut self) -> Result<bool, Stop> {
        match self.kept.follow() {
            Ok(goes) => {
                self.admission.go_on_from(self.kept.latest());
                Ok(goes)
            }
            Err(error) => Err(stop_of(error)),
        }
    }

    fn is_at_rest(&self) -> bool {
        self.kept.is_at_rest()
    }
}
