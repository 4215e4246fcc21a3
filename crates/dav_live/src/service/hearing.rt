//! What the front reports besides requests: users, addresses, moments.
use crate::ends::Ends;
use crate::limits::joined;
use crate::line::date_text;
use crate::service::answering::request_of;
use crate::service::{Service, stop_of};
use bytes::Bytes;
use dav_kept::{Keeps, KeptError};
use dav_turns::Keeper;
use dav_wire::Stop;
use http::StatusCode;
use http_server::Response;

/// The seconds of a day.
const DAY: u64 = 86_400;

impl<H: Ends + Drop, J: Keeps + Drop> Service<H, J> {
    ghost use Rattle.std.specs.Prelude.{◌≡◌, ◌↔◌, List, ℕ, Some, IfOk, IsFalse, IsTrue, OnOk};
    ghost use Rattle.http_server.specs.declared.response.Response.{Response as Sent};
    ghost use Rattle.dav_kept.specs.Kept.{Holding};
    ghost use Rattle.dav_live.specs.Runs.{GoesOn};
    ghost use Rattle.dav_live.specs.Serving.{EndsLocks, IsEnded, IsListed, IsMarked, IsRun, StaysAll, admission_of, held_of, kept_of, logins_of, own_request};

    // Ends the first lock whose time has passed, by a request of the server's own. False where there is none, where there is no
    // room on the disk, and where the request isn't answered 204 (RFC 4918, section 9.11).
    fn end_lock(&mut self) -> Result<bool, Stop>
        ensures ended { IfOk result (λ is. IsTrue is → (head : List ℕ) × (sent : Sent)
            × H.ends (held_of self.old).state (admission_of self.old).moment (Some head)
            × IsRun H.answers (held_of self.old)
            (own_request (admission_of self.old).moment head) sent (held_of self.new)
            × (sent.status ≡ 204)) }
        ensures last { IfOk result (λ is. IsFalse is → IsEnded H.answers H.ends
            (admission_of self.old).moment (held_of self.old) (held_of self.new)) }
        ensures same { OnOk result (admission_of self.new ≡ admission_of self.old) }
        ensures logins { OnOk result (logins_of self.new ≡ logins_of self.old) }
        ensures goes_on { OnOk result
            (GoesOn H.answers J.is_clean J.kept (kept_of self.old) (kept_of self.new)) }
    {
        let now = self.admission.moment();
        match self.kept.handler().next_end(now)? {
            Some(head) => self.unlock(now, head.as_bytes()),
            None => Ok(false),
        }
    }

    // Has a request of the server's own with this head run. Whether it was answered 204 (RFC 4918, section 9.11).
    fn unlock(&mut self, now: u64, head: &[u8]) -> Result<bool, Stop>
        ensures run { IfOk result (λ is. (sent : Sent)
            × IsRun H.answers (held_of self.old) (own_request now head.now) sent
            (held_of self.new) × (IsTrue is ↔ (sent.status ≡ 204))) }
        ensures same { OnOk result (admission_of self.new ≡ admission_of self.old) }
        ensures logins { OnOk result (logins_of self.new ≡ logins_of self.old) }
        ensures goes_on { OnOk result
            (GoesOn H.answers J.is_clean J.kept (kept_of self.old) (kept_of self.new)) }
    {
        let body = Bytes::from_static(b"");
        let request = request_of(now, None, None, head, &body);
        let mut response = Response::new(self.alloc);
        self.change(&request, &mut response)?;
        Ok(response.status == StatusCode::NO_CONTENT)
    }

    // Tells who runs the server where it begins at a date that is more than a day before the last moment of its state: it goes on
    // from that moment.
    fn look_at_date(&mut self, date: u64) -> Result<(), Stop>
        ensures same { OnOk result (StaysAll self.old self.new) }
        ensures logins { OnOk result (logins_of self.new ≡ logins_of self.old) }
    {
        let moment = self.admission.moment();
        if self.admission.has_begun() || date.saturating_add(DAY) >= moment {
            return Ok(());
        }
        let now = date_text(self.alloc, date)?;
        let last = date_text(self.alloc, moment)?;
        let notice = format!(in self.alloc;
            "clock: the date is {now}, and the state was changed at {last}: its clock goes on from there; vuldarg cut TO --at MOMENT copies the state of before"
        )?;
        Ok(self.told.notice(notice.as_str())?)
    }

    // Ends each lock whose time has passed.
    fn end_locks(&mut self) -> Result<(), Stop>
        ensures ended { OnOk result ((mid : Holding H) × EndsLocks H.answers H.ends
            (admission_of self.old).moment (held_of self.old) mid
            × IsEnded H.answers H.ends (admission_of self.old).moment mid (held_of self.new)) }
        ensures same { OnOk result (admission_of self.new ≡ admission_of self.old) }
        ensures logins { OnOk result (logins_of self.new ≡ logins_of self.old) }
        ensures goes_on { OnOk result
            (GoesOn H.answers J.is_clean J.kept (kept_of self.old) (kept_of self.new)) }
    {
        for _ in 0..u64::MAX {
            if !self.end_lock()? {
                return Ok(());
            }
        }
        Err(Stop::Disk)
    }

    // Lets a journal begin anew that takes more than so many bytes, and makes sure that the loss of what is kept would be seen.
    fn mark(&mut self, least: usize) -> Result<(), KeptError>
        ensures { OnOk result (IsMarked H.saved H.is_saveable J.is_clean J.kept self.old self.new) }
    {
        self.shorten(least)?;
        self.kept.keep_mark()
    }

    // Takes the list of users and the rules anew, and tells who runs the server.
    fn take_users(&mut self, bytes: &[u8]) -> Result<(), Stop>
        ensures { OnOk result (IsListed self.old bytes.now self.new) }
    {
        match self.admission.hear_users(bytes)? {
            None => {
                let limits = joined(self.alloc, self.admission.limits(), &[])?;
                self.kept.handler().see_limits(limits);
                Ok(self.told.notice("users and access: read again")?)
            }
            Some(fault) => {
                let notice = format!(in self.alloc; "{fault}; users and access are as they were")?;
                Ok(self.told.notice(notice.as_str())?)
            }
        }
    }
}

impl<H: Ends + Drop, J: Keeps + Drop> Keeper for Service<H, J> {
    ghost use Rattle.dav_live.specs.Serving.{IsCommitted, IsGreeted, IsListed, IsMarked, IsPassed, IsPlaced};

    ghost greeted = { λ old bytes new. IsGreeted old bytes new };

    ghost listed = { λ old bytes new. IsListed old bytes new };

    ghost placed = { λ old address new. IsPlaced old address new };

    ghost passed = { λ old seconds date new. IsPassed H.answers J.is_clean J.kept H.ends old seconds
        date new };

    ghost marked = { λ old new. IsMarked H.saved H.is_saveable J.is_clean J.kept old new };

    ghost kept = { λ old new. IsCommitted J.is_clean J.kept old new };

    fn hear_hello(&mut self, bytes: &[u8]) {
        self.admission.hear_hello(bytes);
    }

    fn hear_users(&mut self, bytes: &[u8]) -> Result<(), Stop> {
        self.take_users(bytes)
    }

    // A report of any other length says nothing.
    fn hear_room(&self, bytes: &[u8]) {
        if let Ok(bytes) = <[u8; 8]>::try_from(bytes) {
            self.kept.handler().see_room(u64::from_le_bytes(bytes));
        }
    }

    fn hear_address(&mut self, address: &[u8]) -> Result<(), Stop> {
        self.logins.hear_address(address)?;
        Ok(self.told.hear_address(address)?)
    }

    // Ends the locks whose time has passed.
    fn hear_clocks(&mut self, seconds: u64, date: u64) -> Result<(), Stop> {
        self.look_at_date(date)?;
        if self.admission.hear_clocks(seconds, date) {
            self.end_locks()
        } else {
            Ok(())
        }
    }

    // In a second in which nothing was asked a long journal begins anew; in any other only one that is four times as long.
    fn keep_mark(&mut self) -> Result<(), Stop> {
        let least = if self.is_asked {
            self.short_journal.saturating_mul(4)
        } else {
            self.short_journal
        };
        self.is_asked = false;
        self.told.pass_second();
        match self.mark(least) {
            Ok(()) => Ok(()),
            Err(error) => Err(stop_of(error)),
        }
    }

    fn commit(&mut self) -> Result<(), Stop> {
        match self.kept.commit() {
            Ok(()) => Ok(()),
            Err(error) => Err(stop_of(error)),
        }
    }
}
