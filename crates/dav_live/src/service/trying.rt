//! A login is tried: who has to wait isn't heard.
ghost use Rattle.std.specs.Prelude.{[], OnOk};
ghost use Rattle.http_server.specs.Response.{IsBlank, IsResponse};
ghost use Rattle.dav_live.specs.Waiting.{wait_fields};

use crate::ends::Ends;
use crate::hosts::asks_bad_port;
use crate::service::Service;
use crate::told::Replied;
use dav_access::Credentials;
use dav_http::Head;
use dav_kept::Keeps;
use dav_wire::{Asked, Rejection, Stop, explanation};
use http::StatusCode;
use http_header::{HeaderValue, RETRY_AFTER};
use http_server::Response;

impl<H: Ends + Drop, J: Keeps + Drop> Service<H, J> {
    ghost use Rattle.std.specs.Prelude.{◌≡◌, ◌≢◌, false, true, Some, IfOk, OnOk, string_bytes};
    ghost use Rattle.http_server.specs.Response.{IsBlank};
    ghost use Rattle.dav_access.specs.Logins.{after_right, after_wrong, wait_of};
    ghost use Rattle.dav_server.specs.Head.{IsHead};
    ghost use Rattle.dav_wire.specs.declared.answer.Rejection.TheVariants.{Unauthorized};
    ghost use Rattle.dav_live.specs.Runs.{GoesOn};
    ghost use Rattle.dav_live.specs.Serving.{IsReplyTo, StaysAll, admission_of, held_of, kept_of, logins_of};
    ghost use Rattle.dav_live.specs.Verdicts.{IsVerdict, TellsRejected};
    ghost use Rattle.dav_live.specs.Waiting.{IsAfterVerdict, seconds_of};

    // For how many seconds a login has to wait.
    fn wait_for(&self, login: &Credentials) -> u64
        ensures { result ≡ wait_of (logins_of self.now) (string_bytes login.now.name)
            (string_bytes login.now.password) (seconds_of (admission_of self.now)) }
    {
        let (name, password) = (login.name.as_bytes(), login.password.as_bytes());
        self.logins
            .wait_of(name, password, self.admission.seconds())
    }

    // Answers a request with this head, unless it has to wait (429; RFC 6585, section 4), and notes whether its login was right.
    pub(super) fn respond_in_time(
        &mut self,
        head: &Head<'_>,
        asked: &Asked,
        response: &mut Response,
    ) -> Result<(), Stop>
        requires head { IsHead asked.now.head head.now }
        requires blank { IsBlank response.old }
        ensures replies { OnOk result (IsReplyTo H.answers H.refuses H.looks (admission_of self.old)
            (logins_of self.old) (held_of self.old) asked.now response.new (held_of self.new)
            (logins_of self.new)) }
        ensures same { OnOk result (admission_of self.new ≡ admission_of self.old) }
        ensures goes_on { OnOk result
            (GoesOn H.answers J.is_clean J.kept (kept_of self.old) (kept_of self.new)) }
    {
        let Some(login) = self.admission.login_of(head)? else {
            return self.respond_to(head, asked, response);
        };
        match self.wait_for(&login) {
            0 => {
                self.respond_to(head, asked, response)?;
                self.see_login(&login, response.status.as_u16(), asks_bad_port(head))
            }
            seconds => {
                fill_wait(seconds, response)?;
                self.note(login.name.as_str(), head, response)
            }
        }
    }

    // Notes that a login was wrong or right, by the status of its request, unless it wasn't looked at.
    fn see_login(&mut self, login: &Credentials, status: u16, is_unseen: bool) -> Result<(), Stop>
        ensures wrong { OnOk result (is_unseen ≡ false → status ≡ 401 → logins_of self.new
            ≡ after_wrong (logins_of self.old) (string_bytes login.now.name)
            (string_bytes login.now.password) (seconds_of (admission_of self.old))) }
        ensures right { OnOk result (is_unseen ≡ false → status ≢ 401 → status ≢ 421
            → logins_of self.new ≡ after_right (logins_of self.old) (string_bytes login.now.name)
            (string_bytes login.now.password)) }
        ensures other { OnOk result (status ≡ 421 → logins_of self.new ≡ logins_of self.old) }
        ensures unseen { OnOk result
            (is_unseen ≡ true → logins_of self.new ≡ logins_of self.old) }
        ensures same { StaysAll self.old self.new }
    {
        if is_unseen {
            return Ok(());
        }
        match status {
            401 => self.see_wrong(login),
            421 => Ok(()),
            _ => self.see_right(login),
        }
    }

    // Notes that a login was right.
    fn see_right(&mut self, login: &Credentials) -> Result<(), Stop>
        ensures right { OnOk result (logins_of self.new ≡ after_right (logins_of self.old)
            (string_bytes login.now.name) (string_bytes login.now.password)) }
        ensures same { StaysAll self.old self.new }
    {
        let (name, password) = (login.name.as_bytes(), login.password.as_bytes());
        if self.logins.note_right(name, password)? {
            self.told.note_login();
        }
        Ok(())
    }

    // Notes that a login was wrong.
    fn see_wrong(&mut self, login: &Credentials) -> Result<(), Stop>
        ensures wrong { OnOk result (logins_of self.new
            ≡ after_wrong (logins_of self.old) (string_bytes login.now.name)
            (string_bytes login.now.password) (seconds_of (admission_of self.old))) }
        ensures same { StaysAll self.old self.new }
    {
        let now = self.admission.seconds();
        let (name, password) = (login.name.as_bytes(), login.password.as_bytes());
        Ok(self.logins.note_wrong(name, password, now)?)
    }

    // Judges a head that was read: who has to wait may not, and else as the server says.
    pub(super) fn judge_head(&mut self, head: &Head<'_>) -> Result<Option<Rejection>, Stop>
        ensures verdict { IfOk result
            (IsVerdict (admission_of self.old) (logins_of self.old) head.now) }
        ensures same { StaysAll self.old self.new }
        ensures login { IfOk result (λ verdict. IsAfterVerdict (admission_of self.old)
            (logins_of self.old) head.now verdict (logins_of self.new)) }
    {
        if self.admission.is_closed_to(head) {
            return self.reject(Rejection::Forbidden, "", head);
        }
        let Some(login) = self.admission.login_of(head)? else {
            return self.judge_rest(head);
        };
        match self.wait_for(&login) {
            0 => {
                let verdict = self.judge_rest(head)?;
                self.see_verdict(&login, verdict)
            }
            1 => self.reject(Rejection::Unavailable, login.name.as_str(), head),
            _ => self.reject(Rejection::TooManyRequests, login.name.as_str(), head),
        }
    }

    // Notes that a login was wrong, where its request isn't taken for that.
    fn see_verdict(
        &mut self,
        login: &Credentials,
        verdict: Option<Rejection>,
    ) -> Result<Option<Rejection>, Stop>
        ensures is { IfOk result (λ v. v ≡ verdict) }
        ensures wrong { OnOk result (verdict ≡ Some Unauthorized → logins_of self.new
            ≡ after_wrong (logins_of self.old) (string_bytes login.now.name)
            (string_bytes login.now.password) (seconds_of (admission_of self.old))) }
        ensures other { OnOk result (verdict ≢ Some Unauthorized
            → logins_of self.new ≡ logins_of self.old) }
        ensures same { StaysAll self.old self.new }
    {
        match verdict {
            Some(Rejection::Unauthorized) => {
                self.see_wrong(login)?;
                Ok(verdict)
            }
            _ => Ok(verdict),
        }
    }

    // Judges a head, whoever waits.
    fn judge_rest(&mut self, head: &Head<'_>) -> Result<Option<Rejection>, Stop>
        ensures verdict { IfOk result (TellsRejected (admission_of self.old) head.now) }
        ensures same { StaysAll self.old self.new }
        ensures logins { logins_of self.new ≡ logins_of self.old }
    {
        match self.admission.judge(head)? {
            Some(rejected) => self.reject(rejected.why, rejected.user.as_str(), head),
            None => Ok(None),
        }
    }

    // A request isn't taken, of who says to be this user: that is noted.
    fn reject(
        &mut self,
        why: Rejection,
        user: &str,
        head: &Head<'_>,
    ) -> Result<Option<Rejection>, Stop>
        ensures is { IfOk result (λ verdict. verdict ≡ Some why) }
        ensures same { StaysAll self.old self.new }
        ensures logins { logins_of self.new ≡ logins_of self.old }
    {
        let reply = Replied {
            status: why.status(),
            bytes: explanation(why.status()).len(),
        };
        self.told.note(self.admission.moment(), user, head, reply)?;
        Ok(Some(why))
    }

    // Notes that the connection itself refused a request with these bytes as its head. Where memory runs out it has no line.
    pub(super) fn note_refused(&mut self, head: &[u8], status: u16)
        ensures { self.new ≡ self.old }
    {
        let reply = Replied {
            status,
            bytes: explanation(status).len(),
        };
        let moment = self.admission.moment();
        if let Some(head) = Head::read(head) {
            let _ = self.told.note(moment, "", &head, reply);
        }
    }
}

// Fills the response to a request that has to wait so many seconds (RFC 6585, section 4).
fn fill_wait(seconds: u64, response: &mut Response) -> Result<(), Stop>
    requires { IsBlank response.old }
    ensures { OnOk result (IsResponse 429 (wait_fields seconds) [] response.new) }
{
    response.status = StatusCode::TOO_MANY_REQUESTS;
    let value = if seconds == 1 {
        HeaderValue::from_static("1")
    } else {
        HeaderValue::from_static("60")
    };
    Ok(response.add_header(RETRY_AFTER, value)?)
}
