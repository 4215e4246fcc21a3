//! The login that a request shows.
use crate::admission::Admission;
use dav_access::{Credentials, credentials_of};
use dav_http::Head;
use dav_wire::Stop;

impl Admission {
    ghost use Rattle.std.specs.Prelude.{◌≡◌, ℕ, List, IfOk, MatchOption, string_bytes};
    ghost use Rattle.dav_live.specs.Waiting.{ShowsLogin, seconds_of};

    /// The login that a request shows, where there is a list of users.
    pub fn login_of(&self, head: &Head<'_>) -> Result<Option<Credentials>, Stop>
        ensures { IfOk result (λ login. MatchOption login
            ((name password : List ℕ) → ¬ ShowsLogin self.now head.now name password)
            (λ c. ShowsLogin self.now head.now (string_bytes c.name) (string_bytes c.password))) }
    {
        if self.users.is_none() {
            return Ok(None);
        }
        match head.value("authorization") {
            Some(value) => Ok(credentials_of(self.alloc, value)?),
            None => Ok(None),
        }
    }

    /// The seconds of the front's steady clock; 0 before its first report.
    pub fn seconds(&self) -> u64
        ensures { result ≡ seconds_of self.now }
    {
        self.seconds.unwrap_or(0)
    }
}
