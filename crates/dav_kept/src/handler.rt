//! What answers requests.
ghost use Rattle.std.specs.Prelude.{◌≡◌, ◌++◌, ℕ, List, IsTrue, IfOk, OnOk};
ghost use Rattle.http_server.specs.declared.response.Response.{Response};
ghost use Rattle.http_server.specs.Response.{IsBlank};
ghost use Rattle.dav_kept.specs.Kept.{LoadsWhatWasSaved};
ghost use Rattle.dav_kept.specs.Records.{RequestView};
ghost use Rattle.dav_kept.specs.declared.handler.Effect.TheVariants.{Left};

use crate::error::HandleError;
use crate::record::Request;
use http_server::Response;

/// What an answer did to the state.
#[derive(Clone, Copy, Debug, PartialEq, Eq)]
pub enum Effect {
    /// The state is as it was.
    Left,
    /// It may be another.
    Changed,
}

/// What is asked of a handler of this type beside the requests that it answers by itself: its state
/// stays.
pub trait Asks<H> {
    // By this, a handler in this state has this response to this request.
    ghost tells: { Self → H → RequestView → Response → Type 0 };

    /// Has a handler fill the response to a request, which comes blank. `Malformed` where it can't
    /// be asked, `Memory` where memory runs out; after an error nothing may be asked.
    fn ask(
        &self,
        handler: &mut H,
        request: &Request<'_>,
        response: &mut Response,
    ) -> Result<(), HandleError>
        requires { IsBlank response.old }
        ensures tells { OnOk result (tells self.now handler.old request.now response.new) }
        ensures same { OnOk result (handler.new ≡ handler.old) };
}

/// What answers requests out of a state of its own, which an answer may change.
pub trait Handles {
    // This response answers this request in the first state, and leaves the second.
    ghost answers: { Self → RequestView → Response → Self → Type 0 };

    /// Answers a request: fills the response, which comes blank. `Malformed` where the request is
    /// none that this handler takes, `Memory` where memory runs out; after an error nothing may be
    /// asked.
    fn handle(
        &mut self,
        request: &Request<'_>,
        response: &mut Response,
    ) -> Result<Effect, HandleError>
        requires { IsBlank response.old }
        ensures answers { IfOk result (λ _. answers self.old request.now response.new self.new) }
        ensures left { IfOk result (λ effect. effect ≡ Left → self.new ≡ self.old) };

    // What is saved of a state.
    ghost saved: { Self → List ℕ };

    // What was saved of this state can be loaded.
    ghost is_saveable: { Self → Type 0 };

    // The second state is loaded from these bytes, by a server in the first one.
    ghost loads: { Self → List ℕ → Self → Type 0 };

    /// Adds what is saved of the state. False where that couldn't be loaded: what was added then is
    /// of no use.
    fn save(&self, out: &mut Vec<u8>) -> Result<bool, HandleError>
        ensures { IfOk result (λ is. IsTrue is
            → (out.new.items ≡ out.old.items ++ saved self.now) × is_saveable self.now) };

    /// Loads the state that these bytes were saved of, in the place of the first one. `Malformed`
    /// where they are those of none; after an error nothing may be asked.
    fn load(&mut self, bytes: &[u8]) -> Result<(), HandleError>
        ensures { OnOk result (loads self.old bytes.now self.new) };

    ghost loads_what_was_saved: { LoadsWhatWasSaved answers saved is_saveable loads };
}
