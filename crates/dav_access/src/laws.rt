//! Laws on what a contract of this crate cites.
ghost use Rattle.std.specs.Prelude.{◌≡◌, ℕ, List};
ghost use Rattle.dav_access.specs.Basic.{IsBasic};
ghost use Rattle.dav_access.specs.Rules.{GrantsAdd, RightsAreOrdered, RightsReachDown};

/// The value of a field reads as the credentials of one name and password at most.
#[tactic(auto, using(crate::proofs::BasicLemmas::basic_once))]
pub fn credentials_are_read_once()
    ensures { (value name password other_name other_password : List ℕ) → IsBasic value name password
        → IsBasic value other_name other_password
        → (name ≡ other_name) × (password ≡ other_password) }
{}

/// A right includes those before it, reaches down to what is below its path, and is never taken back
/// by another grant.
pub fn rights_are_plain()
    ensures ordered { RightsAreOrdered }
    ensures down { RightsReachDown }
    ensures add { GrantsAdd }
{}
