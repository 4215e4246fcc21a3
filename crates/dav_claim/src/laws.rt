//! What a claim is for.
ghost use Rattle.dav_claim.specs.Claim.{AnsweredIsRead};

/// What an opening tells as kept, each later one reads: a block that was synced before a look found
/// the claim was synced before the later claim was there, and so before the later opening read.
pub fn answered_is_read()
    ensures { AnsweredIsRead }
{}
