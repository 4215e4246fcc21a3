//! What a client is told in words of a response that refuses.
ghost use Rattle.std.specs.Prelude.{◌≡◌};
ghost use Rattle.dav_wire.specs.Explained.{explanation};

/// The text of a response with this status that has no body of its own: one sentence and a line feed; none for a status that isn't
/// here (RFC 9110, sections 15.5 and 15.6; RFC 4918, section 11; RFC 6585, section 4).
pub fn explanation(status: u16) -> &'static [u8]
    ensures { result.now ≡ explanation status }
{
    match status {
        401 => b"Who are you? Log in with a name and a password.\n",
        403 => b"This isn't allowed here, or not to you.\n",
        413 => b"This is larger than this server takes.\n",
        421 => b"This server hasn't that name, or not that folder.\n",
        423 => b"A lock is in the way, and its token wasn't handed in.\n",
        429 => b"Too many wrong logins: wait and try again.\n",
        503 => b"This can't be taken now: try again soon.\n",
        507 => b"There is no room for this.\n",
        _ => b"",
    }
}
