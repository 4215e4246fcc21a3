//! What reading a file tells of its text.
ghost use Rattle.std.specs.Prelude.{◌≡◌};
ghost use Rattle.dav_serve.specs.Found.{found};

use crate::refusal::Refusal;
use std::io;
use std::io::ErrorKind;

/// The text of a file by what reading it gave: none where the file isn't there, and `Unread` with its path where it can't be read for
/// any other reason, so that a list of users or rules that is there never counts as none.
pub fn text_in(path: String, read: io::Result<Vec<u8>>) -> Result<Option<Vec<u8>>, Refusal>
    ensures { result ≡ found path read }
{
    match read {
        Ok(text) => Ok(Some(text)),
        Err(error) => match error.kind() {
            ErrorKind::NotFound => Ok(None),
            _ => Err(Refusal::Unread(path)),
        },
    }
}
