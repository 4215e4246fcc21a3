//! Who makes a request.
ghost use Rattle.std.specs.Prelude.{◌≡◌, IfErr, IfOk, IfSome, Some, string_bytes};
ghost use Rattle.std.specs.Option.{option_copied, option_map};
ghost use Rattle.dav_access.specs.Principals.{IsPrincipal, IsRefusal};
ghost use Rattle.dav_access.specs.Users.{IsName};

use crate::basic::credentials_of;
use crate::error::Refusal;
use crate::users::Users;
use std::alloc::Global;

// The name of the user whom a field's value shows.
fn user_of(alloc: Global, users: &mut Users, value: &[u8]) -> Result<String, Refusal>
    ensures same { users.new ≡ users.old }
    ensures principal { IfOk result (λ name.
        IsPrincipal (Some users.old) (Some value.now) (Some (string_bytes name))) }
    ensures refusal { IfErr result (IsRefusal (Some users.old) (Some value.now)) }
    ensures named { IfOk result (λ name. IsName (string_bytes name)) }
{
    let Some(shown) = credentials_of(alloc, value)? else {
        return Err(Refusal::Unknown(String::new(alloc)));
    };
    if users.knows(shown.name.as_str(), shown.password.as_bytes()) {
        Ok(shown.name)
    } else {
        Err(Refusal::Unknown(shown.name))
    }
}

/// Who makes a request whose field Authorization has this value, if it has one: the name of a user
/// who shows the password, or `None` where there is no list of users. `Unknown` where no user is
/// shown with the password. The list stays as it is.
pub fn principal_of(
    alloc: Global,
    users: &mut Option<Users>,
    authorization: Option<&[u8]>,
) -> Result<Option<String>, Refusal>
    ensures same { users.new ≡ users.old }
    ensures principal { IfOk result (λ name.
        IsPrincipal users.old (option_copied authorization.entry) (option_map string_bytes name)) }
    ensures refusal { IfErr result (IsRefusal users.old (option_copied authorization.entry)) }
    ensures named { IfOk result (λ name. IfSome name (λ n. IsName (string_bytes n))) }
{
    let Some(users) = users else {
        return Ok(None);
    };
    match authorization {
        Some(value) => Ok(Some(user_of(alloc, users, value)?)),
        None => Err(Refusal::Unknown(String::new(alloc))),
    }
}
