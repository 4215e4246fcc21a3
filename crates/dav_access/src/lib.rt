//! Who makes a request: credentials of the scheme Basic (RFC 7617), passwords by SHA-256-crypt, and the
//! list of users.
#![tactic(auto)]

mod amount;
mod basic;
mod check;
mod crypt;
mod encoding;
mod error;
mod fault;
pub mod file;
mod grant;
pub mod laws;
mod limit;
mod line;
mod logins;
mod name;
mod principal;
mod rules;
mod secret;
mod text;
mod users;

pub use basic::{Credentials, credentials_of};
pub use error::{Refusal, UsersError};
pub use fault::{AccessError, Fault};
pub use grant::{Grant, Right, Whom};
pub use limit::{Access, Limit, Measure};
pub use logins::{Logins, WrongLogin};
pub use name::Name;
pub use principal::principal_of;
pub use rules::Rules;
pub use secret::{MOST_PASSWORD, is_secret, matches_secret};
pub use users::Users;
