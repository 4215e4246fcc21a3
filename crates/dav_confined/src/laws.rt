//! Laws of requests and the paths that they name. Each function does nothing: its contract is a theorem on
//! the definitions.
pub mod confined;
pub mod granted;
pub mod seen;
