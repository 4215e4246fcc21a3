//! Tests of crates by their public calls. They stand apart from these crates, which are so proved once: a crate with tests is
//! proved a second time with them.
#![tactic(auto)]

#[cfg(test)]
mod access;
#[cfg(test)]
mod kept;
#[cfg(test)]
mod limits;
#[cfg(test)]
mod presented;
#[cfg(test)]
mod requests;
#[cfg(test)]
mod seen;
#[cfg(test)]
mod xml;
