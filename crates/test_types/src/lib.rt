//! Tests of types. They show what no clause states and no stored line shows:
//!
//! - the output of `{:?}`
//! - hashes
//! - the texts of errors
//! - the paths under which users of the Rust crate find the types
#![tactic(auto)]

#[cfg(test)]
mod checks;
#[cfg(test)]
mod debug;
#[cfg(test)]
mod faults;
#[cfg(test)]
mod hashes;
#[cfg(test)]
mod paths;
