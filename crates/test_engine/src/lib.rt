//! Tests of the programs' engines. They show what no clause states.
//!
//! Each call of a device fails in turn, and each request for memory. The devices are those of this crate, and readers
//! and writers of std.
#![tactic(auto)]

#[cfg(test)]
mod buffered;
#[cfg(test)]
mod errors;
#[cfg(test)]
mod inputs;
#[cfg(test)]
mod large;
#[cfg(test)]
mod observed_run;
#[cfg(test)]
mod refused;
#[cfg(test)]
mod retries;
#[cfg(test)]
mod routes;
#[cfg(test)]
mod runs;
#[cfg(test)]
mod slices;
#[cfg(test)]
mod streams;
