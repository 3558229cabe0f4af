//! Tests of the memory that calls on chains, sets and claims request.
//!
//! No clause counts requests. The golden tests `requests` of `rows_sets` and `rows_claims` have the calls that make
//! sets.
#![tactic(auto)]

#[cfg(test)]
mod chains;
#[cfg(test)]
mod checks;
#[cfg(test)]
mod covered;
#[cfg(test)]
mod no_allocation;
#[cfg(test)]
mod small_sets;
