//! Tests of values that the heads of libraries show as examples: addresses and blocks.
#![tactic(auto)]

#[cfg(test)]
mod addresses;
#[cfg(test)]
mod as_blocks;
#[cfg(test)]
mod checks;
#[cfg(test)]
mod ip_blocks;
