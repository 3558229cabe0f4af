//! Tests of DER: single values, as the head of `rpki_der` shows them, and writers with memory refused.
//!
//! No clause counts requests for memory, and no line of `rows_values` writes a single value.
#![tactic(auto)]

#[cfg(test)]
mod checks;
#[cfg(test)]
mod refused;
#[cfg(test)]
mod values;
