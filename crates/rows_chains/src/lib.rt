//! Code of `rows_sets` below the sets of one kind.
//!
//! It answers questions about chains over a kind of block of its own, and about small sets. It also reads the two lists
//! of a line.
#![tactic(auto)]

pub mod chains;
pub mod lists;
pub mod long;
pub mod pairs;
pub mod small_sets;
