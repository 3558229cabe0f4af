//! The engines of programs that answer lines.
//!
//! - [`engine::run`] reads the whole input, and then answers each line.
//! - [`stream::answer_as_read`] answers each line as soon as it has read its end.
//!
//! A type that answers a line is a parameter of both ([`answers::Answers`]). The second engine needs one that answers
//! in steps ([`steps::Steps`]). [`steps::OneByOne`] makes one of a type that answers a line by one call. This example
//! is in `respath_lines::run`:
//!
//! ```rust
//! engine::run(alloc, &Commands, reader, writer)
//! ```
#![tactic(auto)]

pub mod adapters;
pub mod answers;
pub mod device;
pub mod engine;
pub mod error;
mod group;
pub mod retrying;
pub mod steps;
pub mod stream;
pub mod text;
pub mod until_end;
pub mod watched;
