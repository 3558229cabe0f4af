//! The functions that C calls, a module for each subject. No other function is here.
//!
//! The other modules of this crate read the arguments of a call and compute its result. `pigyelund_routes` does so for
//! routes, tables and VRP files, `respath_lines` for lines.
mod contents;
mod files;
mod issuers;
mod lines;
mod operations;
mod prefixes;
mod ranges;
mod resources;
mod sets;
mod tables;
mod texts;
mod validate;
mod verify;
