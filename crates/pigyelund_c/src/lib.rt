//! The calls for C and for languages that call C. Inputs are octets, and results are octets and a status.
//!
//! `foreign/pigyelund.h` lists the obligations of a caller, and docs/C.md is its guide. The exported functions
//! are in the module `exports`. Their comments use the names of statuses in that header. A set of resources is passed
//! as the values of the two extensions of RFC 3779: AS identifiers (3.2.3) and IP address blocks (2.2.3). Length 0
//! means that the set has no resources of that kind. No call has a precondition in its contract: invalid arguments are
//! rejected.
//!
//! An export hands its work to a proved function, and then writes the outcome. `pigy_verify_path` begins with:
//!
//! ```rust
//! let outcome = path_answered(alloc, anchor_as, anchor_ip, run, encoding, certificates);
//! let (count, outcome) = counted(certificates, outcome);
//! ```
#![tactic(auto)]

mod certificate;
mod cover;
mod encodings;
mod exports;
pub mod laws;
mod lines;
mod operations;
mod outcome;
mod pair;
mod path;
mod ranges;
mod read;
mod refusal;
mod request;
mod set_calls;
mod set_handle;
mod set_lists;
mod text;
mod write;
