//! The part of DER (X.690) that RFC 3779 needs.
//!
//! - A [`Cursor`] takes values from octets, one after another. A take that fails leaves it unchanged.
//! - A [`Content`] is read by the rule of its type: INTEGER, BIT STRING, OCTET STRING, NULL or SEQUENCE.
//! - The writers append values to a vector.
//! - [`sequences`] reads and writes SEQUENCEs: of values of any type, and of address families, each with its claim.
//!
//! Values have a tag of one octet and a definite length in the fewest octets. Readers copy no octets.
//!
//! A take returns a value or an error. This example is in `test_der::values`:
//!
//! ```rust
//! let mut cursor = Cursor::new(octets);
//! match reader {
//!     Reader::BitString => number_of(cursor.take_bit_string()),
//!     Reader::Null => number_of(cursor.take_null()),
//!     Reader::Octets => number_of(cursor.take_octets()),
//!     Reader::Sequence => number_of(cursor.take_sequence()),
//! }
//! ```
#![tactic(auto)]

mod content;
mod cursor;
mod error;
pub mod family;
pub mod laws;
pub mod sequences;
pub mod tag;
mod value;
mod write;

pub use content::{BitString, Content};
pub use cursor::Cursor;
pub use error::DerError;
pub use write::{
    append_bit_string, append_header, append_null, append_octets, append_u32, bit_string_len,
    header_len, null_len, octets_len, put_bit_string, put_header, put_null, put_octets, put_u32,
    u32_len,
};
