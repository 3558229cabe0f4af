//! SEQUENCEs (X.690, 8.9 and 8.10) of values of any type, and of address families with claims of any type.
mod families;
mod read;
mod write;

pub use families::{ByFamily, ReadClaim, take_families};
pub use read::{ReadNext, read_some, read_values, take_sequence_of};
pub use write::{Encode, append_sequence, encode_all, encode_sequence, len_of_all, sequence_len};
