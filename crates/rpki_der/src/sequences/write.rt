//! Writes consecutive values, alone or in a SEQUENCE.
ghost use Rattle.std.specs.Prelude.{◌≡◌, ◌≤◌, ◌+◌, ◌^◌, ◌++◌, ℕ, List, length, vec_len, OnOk, OnErr, IsOk, IfSome, IfNone};
ghost use Rattle.std.specs.Vec.{vec_capacity};
ghost use Rattle.rpki_der.specs.SequenceWriting.{octets_of_all, sequence_octets};

use crate::tag;
use crate::write::{append_header, header_len};
use std::alloc::{AllocError, Allocator};

/// A type whose values have a DER encoding.
pub trait Encode {
    // The encoding of a value.
    ghost octets: { Self → List ℕ };

    /// Returns the number of octets that `append` appends.
    fn encoded_len(&self) -> usize
        ensures len { result ≡ length (octets self.now) };

    /// Appends the encoding of the value to `out`, without allocation.
    ///
    /// # Preconditions
    ///
    /// The capacity of `out` suffices for these octets.
    fn append<A: Allocator>(&self, out: &mut Vec<u8, A>)
        requires fits { vec_len out.old + length (octets self.now) ≤ vec_capacity out.old }
        ensures items { out.new.items ≡ out.old.items ++ octets self.now }
        ensures capacity { vec_capacity out.old ≤ vec_capacity out.new };
}

/// Returns the number of octets that `encode_all` appends, or None if it is 2^64 or more.
pub fn len_of_all<V: Encode>(values: &[V]) -> Option<usize>
    ensures some { IfSome result (λ n. n ≡ length (octets_of_all V.octets values.now)) }
    ensures none { IfNone result (2 ^ 64 ≤ length (octets_of_all V.octets values.now)) }
{
    let mut total: usize = 0;
    for value in values {
        total = total.checked_add(value.encoded_len())?;
    }
    Some(total)
}

/// Appends the encodings of the values to `out`, one after another. The call succeeds if the capacity of `out`
/// suffices.
///
/// # Errors
///
/// `AllocError`: out of memory, or the encodings have 2^64 octets or more. The octets in `out` are unchanged.
pub fn encode_all<V: Encode, A: Allocator>(
    values: &[V],
    out: &mut Vec<u8, A>,
) -> Result<(), AllocError>
    ensures ok { OnOk result (out.new.items ≡ out.old.items ++ octets_of_all V.octets values.now) }
    ensures err { OnErr result (out.new.items ≡ out.old.items) }
    ensures succeeds { vec_len out.old + length (octets_of_all V.octets values.now)
        ≤ vec_capacity out.old → IsOk result }
    ensures capacity { vec_capacity out.old ≤ vec_capacity out.new }
{
    let Some(total) = len_of_all(values) else {
        return Err(AllocError);
    };
    out.reserve(total)?;
    append_all(values, out);
    Ok(())
}

/// Appends the encodings of the values, for which the capacity suffices.
fn append_all<V: Encode, A: Allocator>(values: &[V], out: &mut Vec<u8, A>)
    requires fits { vec_len out.old + length (octets_of_all V.octets values.now)
        ≤ vec_capacity out.old }
    ensures items { out.new.items ≡ out.old.items ++ octets_of_all V.octets values.now }
    ensures capacity { vec_capacity out.old ≤ vec_capacity out.new }
{
    for value in values {
        value.append(out);
    }
}

/// Returns the number of octets that `encode_sequence` appends, or None if it is 2^64 or more.
pub fn sequence_len<V: Encode>(values: &[V]) -> Option<usize>
    ensures some { IfSome result (λ n. n ≡ length (sequence_octets V.octets values.now)) }
    ensures none { IfNone result (2 ^ 64 ≤ length (sequence_octets V.octets values.now)) }
{
    let content_len = len_of_all(values)?;
    header_len(tag::SEQUENCE, content_len).checked_add(content_len)
}

/// Appends a SEQUENCE of the values to `out` (X.690, 8.9 and 8.10). The call succeeds if the capacity of `out`
/// suffices.
///
/// # Errors
///
/// `AllocError`: out of memory, or the SEQUENCE has 2^64 octets or more. The octets in `out` are unchanged.
pub fn encode_sequence<V: Encode, A: Allocator>(
    values: &[V],
    out: &mut Vec<u8, A>,
) -> Result<(), AllocError>
    ensures ok { OnOk result
        (out.new.items ≡ out.old.items ++ sequence_octets V.octets values.now) }
    ensures err { OnErr result (out.new.items ≡ out.old.items) }
    ensures succeeds { vec_len out.old + length (sequence_octets V.octets values.now)
        ≤ vec_capacity out.old → IsOk result }
    ensures capacity { vec_capacity out.old ≤ vec_capacity out.new }
{
    let Some(content_len) = len_of_all(values) else {
        return Err(AllocError);
    };
    let Some(whole_len) = header_len(tag::SEQUENCE, content_len).checked_add(content_len) else {
        return Err(AllocError);
    };
    out.reserve(whole_len)?;
    append_sequence(values, content_len, out);
    Ok(())
}

/// Appends a SEQUENCE of the values to `out`, without allocation.
///
/// # Preconditions
///
/// - `content_len` is the number of octets of the encodings of `values`.
/// - The capacity of `out` suffices for the SEQUENCE.
pub fn append_sequence<V: Encode, A: Allocator>(
    values: &[V],
    content_len: usize,
    out: &mut Vec<u8, A>,
)
    requires len { content_len ≡ length (octets_of_all V.octets values.now) }
    requires fits { vec_len out.old + length (sequence_octets V.octets values.now)
        ≤ vec_capacity out.old }
    ensures items { out.new.items ≡ out.old.items ++ sequence_octets V.octets values.now }
    ensures capacity { vec_capacity out.old ≤ vec_capacity out.new }
{
    append_header(out, tag::SEQUENCE, content_len);
    append_all(values, out);
}
