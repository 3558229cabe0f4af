//! Writing of octets, or of other elements of an array, into a caller's buffer.
ghost use Rattle.std.specs.Prelude.{◌≡◌, ◌≤◌, ◌++◌, length, drop};
ghost use Rattle.pigyelund_routes.specs.Written.{AreBothWritten, AreWritten};

use crate::status;

/// Writes `items` at the front of `out`. The rest of the buffer is unchanged.
///
/// # Preconditions
///
/// The buffer is at least as long as `items`.
pub fn put<T: Copy>(items: &[T], out: &mut [T])
    requires { length items.now ≤ length out.old }
    ensures { out.new ≡ items.now ++ drop (length items.now) out.old }
{
    out[..items.len()].copy_from_slice(items);
}

/// Writes `items` at the front of `out` if the buffer is large enough, and returns the status.
///
/// `len` receives the number of items. If `out` is too short, the status is `TOO_SMALL` and `out` is unchanged.
/// Otherwise the status is `OK`, and the rest of `out` is unchanged.
pub fn write_items<T: Copy>(items: &[T], out: &mut [T], len: &mut usize) -> u32
    ensures { AreWritten items.now out.old out.new len.new result }
{
    *len = items.len();
    if out.len() < items.len() {
        return status::TOO_SMALL;
    }
    put(items, out);
    status::OK
}

/// Writes two lists at the front of two buffers if both buffers are large enough, and returns the status.
///
/// `len` and `other_len` receive the numbers of items. If one of the buffers is too short, the status is `TOO_SMALL`
/// and both are unchanged. Otherwise the status is `OK`, and the rest of each is unchanged.
pub fn write_both<T: Copy>(
    items: &[T],
    out: &mut [T],
    len: &mut usize,
    other_items: &[T],
    other_out: &mut [T],
    other_len: &mut usize,
) -> u32
    ensures { AreBothWritten items.now other_items.now out.old out.new len.new other_out.old other_out.new
        other_len.new result }
{
    *len = items.len();
    *other_len = other_items.len();
    if out.len() < items.len() || other_out.len() < other_items.len() {
        return status::TOO_SMALL;
    }
    put(items, out);
    put(other_items, other_out);
    status::OK
}
