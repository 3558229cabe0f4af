//! Prints AS numbers. The text is built from its end in a buffer on the stack, and written in one call.
ghost use Rattle.std.specs.Prelude.{◌≡◌, ◌+◌, ◌≤◌, ◌∷◌, ◌++◌, length, drop};
ghost use Rattle.std.specs.Fmt.{WritesOnOk};
ghost use Rattle.rpki_text.specs.Cuts.{dash};
ghost use Rattle.rpki_base.specs.AsnText.{asn_text};

use super::Asn;
use itoa::write_digits;
use std::{fmt, str};

/// The maximum number of bytes of an AS number: `AS` and ten digits.
const ROOM: usize = 12;

/// The maximum number of bytes of a range: two AS numbers and a dash.
const RANGE_ROOM: usize = 25;

/// Writes the text of an AS number before index `end`, and returns the index of its first byte.
#[tactic(auto, using(crate::proofs::AsnPrinting::ten_digits, crate::proofs::AsnPrinting::letters_before))]
#[inline(always)]
fn put_before(out: &mut [u8], end: usize, asn: Asn) -> usize
    requires { (12 ≤ end) × (end ≤ length out.old) }
    ensures text { drop result out.new ≡ asn_text asn ++ drop end out.old }
    ensures fits { (end ≤ result + 12) × (result ≤ end) }
{
    let digits = write_digits(u64::from(asn.into_u32()), out, end);
    out[digits - 1] = b'S';
    out[digits - 2] = b'A';
    digits - 2
}

/// Prints an AS number.
pub(crate) fn fmt_asn<W: fmt::Write>(asn: Asn, f: &mut fmt::Formatter<W>) -> fmt::Result
    ensures { WritesOnOk W.write_str_gives f.old result (asn_text asn) f.new }
{
    let mut out = [0; ROOM];
    let start = put_before(&mut out, ROOM, asn);
    // The bytes are ASCII, so they are a text.
    let text = str::from_utf8(&out[start..]).map_err(|_| fmt::Error)?;
    f.write_str(text)
}

/// Prints two AS numbers with a dash between them, as in `AS3-AS5`. The call does not compare them.
///
/// # Errors
///
/// `fmt::Error`: the writer of `f` failed.
pub fn fmt_asn_range<W: fmt::Write>(min: Asn, max: Asn, f: &mut fmt::Formatter<W>) -> fmt::Result
    ensures { WritesOnOk W.write_str_gives f.old result (asn_text min ++ dash ∷ asn_text max) f.new }
{
    let mut out = [0; RANGE_ROOM];
    let between = put_before(&mut out, RANGE_ROOM, max) - 1;
    out[between] = b'-';
    let start = put_before(&mut out, between, min);
    // The bytes are ASCII, so they are a text.
    let text = str::from_utf8(&out[start..]).map_err(|_| fmt::Error)?;
    f.write_str(text)
}
