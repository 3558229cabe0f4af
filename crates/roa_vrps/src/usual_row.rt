//! Reads lines with a VRP in the usual form, in one pass.
//!
//! A line of the usual form begins with the AS number, the prefix and the maximum length. It has neither white space
//! nor quotes. Each call returns None for a line of another form, even for one that [`crate::row::read_row`] accepts.
ghost use Rattle.std.specs.Prelude.{IfSome, IsTrue};
ghost use Rattle.roa_vrps.specs.Rows.{IsRow};
ghost use Rattle.roa_vrps.specs.UsualRows.{AllowUsual, AreFurther, EndsField, IsVrpOf};
ghost use Rattle.roa_vrps.specs.declared.row.Row.TheVariants.{Vrp as the_vrp};

use crate::columns::Columns;
use crate::front::{strip_byte, take_asn, take_number, take_prefix};
use crate::vrp::Vrp;
use rpki_base::Asn;
use rpki_base::addr::IpAddr;
use rpki_prefix::{MaxLenPrefix, Prefix};

/// Returns the number of commas of a text, or None if a byte is neither a comma nor a visible ASCII character after it.
#[inline(always)]
fn count_commas(text: &[u8]) -> Option<usize>
    ensures { IfSome result (λ count. AreFurther text.now count) }
{
    let mut count = 0;
    for byte in text {
        if *byte < b',' || *byte > b'~' {
            return None;
        }
        if *byte == b',' {
            count += 1;
        }
    }
    Some(count)
}

/// Returns the number of fields after the maximum length, which `text` follows. The call returns None if the field of
/// the maximum length does not end there, or if a field after it is not of the usual form.
#[inline(always)]
fn count_fields(text: &[u8]) -> Option<usize>
    ensures { IfSome result (λ count. EndsField text.now × AreFurther text.now count) }
{
    match text {
        [] | [b',', ..] => count_commas(text),
        _ => None,
    }
}

/// Returns the VRP of an AS number, an address, a prefix length and a maximum length, if they give one.
#[inline(always)]
fn vrp_of(asn: u32, addr: IpAddr, len: u8, max_len: u8) -> Option<Vrp>
    ensures { IfSome result (IsVrpOf asn addr len max_len) }
{
    let prefix = Prefix::new(addr, len).ok()?;
    let prefix = MaxLenPrefix::new(prefix, Some(max_len)).ok()?;
    Some((prefix, Asn::from_u32(asn)))
}

/// Returns whether the first three columns are those of a VRP, and the columns allow a line with `count` more fields.
fn allow(columns: Columns, count: usize) -> bool
    ensures { IsTrue result → AllowUsual columns count }
{
    if columns.asn != 0 || columns.prefix != 1 || columns.max_len != 2 {
        return false;
    }
    if !columns.is_named {
        return true;
    }
    3 <= columns.count && count <= columns.count - 3
}

/// Returns the VRP of a line of the usual form, or None if the line has another form.
pub(crate) fn usual_vrp(columns: Columns, line: &[u8]) -> Option<Vrp>
    ensures { IfSome result (λ vrp. IsRow columns line.now (the_vrp vrp)) }
{
    let (asn, after_asn) = take_asn(line)?;
    let text = strip_byte(b',', after_asn)?;
    let Some((addr, len, after_prefix)) = take_prefix(text) else {
        return None;
    };
    let digits = strip_byte(b',', after_prefix)?;
    let (max_len, rest) = take_number(digits)?;
    let count = count_fields(rest)?;
    if allow(columns, count) {
        vrp_of(asn, addr, len, max_len)
    } else {
        None
    }
}
