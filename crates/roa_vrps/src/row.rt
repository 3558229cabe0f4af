//! A line of a CSV file.
ghost use Rattle.roa_vrps.specs.Rows.{AreColumns, ArePairTexts, AreVrpTexts, FitsColumns, HasCountFault, HasRowFault, HaveColumnsFault, HaveFault, HaveFieldsFault, IsBody, IsRow, IsUnknownHeader, WritesAsn, WritesPrefix};
ghost use Rattle.std.specs.Prelude.{◌≡◌, ◌↔◌, [], IsTrue, MatchOption, MatchResult};
ghost use Rattle.std.specs.Str.{trim};

use crate::columns::{Columns, field_at, field_count};
use crate::fault::VrpFault;
use crate::usual_row::usual_vrp;
use crate::vrp::Vrp;
use rpki_base::Asn;
use rpki_base::number::parse_u8;
use rpki_prefix::{MaxLenPrefix, Prefix};
use std::str::FromStr;

/// The content of a line.
#[derive(Clone, Copy, Debug, PartialEq, Eq)]
pub enum Row {
    /// Only white space.
    Blank,
    /// The names of the columns, for the lines after it.
    Header(Columns),
    /// A VRP: a prefix with its maximum length, and the AS that may originate routes to it.
    Vrp(Vrp),
}

/// Returns the content of a line of a CSV file, or its first fault. A line of the usual form is read in one pass.
///
/// White space and quotes at the ends of a field are not part of it. Each comma ends a field, even one between quotes.
/// Fields in other columns than those of a VRP are ignored.
pub fn read_row(columns: Columns, line: &[u8]) -> Result<Row, VrpFault>
    ensures { MatchResult result (IsRow columns line.now) (HasRowFault columns line.now) }
{
    match usual_vrp(columns, line) {
        Some(vrp) => Ok(Row::Vrp(vrp)),
        None => read_any(columns, line),
    }
}

/// Returns the content of a line of any form, or its first fault.
#[tactic(auto, using(crate::proofs::RowLemmas::body_of))]
fn read_any(columns: Columns, line: &[u8]) -> Result<Row, VrpFault>
    ensures { MatchResult result (IsRow columns line.now) (HasRowFault columns line.now) }
{
    let Ok(text) = str::from_utf8(line) else {
        return Err(VrpFault::NotUtf8);
    };
    if is_blank(text) {
        return Ok(Row::Blank);
    }
    if let Some(next) = Columns::named_by(text) {
        return Ok(Row::Header(next));
    }
    check_count(columns, text)?;
    match read_columns(columns, text) {
        Ok(vrp) => Ok(Row::Vrp(vrp)),
        Err(fault) => Err(fault),
    }
}

/// Returns Ok if a line has a field in each of the three columns, and no more fields than the columns allow.
fn check_count(columns: Columns, line: &str) -> Result<(), VrpFault>
    ensures { MatchResult result (λ _. FitsColumns columns line.now) (HasCountFault columns line.now) }
{
    let count = field_count(line);
    if columns.is_named && columns.count < count {
        return Err(VrpFault::TooManyFields(count, columns.count));
    }
    if columns.asn < count && columns.prefix < count && columns.max_len < count {
        Ok(())
    } else {
        Err(VrpFault::TooFewFields(count, columns.needed))
    }
}

/// Returns the VRP in the three columns of a line, or the first fault of their texts.
#[tactic(auto, using(crate::proofs::RowLemmas::three_found))]
fn read_columns(columns: Columns, line: &str) -> Result<Vrp, VrpFault>
    ensures { MatchResult result (AreColumns columns line.now) (HaveColumnsFault columns line.now) }
{
    let asn = field_at(line, columns.asn);
    let prefix = field_at(line, columns.prefix);
    let max_len = field_at(line, columns.max_len);
    if max_len.is_empty() {
        read_pair(asn, prefix)
    } else {
        read_fields(asn, prefix, max_len)
    }
}

/// Returns whether a line is only white space.
fn is_blank(line: &str) -> bool
    ensures { IsTrue result ↔ (trim line.now ≡ []) }
{
    line.trim().is_empty()
}

/// Returns the VRP that three texts give, or the first fault of an AS number, a prefix and a maximum length.
pub(crate) fn read_fields(asn: &str, prefix: &str, max_len: &str) -> Result<Vrp, VrpFault>
    ensures { MatchResult result (λ x. AreVrpTexts asn.now prefix.now max_len.now x.0 x.1)
        (HaveFault asn.now prefix.now max_len.now) }
{
    let asn = Asn::from_str(asn).map_err(VrpFault::Asn)?;
    let prefix = Prefix::from_str(prefix).map_err(VrpFault::Prefix)?;
    let len = parse_u8(max_len).map_err(VrpFault::MaxLenFormat)?;
    let prefix = MaxLenPrefix::new(prefix, Some(len)).map_err(VrpFault::MaxLen)?;
    Ok((prefix, asn))
}

/// Returns the VRP of an AS number and a prefix without a maximum length, or their first fault.
fn read_pair(asn: &str, prefix: &str) -> Result<Vrp, VrpFault>
    ensures { MatchResult result (λ x. ArePairTexts asn.now prefix.now x.0 x.1)
        (HaveFieldsFault asn.now prefix.now []) }
{
    let asn = Asn::from_str(asn).map_err(VrpFault::Asn)?;
    let whole = Prefix::from_str(prefix).map_err(VrpFault::Prefix)?;
    Ok((MaxLenPrefix::saturating_new(whole, Some(whole.len())), asn))
}

/// Returns whether a line is meant to be a header and is not a known one.
pub(crate) fn is_unknown_header(line: &[u8]) -> bool
    ensures { IsTrue result ↔ IsUnknownHeader line.now }
{
    match body_of(line) {
        Some(text) => !is_asn(field_at(text, 0)) && !is_prefix(field_at(text, 1)),
        None => false,
    }
}

/// Returns the text of a line that must be a VRP, or None for any other line.
#[tactic(auto, using(crate::proofs::RowLemmas::body_of))]
fn body_of(line: &[u8]) -> Option<&str>
    ensures { MatchOption result (¬ IsBody line.now) (λ text. IsBody line.now × (text.now ≡ line.now)) }
{
    let Ok(text) = str::from_utf8(line) else {
        return None;
    };
    if is_blank(text) {
        return None;
    }
    match Columns::named_by(text) {
        Some(_) => None,
        None => Some(text),
    }
}

/// Returns whether `text` is an AS number.
fn is_asn(text: &str) -> bool
    ensures { IsTrue result ↔ WritesAsn text.now }
{
    match Asn::from_str(text) {
        Ok(_) => true,
        Err(_) => false,
    }
}

/// Returns whether `text` is a prefix.
#[tactic(auto, using(crate::proofs::RowLemmas::no_prefix))]
fn is_prefix(text: &str) -> bool
    ensures { IsTrue result ↔ WritesPrefix text.now }
{
    Prefix::from_str(text).is_ok()
}
