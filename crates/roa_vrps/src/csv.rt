//! CSV files of VRPs.
ghost use Rattle.std.specs.Prelude.{◌↔◌, IsTrue, MatchResult};
ghost use Rattle.rpki_text.specs.Memory.{MatchOrMemory};
ghost use Rattle.rpki_text.specs.Lines.{lines_of};
ghost use Rattle.roa_vrps.specs.Columns.{usual};
ghost use Rattle.roa_vrps.specs.Csv.{AreRows, HasCsvFault, HasCsvVrp, HasUnknownHeader, HaveFirstFault};
ghost use Rattle.roa_vrps.specs.Entries.{IsFoundIn};

use crate::columns::Columns;
use crate::entry::add_line;
use crate::fault::FileFault;
use crate::found::{Expiries, Found};
use crate::row::{Row, is_unknown_header, read_row};
use rpki_base::memory::OrMemory;
use rpki_text::line::cut_at_line_end;
use std::alloc::Allocator;

/// Returns the VRPs of the lines, in their order, and their expiries if `asked`, or the first fault of the file. Memory
/// is requested only for VRPs.
pub(crate) fn read_csv<A: Allocator + Copy>(
    alloc: A,
    text: &[u8],
    asked: bool,
) -> Result<Found<A>, OrMemory<FileFault>>
    ensures { MatchResult result (IsFoundIn asked (AreRows 1 usual (lines_of text.now)))
        (λ error. MatchOrMemory error (HasCsvFault text.now) (HasCsvVrp text.now)) }
{
    if has_unknown_header(text) {
        return Err(OrMemory::Refused(FileFault::UnknownHeader));
    }
    read_lines(alloc, text, asked)
}

/// Returns whether the first line is meant to be a header and is not a known one.
fn has_unknown_header(text: &[u8]) -> bool
    ensures { IsTrue result ↔ HasUnknownHeader text.now }
{
    if text.is_empty() {
        return false;
    }
    let (line, _) = cut_at_line_end(text);
    is_unknown_header(line)
}

/// Returns the VRPs of the lines, in their order, and their expiries if `asked`. The fault is that of the first invalid
/// line.
#[tactic(auto, using(crate::proofs::CsvLemmas::read_none, crate::proofs::CsvLemmas::read_over, crate::proofs::CsvLemmas::read_wrong, crate::proofs::CsvLemmas::read_wanting))]
fn read_lines<A: Allocator + Copy>(
    alloc: A,
    text: &[u8],
    asked: bool,
) -> Result<Found<A>, OrMemory<FileFault>>
    ensures { MatchResult result (IsFoundIn asked (AreRows 1 usual (lines_of text.now)))
        (λ error. MatchOrMemory error (HaveFirstFault 1 usual (lines_of text.now)) (HasCsvVrp text.now)) }
{
    let mut vrps = Vec::new(alloc);
    let mut expiries: Expiries<A> = Ok(Vec::new(alloc));
    let mut columns = Columns::USUAL;
    let mut number = 0;
    let mut rest = text;
    while !rest.is_empty() {
        let (line, after) = cut_at_line_end(rest);
        number += 1;
        match read_row(columns, line) {
            Ok(Row::Vrp(vrp)) => {
                vrps.push(vrp)?;
                add_line(asked, &mut expiries, number, columns.expires, line)?;
            }
            Ok(Row::Header(next)) => columns = next,
            Ok(Row::Blank) => {}
            Err(fault) => return Err(OrMemory::Refused(FileFault::Line(number, fault))),
        }
        rest = after;
    }
    Ok(Found { vrps, expiries })
}
