//! VRP files in either form, JSON or CSV.
ghost use Rattle.std.specs.Prelude.{◌↔◌, IfErr, IsTrue, MatchResult};
ghost use Rattle.rpki_text.specs.Memory.{IsMemory, MatchOrMemory};
ghost use Rattle.rpki_text.specs.Reading.{AnswersOrMemory};
ghost use Rattle.roa_vrps.specs.Entries.{IsFoundIn};
ghost use Rattle.roa_vrps.specs.Files.{AreFileEntries, AreTextEntries, HasFileFault, HasTextFault, IsArrayText, IsObjectText, IsVrpFile, MayTextWantMemory, MayWantMemory};

use crate::csv::read_csv;
use crate::fault::FileFault;
use crate::found::Found;
use crate::json_file::read_json;
use crate::mark::without_mark;
use crate::vrp::Vrp;
use rpki_base::memory::OrMemory;
use std::alloc::Allocator;

/// Reads the VRPs of a file, in the order of the file. A VRP that the file repeats is repeated in the list.
///
/// - `alloc`: the allocator of the list.
/// - `text`: the whole file.
///
/// The reader ignores a byte order mark at the beginning of the file (RFC 3629, 6).
///
/// A file whose first octet that is not white space is `{` is JSON (RFC 8259). Its VRPs are the items of the member
/// `roas`, an array. An item is an object with the members `asn` (a number or a string), `prefix` (a string) and
/// `maxLength` (a number), each exactly once. Other members are ignored. The text nests at most 128 deep.
///
/// Any other file is CSV, except one whose first such octet is `[`. A line is blank, or names the columns, or is a VRP:
/// an AS number, a prefix and a maximum length. These are the first three fields of a line. If an earlier line names
/// the columns, they are the fields in the columns that the last such line names. A line then has no more fields than
/// that line. An empty maximum length is the length of the prefix, as in a ROA without one (RFC 9582, 4.3.2.2).
///
/// # Errors
///
/// - [`FileFault::UnknownHeader`]: the first line is neither blank nor a known header, its first field is not an AS
///   number, and its second field is not a prefix.
/// - [`FileFault::Line`]: the first invalid line, by its number, from 1, and its first fault.
/// - [`FileFault::Item`]: the first invalid item of `roas`, by its number, from 1, and its first fault.
/// - [`FileFault::JsonArray`]: the text opens an array.
/// - [`FileFault::NotObject`]: the text begins with `{`, and is not a JSON object in UTF-8, or nests deeper
///   than 128 levels.
/// - [`FileFault::Roas`]: the object has no member `roas`, or several, or one that is not an array.
/// - [`FileFault::NoVrp`]: the file has no VRP, and no other fault.
/// - [`OrMemory::Memory`]: an allocation failed.
pub fn read_vrps<A: Allocator + Copy>(
    alloc: A,
    text: &[u8],
) -> Result<Vec<Vrp, A>, OrMemory<FileFault>>
    ensures answers { AnswersOrMemory (λ vrps. vrps.items) (IsVrpFile text.now)
        (HasFileFault text.now) result }

    // An allocation failed. No allocation is requested before the first VRP of a CSV file, nor for a text that opens
    // an object and isn't UTF-8.
    ensures memory { IfErr result (λ error. IsMemory error → MayWantMemory text.now) }
{
    match read_file(alloc, text, false) {
        Ok(found) => Ok(found.vrps),
        Err(error) => Err(error),
    }
}

/// Returns the VRPs of a file, and their expiries if `asked`, or its first fault as a file of VRPs.
#[tactic(auto, using(crate::proofs::FileLemmas::file_empty, crate::proofs::FileLemmas::file_fault, crate::proofs::FileLemmas::file_found))]
pub(crate) fn read_file<A: Allocator + Copy>(
    alloc: A,
    file: &[u8],
    asked: bool,
) -> Result<Found<A>, OrMemory<FileFault>>
    ensures { MatchResult result (IsFoundIn asked (AreFileEntries file.now))
        (λ error. MatchOrMemory error (HasFileFault file.now) (MayWantMemory file.now)) }
{
    match read_text(alloc, without_mark(file), asked) {
        Ok(found) => if found.vrps.as_slice().is_empty() {
            Err(OrMemory::Refused(FileFault::NoVrp))
        } else {
            Ok(found)
        },
        Err(error) => Err(error),
    }
}

/// Returns the VRPs of a text without a byte order mark, and their expiries if `asked`, or its first fault.
fn read_text<A: Allocator + Copy>(
    alloc: A,
    text: &[u8],
    asked: bool,
) -> Result<Found<A>, OrMemory<FileFault>>
    ensures { MatchResult result (IsFoundIn asked (AreTextEntries text.now))
        (λ error. MatchOrMemory error (HasTextFault text.now) (MayTextWantMemory text.now)) }
{
    if opens_object(text) {
        read_json(alloc, text, asked)
    } else if opens_array(text) {
        Err(OrMemory::Refused(FileFault::JsonArray))
    } else {
        read_csv(alloc, text, asked)
    }
}

/// Returns whether the first octet that is not white space opens an object.
fn opens_object(text: &[u8]) -> bool
    ensures { IsTrue result ↔ IsObjectText text.now }
{
    text.trim_ascii_start().starts_with(b"{")
}

/// Returns whether the first octet that is not white space opens an array.
fn opens_array(text: &[u8]) -> bool
    ensures { IsTrue result ↔ IsArrayText text.now }
{
    text.trim_ascii_start().starts_with(b"[")
}
