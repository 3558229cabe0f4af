//! JSON files of VRPs.
ghost use Rattle.std.specs.Bool.{MatchBool};
ghost use Rattle.std.specs.Prelude.{◌≡◌, ◌≢◌, List, ◌∷◌, Err, IfOk, MatchResult, Some};
ghost use Rattle.json.specs.Token.{Token as SpecToken, begin_object};
ghost use Rattle.json.specs.Json.{Members, document, object};
ghost use Rattle.rpki_text.specs.Memory.{MatchOrMemory};
ghost use Rattle.std.specs.Str.{IsUtf8};
ghost use Rattle.roa_vrps.specs.Entries.{IsFoundIn};
ghost use Rattle.roa_vrps.specs.JsonFiles.{AreJsonEntries, HasJsonFault, IsRoasResult, roas};
ghost use Rattle.roa_vrps.specs.Members.{values_in};

use crate::fault::FileFault;
use crate::found::Found;
use crate::roas::{Roas, read_members};
use json::{Error, MAX_DEPTH, Reader, Scratch, Token};
use rpki_base::memory::OrMemory;
use std::alloc::{AllocError, Allocator};

/// Returns the VRPs of the member `roas`, in their order, and their expiries if `asked`, or the fault. Memory is
/// requested only if the text is UTF-8.
#[tactic(auto, using(crate::proofs::JsonLemmas::json_fault, crate::proofs::JsonLemmas::json_values))]
pub(crate) fn read_json<A: Allocator + Copy>(
    alloc: A,
    text: &[u8],
    asked: bool,
) -> Result<Found<A>, OrMemory<FileFault>>
    ensures { MatchResult result (IsFoundIn asked (AreJsonEntries text.now))
        (λ error. MatchOrMemory error (HasJsonFault text.now) (IsUtf8 text.now)) }
{
    let Ok(text) = str::from_utf8(text) else {
        return Err(OrMemory::Refused(FileFault::NotObject));
    };
    match read_object(alloc, text, asked) {
        Ok(Ok(found)) => Ok(found),
        Ok(Err(fault)) => Err(OrMemory::Refused(fault)),
        Err(Error::Invalid) => Err(OrMemory::Refused(FileFault::NotObject)),
        Err(_) => Err(OrMemory::Memory(AllocError)),
    }
}

/// Reads the member `roas` of the object in `text`. [`Error::Invalid`] means that `text` is no JSON object.
#[tactic(auto, using(crate::proofs::JsonLemmas::none_in))]
fn read_object<A: Allocator + Copy>(alloc: A, text: &str, asked: bool) -> Result<Roas<A>, Error>
    ensures outcome { IfOk result (λ outcome. (ms : Members)
        × (document text.now ≡ Some (object ms)) × IsRoasResult asked (values_in roas ms) outcome) }
    ensures invalid { result ≡ Err Error.Invalid
        → (ms : Members) → document text.now ≢ Some (object ms) }
{
    let mut scratch = Scratch::new(alloc);
    let mut reader = Reader::new(text, &mut scratch)?;
    if !begins_object(&mut reader) {
        return Err(Error::Invalid);
    }
    let outcome = read_members(alloc, &mut reader, MAX_DEPTH - 1, asked)?;
    match reader.next() {
        None => Ok(outcome),
        Some(_) => Err(Error::Invalid),
    }
}

/// Returns whether the next token begins an object, and takes this token. The object's members follow.
fn begins_object(reader: &mut Reader<'_>) -> bool
    ensures { MatchBool result (reader.old ≡ begin_object ∷ reader.new)
        ((rest : List SpecToken) → reader.old ≢ begin_object ∷ rest) }
{
    matches!(reader.next(), Some(Token::BeginObject))
}
