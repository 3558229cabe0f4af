//! The expiry of an entry of a file: of a line of CSV with a VRP, or of an item of JSON.
ghost use Rattle.std.specs.Prelude.{◌≡◌, ℕ, Bool, List, [], ◌∷◌, ◌++◌, MatchOption, MatchResult, OnOk};
ghost use Rattle.std.specs.Str.{IsUtf8};
ghost use Rattle.json.specs.Json.{number as json_number};
ghost use Rattle.json.specs.Value.{value_view};
ghost use Rattle.rpki_prefix.specs.MaxLen.{MaxLenValue};
ghost use Rattle.roa_vrps.specs.Entries.{AreRead, Entry, HasEntryFault, HasExpiresFault, HasExpiry, HasLineExpiryFault};
ghost use Rattle.roa_vrps.specs.Entries.{IsItemExpiry, IsLineExpiry, IsNumeric, IsTimeText, expires_name, item_entry, line_entry};
ghost use Rattle.roa_vrps.specs.Members.{AreWrong, named_values};
ghost use Rattle.roa_vrps.specs.declared.fault.ExpiryFault.TheVariants.{Item, Line};

use crate::columns::field_at;
use crate::fault::{ExpiresFault, ExpiryFault, MemberFault};
use crate::found::Expiries;
use crate::member::named;
use json::Value;
use std::alloc::{AllocError, Allocator};
use std::str::FromStr;

/// Adds the expiry of a line with a VRP, if the reader was asked for expiries. `column` is the index of the column
/// `Expires`, if there is one.
#[inline(always)]
pub(crate) fn add_line<A: Allocator>(
    asked: bool,
    expiries: &mut Expiries<A>,
    number: usize,
    column: Option<usize>,
    line: &[u8],
) -> Result<(), AllocError>
    requires { IsUtf8 line.now }
    ensures { (entries : List Entry) → AreRead asked entries expiries.old
        → (vrp : MaxLenValue × ℕ)
        → OnOk result (AreRead asked (entries ++ line_entry vrp number column line.now ∷ []) expiries.new) }
{
    if asked {
        add(expiries, expiry_of_line(number, column, line))
    } else {
        Ok(())
    }
}

/// Adds the expiry of an item, if the reader was asked for expiries.
pub(crate) fn add_item<A: Allocator>(
    asked: bool,
    expiries: &mut Expiries<A>,
    number: usize,
    item: &Value<'_, A>,
) -> Result<(), AllocError>
    ensures { (entries : List Entry) → AreRead asked entries expiries.old
        → (vrp : MaxLenValue × ℕ)
        → OnOk result (AreRead asked (entries ++ item_entry vrp number (value_view item.now) ∷ []) expiries.new) }
{
    if asked {
        add(expiries, expiry_of_item(number, item))
    } else {
        Ok(())
    }
}

/// Adds the expiry of an entry, unless an earlier entry has a fault.
#[tactic(auto, using(crate::proofs::EntryLemmas::expiries_push, crate::proofs::EntryLemmas::wrong_keep, crate::proofs::EntryLemmas::wrong_push))]
fn add<A: Allocator>(
    expiries: &mut Expiries<A>,
    expiry: Result<Option<u64>, ExpiryFault>,
) -> Result<(), AllocError>
    ensures { (asked : Bool) → (entries : List Entry) → (last : Entry) → AreRead asked entries expiries.old
        → MatchResult expiry (HasExpiry last) (HasEntryFault last)
        → OnOk result (AreRead asked (entries ++ last ∷ []) expiries.new) }
{
    if let Ok(found) = expiries {
        match expiry {
            Ok(expiry) => found.push(expiry)?,
            Err(fault) => *expiries = Err(fault),
        }
    }
    Ok(())
}

/// Returns the expiry of a line with a VRP, or None if there is no column `Expires` or its field is empty.
fn expiry_of_line(
    number: usize,
    column: Option<usize>,
    line: &[u8],
) -> Result<Option<u64>, ExpiryFault>
    requires { IsUtf8 line.now }
    ensures { MatchResult result (IsLineExpiry column line.now)
        (λ fault. HasLineExpiryFault column line.now × (fault ≡ Line number)) }
{
    let Some(index) = column else {
        return Ok(None);
    };
    let Ok(text) = str::from_utf8(line) else {
        unreachable!()
    };
    let field = field_at(text, index);
    if field.is_empty() {
        return Ok(None);
    }
    match time_of(field) {
        Some(time) => Ok(Some(time)),
        None => Err(ExpiryFault::Line(number)),
    }
}

/// Returns the expiry of an item, or None if it has no member `expires`.
fn expiry_of_item<A: Allocator>(
    number: usize,
    item: &Value<'_, A>,
) -> Result<Option<u64>, ExpiryFault>
    ensures { MatchResult result (IsItemExpiry (value_view item.now))
        (λ fault. (wrong : ExpiresFault) × HasExpiresFault (value_view item.now) wrong × (fault ≡ Item number wrong)) }
{
    match expires_of(item) {
        Ok(text) => match time_of(text) {
            Some(time) => Ok(Some(time)),
            None => Err(ExpiryFault::Item(number, ExpiresFault::Number)),
        },
        Err(MemberFault::Missing) => Ok(None),
        Err(fault) => Err(ExpiryFault::Item(number, ExpiresFault::Member(fault))),
    }
}

/// Returns the text of the only member `expires` of an item, which has to be a number.
fn expires_of<'a, A: Allocator>(item: &Value<'a, A>) -> Result<&'a str, MemberFault>
    ensures { MatchResult result
        (λ text. named_values expires_name (value_view item.now) ≡ json_number text.now ∷ [])
        (AreWrong IsNumeric (named_values expires_name (value_view item.now))) }
{
    let value = named(item, "expires")?;
    match value.as_number() {
        Some(text) => Ok(text),
        None => Err(MemberFault::Kind),
    }
}

/// Returns the time that a text gives, or None if the text is not a number of 64 bits.
#[tactic(auto, using(crate::proofs::EntryLemmas::no_time, crate::proofs::EntryLemmas::time_is))]
fn time_of(text: &str) -> Option<u64>
    ensures { MatchOption result ((time : ℕ) → ¬ IsTimeText text.now time) (IsTimeText text.now) }
{
    u64::from_str(text).ok()
}
