//! The JSON array of VRPs, and its items.
ghost use Rattle.std.specs.Prelude.{◌≡◌, ◌<◌, ◌↔◌, List, [], ◌∷◌, ◌++◌, IfOk, IsTrue, MatchResult, OnOk, Some, None, Err, length};
ghost use Rattle.json.specs.Json.{Json, Items, Members, array, value, items, member, members, no_members};
ghost use Rattle.roa_vrps.specs.declared.fault.FileFault.TheVariants.{Roas};
ghost use Rattle.roa_vrps.specs.declared.fault.MemberFault.TheVariants.{Missing};
ghost use Rattle.json.specs.Reads.{skip_members};
ghost use Rattle.json.specs.Value.{value_view};
ghost use Rattle.roa_vrps.specs.Entries.{IsFoundIn};
ghost use Rattle.roa_vrps.specs.JsonFiles.{AreItems, AreItemsRead, HasItemFault, IsItem, IsRoasResult, roas};
ghost use Rattle.roa_vrps.specs.Members.{values_in};

use crate::entry::add_item;
use crate::fault::{FileFault, ItemFault, MemberFault};
use crate::found::Found;
use crate::member::{Member, text_of};
use crate::row::read_fields;
use crate::vrp::Vrp;
use json::{Error, Invalid, Reader, Token, Value};
use std::alloc::{AllocError, Allocator};

/// The VRPs of items, and their expiries if they are asked for, or the first fault.
pub(crate) type Roas<A> = Result<Found<A>, FileFault>;

/// Reads the members of an object up to its end, and returns the VRPs of `roas` or their fault.
#[tactic(auto, using(json::proofs::Grammar::members_no_key, json::proofs::Grammar::members_fail))]
pub(crate) fn read_members<A: Allocator + Copy>(
    alloc: A,
    reader: &mut Reader<'_>,
    depth: usize,
    asked: bool,
) -> Result<Roas<A>, Error>
    requires { 0 < depth }
    ensures outcome { IfOk result (λ outcome. (ms : Members) × IsRoasResult asked (values_in roas ms) outcome
        × (members (value depth) (length reader.old) reader.old ≡ Some (ms, reader.new))) }
    ensures invalid { result ≡ Err Error.Invalid
        → members (value depth) (length reader.old) reader.old ≡ None }
{
    let mut outcome = Err(FileFault::Roas(MemberFault::Missing));
    while let Some(key) = reader.next_key()? {
        outcome = read_member(alloc, reader, depth, key, outcome, asked)?;
    }
    Ok(outcome)
}

/// Reads the value of the member `key`, and returns the VRPs of `roas` or their fault. `outcome` is the result before
/// it.
#[tactic(auto, using(crate::proofs::JsonLemmas::member_skipped, crate::proofs::JsonLemmas::member_duplicate))]
fn read_member<A: Allocator + Copy>(
    alloc: A,
    reader: &mut Reader<'_>,
    depth: usize,
    key: &str,
    outcome: Roas<A>,
    asked: bool,
) -> Result<Roas<A>, Error>
    requires { 0 < depth }
    ensures reads { (values : List Json) → IsRoasResult asked values outcome
        → IfOk result (λ outcome. (j : Json) × (value depth reader.old ≡ Some (j, reader.new))
        × IsRoasResult asked (values ++ values_in roas (member key.now j no_members)) outcome) }
    ensures invalid { result ≡ Err Error.Invalid → value depth reader.old ≡ None }
    ensures shorter { OnOk result (length reader.new < length reader.old) }
{
    if key != "roas" {
        reader.skip_value(depth)?;
        Ok(outcome)
    } else if is_missing(&outcome) {
        read_list(alloc, reader, depth, asked)
    } else {
        reader.skip_value(depth)?;
        Ok(Err(FileFault::Roas(MemberFault::Repeated)))
    }
}

/// Returns whether no member `roas` was read yet.
fn is_missing<A: Allocator>(outcome: &Roas<A>) -> bool
    ensures { IsTrue result ↔ (outcome.now ≡ Err (Roas Missing)) }
{
    matches!(outcome, Err(FileFault::Roas(MemberFault::Missing)))
}

/// Reads a value of `roas`, which has to be an array.
#[tactic(auto, using(crate::proofs::JsonLemmas::array_fails, crate::proofs::JsonLemmas::object_fails, json::proofs::Grammar::value_is))]
fn read_list<A: Allocator + Copy>(
    alloc: A,
    reader: &mut Reader<'_>,
    depth: usize,
    asked: bool,
) -> Result<Roas<A>, Error>
    requires { 0 < depth }
    ensures outcome { IfOk result
        (λ outcome. (j : Json) × IsRoasResult asked (j ∷ []) outcome × (value depth reader.old ≡ Some (j, reader.new))) }
    ensures invalid { result ≡ Err Error.Invalid → value depth reader.old ≡ None }
    ensures shorter { OnOk result (length reader.new < length reader.old) }
{
    let token = reader.next().ok_or(Error::Invalid)?;
    match token {
        Token::BeginArray => read_items(alloc, reader, depth - 1, asked),
        Token::BeginObject => {
            skip_members(reader, depth - 1)?;
            Ok(Err(FileFault::Roas(MemberFault::Kind)))
        }
        Token::String(_) | Token::Number(_) | Token::Bool(_) | Token::Null => {
            Ok(Err(FileFault::Roas(MemberFault::Kind)))
        }
        Token::EndObject | Token::EndArray | Token::Key(_) | Token::Bad => Err(Error::Invalid),
    }
}

/// Reads the items of an array up to its end, and returns their VRPs or the first fault.
fn read_items<A: Allocator + Copy>(
    alloc: A,
    reader: &mut Reader<'_>,
    depth: usize,
    asked: bool,
) -> Result<Roas<A>, Error>
    ensures outcome { IfOk result (λ outcome. (js : Items) × IsRoasResult asked (array js ∷ []) outcome
        × (items (value depth) (length reader.old) reader.old ≡ Some (js, reader.new))) }
    ensures invalid { result ≡ Err Error.Invalid
        → items (value depth) (length reader.old) reader.old ≡ None }
    ensures shorter { OnOk result (length reader.new < length reader.old) }
{
    let mut found = Found {
        vrps: Vec::new(alloc),
        expiries: Ok(Vec::new(alloc)),
    };
    let mut fault = None;
    while !reader.take_end_array() {
        match fault {
            None => fault = read_next(alloc, reader, depth, &mut found, asked)?,
            Some(_) => reader.skip_value(depth)?,
        }
    }
    match fault {
        None => Ok(Ok(found)),
        Some(fault) => Ok(Err(fault)),
    }
}

/// Reads the next item, and adds its VRP to what was found before it, or returns its fault.
fn read_next<A: Allocator + Copy>(
    alloc: A,
    reader: &mut Reader<'_>,
    depth: usize,
    found: &mut Found<A>,
    asked: bool,
) -> Result<Option<FileFault>, Error>
    ensures reads { (before : List Json) → IsFoundIn asked (AreItems 1 before) found.old
        → IfOk result (λ fault. (j : Json) × (value depth reader.old ≡ Some (j, reader.new))
        × AreItemsRead asked (before ++ j ∷ []) found.new fault) }
    ensures invalid { result ≡ Err Error.Invalid → value depth reader.old ≡ None }
    ensures shorter { OnOk result (length reader.new < length reader.old) }
{
    let item = Value::read(alloc, reader, depth)?;
    Ok(push_item(asked, found, &item)?)
}

/// Adds the VRP of the item after those that were read, and its expiry if the reader was asked for expiries, or returns
/// the item's fault.
fn push_item<A: Allocator>(
    asked: bool,
    found: &mut Found<A>,
    item: &Value<'_, A>,
) -> Result<Option<FileFault>, AllocError>
    ensures { (before : List Json) → IsFoundIn asked (AreItems 1 before) found.old
        → IfOk result (AreItemsRead asked (before ++ value_view item.now ∷ []) found.new) }
{
    let number = found.vrps.len() + 1;
    match read_item(item) {
        Ok(vrp) => {
            found.vrps.push(vrp)?;
            add_item(asked, &mut found.expiries, number, item)?;
            Ok(None)
        }
        Err(fault) => Ok(Some(FileFault::Item(number, fault))),
    }
}

/// Returns the VRP that `item` gives, or its first fault. Members of other names are ignored.
fn read_item<A: Allocator>(item: &Value<'_, A>) -> Result<Vrp, ItemFault>
    ensures { MatchResult result (IsItem (value_view item.now))
        (HasItemFault (value_view item.now)) }
{
    let asn = match text_of(Member::Asn, item) {
        Ok(text) => text,
        Err(fault) => return Err(ItemFault::Member(Member::Asn, fault)),
    };
    let prefix = match text_of(Member::Prefix, item) {
        Ok(text) => text,
        Err(fault) => return Err(ItemFault::Member(Member::Prefix, fault)),
    };
    let max_len = match text_of(Member::MaxLength, item) {
        Ok(text) => text,
        Err(fault) => return Err(ItemFault::Member(Member::MaxLength, fault)),
    };
    match read_fields(asn, prefix, max_len) {
        Ok(vrp) => Ok(vrp),
        Err(fault) => Err(ItemFault::Vrp(fault)),
    }
}

/// Skips members up to the end of their object.
#[tactic(auto, using(json::proofs::Grammar::members_no_key, json::proofs::Grammar::members_fail, json::proofs::Grammar::left_none))]
fn skip_members(reader: &mut Reader<'_>, depth: usize) -> Result<(), Invalid>
    ensures read { MatchResult result (λ _. skip_members depth reader.old ≡ Some reader.new)
        (λ _. skip_members depth reader.old ≡ None) }
    ensures shorter { OnOk result (length reader.new < length reader.old) }
{
    while let Some(_) = reader.next_key()? {
        reader.skip_value(depth)?;
    }
    Ok(())
}
