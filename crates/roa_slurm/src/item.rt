//! The items of the four lists.
ghost use Rattle.std.specs.Prelude.{◌≡◌, MatchResult};
ghost use Rattle.json.specs.Json.{Json};
ghost use Rattle.json.specs.Value.{items_view, members_view, value_view};
ghost use Rattle.rpki_text.specs.Memory.{IfRefused};
ghost use Rattle.roa_slurm.specs.declared.fault.SlurmItemFault.{SlurmItemFault};
ghost use Rattle.roa_slurm.specs.Entries.{HasKeyAssertionFault, HasKeyFilterFault, HasPrefixAssertionFault, HasPrefixFilterFault, HasShapeFault, IsItemOf, IsKeyAssertion, IsKeyFilter, IsPrefixAssertion, IsPrefixFilter};
ghost use Rattle.roa_slurm.specs.Lists.{AreEntries, HasList, HasListFault, HaveInvalid};

use crate::assertion::read_assertion;
use crate::bgpsec::{KeyAssertion, KeyFilter, check_key, check_key_filter};
use crate::fault::{SlurmFault, SlurmItemFault};
use crate::filter::{PrefixFilter, read_filter};
use crate::member::{SlurmMember, items_in};
use crate::object::SlurmObject;
use json::Value;
use roa_vrps::Vrp;
use rpki_base::memory::OrMemory;
use std::alloc::Allocator;

/// An item of one of the four lists.
pub(crate) trait SlurmItem: Sized + Drop {
    ghost is_item: { Json → Self → Type 0 };

    ghost fails: { Json → SlurmItemFault → Type 0 };

    /// Reads an item.
    fn read<A: Allocator>(value: &Value<'_, A>) -> Result<Self, SlurmItemFault>
        ensures { MatchResult result (is_item (value_view value.now)) (fails (value_view value.now)) };
}

impl SlurmItem for PrefixFilter {
    ghost is_item = { λ value filter. IsPrefixFilter value filter };

    ghost fails = { λ value fault. HasPrefixFilterFault value fault };

    fn read<A: Allocator>(value: &Value<'_, A>) -> Result<PrefixFilter, SlurmItemFault> {
        let members = members_of(value, SlurmObject::PrefixFilterItem)?;
        read_filter(members)
    }
}

impl SlurmItem for KeyFilter {
    ghost is_item = { λ value key. IsKeyFilter value key };

    ghost fails = { λ value fault. HasKeyFilterFault value fault };

    fn read<A: Allocator>(value: &Value<'_, A>) -> Result<KeyFilter, SlurmItemFault> {
        let members = members_of(value, SlurmObject::BgpsecFilterItem)?;
        check_key_filter(members)?;
        Ok(KeyFilter)
    }
}

impl SlurmItem for Vrp {
    ghost is_item = { λ value vrp. IsPrefixAssertion value vrp };

    ghost fails = { λ value fault. HasPrefixAssertionFault value fault };

    fn read<A: Allocator>(value: &Value<'_, A>) -> Result<Vrp, SlurmItemFault> {
        let members = members_of(value, SlurmObject::PrefixAssertionItem)?;
        read_assertion(members)
    }
}

impl SlurmItem for KeyAssertion {
    ghost is_item = { λ value key. IsKeyAssertion value key };

    ghost fails = { λ value fault. HasKeyAssertionFault value fault };

    fn read<A: Allocator>(value: &Value<'_, A>) -> Result<KeyAssertion, SlurmItemFault> {
        let members = members_of(value, SlurmObject::BgpsecAssertionItem)?;
        check_key(members)?;
        Ok(KeyAssertion)
    }
}

/// Returns the members of an item, if it is an object and RFC 8416 defines each of them for such an item.
fn members_of<'v, 'a, A: Allocator>(
    value: &'v Value<'a, A>,
    object: SlurmObject,
) -> Result<&'v Vec<(&'a str, Value<'a, A>), A>, SlurmItemFault>
    ensures { MatchResult result
        (λ members. IsItemOf object (value_view value.now) (members_view members.now.items))
        (HasShapeFault object (value_view value.now)) }
{
    let Value::Object(members) = value else {
        return Err(SlurmItemFault::NotObject);
    };
    match object.first_unknown(members) {
        None => Ok(members),
        Some(number) => Err(SlurmItemFault::Unknown(number)),
    }
}

/// Returns the values of the items of a list, in their order, or the first fault.
fn read_items<T: SlurmItem, A: Allocator + Copy>(
    alloc: A,
    items: &Vec<Value<'_, A>, A>,
    list: SlurmMember,
) -> Result<Vec<T, A>, OrMemory<SlurmFault>>
    ensures { MatchResult result
        (λ values. AreEntries T.is_item (items_view items.now.items) values.items)
        (IfRefused (λ fault. (number : _) × (wrong : _)
        × HaveInvalid T.is_item T.fails 1 (items_view items.now.items) number wrong
        × (fault ≡ SlurmFault.Item list number wrong))) }
{
    let mut values = Vec::new(alloc);
    for item in items {
        match T::read(item) {
            Ok(value) => values.push(value)?,
            Err(fault) => {
                let number = values.len() + 1;
                return Err(OrMemory::Refused(SlurmFault::Item(list, number, fault)));
            }
        }
    }
    Ok(values)
}

/// Returns the values of the items of the list that is the only member of this name, or the fault of the list.
pub(crate) fn read_list<'a, T: SlurmItem, A: Allocator + Copy>(
    alloc: A,
    members: &Vec<(&'a str, Value<'a, A>), A>,
    list: SlurmMember,
) -> Result<Vec<T, A>, OrMemory<SlurmFault>>
    ensures { MatchResult result
        (λ values. HasList T.is_item list (members_view members.now.items) values.items)
        (IfRefused (HasListFault T.is_item T.fails list (members_view members.now.items))) }
{
    match items_in(members, list) {
        Ok(items) => read_items(alloc, items, list),
        Err(fault) => Err(OrMemory::Refused(SlurmFault::Member(list, fault))),
    }
}
