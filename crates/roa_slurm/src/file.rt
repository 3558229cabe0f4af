//! Reads SLURM files.
ghost use Rattle.std.specs.Prelude.{IfErr, MatchResult};
ghost use Rattle.std.specs.Str.{IsUtf8};
ghost use Rattle.json.specs.Value.{members_view};
ghost use Rattle.rpki_text.specs.Memory.{IfRefused, IsMemory};
ghost use Rattle.rpki_text.specs.Reading.{AnswersOrMemory};
ghost use Rattle.roa_slurm.specs.SlurmFiles.{HasAssertions, HasAssertionsFault, HasFilters, HasFiltersFault, HasPart, HasPartFault, HasSlurmFault, HasSlurmTextFault, HasVersion, HasVersionFault, HaveSlurmFault, IsSlurmFile, IsSlurmText, MayWantMemory, AreSlurm, slurm_value};

use crate::bgpsec::{KeyAssertion, KeyFilter};
use crate::fault::SlurmFault;
use crate::filter::PrefixFilter;
use crate::item::read_list;
use crate::member::{SlurmMember, members_in, number_in};
use crate::object::SlurmObject;
use crate::slurm::Slurm;
use json::{Error, Scratch, Value};
use roa_vrps::Vrp;
use roa_vrps::mark::without_mark;
use rpki_base::memory::OrMemory;
use std::alloc::{AllocError, Allocator};

/// Reads a SLURM file of version 1 (RFC 8416, 3).
///
/// - `alloc`: the allocator of the two lists.
/// - `text`: the whole file.
///
/// The file is a JSON object (RFC 8259), nested at most 128 deep. Each of its objects has the members that RFC 8416
/// defines for it, and no other ones (RFC 8416, 3.1). No member is repeated. The reader ignores a byte order mark at
/// the beginning of the file (RFC 3629, 6).
///
/// Filters and assertions of router keys are read, and have no effect on VRPs. Their members `SKI` and
/// `routerPublicKey` may be any strings. An assertion without `maxPrefixLength` allows routes to its prefix alone.
///
/// # Errors
///
/// - `Refused` with the first [`SlurmFault`]. The members of an object are read in the order of [`SlurmMember`], and
/// not in the order of the file.
/// - [`OrMemory::Memory`]: an allocation failed.
pub fn read_slurm<A: Allocator + Copy>(
    alloc: A,
    text: &[u8],
) -> Result<Slurm<A>, OrMemory<SlurmFault>>
    ensures answers { AnswersOrMemory slurm_value (IsSlurmFile text.now)
        (HasSlurmFault text.now) result }

    // An allocation failed. No allocation is requested for a text that isn't UTF-8.
    ensures memory { IfErr result (λ error. IsMemory error → MayWantMemory text.now) }
{
    read_text(alloc, without_mark(text))
}

/// Returns what a text without a byte order mark says, or its first fault.
fn read_text<A: Allocator + Copy>(alloc: A, text: &[u8]) -> Result<Slurm<A>, OrMemory<SlurmFault>>
    ensures found { MatchResult result (λ slurm. IsSlurmText text.now (slurm_value slurm))
        (IfRefused (HasSlurmTextFault text.now)) }
    ensures memory { IfErr result (λ error. IsMemory error → IsUtf8 text.now) }
{
    let Ok(text) = str::from_utf8(text) else {
        return Err(OrMemory::Refused(SlurmFault::NotObject));
    };
    let mut scratch = Scratch::new(alloc);
    let value = match Value::parse(alloc, text, &mut scratch) {
        Ok(value) => value,
        Err(Error::OutOfMemory) => return Err(OrMemory::Memory(AllocError)),
        Err(_) => return Err(OrMemory::Refused(SlurmFault::NotObject)),
    };
    match &value {
        Value::Object(members) => read_members(alloc, members),
        _ => Err(OrMemory::Refused(SlurmFault::NotObject)),
    }
}

/// Returns what the members of the file's object say, or their first fault.
fn read_members<'a, A: Allocator + Copy>(
    alloc: A,
    members: &Vec<(&'a str, Value<'a, A>), A>,
) -> Result<Slurm<A>, OrMemory<SlurmFault>>
    ensures { MatchResult result (λ slurm. AreSlurm (members_view members.now.items) (slurm_value slurm))
        (IfRefused (HaveSlurmFault (members_view members.now.items))) }
{
    if let Some(number) = SlurmObject::File.first_unknown(members) {
        return Err(OrMemory::Refused(SlurmFault::Unknown(number)));
    }
    if let Err(fault) = check_version(members) {
        return Err(OrMemory::Refused(fault));
    }
    let filters = read_filters(alloc, members)?;
    let assertions = read_assertions(alloc, members)?;
    Ok(Slurm {
        filters,
        assertions,
    })
}

/// Returns Ok if the version is 1.
fn check_version<'a, A: Allocator>(
    members: &Vec<(&'a str, Value<'a, A>), A>,
) -> Result<(), SlurmFault>
    ensures { MatchResult result (λ _. HasVersion (members_view members.now.items))
        (HasVersionFault (members_view members.now.items)) }
{
    match number_in(members, SlurmMember::SlurmVersion) {
        Ok(text) => if text == "1" {
            Ok(())
        } else {
            Err(SlurmFault::Version)
        },
        Err(fault) => Err(SlurmFault::Member(SlurmMember::SlurmVersion, fault)),
    }
}

/// Returns the members of the object that is the only member of this name.
fn part_of<'v, 'a, A: Allocator>(
    members: &'v Vec<(&'a str, Value<'a, A>), A>,
    part: SlurmMember,
    object: SlurmObject,
) -> Result<&'v Vec<(&'a str, Value<'a, A>), A>, SlurmFault>
    ensures { MatchResult result
        (λ inner. HasPart part object (members_view members.now.items) (members_view inner.now.items))
        (HasPartFault part object (members_view members.now.items)) }
{
    let inner = match members_in(members, part) {
        Ok(inner) => inner,
        Err(fault) => return Err(SlurmFault::Member(part, fault)),
    };
    match object.first_unknown(inner) {
        None => Ok(inner),
        Some(number) => Err(SlurmFault::UnknownIn(part, number)),
    }
}

/// Returns the filters of VRPs, and checks the filters of router keys.
fn read_filters<'a, A: Allocator + Copy>(
    alloc: A,
    members: &Vec<(&'a str, Value<'a, A>), A>,
) -> Result<Vec<PrefixFilter, A>, OrMemory<SlurmFault>>
    ensures { MatchResult result
        (λ filters. HasFilters (members_view members.now.items) filters.items)
        (IfRefused (HasFiltersFault (members_view members.now.items))) }
{
    let inner = match part_of(
        members,
        SlurmMember::ValidationOutputFilters,
        SlurmObject::Filters,
    ) {
        Ok(inner) => inner,
        Err(fault) => return Err(OrMemory::Refused(fault)),
    };
    let filters = read_list(alloc, inner, SlurmMember::PrefixFilters)?;
    let _keys = read_list::<KeyFilter, A>(alloc, inner, SlurmMember::BgpsecFilters)?;
    Ok(filters)
}

/// Returns the VRPs that the file adds, and checks the added router keys.
fn read_assertions<'a, A: Allocator + Copy>(
    alloc: A,
    members: &Vec<(&'a str, Value<'a, A>), A>,
) -> Result<Vec<Vrp, A>, OrMemory<SlurmFault>>
    ensures { MatchResult result
        (λ assertions. HasAssertions (members_view members.now.items) assertions.items)
        (IfRefused (HasAssertionsFault (members_view members.now.items))) }
{
    let inner = match part_of(
        members,
        SlurmMember::LocallyAddedAssertions,
        SlurmObject::Assertions,
    ) {
        Ok(inner) => inner,
        Err(fault) => return Err(OrMemory::Refused(fault)),
    };
    let assertions = read_list(alloc, inner, SlurmMember::PrefixAssertions)?;
    let _keys = read_list::<KeyAssertion, A>(alloc, inner, SlurmMember::BgpsecAssertions)?;
    Ok(assertions)
}
