//! The objects of a SLURM file, and the members that each may have.
ghost use Rattle.std.specs.Prelude.{◌↔◌, IsTrue, MatchOption};
ghost use Rattle.json.specs.Value.{members_view};
ghost use Rattle.roa_slurm.specs.Objects.{Defines, HasUnknown, KnowsAll};

use crate::member::SlurmMember;
use json::Value;
use std::alloc::Allocator;

/// An object of a SLURM file (RFC 8416, 3.2 to 3.4).
#[derive(Clone, Copy, Debug, PartialEq, Eq)]
pub enum SlurmObject {
    /// The file.
    File,
    /// The value of `validationOutputFilters`.
    Filters,
    /// The value of `locallyAddedAssertions`.
    Assertions,
    /// An item of `prefixFilters`.
    PrefixFilterItem,
    /// An item of `bgpsecFilters`.
    BgpsecFilterItem,
    /// An item of `prefixAssertions`.
    PrefixAssertionItem,
    /// An item of `bgpsecAssertions`.
    BgpsecAssertionItem,
}

impl SlurmObject {
    /// Returns whether RFC 8416 defines a member of this name for the object.
    pub fn defines(self, name: &str) -> bool
        ensures { IsTrue result ↔ Defines self name.now }
    {
        match self {
            SlurmObject::File => {
                name == "slurmVersion"
                    || name == "validationOutputFilters"
                    || name == "locallyAddedAssertions"
            }
            SlurmObject::Filters => name == "prefixFilters" || name == "bgpsecFilters",
            SlurmObject::Assertions => name == "prefixAssertions" || name == "bgpsecAssertions",
            SlurmObject::PrefixFilterItem => name == "prefix" || name == "asn" || name == "comment",
            SlurmObject::BgpsecFilterItem => name == "asn" || name == "SKI" || name == "comment",
            SlurmObject::PrefixAssertionItem => {
                name == "prefix" || name == "asn" || name == "maxPrefixLength" || name == "comment"
            }
            SlurmObject::BgpsecAssertionItem => {
                name == "asn" || name == "SKI" || name == "routerPublicKey" || name == "comment"
            }
        }
    }

    /// Returns the number, from 1, of the first member that RFC 8416 doesn't define for the object, or None.
    pub(crate) fn first_unknown<'a, A: Allocator>(
        self,
        members: &Vec<(&'a str, Value<'a, A>), A>,
    ) -> Option<usize>
        ensures { MatchOption result (KnowsAll self (members_view members.now.items))
            (HasUnknown self 1 (members_view members.now.items)) }
    {
        let mut number = 0;
        for member in members {
            number += 1;
            if !self.defines(member.0) {
                return Some(number);
            }
        }
        None
    }
}
