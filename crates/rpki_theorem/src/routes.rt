//! The validity of a route, and the prefixes of an authorization that are outside of a holder's set.
ghost use Rattle.std.specs.Prelude.{◌≡◌, IfOk};
ghost use Rattle.std.specs.List.Sorted.{IsPermutation};
ghost use Rattle.roa_check.specs.Inside.{IsFirstOutside};
ghost use Rattle.roa_origin.specs.Validities.{IsValidity};

use roa_origin::{OriginTable, Validity, Vrp, origin};
use rpki_base::Asn;
use rpki_prefix::{MaxLenPrefix, Prefix};
use rpki_resources::ResourceSet;
use std::alloc::{AllocError, Allocator};

/// Returns the validity of a route by a list of VRPs, and a table of them with the validity by it. The first validity
/// takes no memory.
pub fn validity<A: Allocator + Copy>(
    alloc: A,
    route: Prefix,
    asn: Asn,
    vrps: &[Vrp],
) -> (Validity, Result<(OriginTable<A>, Validity), AllocError>)
    ensures list { IsValidity route asn vrps.now result.0 }
    ensures table { IfOk result.1 (λ made. IsPermutation vrps.now made.0 × (made.1 ≡ result.0)) }
{
    roa_origin::laws::laws_of_validities(); // so that the proof sees that there is one validity
    let listed = origin(route, asn, vrps);
    match OriginTable::new(alloc, vrps) {
        Ok(table) => {
            let found = table.origin(route, asn);
            (listed, Ok((table, found)))
        }
        Err(error) => (listed, Err(error)),
    }
}

/// Returns the index of the first prefix that has an address outside of the set. The call allocates nothing.
pub fn outside<A: Allocator>(set: &ResourceSet<A>, prefixes: &[MaxLenPrefix]) -> Option<usize>
    ensures { IsFirstOutside set.now prefixes.now result }
{
    roa_check::outside(set, prefixes)
}
