//! The exports on the sets of two handles: they make a third set, or compare the two.
ghost use Rattle.std.specs.Prelude.{◌≡◌};
ghost use Rattle.std.specs.Ptr.{null_ptr};
ghost use Rattle.rpki_resources.specs.Triples.{HasEachOf, IsDifferenceOf, IsIntersectionOf, IsUnionOf};
ghost use Rattle.pigyelund_routes.specs.Tables.{IsAsked};
ghost use Rattle.pigyelund_c.specs.Pairs.{AreSame, IsSymmetricDifferenceOf};
ghost use Rattle.pigyelund_c.specs.SetHandles.{IsSetMade, IsYesIf};

use crate::operations::Operation;
use crate::pair::answer_number;
use crate::set_calls::give_by;
use crate::set_handle::{SetOutput, SetRef};
use pigyelund_routes::status;
use std::alloc::Global;

/// Computes the union of two sets: the resources that are in at least one of them.
///
/// `out` receives the handle of the result.
///
/// Returns `PIGY_NO_HANDLE` if a handle is null, or else `PIGY_OK`. The call can return `PIGY_MEMORY` instead of
/// `PIGY_OK`. For any error the handle in `out` is null.
#[unsafe(no_mangle)]
pub extern "C" fn pigy_resources_union(
    alloc: Global,
    a: SetRef,
    b: SetRef,
    out: &mut SetOutput,
) -> u32
    ensures { IsAsked a.at (IsAsked b.at (IsSetMade (IsUnionOf a.set b.set) out.new.given out.new.at result)
        (out.new.at ≡ null_ptr) result) (out.new.at ≡ null_ptr) result }
{
    *out = SetOutput::null();
    let Some(a) = a.set() else {
        return status::NO_HANDLE;
    };
    let Some(b) = b.set() else {
        return status::NO_HANDLE;
    };
    give_by(alloc, Operation::Union, a, b, out)
}

/// Computes the intersection of two sets: the resources that are in both.
///
/// Parameters and statuses are those of `pigy_resources_union`.
#[unsafe(no_mangle)]
pub extern "C" fn pigy_resources_intersection(
    alloc: Global,
    a: SetRef,
    b: SetRef,
    out: &mut SetOutput,
) -> u32
    ensures { IsAsked a.at (IsAsked b.at (IsSetMade (IsIntersectionOf a.set b.set) out.new.given out.new.at result)
        (out.new.at ≡ null_ptr) result) (out.new.at ≡ null_ptr) result }
{
    *out = SetOutput::null();
    let Some(a) = a.set() else {
        return status::NO_HANDLE;
    };
    let Some(b) = b.set() else {
        return status::NO_HANDLE;
    };
    give_by(alloc, Operation::Intersection, a, b, out)
}

/// Computes the difference of two sets: the resources of the first set that are not in the second.
///
/// Parameters and statuses are those of `pigy_resources_union`.
#[unsafe(no_mangle)]
pub extern "C" fn pigy_resources_difference(
    alloc: Global,
    a: SetRef,
    b: SetRef,
    out: &mut SetOutput,
) -> u32
    ensures { IsAsked a.at (IsAsked b.at (IsSetMade (IsDifferenceOf a.set b.set) out.new.given out.new.at result)
        (out.new.at ≡ null_ptr) result) (out.new.at ≡ null_ptr) result }
{
    *out = SetOutput::null();
    let Some(a) = a.set() else {
        return status::NO_HANDLE;
    };
    let Some(b) = b.set() else {
        return status::NO_HANDLE;
    };
    give_by(alloc, Operation::Difference, a, b, out)
}

/// Computes the symmetric difference of two sets: the resources that are in exactly one of them.
///
/// Parameters and statuses are those of `pigy_resources_union`.
#[unsafe(no_mangle)]
pub extern "C" fn pigy_resources_symmetric_difference(
    alloc: Global,
    a: SetRef,
    b: SetRef,
    out: &mut SetOutput,
) -> u32
    ensures { IsAsked a.at (IsAsked b.at (IsSetMade (IsSymmetricDifferenceOf a.set b.set) out.new.given out.new.at result)
        (out.new.at ≡ null_ptr) result) (out.new.at ≡ null_ptr) result }
{
    *out = SetOutput::null();
    let Some(a) = a.set() else {
        return status::NO_HANDLE;
    };
    let Some(b) = b.set() else {
        return status::NO_HANDLE;
    };
    give_by(alloc, Operation::SymmetricDifference, a, b, out)
}

/// Tests whether the first set has each AS number and each address of the second. The call allocates nothing.
///
/// `answer` receives 1 for yes and 0 for no, and 0 with an error.
///
/// Returns `PIGY_NO_HANDLE` if a handle is null, or else `PIGY_OK`.
#[unsafe(no_mangle)]
pub extern "C" fn pigy_resources_contains(a: SetRef, b: SetRef, answer: &mut u8) -> u32
    ensures { IsAsked a.at (IsAsked b.at (IsYesIf (HasEachOf a.set b.set) answer.new × (result ≡ 0))
        (answer.new ≡ 0) result) (answer.new ≡ 0) result }
{
    *answer = 0;
    let Some(a) = a.set() else {
        return status::NO_HANDLE;
    };
    let Some(b) = b.set() else {
        return status::NO_HANDLE;
    };
    *answer = answer_number(a.contains(b));
    status::OK
}

/// Tests whether both sets are the same. The call allocates nothing.
///
/// Parameters and statuses are those of `pigy_resources_contains`.
#[unsafe(no_mangle)]
pub extern "C" fn pigy_resources_equal(a: SetRef, b: SetRef, answer: &mut u8) -> u32
    ensures { IsAsked a.at (IsAsked b.at (IsYesIf (AreSame a.set b.set) answer.new × (result ≡ 0))
        (answer.new ≡ 0) result) (answer.new ≡ 0) result }
{
    *answer = 0;
    let Some(a) = a.set() else {
        return status::NO_HANDLE;
    };
    let Some(b) = b.set() else {
        return status::NO_HANDLE;
    };
    *answer = answer_number(*a == *b);
    status::OK
}
