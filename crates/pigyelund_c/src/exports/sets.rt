//! The exports on two sets: union, intersection, difference, and tests of both.
ghost use Rattle.std.specs.Prelude.{◌≡◌, Bool, MatchResult, Result};
ghost use Rattle.rpki_text.specs.Memory.{IfRefused};
ghost use Rattle.rpki_text.specs.declared.memory.OrMemory.{OrMemory as Refusing};
ghost use Rattle.rpki_resources.specs.Triples.{HasEachOf, IsDifferenceOf, IsIntersectionOf, IsUnionOf, Triple};
ghost use Rattle.pigyelund_c.specs.Pairs.{AreNotRead, AreSame, IsMade, IsTested};
ghost use Rattle.pigyelund_c.specs.Sets.{IsSetReturned};
ghost use Rattle.pigyelund_c.specs.PairStatuses.{made_set, made_status, test_answer, test_status};
ghost use Rattle.pigyelund_c.specs.declared.pair.ReadPairError.{ReadPairError};

use crate::operations::{Operation, are_same, has_each, made};
use crate::pair::{status_and_made_set, write_test};
use crate::write::write_set;
use std::alloc::Global;

/// Computes the union of two sets: the resources that are in at least one of them.
///
/// `encoding` is that of `pigy_verify`, for both sets. `as_len` and `ip_len` receive lengths in octets, written or
/// required.
///
/// Returns the first status that applies:
///
/// - `PIGY_BAD_ENCODING`.
/// - `PIGY_BAD_AS` + n, `PIGY_BAD_IP` + n, `PIGY_INHERITED`: the first set.
/// - `PIGY_SECOND` + one of these: the second set.
/// - `PIGY_TOO_SMALL`, then `PIGY_OK`.
///
/// The call can return `PIGY_MEMORY` instead of any other status. Both lengths are 0 for an error other than
/// `PIGY_TOO_SMALL`. For any error the buffers are unchanged.
#[unsafe(no_mangle)]
pub extern "C" fn pigy_union(
    alloc: Global,
    a_as: &[u8],
    a_ip: &[u8],
    b_as: &[u8],
    b_ip: &[u8],
    encoding: u32,
    as_out: &mut [u8],
    ip_out: &mut [u8],
    as_len: &mut usize,
    ip_len: &mut usize,
) -> u32
    ensures { (outcome : Result Triple (Refusing ReadPairError))
        × MatchResult outcome
        (IsMade IsUnionOf a_as.now a_ip.now b_as.now b_ip.now encoding)
        (IfRefused (AreNotRead a_as.now a_ip.now b_as.now b_ip.now encoding))
        × IsSetReturned (made_status outcome) (made_set outcome) as_out.old ip_out.old as_out.new
        ip_out.new as_len.new ip_len.new result }
{
    let outcome = made(alloc, Operation::Union, a_as, a_ip, b_as, b_ip, encoding);
    let (status, set) = status_and_made_set(outcome);
    write_set(alloc, status, &set, as_out, ip_out, as_len, ip_len)
}

/// Computes the intersection of two sets: the resources that are in both.
///
/// Parameters and statuses are those of `pigy_union`.
#[unsafe(no_mangle)]
pub extern "C" fn pigy_intersection(
    alloc: Global,
    a_as: &[u8],
    a_ip: &[u8],
    b_as: &[u8],
    b_ip: &[u8],
    encoding: u32,
    as_out: &mut [u8],
    ip_out: &mut [u8],
    as_len: &mut usize,
    ip_len: &mut usize,
) -> u32
    ensures { (outcome : Result Triple (Refusing ReadPairError))
        × MatchResult outcome
        (IsMade IsIntersectionOf a_as.now a_ip.now b_as.now b_ip.now encoding)
        (IfRefused (AreNotRead a_as.now a_ip.now b_as.now b_ip.now encoding))
        × IsSetReturned (made_status outcome) (made_set outcome) as_out.old ip_out.old as_out.new
        ip_out.new as_len.new ip_len.new result }
{
    let outcome = made(
        alloc,
        Operation::Intersection,
        a_as,
        a_ip,
        b_as,
        b_ip,
        encoding,
    );
    let (status, set) = status_and_made_set(outcome);
    write_set(alloc, status, &set, as_out, ip_out, as_len, ip_len)
}

/// Computes the difference of two sets: the resources of the first set that are not in the second.
///
/// Parameters and statuses are those of `pigy_union`.
#[unsafe(no_mangle)]
pub extern "C" fn pigy_difference(
    alloc: Global,
    a_as: &[u8],
    a_ip: &[u8],
    b_as: &[u8],
    b_ip: &[u8],
    encoding: u32,
    as_out: &mut [u8],
    ip_out: &mut [u8],
    as_len: &mut usize,
    ip_len: &mut usize,
) -> u32
    ensures { (outcome : Result Triple (Refusing ReadPairError))
        × MatchResult outcome
        (IsMade IsDifferenceOf a_as.now a_ip.now b_as.now b_ip.now encoding)
        (IfRefused (AreNotRead a_as.now a_ip.now b_as.now b_ip.now encoding))
        × IsSetReturned (made_status outcome) (made_set outcome) as_out.old ip_out.old as_out.new
        ip_out.new as_len.new ip_len.new result }
{
    let outcome = made(
        alloc,
        Operation::Difference,
        a_as,
        a_ip,
        b_as,
        b_ip,
        encoding,
    );
    let (status, set) = status_and_made_set(outcome);
    write_set(alloc, status, &set, as_out, ip_out, as_len, ip_len)
}

/// Tests whether the first set has each AS number and each address of the second.
///
/// `encoding` is that of `pigy_verify`, for both sets. `answer` receives 1 for yes and 0 for no, and 0 with an error.
///
/// Returns the first status that applies:
///
/// - The statuses of `pigy_union` for the encoding, the first set and the second set.
/// - `PIGY_OK`.
///
/// The call can return `PIGY_MEMORY` instead of any other status.
#[unsafe(no_mangle)]
pub extern "C" fn pigy_contains(
    alloc: Global,
    a_as: &[u8],
    a_ip: &[u8],
    b_as: &[u8],
    b_ip: &[u8],
    encoding: u32,
    answer: &mut u8,
) -> u32
    ensures { (outcome : Result Bool (Refusing ReadPairError))
        × MatchResult outcome
        (IsTested HasEachOf a_as.now a_ip.now b_as.now b_ip.now encoding)
        (IfRefused (AreNotRead a_as.now a_ip.now b_as.now b_ip.now encoding))
        × (result ≡ test_status outcome) × (answer.new ≡ test_answer outcome) }
{
    let outcome = has_each(alloc, a_as, a_ip, b_as, b_ip, encoding);
    write_test(outcome, answer)
}

/// Tests whether both sets are the same.
///
/// Parameters and statuses are those of `pigy_contains`.
#[unsafe(no_mangle)]
pub extern "C" fn pigy_equal(
    alloc: Global,
    a_as: &[u8],
    a_ip: &[u8],
    b_as: &[u8],
    b_ip: &[u8],
    encoding: u32,
    answer: &mut u8,
) -> u32
    ensures { (outcome : Result Bool (Refusing ReadPairError))
        × MatchResult outcome
        (IsTested AreSame a_as.now a_ip.now b_as.now b_ip.now encoding)
        (IfRefused (AreNotRead a_as.now a_ip.now b_as.now b_ip.now encoding))
        × (result ≡ test_status outcome) × (answer.new ≡ test_answer outcome) }
{
    let outcome = are_same(alloc, a_as, a_ip, b_as, b_ip, encoding);
    write_test(outcome, answer)
}
