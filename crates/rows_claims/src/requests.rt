//! The memory that tables of VRPs and sets of three kinds request.
use crate::long::every_fourth;
use crate::{elements, triples};
use roa_origin::{OriginTable, Vrp, VrpTable};
use rpki_base::memory::OrMemory;
use rpki_base::number::parse_u32;
use rpki_resources::repository::resources::set::{FromStrError, ResourceSet};
use std::alloc::{AllocError, Allocator, Global};
use test_support::asked::Asked;
use test_support::print::{cut_at, error, refused};
use test_support::{Plan, Refusing};

/// Answers `requests CALL ..`. The result of a call is kept until the call has ended.
pub fn answer(alloc: Global, operands: &str) -> Result<String, AllocError> {
    let (call, rest) = cut_at(operands, ' ');
    let counting = &Refusing::new(alloc, Plan::RefuseNone);
    match call {
        "table" | "vrps" => of_list(alloc, counting, call, rest),
        "many" => of_many(alloc, counting, rest),
        "changes" => of_lists(alloc, counting, rest),
        _ => of_triples(alloc, counting, call, rest),
    }
}

/// Answers `requests table PREFIX[-MAX] AS | ..`, for a table that validates routes, and `requests vrps ..`, for a
/// list that is sent to routers.
fn of_list(
    alloc: Global,
    counting: &Refusing,
    call: &str,
    list: &str,
) -> Result<String, AllocError> {
    match elements::read::<Vrp, Global>(alloc, list)? {
        Some(vrps) if call == "table" => of_table(alloc, counting, &vrps),
        Some(vrps) => of_vrps(alloc, counting, &vrps),
        None => String::from_str(alloc, "no such VRP"),
    }
}

fn of_table(alloc: Global, counting: &Refusing, vrps: &[Vrp]) -> Result<String, AllocError> {
    let before = Asked::of(counting);
    before.since_result(alloc, counting, OriginTable::new(counting, vrps))
}

/// Answers `requests many N`, for a table of N VRPs.
fn of_many(alloc: Global, counting: &Refusing, count: &str) -> Result<String, AllocError> {
    match parse_u32(count) {
        Ok(count) => of_table(alloc, counting, &every_fourth(alloc, count, 0)?),
        Err(fault) => error(alloc, fault),
    }
}

fn of_vrps(alloc: Global, counting: &Refusing, vrps: &[Vrp]) -> Result<String, AllocError> {
    let before = Asked::of(counting);
    before.since_result(alloc, counting, VrpTable::new(counting, vrps))
}

/// Answers `requests changes LIST ; LIST`, for the changes to send from one list to the other.
fn of_lists(alloc: Global, counting: &Refusing, lists: &str) -> Result<String, AllocError> {
    let (list, next) = cut_at(lists, ';');
    match elements::read::<Vrp, Global>(alloc, list)? {
        Some(vrps) => changes_from(alloc, counting, &vrps, next),
        None => String::from_str(alloc, "no such VRP"),
    }
}

fn changes_from(
    alloc: Global,
    counting: &Refusing,
    vrps: &[Vrp],
    next: &str,
) -> Result<String, AllocError> {
    match elements::read::<Vrp, Global>(alloc, next)? {
        Some(next) => of_changes(alloc, counting, vrps, &next),
        None => String::from_str(alloc, "no such VRP"),
    }
}

fn of_changes(
    alloc: Global,
    counting: &Refusing,
    vrps: &[Vrp],
    next: &[Vrp],
) -> Result<String, AllocError> {
    let table = VrpTable::new(counting, vrps)?;
    changes_to(alloc, counting, &table, next)
}

fn changes_to<'a>(
    alloc: Global,
    counting: &'a Refusing,
    table: &VrpTable<&'a Refusing>,
    next: &[Vrp],
) -> Result<String, AllocError> {
    let next = VrpTable::new(counting, next)?;
    let before = Asked::of(counting);
    before.since_result(alloc, counting, table.changes_to(counting, &next))
}

/// Answers `requests OPERATION A ; B ; C | D ; E ; F`, and `requests lists A ; B ; C` for the reading.
fn of_triples(
    alloc: Global,
    counting: &Refusing,
    call: &str,
    operands: &str,
) -> Result<String, AllocError> {
    let (left, right) = cut_at(operands, '|');
    match call {
        "lists" => {
            let before = Asked::of(counting);
            of_reading(alloc, counting, before, triples::read(counting, left))
        }
        _ => of_sets(alloc, counting, counting, call, (left, right)),
    }
}

fn of_reading<T: Drop>(
    alloc: Global,
    counting: &Refusing,
    before: Asked,
    read: Result<T, OrMemory<FromStrError>>,
) -> Result<String, AllocError> {
    match read {
        Ok(_) => before.since(alloc, counting),
        Err(error) => refused(alloc, error),
    }
}

/// Counts the requests of an operation on two sets, whose own allocator is the one that counts.
fn of_sets<A: Allocator + Copy>(
    alloc: Global,
    counting: &Refusing,
    own: A,
    call: &str,
    (left, right): (&str, &str),
) -> Result<String, AllocError> {
    match triples::read(own, left) {
        Ok(set) => of_left(alloc, counting, own, call, &set, right),
        Err(error) => refused(alloc, error),
    }
}

fn of_left<A: Allocator + Copy>(
    alloc: Global,
    counting: &Refusing,
    own: A,
    call: &str,
    set: &ResourceSet<A>,
    lists: &str,
) -> Result<String, AllocError> {
    match triples::read(own, lists) {
        Ok(other) => of_both(alloc, counting, own, call, set, &other),
        Err(error) => refused(alloc, error),
    }
}

fn of_both<A: Allocator + Copy>(
    alloc: Global,
    counting: &Refusing,
    own: A,
    call: &str,
    set: &ResourceSet<A>,
    other: &ResourceSet<A>,
) -> Result<String, AllocError> {
    let before = Asked::of(counting);
    match call {
        "union" => before.since_result(alloc, counting, set.union(own, other)),
        "intersection" => before.since_result(alloc, counting, set.intersection(own, other)),
        "difference" => before.since_result(alloc, counting, set.difference(own, other)),
        _ => String::from_str(alloc, "no such call"),
    }
}
