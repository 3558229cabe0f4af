//! The memory that calls which make sets request.
mod as_sets;
mod ip_sets;

use rows_chains::lists::Lists;
use rpki_base::asn::Asn;
use rpki_base::small_set::SmallAsnSet;
use rpki_family::v4::{Ipv4Block, Ipv4Blocks};
use std::alloc::{AllocError, Global};
use test_support::asked::Asked;
use test_support::print::{self, cut_at};
use test_support::{Plan, Refusing};

/// Answers `requests KIND CALL A` and `requests KIND CALL A|B`.
///
/// The result of a call is kept until the call has ended.
pub fn answer(alloc: Global, operands: &str) -> Result<String, AllocError> {
    let (kind, rest) = cut_at(operands, ' ');
    let (call, lists) = cut_at(rest, ' ');
    let counting = Refusing::new(alloc, Plan::RefuseNone);
    match kind {
        "as" => as_sets::answer(alloc, &counting, call, lists),
        "ip" => ip_sets::answer(alloc, &counting, call, lists),
        "v4" if call == "from_blocks" => of_v4(alloc, &counting, lists),
        "small" => of_small(alloc, &counting, call, lists),
        _ => String::from_str(alloc, "no such kind"),
    }
}

// ---- addresses of one family

fn of_v4(alloc: Global, counting: &Refusing, list: &str) -> Result<String, AllocError> {
    match Lists::<Ipv4Block, Global>::read(alloc, list) {
        Ok(lists) => v4_of_blocks(alloc, counting, &lists.left),
        Err(error) => print::refused(alloc, error),
    }
}

fn v4_of_blocks(
    alloc: Global,
    counting: &Refusing,
    blocks: &[Ipv4Block],
) -> Result<String, AllocError> {
    let before = Asked::of(counting);
    before.since_result(alloc, counting, Ipv4Blocks::from_blocks(counting, blocks))
}

// ---- small sets

fn of_small(
    alloc: Global,
    counting: &Refusing,
    call: &str,
    list: &str,
) -> Result<String, AllocError> {
    match Lists::<Asn, Global>::read(alloc, list) {
        Ok(lists) => of_numbers(alloc, counting, call, &lists.left),
        Err(error) => print::refused(alloc, error),
    }
}

fn of_numbers(
    alloc: Global,
    counting: &Refusing,
    call: &str,
    list: &[Asn],
) -> Result<String, AllocError> {
    let before = Asked::of(counting);
    match SmallAsnSet::from_list(counting, list) {
        Ok(set) if call == "copy" => small_copy(alloc, counting, &set),
        Ok(_) => before.since(alloc, counting),
        Err(error) => Err(error),
    }
}

fn small_copy<'a>(
    alloc: Global,
    counting: &'a Refusing,
    set: &SmallAsnSet<&'a Refusing>,
) -> Result<String, AllocError> {
    let before = Asked::of(counting);
    before.since_result(alloc, counting, set.clone(counting))
}
