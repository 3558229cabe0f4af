//! The command `norm`: prints the canonical list of the numbers of a list of blocks.
ghost use Rattle.std.specs.Prelude.{OnOk};
ghost use Rattle.std.specs.String.{string_bytes};
ghost use Rattle.respath_lines.specs.Norm.{IsNormAnswer, IsNormAs, IsNormIp};

use crate::kind::{Kind, kind_named};
use crate::write_answer::{print_set, show, write_fault, write_text};
use rpki_as::blocks::AsBlocks;
use rpki_base::memory::OrMemory;
use rpki_ip::family::AddressFamily;
use rpki_ipres::blocks::IpBlocks;
use std::alloc::{AllocError, Allocator};

/// Replaces `answer` by the answer to `norm KIND LIST`.
///
/// # Errors
///
/// [`AllocError`] if an allocation fails. The text of `answer` is unspecified then.
pub(crate) fn norm<A: Allocator + Copy>(
    alloc: A,
    kind: &str,
    list: &str,
    answer: &mut String<A>,
) -> Result<(), AllocError>
    ensures { OnOk result (IsNormAnswer kind.now list.now (string_bytes answer.new)) }
{
    match kind_named(kind) {
        Some(Kind::As) => norm_as(alloc, list, answer),
        Some(Kind::V4) => norm_ip(alloc, AddressFamily::Ipv4, list, answer),
        Some(Kind::V6) => norm_ip(alloc, AddressFamily::Ipv6, list, answer),
        None => write_text(answer, "error: unknown kind"),
    }
}

/// Answers with the set of a list of AS blocks, or with the fault of the list.
fn norm_as<A: Allocator + Copy>(
    alloc: A,
    list: &str,
    answer: &mut String<A>,
) -> Result<(), AllocError>
    ensures { OnOk result (IsNormAs list.now (string_bytes answer.new)) }
{
    show(answer, AsBlocks::from_str(alloc, list))
}

/// Answers with the set of a list of blocks of a family, or with the fault of the list.
fn norm_ip<A: Allocator + Copy>(
    alloc: A,
    family: AddressFamily,
    list: &str,
    answer: &mut String<A>,
) -> Result<(), AllocError>
    ensures { OnOk result (IsNormIp family list.now (string_bytes answer.new)) }
{
    match IpBlocks::from_str_with_family(alloc, family, list) {
        Ok(set) => print_set(answer, family, &set),
        Err(OrMemory::Refused(fault)) => write_fault(answer, &fault),
        Err(OrMemory::Memory(error)) => Err(error),
    }
}
