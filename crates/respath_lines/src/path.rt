//! The command `path`: prints the resources that remain of the first list after all steps, or the first refused step.
ghost use Rattle.std.specs.Prelude.{◌≡◌, ℕ, List, Some, OnOk};
ghost use Rattle.std.specs.String.{string_bytes};
ghost use Rattle.rpki_as.specs.Faults.{overclaimed_as_text};
ghost use Rattle.rpki_as.specs.ListText.{as_list_text};
ghost use Rattle.rpki_ipres.specs.SetText.{overclaimed_ip_text, set_text};
ghost use Rattle.respath_lines.specs.Path.{IsPathAnswer, IsPathAs, IsPathIp, ShowsLeft, part_fault_text};
ghost use Rattle.respath_lines.specs.Shown.{error_line};

use crate::kind::{Kind, kind_named};
use crate::lists::{AsLists, IpLists};
use crate::steps::{PartFault, read_path};
use crate::write_answer::{print, print_set, write_fault, write_text};
use rpki_as::blocks::AsBlocks;
use rpki_as::verify::OverclaimedAsResources;
use rpki_base::memory::OrMemory;
use rpki_chain::path::PathRefusal;
use rpki_ip::family::AddressFamily;
use rpki_ipres::blocks::IpBlocks;
use rpki_ipres::overclaim::OverclaimedIpResources;
use std::alloc::{AllocError, Allocator};
use std::fmt;

/// Replaces `answer` by the answer to `path KIND ROOT | STEP ..`.
///
/// # Errors
///
/// [`AllocError`] if an allocation fails. The text of `answer` is unspecified then.
pub(crate) fn path<A: Allocator + Copy>(
    alloc: A,
    kind: &str,
    path: &str,
    answer: &mut String<A>,
) -> Result<(), AllocError>
    ensures { OnOk result (IsPathAnswer kind.now path.now (string_bytes answer.new)) }
{
    match kind_named(kind) {
        Some(Kind::As) => path_as(alloc, path, answer),
        Some(Kind::V4) => path_ip(alloc, AddressFamily::Ipv4, path, answer),
        Some(Kind::V6) => path_ip(alloc, AddressFamily::Ipv6, path, answer),
        None => write_text(answer, "error: unknown kind"),
    }
}

/// Prints the AS numbers that remain after a path, its first refusal, or the fault of its first invalid part.
fn path_as<A: Allocator + Copy>(
    alloc: A,
    path: &str,
    answer: &mut String<A>,
) -> Result<(), AllocError>
    ensures { OnOk result (IsPathAs path.now (string_bytes answer.new)) }
{
    match read_path(alloc, &AsLists, path) {
        Ok((root, steps)) => write_left_as(root.verify_path(alloc, steps.as_slice()), answer),
        Err(OrMemory::Refused(fault)) => write_part_fault(fault, answer),
        Err(OrMemory::Memory(error)) => Err(error),
    }
}

/// Prints the addresses of a family that remain after a path, its first refusal, or the fault of its first invalid
/// part.
fn path_ip<A: Allocator + Copy>(
    alloc: A,
    family: AddressFamily,
    path: &str,
    answer: &mut String<A>,
) -> Result<(), AllocError>
    ensures { OnOk result (IsPathIp family path.now (string_bytes answer.new)) }
{
    match read_path(alloc, &IpLists { family }, path) {
        Ok((root, steps)) => write_left_ip(
            family,
            root.verify_path(alloc, steps.as_slice()),
            answer,
        ),
        Err(OrMemory::Refused(fault)) => write_part_fault(fault, answer),
        Err(OrMemory::Memory(error)) => Err(error),
    }
}

/// Prints the AS numbers that remain after a path, or the first refusal.
///
/// # Errors
///
/// [`AllocError`] if `left` is out of memory, or if an allocation for the text fails.
fn write_left_as<A: Allocator>(
    left: Result<AsBlocks<A>, OrMemory<PathRefusal<OverclaimedAsResources<A>>>>,
    answer: &mut String<A>,
) -> Result<(), AllocError>
    ensures { OnOk result (ShowsLeft as_list_text overclaimed_as_text left (string_bytes answer.new)) }
{
    match left {
        Ok(set) => print(answer, &set),
        Err(OrMemory::Refused(refusal)) => print(answer, &refusal),
        Err(OrMemory::Memory(error)) => Err(error),
    }
}

/// Prints the addresses that remain after a path, or the first refusal, as addresses of a family.
///
/// # Errors
///
/// [`AllocError`] if `left` is out of memory, or if an allocation for the text fails.
fn write_left_ip<A: Allocator>(
    family: AddressFamily,
    left: Result<IpBlocks<A>, OrMemory<PathRefusal<OverclaimedIpResources<A>>>>,
    answer: &mut String<A>,
) -> Result<(), AllocError>
    ensures { OnOk result (ShowsLeft (set_text family) (overclaimed_ip_text family) left
        (string_bytes answer.new)) }
{
    match left {
        Ok(set) => print_set(answer, family, &set),
        Err(OrMemory::Refused(PathRefusal { step, fault })) => {
            let fault = fault.display_with_family(family);
            print(answer, &PathRefusal { step, fault })
        }
        Err(OrMemory::Memory(error)) => Err(error),
    }
}

/// Prints the fault of an invalid part of a path.
fn write_part_fault<E: fmt::Display + Drop, A: Allocator>(
    fault: PartFault<E>,
    answer: &mut String<A>,
) -> Result<(), AllocError>
    // The answer has the text that the fault of a list prints.
    ensures { (fault_text : E → List ℕ) → ((fault : E) → E.output fault ≡ Some (fault_text fault))
        → OnOk result (string_bytes answer.new ≡ error_line (part_fault_text fault_text fault)) }
{
    match fault {
        PartFault::UnknownStep => write_text(answer, "error: unknown step"),
        PartFault::BadList(fault) => write_fault(answer, &fault),
    }
}
