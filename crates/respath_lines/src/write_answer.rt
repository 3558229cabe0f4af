//! Writes the result of a call as an answer. Each function replaces the content of the answer.
ghost use Rattle.std.specs.Prelude.{◌≡◌, IfSome, OnOk};
ghost use Rattle.std.specs.String.{string_bytes};
ghost use Rattle.rpki_ipres.specs.SetText.{set_text};
ghost use Rattle.respath_lines.specs.Shown.{ShowsResult, error_line};

use rpki_base::memory::OrMemory;
use rpki_ip::family::AddressFamily;
use rpki_ipres::blocks::IpBlocks;
use std::alloc::{AllocError, Allocator};
use std::fmt;

/// Replaces the answer by a text.
pub(crate) fn write_text<A: Allocator>(answer: &mut String<A>, text: &str) -> Result<(), AllocError>
    ensures { OnOk result (string_bytes answer.new ≡ text.now) }
{
    answer.clear();
    answer.push_str(text)
}

/// Replaces the answer by the printed text of a value.
pub(crate) fn print<T: fmt::Display, A: Allocator>(
    answer: &mut String<A>,
    value: &T,
) -> Result<(), AllocError>
    // The answer is the text that the value prints.
    ensures { IfSome (T.output value.now) (λ value_text. OnOk result (string_bytes answer.new ≡ value_text)) }
{
    answer.clear();
    write!(answer, "{value}")
}

/// Replaces the answer by the printed text of a set of addresses of a family.
pub(crate) fn print_set<A: Allocator>(
    answer: &mut String<A>,
    family: AddressFamily,
    set: &IpBlocks<A>,
) -> Result<(), AllocError>
    ensures { OnOk result (string_bytes answer.new ≡ set_text family set.now) }
{
    print(answer, &set.display_with_family(family))
}

/// Replaces the answer by `error: ` and the printed text of a fault.
pub(crate) fn write_fault<E: fmt::Display, A: Allocator>(
    answer: &mut String<A>,
    fault: &E,
) -> Result<(), AllocError>
    // The answer has the text that the fault prints.
    ensures { IfSome (E.output fault.now) (λ fault_text. OnOk result (string_bytes answer.new ≡ error_line fault_text)) }
{
    answer.clear();
    write!(answer, "error: {fault}")
}

/// Replaces the answer by the printed text of a value, or by `error: ` and that of a fault.
///
/// # Errors
///
/// [`AllocError`] if `found` is out of memory, or if an allocation for the text fails.
pub(crate) fn show<T: fmt::Display + Drop, E: fmt::Display + Drop, A: Allocator>(
    answer: &mut String<A>,
    found: Result<T, OrMemory<E>>,
) -> Result<(), AllocError>
    // The answer has the text that the value or the fault prints.
    ensures { OnOk result (ShowsResult T.output E.output found (string_bytes answer.new)) }
{
    match found {
        Ok(value) => print(answer, &value),
        Err(OrMemory::Refused(fault)) => write_fault(answer, &fault),
        Err(OrMemory::Memory(error)) => Err(error),
    }
}
