//! The command `cover`: prints the shortest list of prefixes with the addresses of a list of blocks.
ghost use Rattle.std.specs.Prelude.{◌≡◌, ◌≤◌, ◌++◌, ◌∷◌, [], List, length, take, codes, if◌then◌else◌, Some, OnOk};
ghost use Rattle.std.specs.Iterator.{Drains, IsFinite};
ghost use Rattle.std.specs.String.{string_bytes};
ghost use Rattle.rpki_cover.specs.Prefixes.{PrefixValue};
ghost use Rattle.respath_lines.specs.Cover.{IsCoverAnswer, IsCoverIp, listed_text, cover_text};

use crate::kind::{Kind, kind_named};
use crate::write_answer::{write_fault, write_text};
use rpki_addr::addr::print::{PREFIX_ROOM, put, put_with_length, write_front};
use rpki_base::memory::OrMemory;
use rpki_ip::family::AddressFamily;
use rpki_ip::prefix::Prefix;
use rpki_ip::text::shown_addr;
use rpki_ipres::blocks::IpBlocks;
use std::alloc::{AllocError, Allocator};
use std::fmt;

/// Replaces `answer` by the answer to `cover KIND LIST`.
///
/// # Errors
///
/// [`AllocError`] if an allocation fails. The text of `answer` is unspecified then.
pub(crate) fn cover<A: Allocator + Copy>(
    alloc: A,
    kind: &str,
    list: &str,
    answer: &mut String<A>,
) -> Result<(), AllocError>
    ensures { OnOk result (IsCoverAnswer kind.now list.now (string_bytes answer.new)) }
{
    match kind_named(kind) {
        Some(Kind::V4) => cover_ip(alloc, AddressFamily::Ipv4, list, answer),
        Some(Kind::V6) => cover_ip(alloc, AddressFamily::Ipv6, list, answer),
        Some(Kind::As) | None => write_text(answer, "error: unknown kind"),
    }
}

/// Answers with the prefixes that cover the set of a list of blocks of a family, or with the fault of the list.
fn cover_ip<A: Allocator + Copy>(
    alloc: A,
    family: AddressFamily,
    list: &str,
    answer: &mut String<A>,
) -> Result<(), AllocError>
    ensures { OnOk result (IsCoverIp family list.now (string_bytes answer.new)) }
{
    match IpBlocks::from_str_with_family(alloc, family, list) {
        Ok(set) => print_prefixes(answer, family, set.prefixes()),
        Err(OrMemory::Refused(fault)) => write_fault(answer, &fault),
        Err(OrMemory::Memory(error)) => Err(error),
    }
}

/// Prints prefixes of a family, joined by a comma and a space. Without prefixes the answer is empty.
///
/// Each prefix is printed when the iterator yields it, so no list of them is kept.
fn print_prefixes<A: Allocator, I: Iterator<Item = Prefix>>(
    answer: &mut String<A>,
    family: AddressFamily,
    prefixes: I,
) -> Result<(), AllocError>
    requires can { I.can_next prefixes }
    requires ends { IsFinite (I.remaining prefixes) }
    ensures { OnOk result ((ps : List PrefixValue) × Drains I.next_gives prefixes ps
        × (string_bytes answer.new ≡ cover_text family ps)) }
{
    answer.clear();
    for prefix in prefixes {
        append(answer, family, prefix)?;
    }
    Ok(())
}

/// The maximum number of bytes of a prefix in a list: a comma, a space and the prefix.
const ROOM: usize = PREFIX_ROOM + 2;

/// Writes a comma and a space to the front of a buffer, unless `is_first`, and returns the end index.
fn put_separator(out: &mut [u8], is_first: bool) -> usize
    requires { 2 ≤ length out.old }
    ensures text { take result out.new ≡ (if is_first then [] else codes ", ") }
    ensures end { result ≤ 2 }
{
    if is_first {
        return 0;
    }
    let at = put(out, 0, b',');
    put(out, at, b' ')
}

/// A prefix of a family in a printed list.
#[derive(Drop)]
struct Listed {
    family: AddressFamily,
    prefix: Prefix,
    is_first: bool,
}

impl Listed {
    /// Writes the prefix to the front of a buffer, and returns the end index.
    fn put(&self, out: &mut [u8]) -> usize
        requires { 46 ≤ length out.old }
        ensures text { take result out.new
            ≡ listed_text self.now.is_first self.now.family self.now.prefix }
        ensures end { result ≤ 46 }
    {
        let at = put_separator(out, self.is_first);
        let addr = shown_addr(self.family, self.prefix.addr());
        put_with_length(out, at, addr, self.prefix.addr_len())
    }
}

/// Prints the address, a slash and the length, even the maximum length. A comma and a space precede it unless it is the
/// first prefix.
impl fmt::Display for Listed {
    ghost output = { λ p. Some (listed_text p.is_first p.family p.prefix) };

    fn fmt<W: fmt::Write>(&self, f: &mut fmt::Formatter<W>) -> fmt::Result {
        let mut out = [0; ROOM];
        let end = self.put(&mut out);
        write_front(&out, end, f)
    }
}

/// Appends a prefix to the printed prefixes, after a comma and a space unless it is the first.
#[tactic(auto, using(crate::proofs::CoverCommandLemmas::more_text))]
fn append<A: Allocator>(
    text: &mut String<A>,
    family: AddressFamily,
    prefix: Prefix,
) -> Result<(), AllocError>
    ensures { (ps : List PrefixValue) → string_bytes text.old ≡ cover_text family ps
        → OnOk result (string_bytes text.new ≡ cover_text family (ps ++ prefix ∷ [])) }
{
    let is_first = text.is_empty();
    let listed = Listed {
        family,
        prefix,
        is_first,
    };
    write!(text, "{listed}")
}
