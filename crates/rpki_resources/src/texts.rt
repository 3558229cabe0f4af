//! Texts of sets of resources and of the changes between two sets.
ghost use Rattle.std.specs.Prelude.{◌≡◌, ℕ, List, [], ◌++◌, codes, Some, MatchResult, if◌then◌else◌};
ghost use Rattle.std.specs.Fmt.{WritesOnOk};
ghost use Rattle.rpki_text.specs.Memory.{IsMemory};
ghost use Rattle.rpki_text.specs.Reading.{AnswersOrMemory};
ghost use Rattle.rpki_as.specs.ListText.{as_list_text};
ghost use Rattle.rpki_resources.specs.Triples.{Triple, IsTriple};
ghost use Rattle.rpki_resources.specs.TripleFaults.{HasTripleFault, refusal_of};
ghost use Rattle.rpki_resources.specs.declared.error.FromStrError.TheVariants.{Asn, Ipv4, Ipv6};
ghost use Rattle.rpki_resources.specs.TripleText.{IsTripleText, change_text, changes_text, ipv4_list_text, ipv6_list_text, triple_text};

use crate::diff::ResourceDiff;
use crate::error::FromStrError;
use crate::set::ResourceSet;
use rpki_as::AsBlocks;
use rpki_base::memory::OrMemory;
use rpki_family::{Ipv4Blocks, Ipv6Blocks};
use std::alloc::Allocator;
use std::fmt;

/// Returns a fault of the list of AS numbers as a fault of three lists. An out-of-memory error stays the same.
fn of_asn(fault: OrMemory<rpki_as::error::FromStrError>) -> OrMemory<FromStrError>
    ensures { result ≡ refusal_of Asn fault }
{
    match fault {
        OrMemory::Refused(fault) => OrMemory::Refused(FromStrError::Asn(fault)),
        OrMemory::Memory(error) => OrMemory::Memory(error),
    }
}

/// Returns a fault of the list of IPv4 addresses as a fault of three lists. An out-of-memory error stays the same.
fn of_ipv4(fault: OrMemory<rpki_ip::error::FromStrError>) -> OrMemory<FromStrError>
    ensures { result ≡ refusal_of Ipv4 fault }
{
    match fault {
        OrMemory::Refused(fault) => OrMemory::Refused(FromStrError::Ipv4(fault)),
        OrMemory::Memory(error) => OrMemory::Memory(error),
    }
}

/// Returns a fault of the list of IPv6 addresses as a fault of three lists. An out-of-memory error stays the same.
fn of_ipv6(fault: OrMemory<rpki_ip::error::FromStrError>) -> OrMemory<FromStrError>
    ensures { result ≡ refusal_of Ipv6 fault }
{
    match fault {
        OrMemory::Refused(fault) => OrMemory::Refused(FromStrError::Ipv6(fault)),
        OrMemory::Memory(error) => OrMemory::Memory(error),
    }
}

impl<A: Allocator> ResourceSet<A> {
    /// Parses three lists of blocks, in this order, and returns the set of their resources.
    ///
    /// Each list is parsed as by [`AsBlocks::from_str`], [`Ipv4Blocks::from_str`] and [`Ipv6Blocks::from_str`].
    ///
    /// # Errors
    ///
    /// - `Refused` with the fault of the first invalid list.
    /// - `Memory` if an allocation fails.
    pub fn from_strs(
        alloc: A,
        asn: &str,
        ipv4: &str,
        ipv6: &str,
    ) -> Result<ResourceSet<A>, OrMemory<FromStrError>>
    where
        A: Copy,
        ensures exact { AnswersOrMemory (λ set. set) (IsTripleText asn.now ipv4.now ipv6.now)
            (HasTripleFault asn.now ipv4.now ipv6.now) result }
        // The printed lists of a set parse back to that set.
        ensures reads_back { (set : Triple) → IsTriple set → asn.now ≡ as_list_text set.asn
            → ipv4.now ≡ ipv4_list_text set.ipv4 → ipv6.now ≡ ipv6_list_text set.ipv6
            → MatchResult result (λ read. read ≡ set) IsMemory }
    {
        let asn = match AsBlocks::from_str(alloc, asn) {
            Ok(set) => set,
            Err(fault) => return Err(of_asn(fault)),
        };
        let ipv4 = match Ipv4Blocks::from_str(alloc, ipv4) {
            Ok(set) => set,
            Err(fault) => return Err(of_ipv4(fault)),
        };
        match Ipv6Blocks::from_str(alloc, ipv6) {
            Ok(ipv6) => Ok(ResourceSet::new(asn, ipv4, ipv6)),
            Err(fault) => Err(of_ipv6(fault)),
        }
    }
}

/// Prints the set as `asn: '..', ipv4: '..', ipv6: '..'`, with the list of each kind in quotes.
impl<A: Allocator> fmt::Display for ResourceSet<A> {
    ghost output = { λ set. Some (triple_text set) };

    fn fmt<W: fmt::Write>(&self, f: &mut fmt::Formatter<W>) -> fmt::Result {
        let asn = &self.asn;
        let ipv4 = &self.ipv4;
        let ipv6 = &self.ipv6;
        write!(f, "asn: '{asn}', ipv4: '{ipv4}', ipv6: '{ipv6}'")
    }
}

/// Prints a kind and its list, or nothing if the list is empty.
fn fmt_kind<T: fmt::Display, W: fmt::Write>(
    kind: &str,
    is_empty: bool,
    list: &T,
    f: &mut fmt::Formatter<W>,
) -> fmt::Result
    ensures { (text : List ℕ) → T.output list.now ≡ Some text
        → WritesOnOk W.write_str_gives f.old result (if is_empty then [] else kind.now ++ text)
        f.new }
{
    if is_empty {
        return Ok(());
    }
    f.write_str(kind)?;
    list.fmt(f)
}

/// Prints a word, and each kind that is not empty with its list.
fn fmt_change<A: Allocator, W: fmt::Write>(
    word: &str,
    set: &ResourceSet<A>,
    f: &mut fmt::Formatter<W>,
) -> fmt::Result
    ensures { WritesOnOk W.write_str_gives f.old result (change_text word.now set.now) f.new }
{
    f.write_str(word)?;
    fmt_kind(" asn: ", set.asn.is_empty(), &set.asn, f)?;
    fmt_kind(" ipv4: ", set.ipv4.is_empty(), &set.ipv4, f)?;
    fmt_kind(" ipv6: ", set.ipv6.is_empty(), &set.ipv6, f)
}

/// Prints the added resources and the removed ones, with a space between them.
fn fmt_both<A: Allocator, W: fmt::Write>(
    added: &ResourceSet<A>,
    removed: &ResourceSet<A>,
    f: &mut fmt::Formatter<W>,
) -> fmt::Result
    ensures { WritesOnOk W.write_str_gives f.old result (change_text (codes "Added:") added.now
        ++ codes " " ++ change_text (codes "Removed:") removed.now) f.new }
{
    fmt_change("Added:", added, f)?;
    f.write_str(" ")?;
    fmt_change("Removed:", removed, f)
}

/// Prints the added resources after `Added:` and the removed ones after `Removed:`, each if there are any.
///
/// Without changes it prints `<no changes in resources>`.
impl<A: Allocator> fmt::Display for ResourceDiff<A> {
    ghost output = { λ diff. Some (changes_text diff) };

    fn fmt<W: fmt::Write>(&self, f: &mut fmt::Formatter<W>) -> fmt::Result {
        let added = self.added();
        let removed = self.removed();
        match (added.is_empty(), removed.is_empty()) {
            (true, true) => f.write_str("<no changes in resources>"),
            (true, false) => fmt_change("Removed:", removed, f),
            (false, true) => fmt_change("Added:", added, f),
            (false, false) => fmt_both(added, removed, f),
        }
    }
}
