//! Ranges of addresses in DER.
ghost use Rattle.std.specs.Prelude.{◌≡◌};
ghost use Rattle.rpki_ip.specs.RangeDer.{IsShortestFrom, IsShortestTo, without_end_ones, without_end_zeros};

use crate::addr::Addr;
use crate::prefix::Prefix;
use crate::range::AddressRange;
use rpki_der::{append_header, header_len, tag};
use std::alloc::{AllocError, Allocator};

impl AddressRange {
    ghost use Rattle.std.specs.Prelude.{◌≡◌, ◌≤◌, ◌<◌, ◌+◌, ◌++◌, length, vec_len, OnOk, OnErr, IsOk};
    ghost use Rattle.std.specs.Vec.{vec_capacity};
    ghost use Rattle.rpki_ip.specs.Ranges.{IsRange};
    ghost use Rattle.rpki_ip.specs.RangeDer.{is_written_as, range_content, range_der};

    /// Returns how many octets `encode` appends: fewer than 64.
    pub fn encoded_len(&self) -> usize
        ensures len { result ≡ length (range_der self.now) }
        ensures short { result < 64 }
    {
        let content_len = self.content_len();
        header_len(tag::SEQUENCE, content_len) + content_len
    }

    /// Appends the SEQUENCE of the range (RFC 3779, 2.2.3.9).
    ///
    /// The SEQUENCE has the least address without all the zero bits at its end, and the greatest address without all
    /// the one bits at its end.
    ///
    /// # Errors
    ///
    /// [`AllocError`] if an allocation fails. The octets of `out` are unchanged then.
    pub fn encode<A: Allocator>(&self, out: &mut Vec<u8, A>) -> Result<(), AllocError>
        ensures range { IsRange self.now }
        ensures ok { OnOk result (out.new.items ≡ out.old.items ++ range_der self.now) }
        ensures err { OnErr result (out.new.items ≡ out.old.items) }
        ensures succeeds { vec_len out.old + length (range_der self.now) ≤ vec_capacity out.old
            → IsOk result }
        ensures capacity { vec_capacity out.old ≤ vec_capacity out.new }
    {
        let content_len = self.content_len();
        out.reserve(header_len(tag::SEQUENCE, content_len) + content_len)?;
        self.append(out);
        Ok(())
    }

    /// Appends the octets that `encode` appends.
    ///
    /// # Preconditions
    ///
    /// The free capacity of `out` suffices for the encoding.
    pub fn append<A: Allocator>(&self, out: &mut Vec<u8, A>)
        requires fits { vec_len out.old + length (range_der self.now) ≤ vec_capacity out.old }
        ensures items { out.new.items ≡ out.old.items ++ range_der self.now }
        ensures capacity { vec_capacity out.old ≤ vec_capacity out.new }
    {
        let first = shortest_from(self.min());
        let second = shortest_to(self.max());
        append_header(
            out,
            tag::SEQUENCE,
            first.encoded_len() + second.encoded_len(),
        );
        first.append(out);
        second.append(out);
    }

    /// Returns whether `first` and `second` have the lengths of the prefixes that `append` writes.
    ///
    /// They are these prefixes if, in addition, `first` begins with the least address and `second` ends with the
    /// greatest.
    pub fn is_written_as(&self, first: &Prefix, second: &Prefix) -> bool
        ensures { result ≡ is_written_as self.now first.now second.now }
    {
        first.addr_len() == shortest_from(self.min()).addr_len()
            && second.addr_len() == shortest_to(self.max()).addr_len()
    }

    // Returns how many octets the content of the SEQUENCE has.
    fn content_len(&self) -> usize
        ensures len { result ≡ length (range_content self.now) }
        ensures short { result ≤ 40 }
        ensures range { IsRange self.now }
    {
        shortest_from(self.min()).encoded_len() + shortest_to(self.max()).encoded_len()
    }
}

// Returns the shortest prefix that begins with an address.
#[tactic(auto, using(crate::proofs::ShortestPrefixes::cleared_from, crate::proofs::ShortestPrefixes::shortest_from_is))]
fn shortest_from(min: Addr) -> Prefix
    ensures value { result ≡ without_end_zeros min }
    ensures shortest { IsShortestFrom min result }
{
    Prefix::new(min, 128 - min.to_bits().trailing_zeros() as u8)
}

// Returns the shortest prefix that ends with an address.
#[tactic(auto, using(crate::proofs::ShortestPrefixes::cleared_to, crate::proofs::ShortestPrefixes::shortest_to_is))]
fn shortest_to(max: Addr) -> Prefix
    ensures value { result ≡ without_end_ones max }
    ensures shortest { IsShortestTo max result }
{
    Prefix::new(max, 128 - max.to_bits().trailing_ones() as u8)
}
