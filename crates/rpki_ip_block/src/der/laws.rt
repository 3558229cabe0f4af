//! Lemmas about the encodings of blocks, each as the contract of a function that does nothing.
ghost use Rattle.std.specs.Prelude.{◌≡◌, ◌≢◌, ◌↔◌, ℕ, ◌<◌, ◌≤◌, List, Err};
ghost use Rattle.rpki_der.specs.SequenceFaults.{BeginsWithTwo, BeginsWithValue};
ghost use Rattle.rpki_cover.specs.Prefixes.{last_of};
ghost use Rattle.rpki_der.specs.Der.{OneFront};
ghost use Rattle.rpki_der.specs.declared.error.DerError.TheVariants.{NotCanonical, ReversedRange};
ghost use Rattle.rpki_ip.specs.PrefixDer.{prefix_at};
ghost use Rattle.rpki_ip_block.specs.BlockDer.{IsBlockWithin, IsIpBlockDer, ip_block_der};
ghost use Rattle.rpki_ip_block.specs.BlockReading.{ip_block_at};
ghost use Rattle.rpki_ip_block.specs.declared.block.IpBlock.{IpBlock};

/// States that octets begin with at most one block.
pub fn one_block()
    ensures { (limit : ℕ) → OneFront (IsIpBlockDer limit) }
{}

/// States that the octets that `encode` appends denote the block, if its bounds need no more bits than the limit.
#[tactic(auto, using(crate::proofs::IpBlockDerWritten::block_written))]
pub fn written()
    ensures { (limit : ℕ) (block : IpBlock) → limit ≤ 128 → IsBlockWithin limit block
        → IsIpBlockDer limit (ip_block_der block) block }
{}

/// States when a block has the fault `ReversedRange`.
///
/// It has the fault if and only if it is a SEQUENCE that begins with two prefixes, and the second ends before the first
/// begins. Any octets may follow the two prefixes.
#[tactic(auto, using(crate::proofs::IpBlockDerFaults::block_fails))]
pub fn reversed()
    ensures { (limit : ℕ) (bytes : List ℕ) → (ip_block_at limit bytes ≡ Err ReversedRange)
        ↔ BeginsWithValue 48 (BeginsWithTwo (prefix_at limit) (λ p q. last_of 128 q < p.first))
        bytes }
{}

/// States that a lenient cursor never returns `NotCanonical` for a block.
#[tactic(auto, using(crate::proofs::IpBlockDerFaults::never_lenient))]
pub fn not_canonical()
    ensures { (limit : ℕ) (bytes : List ℕ) → ip_block_at limit bytes ≢ Err NotCanonical }
{}
