//! The check that a chain lies in another chain, and the intersection of both if it doesn't.
ghost use Rattle.std.specs.Prelude.{◌≡◌, ◌+◌, ◌*◌, ◌≤◌, ◌↔◌, length, IsOk, IfErr};
ghost use Rattle.rpki_text.specs.Memory.{IfRefused};
ghost use Rattle.rpki_chain_core.specs.Sets.{Covers, IsInside, IsChainOf};

use crate::intersection::common_from;
use crate::overhang::first_overhang;
use crate::owned::OwnedChain;
use crate::reads::Reads;
use rpki_block::block::Block;
use rpki_text::memory::OrMemory;
use std::alloc::{AllocError, Allocator};

/// Checks that `other` has each number of `own`, as [`crate::chain::Chain::trim`] does.
///
/// Both chains together are read at most `2 * own.len() + other.len()` times. Their blocks don't change. If the call
/// returns Ok, it has allocated nothing. `test_chains` tests this, and no clause states it.
///
/// # Errors
///
/// - `Refused`: `other` doesn't have each number. The variant holds the chain of the numbers that both have.
/// - `Memory`: out of memory for this chain.
pub fn trim_counted<T: Block, A: Allocator, X: Reads<T>, Y: Reads<T>>(
    alloc: A,
    own: &mut X,
    other: &mut Y,
) -> Result<(), OrMemory<OwnedChain<T, A>>>
    ensures ok { IsOk result ↔ IsInside T.bounds (X.blocks own.old) (Y.blocks other.old) }
    ensures refused { IfErr result (IfRefused (λ chain. IsChainOf T.bounds T.form (λ n.
        Covers T.bounds (X.blocks own.old) n × Covers T.bounds (Y.blocks other.old) n) chain)) }
    ensures few { IfErr result (IfRefused (λ chain.
        length chain ≤ length (X.blocks own.old) + length (Y.blocks other.old))) }
    ensures own_kept { X.blocks own.new ≡ X.blocks own.old }
    ensures other_kept { Y.blocks other.new ≡ Y.blocks other.old }
    ensures reads { X.count own.new + Y.count other.new ≤ X.count own.old + Y.count other.old +
        (2 * length (X.blocks own.old) + length (Y.blocks other.old)) }
{
    match first_overhang(own, other) {
        None => Ok(()),
        Some(overhang) => match common_from(alloc, own, other, overhang) {
            Ok(chain) => Err(OrMemory::Refused(chain)),
            Err(error) => Err(OrMemory::Memory(error)),
        },
    }
}
