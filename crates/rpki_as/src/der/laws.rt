//! Lemmas about the octets of blocks, sets and resources. Each is the contract of a function that does nothing.
ghost use Rattle.std.specs.Prelude.{◌≡◌, ◌≢◌, ◌↔◌, ℕ, List, Err};
ghost use Rattle.rpki_chain.specs.Claims.{Claim, IsClaim};
ghost use Rattle.rpki_chain.specs.Runs.{Runs, Holds};
ghost use Rattle.rpki_chain.specs.declared.choice.ResourcesChoice.TheVariants.{Missing};
ghost use Rattle.rpki_der.specs.Der.{OneFront};
ghost use Rattle.rpki_der.specs.declared.error.DerError.TheVariants.{EmptyBlocks, NotCanonical};
ghost use Rattle.rpki_der.specs.SequenceFaults.{BeginsEmpty, BeginsWithValue};
ghost use Rattle.rpki_as.specs.AsDer.{IsAsBlockSequence, IsAsResources, as_resources_octets, as_sequence_octets, as_set_octets};
ghost use Rattle.rpki_as.specs.AsDerReading.{as_blocks_at, as_choice_at};
ghost use Rattle.rpki_as_block.specs.AsDer.{IsAsBlock, IsBlockInAnyOrder};
ghost use Rattle.rpki_as.specs.Blocks.{IsAsSet};

/// Octets begin with at most one block, and with at most one value that is skipped as a block. They begin with at most
/// one SEQUENCE of blocks, which denotes one set.
pub fn one_value()
    ensures block { OneFront IsAsBlock }
    ensures skipped { OneFront IsBlockInAnyOrder }
    ensures sequence { OneFront IsAsBlockSequence }
{}

/// The encoding of a set, put in one SEQUENCE, denotes the set. Sets have equal encodings if and only if they have the
/// same numbers.
pub fn written_sets()
    ensures sequence { (set : Runs) → IsAsSet set → IsAsBlockSequence (as_sequence_octets set) set }
    ensures alike { (a b : Runs) → IsAsSet a → IsAsSet b →
        (as_set_octets a ≡ as_set_octets b) ↔ ((n : ℕ) → Holds a n ↔ Holds b n) }
{}

/// Octets begin with at most one value that is AS resources, which denotes one claim. The encoding of resources that
/// aren't missing denotes these resources. Two such encodings are equal if and only if the resources are.
pub fn written_resources()
    ensures one { OneFront IsAsResources }
    ensures written { (claim : Claim) → IsClaim IsAsSet claim → claim ≢ Missing →
        IsAsResources (as_resources_octets claim) claim }
    ensures alike { (a b : Claim) → IsClaim IsAsSet a → IsClaim IsAsSet b → a ≢ Missing
        → b ≢ Missing →
        (as_resources_octets a ≡ as_resources_octets b) ↔ (a ≡ b) }
{}

/// Resources are refused by `EmptyBlocks` if and only if the octets begin with both enclosing tags around an empty
/// SEQUENCE. The octets after it don't matter.
#[tactic(auto, using(crate::proofs::AsResourcesDerFaults::empty_blocks))]
pub fn empty_blocks()
    ensures { (bytes : List ℕ) → (as_choice_at bytes ≡ Err EmptyBlocks)
        ↔ BeginsWithValue 48 (BeginsWithValue 160 BeginsEmpty) bytes }
{}

/// Only a strict cursor refuses octets as not canonical.
#[tactic(auto, using(crate::proofs::AsResourcesDerFaults::blocks_names, crate::proofs::AsResourcesDerFaults::resources_names))]
pub fn not_canonical()
    ensures sequence { (bytes : List ℕ) → as_blocks_at bytes ≢ Err NotCanonical }
    ensures resources { (bytes : List ℕ) → as_choice_at bytes ≢ Err NotCanonical }
{}
