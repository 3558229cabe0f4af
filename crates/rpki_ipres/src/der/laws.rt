//! Lemmas about the encodings of sets and resources, each as the contract of a function that does nothing.
ghost use Rattle.std.specs.Prelude.{◌≡◌, ◌≢◌, ℕ, List, [], ◌<◌, ◌^◌, ◌↔◌, ◌++◌, Err, length};
ghost use Rattle.rpki_der.specs.SequenceFaults.{BeginsEmpty, BeginsWithValue};
ghost use Rattle.rpki_chain.specs.Claims.{Claim, claim_of};
ghost use Rattle.rpki_chain.specs.Runs.{Runs, Holds};
ghost use Rattle.rpki_chain.specs.declared.choice.ResourcesChoice.TheVariants.{Missing};
ghost use Rattle.rpki_der.specs.FamiliesFaults.{BeginsWithRepeat};
ghost use Rattle.rpki_der.specs.Der.{OneFront, sequence_value};
ghost use Rattle.rpki_der.specs.declared.error.DerError.TheVariants.{DuplicateFamily, EmptyBlocks, NoFamily, NotCanonical};
ghost use Rattle.rpki_der.specs.Families.{bits_of};
ghost use Rattle.rpki_der.specs.declared.family.AddressFamily.TheVariants.{Ipv4, Ipv6};
ghost use Rattle.rpki_ip_block.specs.BlockReading.{ip_blocks_at};
ghost use Rattle.rpki_ipres.specs.SetDer.{IsIpBlockSequence, IsIpFamily, ip_family_der, ip_set_der};
ghost use Rattle.rpki_ipres.specs.Resources.{IsFamilyClaim, IsIpClaim};
ghost use Rattle.rpki_chain.specs.Choices.{if_present};
ghost use Rattle.rpki_ipres.specs.ResourcesDer.{IsIpFamilies, IsIpResources, ip_families_at, ip_families_der, ip_member_der, ip_resources_at, ip_resources_der};
ghost use Rattle.rpki_ipres.specs.SetText.{IsFamilySet, IsIpSet};

/// The lemma about single blocks, from the crate of blocks.
pub use rpki_ip_block::der::laws::one_block;

/// States that octets begin with at most one value of each grammar, and that this value has one meaning.
///
/// - A SEQUENCE of blocks denotes one set.
/// - A SEQUENCE of a family and of the SEQUENCE of its blocks denotes one family and one set.
/// - Resources denote one claim.
/// - A SEQUENCE of families denotes one claim for each family.
pub fn one_value()
    ensures set { (limit : ℕ) → OneFront (IsIpBlockSequence limit) }
    ensures family { OneFront IsIpFamily }
    ensures resources { (limit : ℕ) → OneFront (IsIpResources limit) }
    ensures families { OneFront IsIpFamilies }
{}

/// States that encodings of sets of a family conform to the grammar, if they have fewer than 2^64 octets.
///
/// The encoding of the set is a SEQUENCE of the family's blocks, which denotes the set. The encoding of a family and of
/// a set that isn't empty denotes both.
#[tactic(auto, using(crate::proofs::FamilyWritten::family_says, crate::proofs::FamilyWritten::sequence_says))]
pub fn written_sets()
    ensures sequence { (family : _) (set : Runs) → IsFamilySet family set →
        length (ip_set_der set) < 2 ^ 64 → IsIpBlockSequence (bits_of family) (ip_set_der set) set }
    ensures family { (family : _) (set : Runs) → IsFamilySet family set → set ≢ [] →
        length (ip_family_der family set) < 2 ^ 64
        → IsIpFamily (ip_family_der family set) (family, set) }
{}

/// States that two sets have the same encoding if and only if they have the same addresses.
///
/// For two sets of one family this also holds for the encodings with that family.
pub fn canonical()
    ensures set { (a b : Runs) → IsIpSet a → IsIpSet b →
        (ip_set_der a ≡ ip_set_der b) ↔ ((n : ℕ) → Holds a n ↔ Holds b n) }
    ensures family { (family : _) (a b : Runs) → IsFamilySet family a → IsFamilySet family b →
        (ip_family_der family a ≡ ip_family_der family b) ↔ ((n : ℕ) → Holds a n ↔ Holds b n) }
{}

/// States that encodings of resources that aren't missing conform to the grammar, if they have fewer than 2^64 octets.
///
/// The encoding of resources of a family denotes these resources. If at least one family isn't missing, the encoding of
/// families denotes the families that aren't missing.
#[tactic(auto, using(crate::proofs::IpResourcesWritten::claims_written, crate::proofs::IpResourcesWritten::resources_written))]
pub fn written_resources()
    ensures resources { (family : _) (claim : Claim) → IsFamilyClaim family claim
        → claim ≢ Missing →
        length (ip_resources_der claim) < 2 ^ 64
        → IsIpResources (bits_of family) (ip_resources_der claim) claim }
    ensures families { (v4 v6 : Claim) → IsFamilyClaim Ipv4 v4 → IsFamilyClaim Ipv6 v6
        → (v4 ≡ Missing → v6 ≢ Missing) →
        length (ip_families_der v4 v6) < 2 ^ 64
        → IsIpFamilies (ip_families_der v4 v6) (if_present v4, if_present v6) }
{}

/// States that the encoding of families is one SEQUENCE of the encodings of its members, each with its family.
///
/// The encoding of a set with its family is the encoding of the resources that list the set. Therefore
/// [`IpResources::take_families_from`](crate::resources::IpResources::take_families_from) reads each of them back. A
/// caller that appends the members one by one needs a proof file. Only the caller knows that its octets are those of
/// this lemma, as a sum of lists.
#[tactic(auto, using(crate::proofs::IpResourcesWritten::set_as_member))]
pub fn members()
    ensures families { (v4 v6 : Claim) →
        ip_families_der v4 v6 ≡ sequence_value (ip_member_der Ipv4 v4 ++ ip_member_der Ipv6 v6) }
    ensures set { (family : _) (set : Runs) →
        ip_family_der family set ≡ ip_member_der family (claim_of set) }
{}

/// States that resources have the same encoding if and only if they are the same claim, alone and with one family.
///
/// If at least one family isn't missing, families have the same encoding if and only if their claims are the same. This
/// holds for fewer than 2^64 octets.
#[tactic(auto, using(crate::proofs::IpResourcesWritten::families_as_claims, crate::proofs::IpResourcesWritten::members_as_claims, crate::proofs::IpResourcesWritten::resources_as_claims))]
pub fn canonical_resources()
    ensures resources { (a b : Claim) → IsIpClaim a → IsIpClaim b
        → (ip_resources_der a ≡ ip_resources_der b) ↔ (a ≡ b) }
    ensures family { (family : _) (a b : Claim) → IsIpClaim a → IsIpClaim b →
        (ip_member_der family a ≡ ip_member_der family b) ↔ (a ≡ b) }
    ensures families { (v4 v6 w4 w6 : Claim) →
        IsFamilyClaim Ipv4 v4 → IsFamilyClaim Ipv6 v6 → (v4 ≡ Missing → v6 ≢ Missing) →
        IsFamilyClaim Ipv4 w4 → IsFamilyClaim Ipv6 w6 → (w4 ≡ Missing → w6 ≢ Missing) →
        length (ip_families_der v4 v6) < 2 ^ 64 →
        (ip_families_der v4 v6 ≡ ip_families_der w4 w6) ↔ ((v4 ≡ w4) × (v6 ≡ w6)) }
{}

/// States when octets have one of three faults, with any octets after them.
///
/// - `EmptyBlocks`: resources have this fault if and only if their SEQUENCE of blocks is empty.
/// - `NoFamily`: families have this fault if and only if their SEQUENCE is empty.
/// - `DuplicateFamily`: families have this fault if and only if members without a fault are followed by a SEQUENCE that
///   begins with the family of one of them.
#[tactic(auto, using(crate::proofs::IpResourcesDerFaults::empty_blocks, crate::proofs::IpResourcesDerFaults::families_empty, crate::proofs::IpResourcesDerFaults::families_repeat))]
pub fn faults()
    ensures empty_blocks { (limit : ℕ) (bytes : List ℕ) →
        (ip_resources_at limit bytes ≡ Err EmptyBlocks) ↔ BeginsEmpty bytes }
    ensures no_family { (bytes : List ℕ) →
        (ip_families_at bytes ≡ Err NoFamily) ↔ BeginsEmpty bytes }
    ensures twice { (bytes : List ℕ) → (ip_families_at bytes ≡ Err DuplicateFamily)
        ↔ BeginsWithValue 48 (BeginsWithRepeat (λ family. ip_resources_at (bits_of family))) bytes }
{}

/// States that a lenient cursor never returns `NotCanonical` for sets, resources or families.
#[tactic(auto, using(crate::proofs::IpResourcesDerFaults::all_names, crate::proofs::IpResourcesDerFaults::resources_names, crate::proofs::IpResourcesDerFaults::sequence_names))]
pub fn not_canonical()
    ensures set { (limit : ℕ) (bytes : List ℕ) → ip_blocks_at limit bytes ≢ Err NotCanonical }
    ensures resources { (limit : ℕ) (bytes : List ℕ) →
        ip_resources_at limit bytes ≢ Err NotCanonical }
    ensures families { (bytes : List ℕ) → ip_families_at bytes ≢ Err NotCanonical }
{}
