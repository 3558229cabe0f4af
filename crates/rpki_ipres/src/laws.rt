//! Lemmas about the results of the calls on sets, and about the printed text of sets. Each lemma holds for all results
//! that meet the calls' contracts.
ghost use Rattle.std.specs.Prelude.{◌≡◌, ℕ, List, ◌↔◌, All};
ghost use Rattle.rpki_chain.specs.Claims.{Claim};
ghost use Rattle.rpki_chain.specs.Operations.{IsUnion, IsIntersection, IsDifference};
ghost use Rattle.rpki_chain.specs.Paths.{IsIssued, IsExcess, IsUncovered, IsPathResult, IsFirstRefusal};
ghost use Rattle.rpki_chain.specs.Runs.{Runs, Holds};
ghost use Rattle.rpki_chain.specs.declared.path.Overclaim.{Overclaim};
ghost use Rattle.rpki_chain.specs.declared.path.PathRefusal.{PathRefusal};
ghost use Rattle.rpki_chain.specs.declared.path.Step.{Step};
ghost use Rattle.rpki_ip.specs.Whole.{IsWhole};
ghost use Rattle.rpki_der.specs.declared.family.AddressFamily.TheVariants.{Ipv4, Ipv6};
ghost use Rattle.rpki_ip_block.specs.ListText.{HasBlocks, HasIpBlocks};
ghost use Rattle.rpki_ipres.specs.Resources.{IsFamilyClaim, IsIpClaim, IsWholeClaim};
ghost use Rattle.rpki_ipres.specs.SetText.{IsFamilySet, IsSetOf, set_text};

/// States that the union, the intersection and the difference keep whole IPv4 addresses whole.
///
/// If both sets consist of whole IPv4 addresses, the result does too.
pub fn laws_of_whole_sets()
    ensures union { (a b set : Runs) → IsWhole (Holds a) → IsWhole (Holds b) → IsUnion a b set
        → IsWhole (Holds set) }
    ensures intersection { (a b set : Runs) →
        IsWhole (Holds a) → IsWhole (Holds b) → IsIntersection a b set → IsWhole (Holds set) }
    ensures difference { (a b set : Runs) →
        IsWhole (Holds a) → IsWhole (Holds b) → IsDifference a b set → IsWhole (Holds set) }
{}

/// States that claims and paths keep whole IPv4 addresses whole.
///
/// The lemma is for a set and claims that consist of whole IPv4 addresses. The part of the set that a claim or a path
/// leaves then consists of whole IPv4 addresses, and so do the overclaimed addresses of a refusal.
pub fn laws_of_whole_claims()
    ensures issued { (set issued : Runs) (claim : Claim) (mode : Overclaim) → IsWhole (Holds set)
        → IsWholeClaim claim →
        IsIssued (Holds set) claim mode issued → IsWhole (Holds issued) }
    ensures excess { (set excess : Runs) (claim : Claim) (mode : Overclaim) → IsWhole (Holds set)
        → IsWholeClaim claim →
        IsExcess (Holds set) claim mode excess → IsWhole (Holds excess) }
    ensures uncovered { (set excess : Runs) (issuer : Claim) → IsWhole (Holds set)
        → IsWholeClaim issuer →
        IsUncovered (Holds set) issuer excess → IsWhole (Holds excess) }
    ensures result { (set left : Runs) (steps : List (Step Claim)) → IsWhole (Holds set) →
        All (λ step. IsWholeClaim step.claim) steps
        → IsPathResult (λ claim. claim) (Holds set) steps left →
        IsWhole (Holds left) }
    ensures refusal { (set : Runs) (steps : List (Step Claim)) (refusal : PathRefusal Runs)
        → IsWhole (Holds set) →
        All (λ step. IsWholeClaim step.claim) steps
        → IsFirstRefusal (λ claim. claim) (Holds set) steps refusal →
        IsWhole (Holds refusal.fault) }
{}

/// States which claims of addresses are claims of a family.
///
/// All resources of addresses are resources of IPv6. They are resources of IPv4 if and only if the listed set, if there
/// is one, consists of whole IPv4 addresses.
pub fn claims_of_families()
    ensures v4 { (claim : Claim) → IsIpClaim claim → IsWholeClaim claim → IsFamilyClaim Ipv4 claim }
    ensures whole { (claim : Claim) → IsFamilyClaim Ipv4 claim → IsWholeClaim claim }
    ensures v6 { (claim : Claim) → IsIpClaim claim → IsFamilyClaim Ipv6 claim }
{}

/// States that the printed text of a set of a family parses back to that set.
///
/// The text parses as a list of that family, and also as a list without a given family. A text parses to at most one
/// set. Therefore two sets of a family print alike if and only if they have the same addresses.
pub fn printed_sets()
    ensures written { (family : _) (set : Runs) →
        IsFamilySet family set → IsSetOf (HasBlocks family (set_text family set)) set }
    ensures one_set { (family : _) (text : List ℕ) (a b : Runs) →
        IsSetOf (HasBlocks family text) a → IsSetOf (HasBlocks family text) b → a ≡ b }
    ensures written_without_family { (family : _) (set : Runs) →
        IsFamilySet family set → IsSetOf (HasIpBlocks (set_text family set)) set }
    ensures one_set_without_family { (text : List ℕ) (a b : Runs) →
        IsSetOf (HasIpBlocks text) a → IsSetOf (HasIpBlocks text) b → a ≡ b }
    ensures alike { (family : _) (a b : Runs) → IsFamilySet family a → IsFamilySet family b →
        (set_text family a ≡ set_text family b) ↔ ((n : ℕ) → Holds a n ↔ Holds b n) }
{}
