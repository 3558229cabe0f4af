//! Lemmas about ranges and about the texts of sets and resources. Each is the contract of a function that does nothing.
ghost use Rattle.std.specs.Prelude.{◌≡◌, ℕ, List, ◌↔◌};
ghost use Rattle.rpki_chain.specs.Claims.{Claim, IsClaim};
ghost use Rattle.rpki_chain.specs.Runs.{Runs, Holds};
ghost use Rattle.rpki_as.specs.Blocks.{IsAsSet};
ghost use Rattle.rpki_as.specs.ListText.{IsAsListText, as_list_text};
ghost use Rattle.rpki_as.specs.ResourcesText.{IsAsResourcesText, as_resources_text};

pub use rpki_as_block::laws::equal_where_the_same;

/// The printed text of a set is a list that denotes the set. A list denotes at most one set, so two sets print alike if
/// and only if they have the same numbers.
pub fn printed_sets()
    ensures written { (set : Runs) → IsAsSet set → IsAsListText (as_list_text set) set }
    ensures one_set { (text : List ℕ) (a b : Runs) →
        IsAsListText text a → IsAsListText text b → a ≡ b }
    ensures alike { (a b : Runs) → IsAsSet a → IsAsSet b →
        (as_list_text a ≡ as_list_text b) ↔ ((n : ℕ) → Holds a n ↔ Holds b n) }
{}

/// The printed text of resources denotes them. A text denotes at most one claim, so two claims print alike if and only
/// if they are equal.
pub fn printed_resources()
    ensures written { (claim : Claim) → IsClaim IsAsSet claim
        → IsAsResourcesText (as_resources_text claim) claim }
    ensures one_claim { (text : List ℕ) (a b : Claim) →
        IsAsResourcesText text a → IsAsResourcesText text b → a ≡ b }
    ensures alike { (a b : Claim) → IsClaim IsAsSet a → IsClaim IsAsSet b →
        (as_resources_text a ≡ as_resources_text b) ↔ (a ≡ b) }
{}
