//! Lemmas about the results of the calls on sets. Each is the contract of a function that does nothing when it runs. It
//! holds for all results that meet the calls' contracts.
ghost use Rattle.std.specs.Prelude.{◌≡◌, ℕ, ◌<◌, ◌↔◌, List, [], map, take, length, slice_index_or, All, Contains};
ghost use Rattle.rpki_chain.specs.BlockSets.{IsBlockSet};
ghost use Rattle.rpki_chain.specs.Runs.{Runs, Holds, IsRunsOf, IsRunsOfBlocks};
ghost use Rattle.rpki_chain.specs.Operations.{IsUnion, IsIntersection, IsDifference};
ghost use Rattle.rpki_chain.specs.Claims.{Claim};
ghost use Rattle.rpki_chain.specs.Paths.{Lists, Leaves, IsIssued, IsExcess, IsLeft, ExceedsAt, IsPathResult, IsFirstRefusal, one_step};
ghost use Rattle.rpki_chain.specs.declared.path.Overclaim.{Overclaim};
ghost use Rattle.rpki_chain.specs.declared.path.Overclaim.TheVariants.{Refuse, Trim};
ghost use Rattle.rpki_chain.specs.declared.path.Step.{Step};

use rpki_chain_core::block::Block;

/// The blocks made from the runs of a set denote the set.
pub fn blocks_of_runs<T: Block>()
    ensures bounds { (set : Runs) → IsBlockSet T.first T.last set →
        map T.bounds (map T.form set) ≡ set }
    ensures set { (set : Runs) → IsBlockSet T.first T.last set →
        IsRunsOfBlocks T.bounds (map T.form set) set }
{}

/// The numbers that blocks cover have only one list of runs. Sets with the same numbers are the same list.
pub fn laws_of_runs<T: Block>()
    ensures one_list { (blocks : List T) (a b : Runs) → IsRunsOfBlocks T.bounds blocks a
        → IsRunsOfBlocks T.bounds blocks b → a ≡ b }
    ensures same_numbers { (a b : Runs) → IsRunsOf (Holds a) a → IsRunsOf (Holds b) b
        → ((n : ℕ) → Holds a n ↔ Holds b n) → a ≡ b }
{}

/// Union is commutative, associative and idempotent.
pub fn laws_of_union()
    ensures commutative { (a b ab ba : Runs) → IsUnion a b ab → IsUnion b a ba → ab ≡ ba }
    ensures associative { (a b c ab bc left right : Runs) →
        IsUnion a b ab → IsUnion ab c left → IsUnion b c bc → IsUnion a bc right → left ≡ right }
    ensures idempotent { (a set : Runs) → IsRunsOf (Holds a) a → IsUnion a a set → set ≡ a }
{}

/// Intersection is commutative, associative and idempotent.
pub fn laws_of_intersection()
    ensures commutative { (a b ab ba : Runs) →
        IsIntersection a b ab → IsIntersection b a ba → ab ≡ ba }
    ensures associative { (a b c ab bc left right : Runs) →
        IsIntersection a b ab → IsIntersection ab c left →
        IsIntersection b c bc → IsIntersection a bc right → left ≡ right }
    ensures idempotent { (a set : Runs) → IsRunsOf (Holds a) a → IsIntersection a a set → set ≡ a }
{}

/// The difference of two sets is disjoint from the second set. Its union with the intersection of both is the first
/// set. It is empty if and only if the second set contains the first.
pub fn laws_of_difference()
    ensures disjoint { (a b rest : Runs) → IsDifference a b rest →
        (n : ℕ) → Holds rest n → Holds b n → ⊥ }
    ensures whole { (a b rest common set : Runs) → IsRunsOf (Holds a) a →
        IsDifference a b rest → IsIntersection a b common → IsUnion rest common set → set ≡ a }
    ensures inside { (a b rest : Runs) → IsDifference a b rest →
        (rest ≡ []) ↔ ((n : ℕ) → Holds a n → Holds b n) }
{}

/// A claim is a path of one step: the same remains after both, and both are refused alike. A claim that is accepted in
/// mode Refuse leaves the same in mode Trim. Trimming again by the same claim changes nothing.
pub fn laws_of_claims()
    ensures path_of_one { (root issued : Runs) (claim : Claim) (mode : Overclaim) →
        IsIssued (Holds root) claim mode issued
        ↔ IsPathResult (λ claim. claim) (Holds root) (one_step claim mode) issued }
    ensures refusal_of_one { (root excess : Runs) (claim : Claim) (mode : Overclaim) →
        IsExcess (Holds root) claim mode excess
        ↔ IsFirstRefusal (λ claim. claim) (Holds root) (one_step claim mode)
        (record { step = 0; fault = excess }) }
    ensures trimmed_alike { (root issued trimmed : Runs) (claim : Claim) →
        IsIssued (Holds root) claim Refuse issued → IsIssued (Holds root) claim Trim trimmed
        → trimmed ≡ issued }
    ensures trimmed_twice { (root once twice : Runs) (claim : Claim) →
        IsIssued (Holds root) claim Trim once → IsIssued (Holds once) claim Trim twice
        → twice ≡ once }
{}

/// Lemmas about paths:
///
/// - The result of a path lies in its root and in each set that a step lists.
/// - A claim that was accepted in mode Refuse lies in what remains after the steps before it. No accepted set exceeds
///   its issuer's.
/// - No step in mode Trim is refused.
/// - The result of a path without steps is its root.
/// - The result of a path depends neither on the order of its steps nor on how often a step occurs.
pub fn laws_of_paths()
    ensures inside_root { (root set : Runs) (steps : List (Step Claim)) →
        IsPathResult (λ claim. claim) (Holds root) steps set → (n : ℕ) → Holds set n
        → Holds root n }
    ensures inside_each { (root set : Runs) (steps : List (Step Claim)) →
        IsPathResult (λ claim. claim) (Holds root) steps set → (n : ℕ) → Holds set n
        → All (λ step. Leaves step.claim n) steps }
    ensures inside_issuer { (root set : Runs) (steps : List (Step Claim)) (at : ℕ)
        (step : Step Claim) →
        IsPathResult (λ claim. claim) (Holds root) steps set → at < length steps
        → slice_index_or steps at step ≡ step → step.mode ≡ Refuse → (n : ℕ) → Lists step.claim n
        → IsLeft (λ claim. claim) (Holds root) (take at steps) n }
    ensures trims { (root : Runs) (steps : List (Step Claim)) (at n : ℕ) (step : Step Claim) →
        slice_index_or steps at step ≡ step → step.mode ≡ Trim
        → ExceedsAt (λ claim. claim) (Holds root) steps at n → ⊥ }
    ensures empty { (root set : Runs) → IsRunsOf (Holds root) root
        → IsPathResult (λ claim. claim) (Holds root) [] set → set ≡ root }
    ensures any_order { (root set other : Runs) (steps others : List (Step Claim)) →
        ((step : Step Claim) → Contains steps step ↔ Contains others step)
        → IsPathResult (λ claim. claim) (Holds root) steps set
        → IsPathResult (λ claim. claim) (Holds root) others other → set ≡ other }
{}
