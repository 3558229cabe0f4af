//! Lemmas about the outcomes of the calls. Each is the contract of a function that does nothing when it runs.
//!
//! For one input a call has at most one value or one refusal, apart from out of memory. A path of certificates is a
//! path of claims for each kind of resources.
ghost use Rattle.std.specs.Prelude.{◌<◌, ◌^◌, ◌+◌, ◌↔◌, IfSome, List, Option, length, take, ℕ};
ghost use Rattle.std.specs.List.{All};
ghost use Rattle.rpki_chain.specs.declared.path.Step.{Step};
ghost use Rattle.rpki_resources.specs.Triples.{IsTriple, Triple};
ghost use Rattle.rpki_extensions.specs.Anchors.{IsAnchorSet, IsNoAnchor};
ghost use Rattle.rpki_extensions.specs.Below.{IsLeftBelow, IsVerifyBelowError};
ghost use Rattle.rpki_extensions.specs.Claims.{AreAddressClaims, AreClaimed, AreClaims, AreNoClaims, HasAddressesFault, HasNumbersFault, IsNumbersClaim};
ghost use Rattle.rpki_extensions.specs.Encodings.{HasAddressValueFault, HasAsFault, IsAddressValue, IsAsValue};
ghost use Rattle.rpki_extensions.specs.Issued.{GetsClaimed, HasVerifyError, IsVerified};
ghost use Rattle.rpki_extensions.specs.Kinds.{AreSteps, ClaimTriple, IsFirstOfEach, IsResultOfEach, NamesExcess};
ghost use Rattle.rpki_extensions.specs.Outcomes.{HasFewOctets, OneOutcome};
ghost use Rattle.rpki_extensions.specs.Paths.{IsFirstVerifyError, IsVerifiedPath};
ghost use Rattle.rpki_extensions.specs.declared.encoding.Encoding.{Encoding};
ghost use Rattle.rpki_extensions.specs.declared.error.VerifyPathError.{VerifyPathError};
ghost use Rattle.rpki_extensions.specs.declared.extensions.Extensions.{Extensions};

use std::alloc::Allocator;

/// States that the octets of an extension have at most one value or one fault, in each encoding.
///
/// The lemmas about addresses are for fewer than 2^64 octets. Each slice has fewer.
pub fn outcomes_of_reading()
    ensures as_value { (encoding : Encoding) (octets : List ℕ) →
        OneOutcome (IsAsValue encoding octets) (HasAsFault encoding octets) }
    ensures families { (encoding : Encoding) (octets : List ℕ) → length octets < 2 ^ 64 →
        OneOutcome (IsAddressValue encoding octets) (HasAddressValueFault encoding octets) }
    ensures ip_claims { (encoding : Encoding) (octets : List ℕ) → length octets < 2 ^ 64 →
        OneOutcome (AreClaimed encoding octets) (HasAddressValueFault encoding octets) }
    ensures optional_as_claim { (encoding : Encoding) (octets : Option (List ℕ)) →
        OneOutcome (IsNumbersClaim encoding octets) (HasNumbersFault encoding octets) }
    ensures optional_ip_claims { (encoding : Encoding) (octets : Option (List ℕ)) →
        IfSome octets (λ present. length present < 2 ^ 64) →
        OneOutcome (AreAddressClaims encoding octets) (HasAddressesFault encoding octets) }
{}

/// States that a certificate has at most one outcome: its claims, its set as a trust anchor, and its set below an
/// issuer.
pub fn outcomes_of_certificates<A: Allocator>()
    ensures claims { (certificate : Extensions) → HasFewOctets certificate → OneOutcome
        (λ (claims : ClaimTriple). AreClaims certificate claims.asn claims.ipv4 claims.ipv6)
        (AreNoClaims {A = A} certificate) }
    ensures anchor { (certificate : Extensions) → HasFewOctets certificate →
        OneOutcome (IsAnchorSet certificate) (IsNoAnchor {A = A} certificate) }
    ensures verified { (issuer : Triple) (certificate : Extensions) → HasFewOctets certificate →
        OneOutcome (IsVerified issuer certificate) (HasVerifyError {A = A} issuer certificate) }
{}

/// States what a verified certificate gets: exactly the numbers of its issuer's set that it claims.
///
/// In mode Refuse a verified certificate lists no other number.
#[tactic(auto, using(crate::proofs::ClaimedLemmas::gets_claimed))]
pub fn sets_of_certificates()
    ensures { (issuer set : Triple) (certificate : Extensions) → IsVerified issuer certificate set →
        GetsClaimed issuer certificate set }
{}

/// States that a path of certificates has at most one outcome, below a set and below the extensions of a trust anchor.
pub fn outcomes_of_paths<A: Allocator>()
    ensures path { (anchor : Triple) (certificates : List Extensions) →
        All HasFewOctets certificates → OneOutcome (IsVerifiedPath anchor certificates)
        (IsFirstVerifyError {A = A} anchor certificates) }
    ensures below { (anchor : Extensions) (certificates : List Extensions) → HasFewOctets anchor →
        All HasFewOctets certificates → OneOutcome (IsLeftBelow anchor certificates)
        (IsVerifyBelowError {A = A} anchor certificates) }
{}

/// States that a path of certificates is a path of claims of each kind.
///
/// - `result`: a path leaves a set if and only if two conditions hold. Each certificate has claims. The set of each
///   kind is the result of the path of the claims of that kind.
/// - `refusal`: a certificate is the first one that overclaims if and only if two conditions hold. The certificate and
///   those before it have claims. The overclaimed resources are the first refusal of the paths of claims.
pub fn kinds_of_paths<A: Allocator>()
    ensures result { (anchor set : Triple) (certificates : List Extensions) → IsTriple anchor →
        IsVerifiedPath anchor certificates set ↔ ((steps : List (Step ClaimTriple))
        × AreSteps certificates steps × IsResultOfEach anchor steps set) }
    ensures refusal { (anchor : Triple) (certificates : List Extensions)
        (refusal : VerifyPathError A) → NamesExcess refusal.reason →
        IsFirstVerifyError anchor certificates refusal ↔ ((steps : List (Step ClaimTriple))
        × AreSteps (take (refusal.step + 1) certificates) steps
        × IsFirstOfEach anchor steps refusal.step refusal.reason) }
{}
