//! Lemmas about the results of the exported calls.
ghost use Rattle.std.specs.Prelude.{◌≡◌, ℕ, ◌<◌, ◌^◌, ◌↔◌, List, length, slice_index_or, take};
ghost use Rattle.rpki_chain.specs.declared.path.Step.{Step};
ghost use Rattle.rpki_extensions.specs.Issued.{GetsClaimed};
ghost use Rattle.rpki_extensions.specs.Kinds.{AreSteps, ClaimTriple, IsResultOfEach};
ghost use Rattle.rpki_extensions.specs.Outcomes.{OneOutcome};
ghost use Rattle.rpki_extensions.specs.Paths.{IsVerifiedPath};
ghost use Rattle.rpki_extensions.specs.declared.encoding.Encoding.{Encoding};
ghost use Rattle.rpki_extensions.specs.declared.extensions.Extensions.{Extensions};
ghost use Rattle.rpki_resources.specs.Triples.{IsTriple, Triple};
ghost use Rattle.pigyelund_c.specs.Certificates.{IsCertificate, IsCertificateAt};
ghost use Rattle.pigyelund_c.specs.Paths.{AreCertificatesAt, IsLeftOnPath, IsPathOutcome};
ghost use Rattle.pigyelund_c.specs.Sets.{IsSet};
ghost use Rattle.pigyelund_c.specs.Verified.{IsNoOutcome, IsOutcome};
ghost use Rattle.pigyelund_c.specs.declared.certificate.Certificate.{Certificate};

/// States two equivalents of the fact that the certificates of a path leave a set.
///
/// - `extensions`: the path of their extensions leaves the set.
/// - `kinds`: the set of each kind is the result of the path of the claims of that kind.
#[tactic(auto, using(crate::proofs::CertificatePathLemmas::path_of_extensions, crate::proofs::CertificatePathLemmas::kinds_of_path))]
pub fn laws_of_paths()
    ensures extensions { (run : List ℕ) (encoding : Encoding) (anchor set : Triple)
        (cs : List Certificate) → IsLeftOnPath run encoding anchor cs set
        ↔ ((certificates : List Extensions) × AreCertificatesAt run encoding cs certificates
        × IsVerifiedPath anchor certificates set) }
    ensures kinds { (run : List ℕ) (encoding : Encoding) (anchor set : Triple)
        (cs : List Certificate) → IsTriple anchor → IsLeftOnPath run encoding anchor cs set
        ↔ ((certificates : List Extensions) × (steps : List (Step ClaimTriple))
        × AreCertificatesAt run encoding cs certificates × AreSteps certificates steps
        × IsResultOfEach anchor steps set) }
{}

/// States that a verification has at most one outcome: one set, or one refusal.
///
/// The lemma is for extensions of fewer than 2^64 octets. Each slice has fewer.
#[tactic(auto, using(crate::proofs::OutcomeLemmas::one_outcome))]
pub fn outcomes_of_verification()
    ensures { (issuer_as issuer_ip : List ℕ) (present : ℕ) (cert_as cert_ip : List ℕ) (encoding mode : ℕ)
        → length issuer_ip < 2 ^ 64 → length cert_ip < 2 ^ 64
        → OneOutcome (IsOutcome issuer_as issuer_ip present cert_as cert_ip encoding mode)
        (IsNoOutcome issuer_as issuer_ip present cert_as cert_ip encoding mode) }
{}

/// States what a certificate gets: exactly the numbers of its issuer's set that it claims.
///
/// In mode `PIGY_REFUSE` an accepted certificate lists no other number. On a path the issuer's set is what the
/// certificates before it leave.
pub fn sets_of_certificates()
    ensures verify { (issuer_as issuer_ip : List ℕ) (present : ℕ) (cert_as cert_ip : List ℕ)
        (encoding mode : ℕ) (set : Triple)
        → IsOutcome issuer_as issuer_ip present cert_as cert_ip encoding mode set
        → (way : Encoding) × (issuer : Triple) × (certificate : Extensions)
        × IsSet way issuer_as issuer_ip issuer
        × IsCertificate present cert_as cert_ip way mode certificate
        × GetsClaimed issuer certificate set }
    ensures path { (anchor_as anchor_ip run : List ℕ) (cs : List Certificate) (encoding : ℕ)
        (set : Triple) → IsPathOutcome anchor_as anchor_ip run cs encoding set
        → (way : Encoding) × (anchor : Triple) × IsSet way anchor_as anchor_ip anchor
        × IsLeftOnPath run way anchor cs set × ((at : ℕ) (c : Certificate) → at < length cs
        → slice_index_or cs at c ≡ c
        → (issuer : Triple) × (next : Triple) × (certificate : Extensions)
        × IsLeftOnPath run way anchor (take at cs) issuer × IsCertificateAt run way c certificate
        × GetsClaimed issuer certificate next) }
{}
