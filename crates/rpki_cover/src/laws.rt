//! Lemmas about prefixes of numbers. Each is the contract of a function that does nothing when it runs.
ghost use Rattle.std.specs.Prelude.{ℕ, ◌↔◌, ◌⊎◌};
ghost use Rattle.rpki_cover.specs.Prefixes.{PrefixValue, IsPrefix, IsIn, LiesIn};

/// Two prefixes of one width have a number in common if and only if one lies in the other (RFC 4632, 3.1).
pub fn nested_prefixes()
    ensures { (w : ℕ) (p q : PrefixValue) → IsPrefix w p → IsPrefix w q →
        ((n : ℕ) × IsIn w p n × IsIn w q n) ↔ (LiesIn w (IsIn w p) q ⊎ LiesIn w (IsIn w q) p) }
{}
