//! Lemmas about the answers to lines, and about their texts.
ghost use Rattle.std.specs.Prelude.{◌≡◌, ℕ, List};
ghost use Rattle.rpki_der.specs.Der.{IsBytes};
ghost use Rattle.respath_lines.specs.Answer.{IsAnswer};
ghost use Rattle.respath_lines.specs.Hexadecimal.{IsHexadecimal, lower_hexadecimal};

/// States that the text of octets is read back as them, and that a text has at most one list of octets (RFC 4648, 8).
#[tactic(auto, using(crate::proofs::HexadecimalLemmas::lower_writes, crate::proofs::HexadecimalLemmas::one_octets))]
pub fn hexadecimal_read_back()
    ensures written { (octets : List ℕ) → IsBytes octets
        → IsHexadecimal (lower_hexadecimal octets) octets }
    ensures one_list { (text a b : List ℕ) → IsHexadecimal text a → IsHexadecimal text b → a ≡ b }
{}

/// States that a line has at most one answer.
#[tactic(auto, using(crate::proofs::LineAnswers::one_answer))]
pub fn laws_of_answers()
    ensures { (line text other : List ℕ) → IsAnswer line text → IsAnswer line other → text ≡ other }
{}
