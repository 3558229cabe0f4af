//! Lemmas about the answers of several calls.
ghost use Rattle.std.specs.Prelude.{◌≡◌, ◌↔◌, ℕ, Bool, List, slice_index_or};
ghost use Rattle.std.specs.List.Sorted.{IsPermutation};
ghost use Rattle.roa_origin.specs.Vrps.{Vrp};
ghost use Rattle.origins_lines.specs.Answers.{IsAnswerIn};
ghost use Rattle.origins_lines.specs.Checks.{IsFaultInitial, IsFaultyLine};

use crate::check::STATE;
use crate::explanation::Form;

/// States that a line has at most one answer in a form by a list of VRPs, and that the order of the list does not
/// matter.
pub fn laws_of_answers()
    ensures one { (form : Form) (why : Bool) (vrps : List Vrp) (line text other : List ℕ)
        → IsAnswerIn form why vrps line text → IsAnswerIn form why vrps line other
        → text ≡ other }
    ensures any_order { (form : Form) (why : Bool) (vrps others : List Vrp) (line text : List ℕ)
        → IsPermutation vrps others
        → IsAnswerIn form why vrps line text ↔ IsAnswerIn form why others line text }
{}

/// States that an answer has `i` or `e` at the place that a check looks at if and only if its line gives an invalid
/// route or has a fault. An answer in words has its first byte there, and an object of JSON that of its state.
pub fn laws_of_states()
    ensures word { (why : Bool) (vrps : List Vrp) (line text : List ℕ)
        → IsAnswerIn Form.Words why vrps line text
        → IsFaultInitial (slice_index_or text 0 0) ↔ IsFaultyLine vrps line }
    ensures object { (why : Bool) (vrps : List Vrp) (line text : List ℕ)
        → IsAnswerIn Form.Json why vrps line text
        → IsFaultInitial (slice_index_or text STATE 0) ↔ IsFaultyLine vrps line }
{}
