//! Lemmas for the proofs of callers, about validities, tables and changes.
ghost use Rattle.std.specs.Prelude.{◌≡◌, ◌↔◌, ◌⊎◌, List, [], Contains, map, ℕ};
ghost use Rattle.std.specs.List.Sorted.{IsPermutation};
ghost use Rattle.rpki_prefix.specs.Values.{FamilyPrefix};
ghost use Rattle.roa_origin.specs.Vrps.{IsLawfulVrp, Vrp};
ghost use Rattle.roa_origin.specs.Places.{table_place};
ghost use Rattle.roa_origin.specs.Tables.{IsAfter, IsAscending, IsTableOf, IsWithout, as_sent};
ghost use Rattle.roa_origin.specs.Updates.{IsSentIn, IsUpdated};
ghost use Rattle.roa_origin.specs.Validities.{IsValidity};

use crate::validation::Validity;

/// States that a route has at most one validity by a list of VRPs, and that the order of the list doesn't matter.
pub fn laws_of_validities()
    ensures one { (route : FamilyPrefix) (asn : ℕ) (vrps : List Vrp) (v w : Validity)
        → IsValidity route asn vrps v → IsValidity route asn vrps w → v ≡ w }
    ensures any_order { (route : FamilyPrefix) (asn : ℕ) (vrps others : List Vrp)
        (validity : Validity) → IsPermutation vrps others →
        IsValidity route asn vrps validity ↔ IsValidity route asn others validity }
{}

/// States that a list of VRPs has at most one table, and that tables with the same VRPs are equal.
pub fn laws_of_tables()
    ensures one { (vrps table other : List Vrp) → IsTableOf vrps table
        → IsTableOf vrps other → table ≡ other }
    ensures members { (table other : List Vrp) → IsAscending table → IsAscending other
        → ((p : Vrp) → Contains table p ↔ Contains other p) → table ≡ other }
{}

/// States that a table without the withdrawn VRPs, and with the announced ones, is the next table.
///
/// From a table to itself nothing changes.
pub fn laws_of_changes()
    ensures leads { (table next announced withdrawn set : List Vrp) → IsAscending next
        → IsWithout next table announced → IsWithout table next withdrawn
        → IsAfter table announced withdrawn set → set ≡ next }
    ensures none { (table left : List Vrp) → IsWithout table table left → left ≡ [] }
{}

/// States which VRPs a table has after changes: the old ones that aren't withdrawn, and the announced ones.
///
/// VRPs are compared as they are sent. The next table lists the old VRPs as they were listed, and the announced ones as
/// they are sent. Changes lead to one list, except for its order.
pub fn laws_of_updates()
    ensures sent { (table announced withdrawn next : List Vrp) → IsUpdated table announced withdrawn next
        → (p : Vrp) → IsSentIn next p ↔ ((IsSentIn table p × ¬ IsSentIn withdrawn p) ⊎ IsSentIn announced p) }
    ensures listed { (table announced withdrawn next : List Vrp) → IsUpdated table announced withdrawn next
        → (p : Vrp) → Contains next p
        ↔ ((Contains table p × ¬ IsSentIn withdrawn p) ⊎ Contains (map as_sent announced) p) }
    ensures one { (table announced withdrawn next other : List Vrp)
        → IsUpdated table announced withdrawn next → IsUpdated table announced withdrawn other
        → IsPermutation next other }
{}

/// States that two VRPs are equal if their sort keys in a table are equal.
///
/// Their order is therefore unique: for the same listed VRPs, `OriginTable::vrps` and `OriginTable::covering` each give
/// one list.
pub fn laws_of_places()
    ensures { (p q : Vrp) → IsLawfulVrp p → IsLawfulVrp q → table_place p ≡ table_place q → p ≡ q }
{}
