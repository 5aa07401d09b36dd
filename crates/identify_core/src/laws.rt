//! Laws of the acts on links. The contract of each function is the law, for all lists of acts.

ghost use Rattle.std.specs.Prelude.{◌≡◌, ◌↔◌, true, List, ◌∷◌, count_by, Some, IsSome};
ghost use Rattle.std.specs.List.{Contains};
ghost use Rattle.std.specs.Ordering.{eq_by_cmp};
ghost use Rattle.packed_names.specs.declared.name.Designation.{Designation};
ghost use Rattle.packed_names.specs.Order.{designation_cmp};
ghost use Rattle.identify_core.specs.Acts.{LinkAct, principal, given_in_order, principals};
ghost use Rattle.identify_core.specs.Principals.{IsAscending, FitsLinks, AreTheirOwn};

/// The designations that were given stand in their order, each of them once and no other.
pub fn given_in_order()
    ensures order { (acts : List LinkAct) → IsAscending (given_in_order acts) }
    ensures given { (acts : List LinkAct) (d : Designation) →
        Contains (given_in_order acts) d ↔ IsSome (principal acts d) }
{}

/// A principal is its own, and stays so over every act that links take.
pub fn principals_stay_own()
    ensures { (act : LinkAct) (past : List LinkAct) →
        FitsLinks act past → AreTheirOwn past → AreTheirOwn (act ∷ past) }
{}

/// Of the principals in their order, each is there once.
pub fn each_principal_once()
    ensures { (acts : List LinkAct) (p : Designation) → principal acts p ≡ Some p →
        count_by (eq_by_cmp designation_cmp p) (principals acts) ≡ 1 }
{}

/// Designations compare as equal exactly where they are the same.
pub fn equal_is_same()
    ensures { (d e : Designation) → (eq_by_cmp designation_cmp d e ≡ true) ↔ (d ≡ e) }
{}

/// The designations that were given stand in their order, each once. Designations are the same exactly where they
/// compare equal.
pub fn given_ascend()
    ensures ascending { (acts : List LinkAct) → IsAscending (given_in_order acts) }
    ensures same { (one other : Designation) → eq_by_cmp designation_cmp one other ≡ true → one ≡ other }
    ensures itself { (d : Designation) → eq_by_cmp designation_cmp d d ≡ true }
{}
