//! Laws of names. The contract of each function is the law, for all names and texts.

ghost use Rattle.std.specs.Prelude.{◌≡◌, ℕ, List};
ghost use Rattle.packed_names.specs.declared.name.Name.{Name};
ghost use Rattle.packed_names.specs.Packed.{IsPackedAs};
ghost use Rattle.packed_names.specs.Printed.{IsPrintedAs};
ghost use Rattle.packed_names.specs.Order.{designation_cmp};
ghost use Rattle.packed_names.specs.Laws.{NameLaws, OrderLaws};

use crate::name::Designation;
use std::cmp::Ordering;

/// Two names never share a packed form, and a name never has two.
pub fn packed_one_to_one()
    ensures one_name { (one other : Name) (text : List ℕ) → IsPackedAs one text → IsPackedAs other text → one ≡ other }
    ensures one_text { (name : Name) (one other : List ℕ) → IsPackedAs name one → IsPackedAs name other → one ≡ other }
{
    ascii_text::laws::texts();
}

/// Two names never share a printed form, and a name never has two.
pub fn printed_one_to_one()
    ensures one_name { (one other : Name) (text : List ℕ) → IsPrintedAs one text → IsPrintedAs other text
        → one ≡ other }
    ensures one_text { (name : Name) (one other : List ℕ) → IsPrintedAs name one → IsPrintedAs name other
        → one ≡ other }
{
    ascii_text::laws::texts();
}

/// A text is answered with a name exactly where it is the name's packed form, or its printed form.
pub fn names()
    ensures { NameLaws }
{
    ascii_text::laws::texts();
}

/// Half-months and designations that compare equal are the same, and the order of designations is total.
pub fn orders()
    ensures { OrderLaws }
{}

/// Designations compare in the order that is stated for them.
pub fn designations_in_order(one: Designation, other: Designation) -> Ordering
    ensures { result ≡ designation_cmp one other }
{
    one.cmp(&other)
}
