//! Laws of lists in order. The contract of each function is the law, for all lists.

ghost use Rattle.std.specs.Prelude.{◌≡◌, List, IsTrue, Some, if◌then◌else◌};
ghost use Rattle.ordered_list.specs.Orders.{IsStrictlySorted, ties, found, inserted};

/// Keys that tie find the same item.
pub fn ties_find_alike<T: Ord>()
    ensures { (key other : T) (items : List T) → IsTrue (ties T.cmp key other) → found T.cmp key items
        ≡ found T.cmp other items }
{}

/// An item ties with itself.
pub fn ties_itself<T: Ord>()
    ensures { (item : T) → IsTrue (ties T.cmp item item) }
{}

/// An item that is put in its place is what its own keys find, and each other key finds what it found before. A list in
/// order stays so.
pub fn item_inserted<T: Ord>()
    ensures finds { (key item : T) (items : List T) → found T.cmp key (inserted T.cmp item items)
        ≡ (if ties T.cmp key item then Some item else found T.cmp key items) }
    ensures sorted { (item : T) (items : List T) → IsStrictlySorted T.cmp items
        → IsStrictlySorted T.cmp (inserted T.cmp item items) }
{}

/// Two lists in order in which each key finds the same are the same.
pub fn same_items<T: Ord>()
    ensures { (items others : List T) → IsStrictlySorted T.cmp items → IsStrictlySorted T.cmp others
        → ((key : T) → found T.cmp key items ≡ found T.cmp key others) → items ≡ others }
{}
