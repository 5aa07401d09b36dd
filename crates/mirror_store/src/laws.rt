//! Laws of the rows of a mirror, and of those of an office. The contract of each function is the law, for all rows and
//! all histories.

ghost use Rattle.std.specs.Prelude.{◌≡◌, ℕ, ℤ, List, All, IfSome, map};
ghost use Rattle.std.specs.List.{AllByRecursion};
ghost use Rattle.packed_names.specs.declared.label.Label.{Label};
ghost use Rattle.packed_names.specs.Labels.{IsLabelOf};
ghost use Rattle.packed_names.specs.Ranges.{IsDesignation};
ghost use Rattle.act_model.specs.declared.entry.Entry.{Entry};
ghost use Rattle.act_model.specs.Deeds.{deeds};
ghost use Rattle.act_model.specs.Designations.{links_of, principals};
ghost use Rattle.act_model.specs.Holdings.{holdings};
ghost use Rattle.act_model.specs.Shelves.{place_of};
ghost use Rattle.mirror_store.specs.declared.rows.SightRow.{SightRow};
ghost use Rattle.mirror_store.specs.Mirrored.{IsNamed, label_of, mirrored};
ghost use Rattle.mirror_store.specs.Mirrors.{between, IsBetween};
ghost use Rattle.mirror_store.specs.Rows.{Ascend, IsSightRow, AreReplaceable};

/// The observations of some time, by time and ties by id, are one list: each list of them in that order is that one,
/// whatever order they had before. They are in range where all are.
pub fn one_list_between()
    ensures is { (from to : ℤ) (rows : List SightRow) → IsBetween from to rows (between from to rows) }
    ensures alone { (from to : ℤ) (rows sights : List SightRow) → Ascend (map (λ (row : SightRow). row.id) rows)
        → IsBetween from to rows sights → sights ≡ between from to rows }
    ensures in_range { (from to : ℤ) (rows : List SightRow) → AllByRecursion IsSightRow rows
        → AllByRecursion IsSightRow (between from to rows) }
{}

/// A text has one label.
pub fn labels_are_by_text()
    ensures { (text : List ℕ) (label : Label) → IsLabelOf text label → label ≡ label_of text }
{}

/// The principal designations of an office are in range, also those at which its observations stand.
pub(crate) fn names_are_names()
    ensures principals { (history : List Entry) → All IsDesignation (principals (links_of (deeds history))) }
    ensures places { (history : List Entry) (k : ℕ) →
        IfSome (place_of (holdings (deeds history)) (links_of (deeds history)) k) IsNamed }
{
    act_model::laws::names_are_names();
    act_model::laws::one_place();
}

/// The rows of every office may be put into a mirror: they are in range, the objects stand by place and the
/// observations by id, and neither a place, a principal designation nor an id stands twice.
pub fn rows_are_replaceable()
    ensures { (history : List Entry) → AreReplaceable (mirrored history) }
{
    act_model::laws::names_are_names();
    act_model::laws::observations_are_filed();
    act_model::laws::one_place();
    act_model::laws::stations_are_codes();
    ascii_text::laws::texts();
    identify_core::laws::given_ascend();
    packed_names::laws::printed_one_to_one();
}
