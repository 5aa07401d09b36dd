//! What holds of the parts of an observation. Each function does nothing: its contract is the law.

ghost use Rattle.std.specs.Prelude.{ℕ, ◌≤◌, List, length, All};
ghost use Rattle.obs_record.specs.Filed.{IsVisible, IsOwnName};
ghost use Rattle.obs_record.specs.Laws.{RecordLaws};
ghost use Rattle.obs_record.specs.Short.{kept_short};

/// Short texts are kept whole, and magnitudes have the decimals that they are made of.
pub fn records()
    ensures { RecordLaws }
{}

/// A text of 1 to 12 printed characters, none of them a blank, is kept as a temporary designation.
pub fn own_names()
    ensures { (text : List ℕ) → 1 ≤ length text → length text ≤ 12 → All IsVisible text → IsOwnName (kept_short text) }
{}
