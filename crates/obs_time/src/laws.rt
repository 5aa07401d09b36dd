//! What holds of the texts of moments, whoever reads or writes them. Each function does nothing: its contract is the
//! law.

ghost use Rattle.std.specs.Prelude.{ℕ, ℤ, List, Ok};
ghost use Rattle.obs_time.specs.Instants.{IsInstantNs};
ghost use Rattle.obs_time.specs.DayText.{IsDayAnswer};
ghost use Rattle.obs_time.specs.IsoText.{IsIsoAnswer};
ghost use Rattle.obs_time.specs.Laws.{TimeLaws};

/// Each text of a moment has one right answer, and what was read is written again.
pub fn times()
    ensures { TimeLaws }
{
    ascii_text::laws::texts();
}

/// A moment that is read lies in the years 1800 to 2199.
pub fn moments_in_range()
    ensures day { (text : List ℕ) (t : ℤ) (count : ℕ) → IsDayAnswer text (Ok (t, count)) → IsInstantNs t }
    ensures iso { (text : List ℕ) (t : ℤ) → IsIsoAnswer text (Ok t) → IsInstantNs t }
{}
