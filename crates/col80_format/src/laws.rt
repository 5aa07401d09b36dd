//! Laws of the format, for all lines. Nothing runs here: what the functions promise is the law.

ghost use Rattle.std.specs.Prelude.{◌≡◌, ℕ, List, Result, Ok};
ghost use Rattle.obs_record.specs.declared.rule.RuleCode.{RuleCode};
ghost use Rattle.obs_record.specs.declared.sighting.Sighting.{Sighting};
ghost use Rattle.obs_record.specs.Filed.{IsFiled, AreStated};
ghost use Rattle.std.specs.Str.Lines.{lines};
ghost use Rattle.col80_format.specs.Rules.{IsReading};
ghost use Rattle.col80_format.specs.Batch.{lines_of};
ghost use Rattle.col80_format.specs.Feeding.{none_seen, seen_all};
ghost use Rattle.col80_format.specs.LawsBelow.{Laws};

/// The laws of the crates below, together.
pub(crate) fn below()
    ensures { Laws }
{
    ascii_text::laws::texts();
    angle_fixed::laws::angles();
    obs_time::laws::times();
    packed_names::laws::names();
    obs_record::laws::records();
    obs_time::laws::moments_in_range();
    angle_fixed::laws::angles_in_range();
    obs_record::laws::own_names();
}

/// A line has one reading, and no two.
pub fn one_reading()
    ensures some { (line : List ℕ) → (reading : Result Sighting RuleCode) × IsReading line reading }
    ensures only { (line : List ℕ) (one other : Result Sighting RuleCode) → IsReading line one → IsReading line other
        → one ≡ other }
{
    below();
}

/// A batch says what its lines say that are read one after another, as a reader of pieces reads them.
pub fn batch_read()
    ensures { (body : List ℕ) → (seen_all none_seen (lines body)).found ≡ lines_of body }
{}

/// What a line says that keeps every rule may be filed: its fields are in their ranges, its mode is taken, and its
/// station has 3 bytes. So it is of each line of a batch.
pub fn lines_in_range()
    ensures line { (line : List ℕ) (s : Sighting) → IsReading line (Ok s) → IsFiled s }
    ensures batch { (body : List ℕ) → AreStated (lines_of body) }
{
    below();
}
