//! Laws of the format, for all batches and lines. Nothing runs here: what the functions promise is the law.

ghost use Rattle.std.specs.Prelude.{◌≡◌, ◌↔◌, ℕ, ◌+◌, ◌<◌, length, true, ◌∷◌, ◌++◌, List, codes, Ok, Err, Result};
ghost use Rattle.std.specs.List.{Contains};
ghost use Rattle.ascii_text.specs.Blanks.{blanks};
ghost use Rattle.obs_record.specs.declared.line.Line.{Line};
ghost use Rattle.obs_record.specs.declared.rule.HeaderFault.{HeaderFault};
ghost use Rattle.obs_record.specs.declared.rule.RuleCode.{RuleCode};
ghost use Rattle.obs_record.specs.declared.sighting.Sighting.{Sighting};
ghost use Rattle.obs_record.specs.Filed.{IsStated, AreStated};
ghost use Rattle.ades_psv.specs.Fields.{Fields};
ghost use Rattle.text_lines.specs.Pieces.{joined};
ghost use Rattle.ades_psv.specs.Headers.{is_version};
ghost use Rattle.ades_psv.specs.LawsBelow.{Laws};
ghost use Rattle.ades_psv.specs.Rules.{IsReading};
ghost use Rattle.text_lines.specs.Lines.{numbered_lines};
ghost use Rattle.ades_psv.specs.Batch.{DataLine, data_lines_of, psv_lines_of};
ghost use Rattle.ades_psv.specs.Standing.{StandsBelow};
ghost use Rattle.ades_psv.specs.Feeding.{unfed, feed_piece, feed_pieces, HasRoom, lines_at_end};

use text_lines::laws;

/// The laws of the crates below, together.
pub(crate) fn below()
    ensures { Laws }
{
    ascii_text::laws::texts();
    angle_fixed::laws::angles();
    obs_time::laws::times();
    packed_names::laws::names();
    obs_record::laws::records();
    obs_time::laws::moments_in_range();
    angle_fixed::laws::angles_in_range();
    obs_record::laws::own_names();
}

/// In whatever pieces a batch comes, it says the same.
#[tactic(auto, using(crate::proofs::Readers::one_text, crate::proofs::Readers::finished_text))]
pub fn any_pieces()
    ensures { (pieces : List (List ℕ)) → lines_at_end (feed_pieces unfed pieces) ≡ psv_lines_of (joined pieces) }
{
    laws::lines();
}

/// What a reader has come to rests on the text that was fed, and not on its pieces.
#[tactic(auto, using(crate::proofs::Readers::one_text))]
pub fn one_text()
    ensures { (pieces : List (List ℕ)) → feed_pieces unfed pieces ≡ feed_piece unfed (joined pieces) }
{
    laws::lines();
}

/// A reader can take this many bytes more where they and those that were fed are together fewer than 4,294,967,295.
#[tactic(auto, using(crate::proofs::Readers::text_room))]
pub fn room()
    ensures { (text : List ℕ) (more : ℕ) → length text + more < 4294967295 → HasRoom (feed_piece unfed text) more }
{
    laws::lines();
}

/// The first fault in the complete lines of the front of a batch is the fault of the batch, whatever may follow.
#[tactic(auto, using(crate::proofs::Readers::fault_stays))]
pub fn faults_stay()
    ensures { (text more : List ℕ) (fault : HeaderFault × ℕ) → feed_piece unfed text ≡ Err fault
        → psv_lines_of (text ++ more) ≡ Err fault }
{
    laws::lines();
}

/// The data lines of a batch are the lines below a column header: each has the columns of the nearest column header
/// above it, which breaks no rule, and each line that stands so is a data line.
pub fn nearest_header()
    ensures { (body : List ℕ) (data_lines : List DataLine) → data_lines_of body ≡ Ok data_lines
        → (data_line : DataLine) → Contains data_lines data_line ↔ StandsBelow (numbered_lines body) data_line }
{}

/// The line of the version is `#`, blanks, `version=2017` and blanks, no blank being asked for.
pub fn version_line()
    ensures { (line : List ℕ) → (is_version line ≡ true)
        ↔ ((before : ℕ) × (after : ℕ) × (line ≡ 35 ∷ (blanks before ++ (codes "version=2017" ++ blanks after)))) }
{
    ascii_text::laws::texts();
}

/// A data line has one reading, and no two.
pub fn one_reading()
    ensures some { (fields : Fields) → (reading : Result Sighting RuleCode) × IsReading fields reading }
    ensures only { (fields : Fields) (one other : Result Sighting RuleCode) → IsReading fields one
        → IsReading fields other → one ≡ other }
{
    below();
}

/// What a data line says that keeps every rule has its fields in their ranges, and a mode that is taken. So it is of
/// each line of a batch.
#[tactic(auto, using(crate::proofs::RangeLaws::batch_stated))]
pub fn lines_in_range()
    ensures line { (fields : Fields) (s : Sighting) → IsReading fields (Ok s) → IsStated s }
    ensures batch { (body : List ℕ) (lines : List Line) → psv_lines_of body ≡ Ok lines → AreStated lines }
{
    below();
}
