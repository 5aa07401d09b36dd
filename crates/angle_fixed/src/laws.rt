//! What holds of angles that are read or rounded, whoever does so. Each function does nothing: its contract is the law.

ghost use Rattle.std.specs.Prelude.{◌≡◌, ℕ, ◌+◌, ◌*◌, ◌<◌, ◌≤◌, Bool, ℤ, pos, neg_ℤ, ◌≤ℤ◌, List, Ok};
ghost use Rattle.angle_fixed.specs.Angles.{circle, quarter};
ghost use Rattle.angle_fixed.specs.Answer.{ReadsTime, ReadsArc};
ghost use Rattle.angle_fixed.specs.Degrees.{ReadsRaDegrees, ReadsDecDegrees};
ghost use Rattle.angle_fixed.specs.Writing.{nearest};
ghost use Rattle.angle_fixed.specs.Laws.{AngleLaws};

/// The nearest number of steps is at most half a step above the value, and less than half a step below it: of two that
/// are equally near it is the greater. So a magnitude is rounded half away from zero.
pub fn half_a_step()
    ensures above { (value step : ℕ) → 0 < step → 2 * (nearest value step * step) ≤ 2 * value + step }
    ensures below { (value step : ℕ) → 0 < step → 2 * value < 2 * (nearest value step * step) + step }
    ensures only { (value step n : ℕ) → 0 < step → 2 * (n * step) ≤ 2 * value + step
        → 2 * value < 2 * (n * step) + step → n ≡ nearest value step }
{}

/// Each text of an angle has one right answer, and what was read is written again.
pub fn angles()
    ensures { AngleLaws }
{
    ascii_text::laws::texts();
}

/// A right ascension that is read is below 360 degrees, and a declination that is read at most 90 degrees either way.
pub fn angles_in_range()
    ensures time { (text : List ℕ) (ra count : ℕ) → ReadsTime text (Ok (ra, count)) → ra < circle }
    ensures arc { (text : List ℕ) (dec : ℤ) (count : ℕ) (minus : Bool) → ReadsArc text (Ok (dec, count, minus)) →
        (neg_ℤ (pos quarter) ≤ℤ dec) × (dec ≤ℤ pos quarter) }
    ensures ra_degrees { (text : List ℕ) (ra : ℕ) → ReadsRaDegrees text (Ok ra) → ra < circle }
    ensures dec_degrees { (text : List ℕ) (dec : ℤ) → ReadsDecDegrees text (Ok dec) →
        (neg_ℤ (pos quarter) ≤ℤ dec) × (dec ≤ℤ pos quarter) }
{}
