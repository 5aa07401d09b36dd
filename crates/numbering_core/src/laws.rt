//! Laws of numbers. The contract of each function is the law, for all lists of numbers that were given one after the
//! other to designations that had none.

ghost use Rattle.numbering_core.specs.Unbroken.{WithoutGap, NumbersOnce, DesignationsOnce};

/// Numbers run without a gap from the first one, each is given once, and each designation has one at most.
pub fn unbroken_numbers()
    ensures without_gap { WithoutGap }
    ensures numbers_once { NumbersOnce }
    ensures designations_once { DesignationsOnce }
{
    packed_names::laws::orders();
}
