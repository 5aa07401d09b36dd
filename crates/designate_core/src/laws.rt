//! Laws of rows. The contract of each function is the law, for all lists of acts.

ghost use Rattle.designate_core.specs.Unbroken.{UnbrokenRow, EachWithinLimit, EachGivenOnce, EachAboveOpening};
ghost use Rattle.designate_core.specs.Unbroken.{NoneBeforeBegun, BegunByCount, CountsGrow};

/// Where each act fits those before it, the orders that objects took in a half-month are o + 1, o + 2, o + 3 and so on,
/// in the order of the takes, where o is its opening count, and they are at most its limit. No designation was taken
/// twice, and none that was given elsewhere.
pub fn unbroken_rows()
    ensures in_order { UnbrokenRow }
    ensures within { EachWithinLimit }
    ensures once { EachGivenOnce }
    ensures above { EachAboveOpening }
{
    packed_names::laws::orders();
}

/// In a half-month that isn't begun no designation was given, and in one that is begun there was, where each act fits
/// those before it.
pub fn begun_rows()
    ensures none { NoneBeforeBegun }
    ensures count { BegunByCount }
{}

/// With each act that fits those before it, neither the opening count of a half-month nor the count of what was given
/// in it falls.
pub fn counts_grow()
    ensures { CountsGrow }
{
    packed_names::laws::orders();
}
