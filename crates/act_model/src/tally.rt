//! The counts of what stands where.

ghost use Rattle.std.specs.Prelude.{◌≡◌, ◌++◌, OnOk, IfOk};
ghost use Rattle.act_model.specs.Tallies.{tally_text};

use crate::texts::push_count_line;
use item_list::{Bytes, NoMemory};
use std::alloc::Global;

/// How many entries the office has, and how many observations stand in each place.
#[derive(Clone, Copy, Debug, PartialEq, Eq)]
pub struct Tally {
    /// The entries of its history.
    pub entries: u64,
    /// The live observations of isolated tracklets.
    pub isolated: u64,
    /// The live observations of tracklets that stand in objects.
    pub objects: u64,
    /// The retracted observations.
    pub retracted: u64,
    /// All observations that it ever accepted.
    pub accepted: u64,
}

// The lines of a tally.
fn push_tally(out: &mut Bytes, tally: Tally) -> Result<(), NoMemory>
    ensures { OnOk result (out.new ≡ out.old ++ tally_text tally) }
{
    push_count_line(out, b"entries ", tally.entries)?;
    push_count_line(out, b"isolated ", tally.isolated)?;
    push_count_line(out, b"objects ", tally.objects)?;
    push_count_line(out, b"retracted ", tally.retracted)?;
    push_count_line(out, b"accepted ", tally.accepted)
}

/// The answer to a query for the tally: a line for each of its counts.
///
/// # Errors
///
/// Memory was refused.
pub fn tally_answer(alloc: Global, tally: Tally) -> Result<Bytes, NoMemory>
    ensures { IfOk result (λ text. text ≡ tally_text tally) }
{
    let mut out = Bytes::new(alloc);
    push_tally(&mut out, tally)?;
    Ok(out)
}
