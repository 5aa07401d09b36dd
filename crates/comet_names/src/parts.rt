//! What the text of a comet shows, and whether it is in range.

ghost use Rattle.std.specs.Prelude.{◌≡◌, IfOk};
ghost use Rattle.packed_names.specs.Judging.{answered};
ghost use Rattle.comet_names.specs.Judging.{is_comet};
ghost use Rattle.comet_names.specs.Ranges.{IsComet};
ghost use Rattle.comet_names.specs.Reading.{comet_of};

use crate::comet::{Comet, CometKind};
use packed_names::{NameFault, read_half};

/// What the text of a comet shows, in range or not.
#[derive(Clone, Copy)]
pub(crate) struct Parts {
    pub(crate) kind: CometKind,
    /// The six bytes that stand for the half-month, as it is printed.
    pub(crate) half: [u8; 6],
    pub(crate) number: u64,
}

/// The comet of these parts, where they are in range.
#[tactic(auto, unfolding(crate::specs::Reading::comet_of, ascii_text::specs::Judged::answer_of))]
pub(crate) fn judged(parts: Parts) -> Result<Comet, NameFault>
    ensures exact { result ≡ answered is_comet (comet_of parts) }
    ensures in_range { IfOk result IsComet }
{
    match read_half(&parts.half) {
        Ok(half) if parts.number >= 1 && parts.number <= 99 => Ok(Comet {
            kind: parts.kind,
            half,
            number: parts.number as u8,
        }),
        Ok(_) => Err(NameFault::OutOfRange),
        Err(fault) => Err(fault),
    }
}
