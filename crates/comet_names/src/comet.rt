//! Comets and their kinds.

ghost use Rattle.std.specs.Prelude.{◌≡◌, ◌↔◌, IsTrue};
ghost use Rattle.comet_names.specs.Ranges.{IsComet};
ghost use Rattle.comet_names.specs.Judging.{is_comet};
ghost use Rattle.comet_names.specs.Kinds.{kind_letter, kind_of};

use packed_names::{HalfMonth, is_half_month};

/// What kind of comet it is, as far as its orbit is known.
#[derive(Clone, Copy, Debug, PartialEq, Eq)]
pub enum CometKind {
    /// A comet that isn't known to be periodic.
    C,
    /// A periodic comet: it comes back in less than 200 years, or was seen to come back.
    P,
}

/// The name of a comet: its kind, the half-month of its discovery, and its number in that half-month.
#[derive(Clone, Copy, Debug, PartialEq, Eq)]
pub struct Comet {
    /// The kind; its letter begins the name.
    pub kind: CometKind,
    /// The half-month of the discovery.
    pub half: HalfMonth,
    /// 1 to 99; the comets of a half-month are counted together, whatever their kind.
    pub number: u8,
}

/// Whether the fields are in their ranges: a half-month of the years 1925 to 2099, and a number from 1 to 99. Only such
/// a comet has texts.
pub fn is_comet(comet: Comet) -> bool
    ensures test { result ≡ is_comet comet }
    ensures comet { IsTrue result ↔ IsComet comet }
{
    is_half_month(comet.half) && comet.number >= 1 && comet.number <= 99
}

/// The letter of a kind.
pub(crate) fn kind_letter(kind: CometKind) -> u8
    ensures { result ≡ kind_letter kind }
{
    match kind {
        CometKind::C => b'C',
        CometKind::P => b'P',
    }
}

/// The kind that a letter stands for.
#[tactic(auto, unfolding(crate::specs::Kinds::kind_of))]
pub(crate) fn kind_of(letter: u8) -> Option<CometKind>
    ensures { result ≡ kind_of letter }
{
    match letter {
        b'C' => Some(CometKind::C),
        b'P' => Some(CometKind::P),
        _ => None,
    }
}
