//! With how many decimals an observation is written.

ghost use Rattle.std.specs.Prelude.{◌≡◌, ◌≤◌};
ghost use Rattle.obs_record.specs.Sighting.{IsShape};
ghost use Rattle.col80_format.specs.LineText.{form_of, note_of};

use obs_record::Shape;

/// The decimals of the day, of the second of right ascension, of the arcsecond of declination and of the magnitude, and
/// whether a minus is asked for before a declination of zero.
#[derive(Clone, Copy)]
pub(crate) struct Form {
    pub(crate) days: u8,
    pub(crate) seconds: u8,
    pub(crate) arcseconds: u8,
    pub(crate) minus: bool,
    pub(crate) places: u8,
}

/// The decimals with which an observation is written that came in this shape.
pub(crate) fn form_of(shape: Shape) -> Form
    requires { IsShape shape }
    ensures form { result ≡ form_of shape }
    ensures days { (1 ≤ result.days) × (result.days ≤ 6) }
    ensures angles { (result.seconds ≤ 3) × (result.arcseconds ≤ 2) }
    ensures places { result.places ≤ 2 }
{
    match shape {
        Shape::Eighty {
            date,
            ra,
            dec,
            minus,
            mag,
        } => Form {
            days: date,
            seconds: ra,
            arcseconds: dec,
            minus,
            places: mag,
        },
        Shape::Psv { mag } => Form {
            days: 6,
            seconds: 3,
            arcseconds: 2,
            minus: false,
            places: mag.min(2),
        },
    }
}

/// Note 1 of a line: what an 80-column line came with, and a blank for another line.
pub(crate) fn note_of(shape: Shape, note1: u8) -> u8
    ensures { result ≡ note_of shape note1 }
{
    match shape {
        Shape::Eighty { .. } => note1,
        Shape::Psv { .. } => b' ',
    }
}
