//! Keys of groups: what tells the names and the stations of observations apart.

ghost use Rattle.std.specs.Prelude.{◌≡◌};
ghost use Rattle.packed_names.specs.Order.{survey_place};
ghost use Rattle.batch_rules.specs.Groups.{name_key, group_key};
ghost use Rattle.batch_rules.specs.Marks.{name_mark, group_mark, key_mark};

use act_model::name_of;
use obs_record::{Sighting, TrackName};
use packed_names::{Designation, Survey};
use place_keys::{Text, mixed, text_mark};

/// What tells the names of observations apart.
#[derive(Clone, Copy, PartialEq, Eq)]
pub(crate) enum NameKey {
    Number(u32),
    /// The year and the index of the half-month, and the order.
    Provisional(u16, u8, u32),
    /// The survey's place among the surveys, and the number.
    Survey(u8, u16),
    /// The length of a text, and its bytes.
    Sub(u8, Text),
}

/// What tells groups apart: the name, and the station's code with its length.
#[derive(Clone, Copy, PartialEq, Eq)]
pub(crate) struct GroupKey {
    pub(crate) name: NameKey,
    pub(crate) len: u8,
    pub(crate) bytes: Text,
}

/// A number that a name makes. What kind of name it is tells it less: few names of two kinds have the same numbers.
fn name_mark(name: &NameKey) -> u64
    ensures { result ≡ name_mark name.now }
{
    match name {
        NameKey::Number(number) => *number as u64,
        NameKey::Provisional(year, index, order) => {
            mixed(*order as u64, mixed(*year as u64, *index as u64))
        }
        NameKey::Survey(place, number) => mixed(*place as u64, *number as u64),
        NameKey::Sub(_, text) => text_mark(text),
    }
}

/// A number that a group makes.
pub(crate) fn group_mark(key: &GroupKey) -> u64
    ensures { result ≡ group_mark key.now }
{
    mixed(text_mark(&key.bytes), name_mark(&key.name))
}

/// A number from 1 that a group makes, by which it is looked for. Of two groups that differ in the station alone other
/// numbers have other low bits, and the same high ones: they are mixed once more, so that the high ones differ too.
pub(crate) fn key_mark(key: &GroupKey) -> u32
    ensures { result ≡ key_mark key.now }
{
    ((mixed(0, group_mark(key)) >> 32) as u32).max(1)
}

fn survey_place(survey: Survey) -> u8
    ensures { result ≡ survey_place survey }
{
    match survey {
        Survey::PalomarLeiden => 0,
        Survey::T1 => 1,
        Survey::T2 => 2,
        Survey::T3 => 3,
    }
}

fn name_key(name: TrackName) -> NameKey
    ensures { result ≡ name_key name }
{
    match name {
        TrackName::Number(number) => NameKey::Number(number.0),
        TrackName::Designation(Designation::Provisional(p)) => {
            NameKey::Provisional(p.half.year, p.half.index, p.order)
        }
        TrackName::Designation(Designation::Survey(survey, number)) => {
            NameKey::Survey(survey_place(survey), number)
        }
        TrackName::Sub(sub) => {
            let bytes = sub.bytes;
            NameKey::Sub(sub.len, Text { bytes })
        }
    }
}

/// The key of an observation's group.
pub(crate) fn group_key(s: &Sighting) -> GroupKey
    ensures { result ≡ group_key s.now }
{
    let bytes = s.station.bytes;
    GroupKey {
        name: name_key(name_of(s)),
        len: s.station.len,
        bytes: Text { bytes },
    }
}
