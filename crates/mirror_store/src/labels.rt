//! The names in rows.

ghost use Rattle.std.specs.Prelude.{◌≡◌, []};
ghost use Rattle.packed_names.specs.Ranges.{IsDesignation};
ghost use Rattle.mirror_store.specs.Mirrored.{IsNamed, label_of, name_at, printed_label};

use act_model::Place;
use packed_names::{Designation, Label, Name};

/// The printed form of a designation.
pub(crate) fn printed(d: Designation) -> Label
    requires { IsDesignation d }
    ensures { result ≡ printed_label d }
{
    packed_names::print(Name::Designation(d))
}

/// The name of an isolated observation.
fn empty() -> Label
    ensures { result ≡ label_of [] }
{
    Label {
        len: 0,
        bytes: [0; 13],
    }
}

/// The name that an observation has at its place. None for a retracted one.
pub(crate) fn name_at(place: Place) -> Option<Label>
    requires { IsNamed place }
    ensures { result ≡ name_at place }
{
    match place {
        Place::Retracted => None,
        Place::Isolated => Some(empty()),
        Place::Object(p) => Some(printed(p)),
    }
}
