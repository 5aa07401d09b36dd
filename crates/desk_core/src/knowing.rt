//! What the rules for lines ask of the office.

use crate::office::Core;
use act_model::Known;
use angle_fixed::{Dec, Ra};
use obs_record::{Line, Short};
use obs_time::Instant;
use packed_names::{Designation, Name};

impl Known for Core {
    ghost use Rattle.act_model.specs.Deeds.{deeds};
    ghost use Rattle.act_model.specs.Knowing.{known_of};

    ghost office = { λ core. known_of (deeds core.history) };

    fn has_live(&self, station: Short, time: Instant, ra: Ra, dec: Dec) -> bool {
        self.held().has_live(station, time, ra, dec)
    }

    fn have_live(&self, lines: &[Line], live: &mut Vec<bool>) {
        self.held().have_live(lines, live);
    }

    fn stands_for(&self, name: Name) -> Option<Designation> {
        object_rules::stands_for(self, name)
    }

    fn principal(&self, d: Designation) -> Option<Designation> {
        object_rules::principal_of(self, d)
    }
}
