//! What the rules of batches ask of an office.

ghost use Rattle.std.specs.Prelude.{◌≡◌, ◌≤◌, ◌+◌, ◌++◌, length, map, vec_len, vec_capacity};
ghost use Rattle.tracklet_file.specs.Observations.{is_live_line};
ghost use Rattle.act_model.specs.Known.{KnownOffice};

use angle_fixed::{Dec, Ra};
use obs_record::{Line, Short};
use obs_time::Instant;
use packed_names::{Designation, Name};

/// What the rules for the lines of a batch ask of an office.
pub trait Known {
    /// The answers of the office to all that the rules may ask.
    ghost office: { Self → KnownOffice };

    /// Whether a live observation has this station, time and position.
    fn has_live(&self, station: Short, time: Instant, ra: Ra, dec: Dec) -> bool
        ensures { result ≡ (office self.now).has_live station time ra dec };

    /// Whether a live observation has the place of each line's observation: an answer for each line, after those that
    /// are there. A line without an observation has no place. It takes no memory: there is room for the answers.
    fn have_live(&self, lines: &[Line], live: &mut Vec<bool>)
        requires { vec_len live.old + length lines.now ≤ vec_capacity live.old }
        ensures live { live.new.items ≡ live.old.items ++ map (is_live_line (office self.now).has_live) lines.now }
        ensures capacity { vec_capacity live.new ≡ vec_capacity live.old };

    /// The designation that a number or a designation stands for: a designation for itself, where the office gave it, a
    /// number for the designation that has it. None for any other.
    fn stands_for(&self, name: Name) -> Option<Designation>
        ensures { result ≡ (office self.now).stands_for name };

    /// The principal designation of the object that a designation belongs to. None for one that the office didn't give.
    fn principal(&self, d: Designation) -> Option<Designation>
        ensures { result ≡ (office self.now).principal d };
}
