//! What a line of a batch says: an observation, or the rule that the line breaks. Names of the lines' rules and of the
//! faults of headers stand here too, since lines of both formats have them.
#![tactic(auto)]

pub mod laws;
mod line;
mod magnitude;
mod mode;
mod name;
mod rule;
mod short;
mod sighting;

pub use line::{Line, Lines};
pub use magnitude::magnitude_of;
pub use mode::is_refused_mode;
pub use name::{TrackName, track_name};
pub use rule::{HeaderFault, RuleCode};
pub use short::Short;
pub use sighting::{Coded, Shape, Sighting};
