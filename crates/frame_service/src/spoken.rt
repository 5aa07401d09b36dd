//! Replies with their texts, as they go to the sink.

ghost use Rattle.std.specs.Prelude.{◌≡◌, ◌≤◌, OnOk, OnErr};
ghost use Rattle.std.specs.Io.KnownBytes.{Appends};
ghost use Rattle.call_log.specs.Counts.{Rises};
ghost use Rattle.desk_io.specs.Outside.{AppendsPart};
ghost use Rattle.frame_service.specs.Exchanges.{spoken_bytes};

use act_model::Text;
use desk_io::{Failed, Sink};
use frame_reader::write_reply_frame;

/// A reply as it is written: its status and its text.
#[derive(Debug, Drop)]
pub struct Spoken {
    /// The status, as `200`.
    pub status: u16,
    /// The text of the answer or of the refusal.
    pub text: Text,
}

/// Writes a reply frame.
///
/// # Errors
///
/// The sink failed.
pub(crate) fn write_spoken<K: Sink>(sink: &mut K, spoken: &Spoken) -> Result<(), Failed>
    ensures whole { OnOk result (Appends (K.taken sink.old) (K.taken sink.new) (spoken_bytes spoken.now)) }
    ensures part { OnErr result (AppendsPart (K.taken sink.old) (K.taken sink.new) (spoken_bytes spoken.now)) }
    ensures counts { K.faults sink.old ≤ K.faults sink.new }
    ensures faultless { OnOk result (K.faults sink.new ≡ K.faults sink.old) }
    ensures cause { OnErr result (Rises (K.faults sink.old) (K.faults sink.new)) }
    ensures stays { K.is_open sink.new ≡ K.is_open sink.old }
{
    write_reply_frame(sink, spoken.status, spoken.text.as_slice())
}
