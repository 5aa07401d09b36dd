//! Replies with their texts.

ghost use Rattle.comets_command.specs.Spoken.{IsSpoken};

use comet_model::{CometReply, comet_reply_text, comet_status};
use frame_service::Spoken;

/// A reply with its status and its text. It takes no memory.
pub fn speak(reply: CometReply) -> Spoken
    ensures { IsSpoken reply result }
{
    let status = comet_status(&reply);
    Spoken {
        status,
        text: comet_reply_text(reply),
    }
}
