//! How many bytes of a journal the entries take.

ghost use Rattle.std.specs.Prelude.{◌≡◌, ◌<◌, ◌^◌, length, IfSome, IfNone};
ghost use Rattle.act_model.specs.Rows.{first_row};
ghost use Rattle.act_model.specs.Refusals.{entry_size, bytes_used, full_rows};
ghost use Rattle.desk_core.specs.Preparing.{IsWithin};

use crate::office::Core;
use act_model::Refusal;

/// How many bytes of a journal an entry with this body takes.
pub fn entry_size(body: &[u8]) -> u64
    ensures { result ≡ entry_size body.now }
{
    body.len() as u64 + 58
}

impl Core {
    /// The refusal of an entry for which a journal with this limit has no room.
    pub(crate) fn full_refusal(&self, limit: Option<u64>, body: &[u8]) -> Option<Refusal>
        requires space { IfSome limit (λ _. bytes_used self.now.history < 2 ^ 64) }
        ensures row { result ≡ first_row (full_rows limit self.now.history body.now) }
        ensures within { IfNone result (IsWithin limit self.now.history body.now) }
    {
        let limit = limit?;
        let used = self.used();
        let more = entry_size(body);
        if u128::from(used) + u128::from(more) > u128::from(limit) {
            return Some(Refusal::JournalFull { used, more, limit });
        }
        None
    }
}
