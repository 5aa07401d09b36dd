//! Entries with the replies to their acts, and how they are found.

ghost use Rattle.std.specs.Prelude.{◌≡◌, ◌<◌, length, option_map, IfOk, reverse, int_lt};
ghost use Rattle.std.specs.Prelude.{if◌then◌else◌};
ghost use Rattle.tracklet_file.specs.Numbering.{numbered};
ghost use Rattle.act_model.specs.History.{Kept, next_moment, next_receipt};
ghost use Rattle.act_model.specs.Replies.{entry_answer};
ghost use Rattle.act_model.specs.Step.{is_resend};
ghost use Rattle.desk_core.specs.Filed.{history_of, done_reply, AreAnswered, IsDone, IsFiledAt};

use act_model::{Entry, Reply, Verb, is_resend};
use item_list::{Bytes, NoMemory};
use obs_time::Instant;
use std::alloc::Global;
use tracklet_file::numbered;

/// An entry with the reply to its act, as it was given.
#[derive(Debug, Drop)]
pub struct Filed {
    /// The entry.
    pub entry: Entry,
    /// The reply to its caller: the act was done.
    pub reply: Reply,
}

/// Who sent the entry with this receipt. None for what isn't there.
pub fn caller_at(filed: &[Filed], receipt: u64) -> Option<u32>
    ensures { result ≡ option_map (λ entry. entry.caller) (numbered (history_of filed.now) receipt) }
{
    match numbered(filed, receipt) {
        Some(f) => Some(f.entry.caller),
        None => None,
    }
}

/// The reply of the entry at this place.
pub fn reply_at(filed: &[Filed], place: usize) -> &Reply
    requires within { place < length filed.now }
    requires answered { AreAnswered (reverse filed.now) }
    ensures reply { (k : Kept) → IsFiledAt filed.now place k → result.now ≡ done_reply k }
    ensures done { IsDone result.now }
{
    &filed[place].reply
}

/// A copy of the answer of the entry at this place.
///
/// # Errors
///
/// Memory was refused.
pub fn kept_answer(alloc: Global, filed: &[Filed], place: usize) -> Result<Bytes, NoMemory>
    requires within { place < length filed.now }
    requires answered { AreAnswered (reverse filed.now) }
    ensures { IfOk result (λ text. (k : Kept) → IsFiledAt filed.now place k → text ≡ entry_answer k.before k.entry) }
{
    match reply_at(filed, place) {
        Reply::Done(text) => Bytes::from_slice(alloc, text.as_slice()),
        Reply::Refused(_) => unreachable!("what is filed was done"),
    }
}

/// Whether the request of this verb and these bytes is the one that became the entry at this place.
pub fn is_resent(filed: &[Filed], place: usize, verb: Verb, bytes: &[u8]) -> bool
    requires { place < length filed.now }
    ensures { (k : Kept) → IsFiledAt filed.now place k → result ≡ is_resend verb bytes.now k.entry }
{
    is_resend(verb, bytes, &filed[place].entry)
}

/// The receipt of the entry at this place.
pub fn receipt_at(filed: &[Filed], place: usize) -> u64
    requires { place < length filed.now }
    ensures { (k : Kept) → IsFiledAt filed.now place k → result ≡ next_receipt k.before }
{
    place as u64 + 1
}

/// The moment of the entry that is filed next: the reading, but never before the last entry's moment.
pub fn next_moment(filed: &[Filed], reading: Instant) -> Instant
    ensures { result ≡ next_moment (history_of filed.now) reading }
{
    match filed.last() {
        None => reading,
        Some(last) => later_of(reading, last.entry.moment),
    }
}

fn later_of(reading: Instant, last: Instant) -> Instant
    ensures { result ≡ (if int_lt reading last then last else reading) }
{
    if reading.ns() < last.ns() {
        last
    } else {
        reading
    }
}
