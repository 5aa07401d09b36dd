//! Entries that come again, as a journal kept them.

ghost use Rattle.std.specs.Prelude.{◌≡◌, ◌∷◌, ◌↔◌, reverse, true, Some, None, IfOk, IfSome, IsErrOf, IsSomeAnd, IsTrue};
ghost use Rattle.std.specs.Prelude.{OnOk, OnErr};
ghost use Rattle.act_model.specs.declared.entry.Entry.{Entry};
ghost use Rattle.act_model.specs.declared.reply.Refusal.{Refusal};
ghost use Rattle.act_model.specs.Deeds.{deeds};
ghost use Rattle.act_model.specs.Legal.{entry_request, IsAdded};
ghost use Rattle.act_model.specs.Requests.{is_act};
ghost use Rattle.act_model.specs.Roster.{key_at, members};
ghost use Rattle.act_model.specs.Step.{outcome, Adds};
ghost use Rattle.desk_core.specs.Office.{IsReadyAt, IsRoomFor};
ghost use Rattle.desk_core.specs.Replaying.{act_with, entry_of, caller_named, MayFollow};
ghost use Rattle.obs_time.specs.Instants.{IsInstantNs};

use crate::filed::next_moment;
use crate::hearing::{is_number_of, size_refusal};
use crate::office::Core;
use crate::prepared::{Prep, Prepared};
use act_model::{Body, Key, Member, Refusal, Request, Verb};
use item_list::{Bytes, NoMemory};
use obs_time::Instant;
use std::error::Error;
use std::fmt;
use std::fmt::{Display, Formatter};
use tracklet_file::numbered;

/// Why an entry was not taken in again.
#[derive(Clone, Copy, Debug, PartialEq, Eq)]
pub enum ReplayFault {
    /// The office would not have made this entry where it stands.
    NotLegal,
    /// Memory was refused.
    NoMemory,
}

impl Display for ReplayFault {
    fn fmt<W: fmt::Write>(&self, f: &mut Formatter<W>) -> fmt::Result {
        f.pad(match self {
            ReplayFault::NotLegal => "the entry is not one that the office would have made there",
            ReplayFault::NoMemory => "out of memory",
        })
    }
}

impl Error for ReplayFault {}

/// The verb of an act with this number.
fn act_with(code: u8) -> Option<Verb>
    ensures found { result ≡ act_with code }
    ensures act { IfSome result (λ verb. is_act verb ≡ true) }
{
    match code {
        1 => Some(Verb::Enrol),
        2 => Some(Verb::Station),
        3 => Some(Verb::Code),
        4 => Some(Verb::Submit80),
        5 => Some(Verb::SubmitPsv),
        6 => Some(Verb::Designate),
        7 => Some(Verb::Attribute),
        8 => Some(Verb::Release),
        9 => Some(Verb::Identify),
        10 => Some(Verb::Separate),
        11 => Some(Verb::Verdict),
        12 => Some(Verb::Number),
        13 => Some(Verb::Retract),
        14 => Some(Verb::Opening),
        _ => None,
    }
}

/// The key of the caller with this number, and the founding officer's where nobody has it.
fn key_at(founder: &Key, members: &[Member], caller: u32) -> Key
    ensures { result ≡ key_at founder.now (reverse members.now) caller }
{
    match numbered(members, u64::from(caller)) {
        Some(member) => member.key,
        None => *founder,
    }
}

/// Why an act that was refused, or whose number was used, is no entry of a legal history.
fn fault_of(refusal: &Refusal) -> ReplayFault
    ensures { result ≡ ReplayFault.NoMemory ↔ refusal.now ≡ Refusal.NoMemory }
{
    match refusal {
        Refusal::NoMemory => ReplayFault::NoMemory,
        _ => ReplayFault::NotLegal,
    }
}

impl Core {
    /// Whether the key of the caller with this number is known as that caller's.
    fn has_own_key(&self, caller: u32) -> bool
        ensures { IsTrue result ↔
            (caller_named self.now.founder (members (deeds self.now.history)) caller ≡ Some caller) }
    {
        let key = key_at(self.founder(), self.members(), caller);
        match self.roster().caller_of(self.founder(), &key) {
            Some(known) => known.number == caller,
            None => false,
        }
    }

    /// Whether an entry of these fields may come next, as far as is seen without the meaning of its body. No memory is
    /// taken for it.
    fn may_follow(&self, caller: u32, number: u64, moment: Instant, verb: Verb, body: &[u8]) -> bool
        ensures { IsTrue result ↔ MayFollow self.now.founder self.now.history (record {
          caller = caller;
          number = number;
          moment = moment;
          verb = verb;
          body = body.now;
        }) }
    {
        size_refusal(body).is_none()
            && is_number_of(verb, number)
            && self.has_own_key(caller)
            && self.book().find(caller, number).is_none()
            && next_moment(self.filed(), moment).ns() == moment.ns()
    }

    /// The act of this request, ready to become the next entry.
    fn come_again(&mut self, request: &Request, moment: Instant) -> Result<Prepared, ReplayFault>
        requires act { is_act request.now.verb ≡ true }
        ensures ready { IfOk result (λ ready. outcome self.old.founder None self.old.history request.now moment
            ≡ Adds ready.entry) }
        ensures at { IfOk result (IsReadyAt self.new.history) }
        ensures room { IfOk result (λ ready. IsRoomFor ready.deed self.new.spare) }
        ensures not_legal { IsErrOf result ReplayFault.NotLegal → (entry : Entry) →
            outcome self.old.founder None self.old.history request.now moment ≡ Adds entry → ⊥ }
        ensures history { self.new.history ≡ self.old.history }
        ensures founder { self.new.founder ≡ self.old.founder }
    {
        match self.prepare(request, moment, None) {
            Prep::Ready(prepared) => Ok(prepared),
            Prep::Kept(_) => Err(ReplayFault::NotLegal),
            Prep::Refused(refusal) => Err(fault_of(&refusal)),
        }
    }

    /// The request by which the caller with this number asks for what the verb and the body say.
    fn request_again(
        &self,
        caller: u32,
        number: u64,
        verb: Verb,
        body: &[u8],
    ) -> Result<Request, NoMemory>
        ensures asks { IfOk result (λ request. (entry : Entry) → entry.caller ≡ caller → entry.number ≡ number →
            entry.verb ≡ verb → entry.body ≡ body.now → request
            ≡ entry_request self.now.founder self.now.history entry) }
        ensures verb { IfOk result (λ request. request.verb ≡ verb) }
    {
        let body = Bytes::from_slice(self.allocator(), body)?;
        Ok(Request {
            key: key_at(self.founder(), self.members(), caller),
            number: Some(number),
            verb,
            body: Body::Whole(body),
        })
    }

    /// Adds the entry of these fields, if the office would have made it at this history: its moment is one that a clock
    /// gives, in nanoseconds since 1970, its verb is the number of an act, and the act of its caller, under its number
    /// and with its body, becomes this very entry at that moment. The entry is worked out as any other, each line of a
    /// batch by all rules.
    ///
    /// # Errors
    ///
    /// `NotLegal` exactly where the office would not have made this entry, and `NoMemory` where memory was refused:
    /// never for an entry that can't come next by its moment, its caller, its number or its body's size. The history is
    /// then as it was.
    pub fn replay(
        &mut self,
        caller: u32,
        number: u64,
        moment: i64,
        verb: u8,
        body: &[u8],
    ) -> Result<(), ReplayFault>
        ensures added { OnOk result (IsSomeAnd (entry_of caller number moment verb body.now) (λ entry.
            IsAdded self.old.founder self.old.history entry × (self.new.history ≡ entry ∷ self.old.history))) }
        ensures not_legal { IsErrOf result ReplayFault.NotLegal →
            IfSome (entry_of caller number moment verb body.now) (λ entry.
            IsAdded self.old.founder self.old.history entry → ⊥) }
        ensures no_memory { IsErrOf result ReplayFault.NoMemory →
            IsSomeAnd (entry_of caller number moment verb body.now) (λ entry.
            IsInstantNs entry.moment × MayFollow self.old.founder self.old.history entry) }
        ensures as_before { OnErr result (self.new.history ≡ self.old.history) }
        ensures founder { self.new.founder ≡ self.old.founder }
    {
        let Some(verb) = act_with(verb) else {
            return Err(ReplayFault::NotLegal);
        };
        let Some(moment) = Instant::new(moment) else {
            return Err(ReplayFault::NotLegal);
        };
        if !self.may_follow(caller, number, moment, verb, body) {
            return Err(ReplayFault::NotLegal);
        }
        let Ok(request) = self.request_again(caller, number, verb, body) else {
            return Err(ReplayFault::NoMemory);
        };
        match self.come_again(&request, moment) {
            Ok(prepared) => {
                self.commit(prepared);
                Ok(())
            }
            Err(fault) => Err(fault),
        }
    }
}
