//! What becomes of an act, worked out question by question, with the memory for it.

ghost use Rattle.std.specs.Prelude.{◌≡◌, ◌≤◌, ◌<◌, ◌^◌, length, unwrap_or, true, Some, Ok, Err, IfOk, IfErr};
ghost use Rattle.std.specs.Prelude.{ℕ, ℤ, ◌+◌, ◌↔◌, Option, option_map, IfSome, IsTrue};
ghost use Rattle.act_model.specs.declared.request.TheConstants.{BODY_BYTES};
ghost use Rattle.act_model.specs.declared.roster.TheConstants.{CALLERS};
ghost use Rattle.act_model.specs.Rows.{IsDue};
ghost use Rattle.act_model.specs.Requests.{is_act};
ghost use Rattle.act_model.specs.Acts.{IsReadAsked};
ghost use Rattle.act_model.specs.Roster.{members};
ghost use Rattle.act_model.specs.OfficeTables.{tables_of, with_row};
ghost use Rattle.act_model.specs.Deeds.{deed_of, deeds};
ghost use Rattle.act_model.specs.History.{next_receipt, next_moment};
ghost use Rattle.act_model.specs.Hearing.{asked_of};
ghost use Rattle.act_model.specs.Refusals.{bytes_used, work_within};
ghost use Rattle.desk_core.specs.Doing.{IsAtOnce};
ghost use Rattle.act_model.specs.Replies.{deed_answer};
ghost use Rattle.act_model.specs.Step.{outcome, unless_refused, new_entry};
ghost use Rattle.desk_core.specs.Claims.{claim_of, announcement, kept_for, act_by};
ghost use Rattle.desk_core.specs.Filed.{WasRead};
ghost use Rattle.desk_core.specs.Office.{IsOfAct, IsReadyAt, IsRoomFor, Fits};
ghost use Rattle.desk_core.specs.Preparing.{IsPrepared, IsReplied};

use crate::filed::{Filed, is_resent, kept_answer, next_moment, receipt_at};
use crate::hearing::{Claim, bytes_in, claim_of, hear};
use crate::letting_go::{let_go_deed, let_go_entry, let_go_heard};
use crate::office::Core;
use crate::prepared::{Prep, Prepared};
use act_model::{
    Deed, Entry, Heard, Key, Refusal, Reply, Request, Verb, batch_answer, enrol_answer,
    numbers_answer, object_answer, opening_answer, receipt_answer,
};
use item_list::{Bytes, NoMemory};
use obs_time::Instant;
use packed_names::Designation;
use station_tables::Tables;
use std::alloc::{AllocError, Global};

/// Whether the numbers of this many observations and of this many more fit 64 bits. No memory holds as many.
fn are_numbered(before: u64, more: u64) -> bool
    ensures { IsTrue result ↔ (before + more < 2 ^ 64) }
{
    more <= u64::MAX - before
}

/// What an entry needs beside its deed: its answer, the copy of it that is filed, and the tables with the deed, or None
/// where they stay.
#[derive(Drop)]
struct Provision {
    answer: Bytes,
    kept: Bytes,
    tables: Option<Tables>,
}

impl Core {
    /// What a request says of itself before its body is read. No memory is taken for it.
    pub(crate) fn claim_of(
        &self,
        verb: Verb,
        number: Option<u64>,
        key: &Key,
    ) -> Result<Claim, Refusal>
        ensures { result ≡
            claim_of self.now.founder (members (deeds self.now.history)) verb number key.now }
    {
        claim_of(self.founder(), self.roster(), verb, number, key)
    }

    /// What becomes of an act, where a refusal is an error.
    pub(crate) fn try_prepare(
        &mut self,
        request: &Request,
        reading: Instant,
        limit: Option<u64>,
    ) -> Result<Prep, Refusal>
        requires act { is_act request.now.verb ≡ true }
        requires space { IfSome limit (λ _. bytes_used self.old.history < 2 ^ 64) }
        ensures answer { IsPrepared limit self.old.history
            (outcome self.old.founder limit self.old.history request.now reading) self.new.spare result }
        ensures announced { IfErr
            (announcement self.old.founder (members (deeds self.old.history)) request.now)
            (λ refusal. result ≡ Err refusal) }
        ensures history { self.new.history ≡ self.old.history }
        ensures founder { self.new.founder ≡ self.old.founder }
    {
        let bytes = match bytes_in(&request.body) {
            Ok(bytes) => bytes,
            Err(refusal) => return Err(refusal),
        };
        let claim = match self.claim_of(request.verb, request.number, &request.key) {
            Ok(claim) => claim,
            Err(refusal) => return Err(refusal),
        };
        self.prepare_claimed(claim, request.verb, bytes, reading, limit)
    }

    /// The place of the entry that the number of such a request stands for, where its caller has used the number. No
    /// memory is taken for it.
    pub(crate) fn place_for(&self, claim: Claim) -> Option<usize>
        ensures { result ≡ option_map (λ k. length k.before) (kept_for self.now.history claim) }
    {
        match claim.caller {
            Some(caller) => self.book().find(caller.number, claim.number),
            None => None,
        }
    }

    /// What becomes of an act that said so much of itself: the reply that is kept for its number, where it was used.
    fn prepare_claimed(
        &mut self,
        claim: Claim,
        verb: Verb,
        bytes: &[u8],
        reading: Instant,
        limit: Option<u64>,
    ) -> Result<Prep, Refusal>
        requires act { is_act verb ≡ true }
        requires short { length bytes.now ≤ BODY_BYTES }
        requires space { IfSome limit (λ _. bytes_used self.old.history < 2 ^ 64) }
        ensures answer { IsPrepared limit self.old.history
            (act_by limit self.old.history claim verb bytes.now
            (next_moment self.old.history reading)) self.new.spare result }
        ensures history { self.new.history ≡ self.old.history }
        ensures founder { self.new.founder ≡ self.old.founder }
    {
        let alloc = self.allocator();
        if let Some(place) = self.place_for(claim) {
            return match self.reply_again(alloc, place, claim, verb, bytes) {
                Ok(reply) => Ok(Prep::Kept(reply)),
                Err(refusal) => Err(refusal),
            };
        }
        let heard = match hear(alloc, claim, verb, bytes) {
            Ok(heard) => heard,
            Err(refusal) => return Err(refusal),
        };
        let moment = next_moment(self.filed(), reading);
        self.prepare_new(alloc, heard, bytes, moment, limit)
    }

    /// The reply to an act under a number that stands for the entry at this place: to the request that became the entry
    /// the entry's own answer, without reading its body again, and to another one a refusal.
    fn reply_again(
        &self,
        alloc: Global,
        place: usize,
        claim: Claim,
        verb: Verb,
        bytes: &[u8],
    ) -> Result<Reply, Refusal>
        requires act { is_act verb ≡ true }
        requires short { length bytes.now ≤ BODY_BYTES }
        requires used { Some place ≡ option_map (λ k. length k.before) (kept_for self.now.history claim) }
        ensures { (limit : Option ℕ) (moment : ℤ) →
            IsReplied (act_by limit self.now.history claim verb bytes.now moment) result }
    {
        let filed = self.filed();
        if is_resent(filed, place, verb, bytes) {
            return match kept_answer(alloc, filed, place) {
                Ok(text) => Ok(Reply::Done(text)),
                Err(_) => Err(Refusal::NoMemory),
            };
        }
        match hear(alloc, claim, verb, bytes) {
            Ok(heard) => {
                let_go_heard(heard);
                Ok(Reply::Refused(Refusal::OtherRequest {
                    receipt: receipt_at(filed, place),
                }))
            }
            Err(refusal) => Err(refusal),
        }
    }

    /// What becomes of an act whose number was not used, at this moment.
    fn prepare_new(
        &mut self,
        alloc: Global,
        heard: Heard,
        bytes: &[u8],
        moment: Instant,
        limit: Option<u64>,
    ) -> Result<Prep, Refusal>
        requires act { is_act heard.verb ≡ true }
        requires short { length bytes.now ≤ BODY_BYTES }
        requires space { IfSome limit (λ _. bytes_used self.old.history < 2 ^ 64) }
        requires asked { asked_of heard.verb bytes.now ≡ Ok heard.asked }
        requires read { IsReadAsked heard.asked }
        ensures answer { IsPrepared limit self.old.history
            (unless_refused (work_within limit self.old.history bytes.now moment heard)
            (new_entry heard bytes.now moment))
            self.new.spare result }
        ensures refused { IsAtOnce self.old.history heard →
            IfErr (work_within limit self.old.history bytes.now moment heard) (λ refusal. result ≡ Err refusal) }
        ensures history { self.new.history ≡ self.old.history }
        ensures founder { self.new.founder ≡ self.old.founder }
    {
        act_model::laws::deeds_are_worked_out_once();
        let caller = heard.caller.number;
        let number = heard.number;
        let verb = heard.verb;
        let deed = match self.work_out(alloc, heard, moment) {
            Ok(deed) => deed,
            Err(refusal) => return Err(refusal),
        };
        if let Some(refusal) = self.full_refusal(limit, bytes) {
            let_go_deed(deed);
            return Err(refusal);
        }
        let Ok(body) = Bytes::from_slice(alloc, bytes) else {
            let_go_deed(deed);
            return Err(Refusal::NoMemory);
        };
        let entry = Entry {
            caller,
            number,
            moment,
            verb,
            body,
        };
        match self.ready(alloc, entry, deed) {
            Ok(prepared) => Ok(Prep::Ready(prepared)),
            Err(_) => Err(Refusal::NoMemory),
        }
    }

    /// An entry that does this deed, with its answer, the tables with it, and room for it.
    fn ready(&mut self, alloc: Global, entry: Entry, deed: Deed) -> Result<Prepared, NoMemory>
        requires act { IsOfAct entry }
        requires read { WasRead entry }
        requires deed { deed_of (deeds self.old.history) entry ≡ deed }
        requires fits { Fits (deeds self.old.history) deed }
        ensures entry { IfOk result (λ ready. ready.entry ≡ entry) }
        ensures at { IfOk result (λ ready. IsReadyAt self.old.history ready) }
        ensures room { IfOk result (λ ready. IsRoomFor ready.deed self.new.spare) }
        ensures history { self.new.history ≡ self.old.history }
        ensures founder { self.new.founder ≡ self.old.founder }
    {
        let provision = match self.provide(alloc, &deed) {
            Ok(provision) => provision,
            Err(fault) => {
                let_go_entry(entry);
                let_go_deed(deed);
                return Err(fault);
            }
        };
        let Provision {
            answer,
            kept,
            tables,
        } = provision;
        let filed = Filed {
            entry,
            reply: Reply::Done(kept),
        };
        Ok(Prepared::new(filed, answer, deed, tables))
    }

    /// What an entry that does this deed needs beside it, and room for the entry. The tables come last, since nothing
    /// that is refused after them has to let them go.
    fn provide(&mut self, alloc: Global, deed: &Deed) -> Result<Provision, NoMemory>
        requires fits { Fits (deeds self.old.history) deed.now }
        ensures answer { IfOk result (λ p.
            p.answer ≡ deed_answer (next_receipt self.old.history) (deeds self.old.history) deed.now) }
        ensures kept { IfOk result (λ p. p.kept ≡ p.answer) }
        ensures tables { IfOk result (λ p. unwrap_or p.tables (tables_of (deeds self.old.history))
            ≡ with_row deed.now (tables_of (deeds self.old.history))) }
        ensures room { IfOk result (λ _. IsRoomFor deed.now self.new.spare) }
        ensures callers { length (members (deeds self.old.history)) < CALLERS }
        ensures history { self.new.history ≡ self.old.history }
        ensures founder { self.new.founder ≡ self.old.founder }
    {
        self.reserve_for(deed)?;
        let answer = self.answer_to(alloc, deed)?;
        let kept = Bytes::from_slice(alloc, answer.as_slice())?;
        let tables = self.tables_with(deed)?;
        Ok(Provision {
            answer,
            kept,
            tables,
        })
    }

    /// The answer to a deed that comes next.
    fn answer_to(&self, alloc: Global, deed: &Deed) -> Result<Bytes, NoMemory>
        ensures { IfOk result (λ text.
            text ≡ deed_answer (next_receipt self.now.history) (deeds self.now.history) deed.now) }
    {
        let receipt = self.next_receipt();
        match deed {
            Deed::Enrolled(_) => enrol_answer(alloc, receipt, self.members().len() as u64 + 1),
            Deed::Submitted(lines) => {
                let before = self.held().observations();
                if !are_numbered(before, lines.len() as u64) {
                    return Err(AllocError);
                }
                batch_answer(alloc, receipt, before, lines)
            }
            Deed::Designated { given, .. } => {
                object_answer(alloc, receipt, Designation::Provisional(*given))
            }
            Deed::Numbered(pairs) => numbers_answer(alloc, receipt, pairs.as_slice()),
            Deed::Opened { half, carried, .. } => {
                opening_answer(alloc, receipt, *half, carried.as_slice())
            }
            Deed::Stationed { .. }
            | Deed::Coded { .. }
            | Deed::Attributed { .. }
            | Deed::Released(_)
            | Deed::Identified { .. }
            | Deed::Separated(_)
            | Deed::Judged { .. }
            | Deed::Retracted(_)
            | Deed::Nothing => receipt_answer(alloc, receipt),
        }
    }

    /// The tables with a deed, or None where they stay.
    fn tables_with(&self, deed: &Deed) -> Result<Option<Tables>, NoMemory>
        requires fits { Fits (deeds self.now.history) deed.now }
        ensures { IfOk result (λ tables. unwrap_or tables (tables_of (deeds self.now.history))
            ≡ with_row deed.now (tables_of (deeds self.now.history))) }
    {
        match deed {
            Deed::Stationed { code, from, to } => {
                let tables = self.tables().with_station(*code, *from, *to)?;
                Ok(Some(tables))
            }
            Deed::Coded { kind, letter, word } => {
                let tables = self.tables().with_code(*kind, *letter, *word)?;
                Ok(Some(tables))
            }
            _ => Ok(None),
        }
    }
}
