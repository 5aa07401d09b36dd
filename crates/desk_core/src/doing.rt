//! What an act does at the office's history, or the first refusal that it meets.

ghost use Rattle.std.specs.Prelude.{◌≡◌, ◌↔◌, ◌<◌, ◌≤ℤ◌, ◌^◌, length, Some, None, cond, IfOk, IsTrue};
ghost use Rattle.act_model.specs.declared.reply.Refusal.TheVariants as refusals;
ghost use Rattle.act_model.specs.Rows.{first_row, IsDue};
ghost use Rattle.act_model.specs.Acts.{IsRead, IsReadAsked};
ghost use Rattle.act_model.specs.Roster.{is_observer, members};
ghost use Rattle.act_model.specs.Deeds.{deeds};
ghost use Rattle.act_model.specs.OfficeTables.{tables_of};
ghost use Rattle.act_model.specs.Holdings.{holdings};
ghost use Rattle.act_model.specs.Doing.{enrols, enters_station, enters_code, submits, retracts, taken_after, does};
ghost use Rattle.act_model.specs.Refusals.{sender, is_another, retracts_anothers, role_rows, work_out};
ghost use Rattle.desk_core.specs.Doing.{IsActAtOnce, IsAtOnce};
ghost use Rattle.desk_core.specs.Office.{AreTracked, Fits};

use crate::filed::caller_at;
use crate::office::Core;
use crate::refusals::{batch_refusal, enrol_refusal, retract_refusal, row_refusal, unless};
use crate::taking::taken_lines;
use act_model::{Act, Asked, Deed, Heard, Key, Member, Part, Rank, Refusal, TakenLines};
use batch_rules::judge;
use item_list::NoMemory;
use object_rules::{
    attributes, designates, identifies, judges, numbers, opens, releases, separates,
};
use obs_record::{Lines, Short};
use obs_time::Instant;
use station_tables::Kind;
use std::alloc::{AllocError, Global};

fn is_observer(rank: Rank) -> bool
    ensures { result ≡ is_observer rank }
{
    matches!(rank, Rank::Observer)
}

/// Whether it was somebody else who sent it.
fn is_another(caller: u32, sent: Option<u32>) -> bool
    ensures { result ≡ is_another caller sent }
{
    match sent {
        Some(sent) => sent != caller,
        None => false,
    }
}

/// Whether this many tracklets and this many lines of a batch can be counted on together. No office comes near it.
fn are_countable(tracks: u64, lines: u64) -> bool
    ensures { IsTrue result ↔ ((tracks < 2 ^ 62) × (lines < 2 ^ 62)) }
{
    tracks < 1 << 62 && lines < 1 << 62
}

impl Core {
    /// Who sent an observation.
    fn sender(&self, k: u64) -> Option<u32>
        ensures { result ≡ sender self.now.history k }
    {
        let receipt = self.held().entry_of(k)?;
        caller_at(self.filed(), receipt)
    }

    /// Whether the act retracts an observation that somebody else sent.
    fn retracts_anothers(&self, caller: u32, asked: &Asked) -> bool
        ensures { result ≡ retracts_anothers self.now.history caller asked.now }
    {
        match asked {
            Asked::Act(Act::Retract(k)) => is_another(caller, self.sender(*k)),
            _ => false,
        }
    }

    /// Whether an observer asks what observers may not.
    fn is_barred(&self, heard: &Heard) -> bool
        ensures { first_row (role_rows self.now.history heard.now) ≡ cond result (Some refusals.Role) None }
    {
        if !is_observer(heard.caller.rank) {
            return false;
        }
        heard.verb.is_officers() || self.retracts_anothers(heard.caller.number, &heard.asked)
    }

    /// What a request that was heard does at this moment, or the first refusal that it meets.
    pub(crate) fn work_out(
        &self,
        alloc: Global,
        heard: Heard,
        moment: Instant,
    ) -> Result<Deed, Refusal>
        requires read { IsReadAsked heard.asked }
        ensures due { IsDue (work_out self.now.history moment heard) result }
        ensures exact { IsAtOnce self.now.history heard → result ≡ work_out self.now.history moment heard }
        ensures fits { IfOk result (Fits (deeds self.now.history)) }
    {
        if self.is_barred(&heard) {
            return Err(Refusal::Role);
        }
        match heard.asked {
            Asked::Act(act) => self.does(alloc, moment, act),
            Asked::Header { fault, line } => Err(Refusal::Header { fault, line }),
            Asked::Query(_) => Err(Refusal::Unread(Part::Verb)),
        }
    }

    /// What an act does at this moment.
    #[tactic(auto, unfolding(act_model::specs::Doing::does))]
    fn does(&self, alloc: Global, moment: Instant, act: Act) -> Result<Deed, Refusal>
        requires read { IsRead act }
        ensures due { IsDue (does (deeds self.now.history) moment act) result }
        ensures exact { IsActAtOnce (deeds self.now.history) act → result ≡ does (deeds self.now.history) moment act }
        ensures fits { IfOk result (Fits (deeds self.now.history)) }
    {
        act_model::laws::acts_fit();
        match act {
            Act::Enrol { key, role, .. } => self.enrols(key, role),
            Act::Station { code, from, to, .. } => self.enters_station(code, from, to),
            Act::Code { kind, letter, word } => self.enters_code(kind, letter, word),
            Act::Submit80(lines) | Act::SubmitPsv(lines) => self.submits(alloc, moment, lines),
            Act::Designate(tracklets) => designates(self, alloc, tracklets),
            Act::Attribute { tracklet, to } => attributes(self, tracklet, to),
            Act::Release(t) => releases(self, t),
            Act::Identify {
                principal,
                secondary,
            } => identifies(self, principal, secondary),
            Act::Separate(s) => separates(self, s),
            Act::Verdict {
                object,
                u,
                oppositions,
            } => judges(self, object, u, oppositions),
            Act::Number { first, most } => numbers(self, alloc, first, most),
            Act::Retract(k) => self.retracts(k),
            Act::Opening {
                half,
                given,
                carried,
            } => opens(self, half, given, carried),
        }
    }

    /// An enrolment.
    fn enrols(&self, key: Key, rank: Rank) -> Result<Deed, Refusal>
        ensures due { result ≡ enrols (members (deeds self.now.history)) key rank }
        ensures fits { IfOk result (Fits (deeds self.now.history)) }
    {
        let refusal = enrol_refusal(self.roster(), &key);
        unless(refusal, Deed::Enrolled(Member { key, rank }))
    }

    /// A station row.
    fn enters_station(&self, code: [u8; 3], from: i32, to: i32) -> Result<Deed, Refusal>
        requires forward { from ≤ℤ to }
        ensures due { result ≡ enters_station (tables_of (deeds self.now.history)) code from to }
        ensures fits { IfOk result (Fits (deeds self.now.history)) }
    {
        let refusal = row_refusal(self.tables().overlaps(code, from, to));
        unless(refusal, Deed::Stationed { code, from, to })
    }

    /// A code row.
    fn enters_code(&self, kind: Kind, letter: u8, word: Short) -> Result<Deed, Refusal>
        ensures due { result ≡ enters_code (tables_of (deeds self.now.history)) kind letter word }
        ensures fits { IfOk result (Fits (deeds self.now.history)) }
    {
        let refusal = row_refusal(self.tables().has_code(kind, letter, word));
        unless(refusal, Deed::Coded { kind, letter, word })
    }

    /// The lines of a batch, with what becomes of each. A batch is judged here, and nowhere else.
    fn taken_after(
        &self,
        alloc: Global,
        moment: Instant,
        lines: Lines,
    ) -> Result<TakenLines, NoMemory>
        ensures taken { IfOk result (λ taken. taken ≡ taken_after (deeds self.now.history) moment lines) }
        ensures tracked { IfOk result (AreTracked (length (holdings (deeds self.now.history)).tracklets)) }
    {
        let tracks = self.held().tracks();
        if !are_countable(tracks, lines.len()) {
            return Err(AllocError);
        }
        let rulings = judge(alloc, self.tables(), self, moment, &lines)?;
        taken_lines(alloc, self, tracks, lines, rulings.as_slice())
    }

    /// A batch, unless none of its lines is accepted.
    fn submits(&self, alloc: Global, moment: Instant, lines: Lines) -> Result<Deed, Refusal>
        ensures due { IsDue (submits (taken_after (deeds self.now.history) moment lines)) result }
        ensures fits { IfOk result (Fits (deeds self.now.history)) }
    {
        let Ok(taken) = self.taken_after(alloc, moment, lines) else {
            return Err(Refusal::NoMemory);
        };
        let Ok(refusal) = batch_refusal(alloc, &taken) else {
            return Err(Refusal::NoMemory);
        };
        unless(refusal, Deed::Submitted(taken))
    }

    /// A retraction.
    fn retracts(&self, k: u64) -> Result<Deed, Refusal>
        ensures due { result ≡ retracts (holdings (deeds self.now.history)).observations k }
        ensures fits { IfOk result (Fits (deeds self.now.history)) }
    {
        let refusal = retract_refusal(self.held(), k);
        unless(refusal, Deed::Retracted(k))
    }
}
