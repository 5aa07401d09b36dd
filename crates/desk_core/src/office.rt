//! The office in memory.

ghost use Rattle.std.specs.Prelude.{◌≡◌, ◌<◌, ◌^◌, ◌∷◌, [], ℕ, ℤ, Option, IfOk, IfErr, IfSome, OnOk, length, reverse};
ghost use Rattle.std.specs.Prelude.{true, false, unwrap_or};
ghost use Rattle.act_model.specs.declared.reply.Refusal.{Refusal};
ghost use Rattle.act_model.specs.declared.roster.TheConstants.{CALLERS};
ghost use Rattle.act_model.specs.Requests.{is_act};
ghost use Rattle.act_model.specs.Roster.{members, IsFounder};
ghost use Rattle.act_model.specs.Deeds.{deeds};
ghost use Rattle.act_model.specs.OfficeTables.{tables_of};
ghost use Rattle.act_model.specs.Holdings.{holdings};
ghost use Rattle.act_model.specs.History.{next_receipt};
ghost use Rattle.act_model.specs.Refusals.{bytes_used};
ghost use Rattle.act_model.specs.Step.{outcome, Refuses};
ghost use Rattle.act_model.specs.Turns.{Answers};
ghost use Rattle.desk_core.specs.Claims.{announcement};
ghost use Rattle.desk_core.specs.Filed.{history_of, AreAnswered, WereRead};
ghost use Rattle.desk_core.specs.Office.{IsReadyAt, IsRoomFor, UsesRoom, held_in};
ghost use Rattle.desk_core.specs.Objects.{StandFor};
ghost use Rattle.desk_core.specs.Preparing.{Prepares};

use crate::book::Book;
use crate::filed::Filed;
use crate::holding::{few_added, hold};
use crate::letting_go::{let_go_book, let_go_deed, let_go_file, let_go_roster, let_go_tables};
use crate::limiting::entry_size;
use crate::objects::Objects;
use crate::prepared::{Prep, Prepared};
use crate::roster::Roster;
use act_model::{Body, Deed, Key, Member, Refusal, Reply, Request};
use item_list::NoMemory;
use obs_time::Instant;
use station_tables::Tables;
use std::alloc::{AllocError, Global};
use std::marker::Model;
use tracklet_file::TrackletFile;

/// The office in memory: the founding officer's key, and the history of what was accepted, with what
/// is worked out from its deeds: the roster, the tables, the file of the observations and tracklets, and the objects
/// with their designations, verdicts and numbers.
///
/// Contracts see the key, the history with its newest entry first, and for how much more there is room.
#[derive(Debug, Drop)]
pub struct Core {
    founder: Key,
    filed: Book,
    roster: Roster,
    tables: Tables,
    file: TrackletFile,
    objects: Objects,
    // how many bytes of a journal the entries take, or the greatest number of the type
    used: u64,
}

impl Model for Core {
    ghost use Rattle.std.specs.Prelude.{◌≡◌, ◌-◌, ◌^◌, ◌<◌, min, length, reverse};
    ghost use Rattle.act_model.specs.declared.roster.TheConstants.{CALLERS};
    ghost use Rattle.act_model.specs.Deeds.{deeds};
    ghost use Rattle.act_model.specs.Roster.{members as members_of};
    ghost use Rattle.act_model.specs.OfficeTables.{tables_of};
    ghost use Rattle.act_model.specs.Holdings.{holdings};
    ghost use Rattle.act_model.specs.Refusals.{bytes_used as used_bytes};
    ghost use Rattle.desk_core.specs.Office.{Office, held_in};
    ghost use Rattle.desk_core.specs.Objects.{StandFor};
    ghost use Rattle.desk_core.specs.Filed.{history_of, AreAnswered, WereRead};

    ghost Value = { Office };

    ghost view = { λ c. record {
      founder = c.founder;
      history = history_of c.filed.items;
      spare = record {
        entries = c.filed.room;
        callers = c.roster.room;
        observations = c.file.observation_room;
        tracklets = c.file.tracklet_room;
        rows = c.objects.row_room;
        links = c.objects.link_room;
        register = c.objects.register_room;
      };
    } };

    ghost invariant = { λ c.
        AreAnswered (reverse c.filed.items)
        × (reverse c.roster.items ≡ members_of (deeds (history_of c.filed.items)))
        × (length c.roster.items < CALLERS)
        × (c.tables ≡ tables_of (deeds (history_of c.filed.items)))
        × (held_in c.file ≡ holdings (deeds (history_of c.filed.items)))
        × StandFor (deeds (history_of c.filed.items)) c.objects
        × (c.used ≡ min (used_bytes (history_of c.filed.items)) (2 ^ 64 - 1))
        × WereRead (reverse c.filed.items) };
}

impl Core {
    /// An office without entries, founded by the officer with this key, who is caller 0. The key begins
    /// with a plus, so that it is no enrolled caller's, and has at most 33 bytes.
    ///
    /// # Errors
    ///
    /// Memory was refused.
    pub fn new(alloc: Global, founder: Key) -> Result<Core, NoMemory>
        requires { IsFounder founder }
        ensures founder { IfOk result (λ core. core.founder ≡ founder) }
        ensures empty { IfOk result (λ core. core.history ≡ []) }
    {
        let filed = Book::new(alloc)?;
        let Ok(roster) = Roster::new(alloc) else {
            let_go_book(filed);
            return Err(AllocError);
        };
        let Ok(tables) = Tables::new(alloc) else {
            let_go_book(filed);
            let_go_roster(roster);
            return Err(AllocError);
        };
        let Ok(file) = TrackletFile::new(alloc) else {
            let_go_book(filed);
            let_go_roster(roster);
            let_go_tables(tables);
            return Err(AllocError);
        };
        let Ok(objects) = Objects::new(alloc) else {
            let_go_book(filed);
            let_go_roster(roster);
            let_go_tables(tables);
            let_go_file(file);
            return Err(AllocError);
        };
        Ok(Core {
            founder,
            filed,
            roster,
            tables,
            file,
            objects,
            used: 2,
        })
    }

    /// Works out what becomes of an act at this moment, and takes the memory for it. The history stays.
    ///
    /// The request has the verb of an act. The reading is the clock's, and may be before the last
    /// entry's moment. The limit is how many bytes the journal may have, if it has one; then the bytes that the entries
    /// take are fewer than 2 ^ 64. Answers `Kept` only where the caller has used the number, with the reply that is
    /// kept for it; `Refused` with the first refusal that the request meets in the office's table, or with `NoMemory`
    /// where memory was refused for reading, for a reply or for an entry; else `Ready` with the entry and its
    /// answer. A request for whose body there was no room is refused with `NoMemory`, whatever else it says. What is
    /// refused by the body's size, the verb or the number is refused without memory; and the body of a request that is
    /// sent again isn't read again, so that memory is needed for a copy of its answer alone.
    pub fn prepare(&mut self, request: &Request, reading: Instant, limit: Option<u64>) -> Prep
        requires act { is_act request.now.verb ≡ true }
        requires space { IfSome limit (λ _. bytes_used self.old.history < 2 ^ 64) }
        ensures answer { Prepares limit self.old.history
            (outcome self.old.founder limit self.old.history request.now reading) self.new.spare result }
        ensures no_room { request.now.body ≡ Body.NoRoom → result ≡ Prep.Refused Refusal.NoMemory }
        ensures announced { IfErr
            (announcement self.old.founder (members (deeds self.old.history)) request.now)
            (λ refusal. result ≡ Prep.Refused refusal) }
        ensures history { self.new.history ≡ self.old.history }
        ensures founder { self.new.founder ≡ self.old.founder }
    {
        match self.try_prepare(request, reading, limit) {
            Ok(prep) => prep,
            Err(refusal) => Prep::Refused(refusal),
        }
    }

    /// The answer to a query, a request whose verb is that of no act: the text that tells what is asked, or the first
    /// refusal that the query meets; `NoMemory` also where memory was refused for the text, but never in the place of
    /// another refusal, and always where there was no room for the body. The history stays.
    pub fn answer(&self, request: &Request) -> Reply
        requires query { is_act request.now.verb ≡ false }
        ensures answer { (limit : Option ℕ) (reading : ℤ) →
            Answers self.now.founder limit self.now.history request.now reading result self.now.history }
        ensures no_room { request.now.body ≡ Body.NoRoom → result ≡ Reply.Refused Refusal.NoMemory }
        ensures refused { (limit : Option ℕ) (reading : ℤ) (refusal : Refusal) →
            outcome self.now.founder limit self.now.history request.now reading ≡ Refuses refusal
            → result ≡ Reply.Refused refusal }
    {
        act_model::laws::no_room_no_step();
        match self.try_answer(request) {
            Ok(text) => Reply::Done(text),
            Err(refusal) => Reply::Refused(refusal),
        }
    }

    /// How many entries the history has, which is the receipt of the newest one.
    pub fn entries(&self) -> u64
        ensures { result ≡ length self.now.history }
    {
        self.filed().len() as u64
    }

    /// Adds the entry of an act, and gives the act's answer. It takes no memory: the room that `prepare` left
    /// is used, and no more is taken.
    ///
    /// The act was worked out at this history, and `prepare` left room for its entry.
    pub fn commit(&mut self, prepared: Prepared) -> Reply
        requires ready { IsReadyAt self.old.history prepared }
        requires room { IsRoomFor prepared.deed self.old.spare }
        ensures reply { result ≡ Reply.Done prepared.answer }
        ensures history { self.new.history ≡ prepared.entry ∷ self.old.history }
        ensures founder { self.new.founder ≡ self.old.founder }
        ensures used { UsesRoom prepared.deed self.old.spare self.new.spare }
    {
        let receipt = self.next_receipt();
        let (filed, answer, deed, tables) = prepared.into_parts();
        let size = entry_size(filed.entry.body.as_slice());
        self.used = self.used.saturating_add(size);
        self.filed.push(filed);
        replace(&mut self.tables, tables);
        self.objects.note(&self.file, &deed);
        hold(&mut self.file, receipt, &deed);
        self.roster.enrol(&deed);
        let_go_deed(deed);
        Reply::Done(answer)
    }

    // ---- what is kept, for the crate's own use

    /// The allocator that the office takes its memory from.
    pub(crate) fn allocator(&self) -> Global {
        self.roster.allocator()
    }

    /// The founding officer's key.
    pub(crate) fn founder(&self) -> &Key
        ensures { result.now ≡ self.now.founder }
    {
        &self.founder
    }

    /// What was filed, with the numbers that its callers have used.
    pub(crate) fn book(&self) -> &Book
        ensures history { history_of result.now.items ≡ self.now.history }
        ensures answered { AreAnswered (reverse result.now.items) }
    {
        &self.filed
    }

    /// What was filed, the oldest entry first.
    pub(crate) fn filed(&self) -> &[Filed]
        ensures history { history_of result.now ≡ self.now.history }
        ensures answered { AreAnswered (reverse result.now) }
        ensures read { WereRead (reverse result.now) }
    {
        self.filed.as_slice()
    }

    /// The callers that were enrolled.
    pub(crate) fn roster(&self) -> &Roster
        ensures roster { reverse result.now.items ≡ members (deeds self.now.history) }
        ensures within { length result.now.items < CALLERS }
    {
        &self.roster
    }

    /// The callers that were enrolled, in their order.
    pub(crate) fn members(&self) -> &[Member]
        ensures roster { reverse result.now ≡ members (deeds self.now.history) }
        ensures within { length result.now < CALLERS }
    {
        self.roster.as_slice()
    }

    /// The tables.
    pub(crate) fn tables(&self) -> &Tables
        ensures { result.now ≡ tables_of (deeds self.now.history) }
    {
        &self.tables
    }

    /// The observations and tracklets.
    pub(crate) fn held(&self) -> &TrackletFile
        ensures { held_in result.now ≡ holdings (deeds self.now.history) }
    {
        &self.file
    }

    /// The designations, the principals, the verdicts and the numbers.
    pub(crate) fn objects(&self) -> &Objects
        ensures { StandFor (deeds self.now.history) result.now }
    {
        &self.objects
    }

    /// How many bytes of a journal the entries take, where that is a number of the type.
    pub(crate) fn used(&self) -> u64
        ensures { bytes_used self.now.history < 2 ^ 64 → result ≡ bytes_used self.now.history }
    {
        self.used
    }

    /// The receipt of the entry that comes next.
    pub(crate) fn next_receipt(&self) -> u64
        ensures { result ≡ next_receipt self.now.history }
    {
        self.filed().len() as u64 + 1
    }

    /// Takes the room for one more entry that does this deed.
    pub(crate) fn reserve_for(&mut self, deed: &Deed) -> Result<(), NoMemory>
        ensures callers { length (members (deeds self.old.history)) < CALLERS }
        ensures room { OnOk result (IsRoomFor deed.now self.new.spare) }
        ensures history { self.new.history ≡ self.old.history }
        ensures founder { self.new.founder ≡ self.old.founder }
    {
        self.filed.reserve()?;
        self.roster.reserve()?;
        let Some(more) = few_added(deed) else {
            return Err(AllocError);
        };
        self.file.reserve(more, more)?;
        self.objects.reserve_for(deed)
    }
}

/// Puts new tables in the place of the old, where there are new ones.
fn replace(tables: &mut Tables, new: Option<Tables>)
    ensures { tables.new ≡ unwrap_or new tables.old }
{
    if let Some(new) = new {
        *tables = new;
    }
}
