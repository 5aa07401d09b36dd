//! What is known of a keeper of the office: whose it is, what it has kept, and how often its disk failed.

ghost use Rattle.std.specs.Prelude.{◌≡◌, true, false, length, Some, None};
ghost use Rattle.act_model.specs.declared.keeper.Office.{Office};
ghost use Rattle.act_model.specs.Requests.{is_act};
ghost use Rattle.act_model.specs.Keepers.{TakesTurn};

use crate::entry::Entry;
use crate::reply::Reply;
use crate::request::Request;
use act_bodies::Key;
use item_list::ItemList;
use obs_time::Instant;

/// The state of an office between two turns.
#[derive(Debug, Drop)]
pub struct OfficeState {
    /// The settled history, the newest entry first.
    pub settled: ItemList<Entry>,
    /// The act in doubt: an entry that the disk may have kept or not.
    pub doubt: Option<Entry>,
}

/// What an act gets when it is answered. It is for proofs alone.
#[derive(Debug, Drop)]
pub struct Stamp {
    /// The moment of the keeper's disk then.
    pub moment: u64,
    /// How many entries the settled history has then.
    pub entries: u64,
    /// What was asked.
    pub request: Request,
    /// The clock's reading.
    pub reading: Instant,
}

/// The stamps of a keeper. They are for proofs alone.
#[derive(Debug, Drop)]
pub struct Stamps {
    /// The moment of the keeper's disk.
    pub moment: u64,
    /// The stamps of the acts that were answered, the oldest first.
    pub given: ItemList<Stamp>,
}

/// What contracts see of a keeper.
#[derive(Debug, Drop)]
pub struct Office {
    /// The founding officer's key.
    pub founder: Key,
    /// How many bytes the journal may have, where there is a limit.
    pub limit: Option<u64>,
    /// What was settled, and what is in doubt.
    pub state: OfficeState,
    /// How often the disk has failed. At the greatest number that its type has it stands still.
    pub faults: u64,
    /// The moment of the disk, and the stamps of the acts that were answered. None where no act is stamped.
    pub stamps: Option<Stamps>,
}

/// Something that keeps the office: it takes one turn after another, and may stamp each act when it answers it.
///
/// No call changes the founding officer's key or the limit.
pub trait Keeper: Drop {
    /// The office that it stands for.
    ghost office: { Self → Office };

    /// Takes the turn of an act at this reading of the clock: an act in doubt is mended first. The request has the verb
    /// of an act. It takes memory.
    fn act(&mut self, request: &Request, reading: Instant) -> Reply
        requires act { is_act request.now.verb ≡ true }
        ensures turn { TakesTurn (office self.old) request.now (Some reading) result (office self.new) };

    /// Answers a query, a request whose verb is that of no act, from the settled history. It takes memory.
    fn ask(&self, request: &Request) -> Reply
        requires query { is_act request.now.verb ≡ false }
        ensures turn { TakesTurn (office self.now) request.now None result (office self.now) };

    /// How many entries the settled history has.
    fn entries(&self) -> u64
        ensures { result ≡ length (office self.now).state.settled };
}
