//! What a pass knows. The types of this file are for proofs alone: no value of them is made.

use act_model::{Entry, Office, Reply, Request, Stamp};
use item_list::ItemList;
use obs_time::Instant;

/// One call of a pass.
pub struct Item {
    /// How many entries the history had where the call was answered, after mending.
    pub position: u64,
    /// What was asked.
    pub request: Request,
    /// The clock's reading, where the request was an act.
    pub reading: Option<Instant>,
    /// What was answered.
    pub reply: Reply,
    /// By how much the keeper's count of faults rose in the call.
    pub rise: u64,
    /// The stamp that it got, where it was an act and acts are stamped.
    pub stamp: Option<Stamp>,
}

/// Which pass it is.
pub enum Role {
    /// The one that came with the lock, with this many branches that are not joined yet.
    Root(u64),
    /// One that was split from the root.
    Branch,
    /// One that was joined into the root, and is gone.
    Spent,
}

/// What a pass waits for.
pub enum Stage {
    /// Nothing.
    Idle,
    /// The turn of this ticket.
    Waiting(u64),
    /// It has the turn of this ticket.
    Holding(u64),
}

/// What a pass knows.
pub struct View {
    /// Which pass it is.
    pub role: Role,
    /// What it waits for.
    pub stage: Stage,
    /// The office as it was last seen, with the history.
    pub office: Office,
    /// Another history that was seen: that of a pass which was joined.
    pub also: ItemList<Entry>,
    /// Its calls, the newest first.
    pub mine: ItemList<Item>,
    /// By how many entries its turns made the history longer.
    pub made: u64,
}
