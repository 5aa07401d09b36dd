//! What callers ask of the office, what the office keeps and answers, and the definitions by which
//! every layer above says so: histories and their deeds, the roster, the tables, rulings on lines,
//! observations, texts, refusals, the step, turns.
//!
//! Contracts see the types of this crate as the definitions in `specs/` have them, since every list
//! in them is an `ItemList`, whose value is the list.
#![tactic(auto)]

mod act;
mod deed;
mod entry;
mod heard;
mod keeper;
mod known;
pub mod laws;
mod query;
mod reply;
mod request;
mod roster;
mod ruling;
mod seen;
mod shelf;
mod taken;
mod tally;
mod texts;

pub use act::{Act, ActFault, read_act};
pub use act_bodies::{Ids, Key, Rank};
pub use deed::{Deed, with_order};
pub use entry::Entry;
pub use heard::{Asked, Heard, read_asked};
pub use keeper::{Keeper, Office, OfficeState, Stamp, Stamps};
pub use known::Known;
pub use query::{Query, read_query};
pub use read_ahead::Body;
pub use reply::{
    Excess, Fault, Faults, Part, REFUSAL_BYTES, Refusal, Reply, Text, Thing, no_line_text,
    refusal_line, refusal_status, reply_text, status,
};
pub use request::{BODY_BYTES, BODY_LINES, Request, Verb, is_resend, line_feeds, read_verb};
pub use roster::{CALLERS, Caller, Member};
pub use ruling::Ruling;
pub use seen::{Seen, is_sooner};
pub use shelf::{Names, Place, Shelf, TrackHead};
pub use taken::{Placed, PlacedLine, Placing, Taken, TakenLine, TakenLines, faults_in, name_of};
pub use tally::{Tally, tally_answer};
pub use texts::{
    batch_answer, enrol_answer, numbers_answer, object_answer, opening_answer, push_decimal,
    push_designation, push_packed, receipt_answer,
};
