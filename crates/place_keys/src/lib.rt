//! What tells the places of observations apart: a station, a time and a position.
//!
//! Keys are told apart by all that they have, and hashed by one number that their parts make, since to hash the parts
//! one by one takes longer than all else that is done with a key.
#![tactic(auto)]

mod place;
mod words;

pub use place::{PlaceKey, key_at, place_key};
pub use words::{Text, mixed, text_mark};
