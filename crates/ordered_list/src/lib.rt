//! A list that stays in order, is searched by halving, and takes memory only where room is asked for.
//!
//! The order is that of the items' type, whose `cmp` may read a part of an item alone, its key; no two items of a list
//! tie in it. Contracts see one list in its order, and for how many more items there is room. `new` and `reserve` take
//! memory, and no other call does.
//!
//! One vector in order would move half of its items at each insertion. So the newest items stand in a short vector of
//! their own, which is in order too; when it is full it is merged into a longer one of recent items, and when that is
//! full, into the long one of the settled items, in the room that is there.
#![tactic(auto)]

mod changes;
pub mod laws;
mod list;
mod merging;
mod places;
mod searches;

pub use item_list::NoMemory;
pub use list::OrderedList;
