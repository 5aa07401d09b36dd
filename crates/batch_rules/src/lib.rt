//! The rules for the lines of a batch: which rule each line breaks first, by the office's tables, what the office
//! knows, and the other lines of the batch.
#![tactic(auto)]

mod checking;
mod earlier;
mod found_rows;
mod groups;
mod index;
mod judging;
mod key_places;
mod keys;
mod names;
mod numbering;
mod places;
mod points;
mod rules;
mod rulings;
mod times;

pub use act_model::Ruling;
pub use judging::judge;
pub use rulings::Rulings;
