//! Bodies with the values that were worked out for them by hand, and bodies that are none.

mod acts;
mod codes;
mod enrols;
mod keys;
mod levels;
mod openings;
mod stations;
