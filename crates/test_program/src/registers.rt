//! The names of comets, and sessions of a register of them beside an office, against values worked out by hand.

mod faults;
mod files;
mod forms;
mod half_month;
mod limits;
mod office;
mod refusals;
mod register;
mod runs;
mod tables;
