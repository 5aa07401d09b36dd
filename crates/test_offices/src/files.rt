//! The file of observations and tracklets that an office keeps, against what was worked out by hand and beside plain
//! lists that are walked.

mod calls;
mod homes;
mod observations;
mod scattered;
