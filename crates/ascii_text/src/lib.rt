//! Text of bytes below 128, as the formats of minor planet astrometry have it: digits of a radix, numbers of a fixed
//! width, decimals, blanks, printable characters.
#![tactic(auto)]

pub mod blanks;
pub mod characters;
pub mod digits;
pub mod laws;
pub mod numbers;
pub mod reading;
pub mod units;
pub mod writing;
