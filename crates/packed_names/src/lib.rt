//! The names of minor planets, in the printed and in the packed form of the Minor Planet Center.
//!
//! A minor planet is named by a number, by a provisional designation, or by a designation of one of four surveys. Each
//! name has one printed and one packed text, and each such text is one name's.
//!
//! **Printed.** A number is its digits without leading zeros: `100000`. A provisional designation is the year, a blank,
//! the letter of the half-month, the order letter, and the cycle without leading zeros, left out where it is 0:
//! `2024 EA1`. A survey designation is the number, a blank, and the survey's suffix: `2040 P-L`.
//!
//! **Packed.** A number has five characters: five digits up to 99,999; then a digit of base 62 (0 to 9, A to Z, a to z)
//! for the ten thousands and four digits, up to 619,999; then `~` and four digits of base 62 that count from 620,000. A
//! designation has seven. A provisional one up to order 15,500 has the century's letter (J for 19, K for 20), two
//! digits of the year, the half-month's letter, the cycle with its tens as a digit of base 62, and the order letter:
//! `K24E01A`. One of a later order, in the years 2000 to 2061, has `_`, the year from 2000 on as a digit of base 62,
//! the half-month's letter, and four digits of base 62 that count the orders from 15,501: `_OE0000`. A survey
//! designation has three letters of the survey and four digits: `PLS2040`.
//!
//! The rules are those of the Minor Planet Center's pages on new- and old-style designations and on packed
//! designations. The ranges of orders follow from the two packed forms. No call takes memory.
#![tactic(auto)]

mod half_month;
mod label;
pub mod laws;
mod letters;
mod name;
mod number;
mod packed;
mod printed;
mod provisional;
mod survey;

pub use half_month::HalfMonth;
pub use label::Label;
pub use name::{Designation, Name, NameFault, is_half_month, is_name};
pub use number::{GREATEST_NUMBER, Number};
pub use packed::{pack, unpack};
pub use printed::{print, print_half, read, read_half};
pub use provisional::{Provisional, limit};
pub use survey::Survey;
