//! Right ascensions and declinations in exact units; the sexagesimal texts of the Minor Planet Center's 80-column
//! records, and the texts in degrees with decimals of ADES, the IAU's Astrometry Data Exchange Standard.
#![tactic(auto)]

mod angle;
mod degree_texts;
mod degrees;
mod fault;
pub mod laws;
mod reading;
mod units;
mod writing;

pub use angle::{Dec, Ra};
pub use degree_texts::{write_dec_degrees, write_ra_degrees};
pub use degrees::{read_dec_degrees, read_ra_degrees};
pub use fault::AngleFault;
pub use reading::{read_dms, read_hms};
pub use writing::{write_dms, write_hms};
