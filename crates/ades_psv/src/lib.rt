//! Batches of optical observations in the PSV form of ADES, the Astrometry Data Exchange Standard of the IAU, version
//! 2017: lines of fields that bars separate, below headers.
//!
//! A batch begins with the line `# version=2017`. Lines that begin with `#` open groups of a header, and lines that
//! begin with `!` are their elements; neither are read. The next line of a header names the columns, and data lines
//! follow, up to the next line that begins with `#`, which opens another header. Lines of blanks are passed over and
//! counted.
//!
//! Of the columns permID, provID, trkSub, mode, stn, obsTime, ra, dec, astCat, mag and band are read; all others are
//! passed over. Blanks round a field aren't part of it, and a line may have fewer fields than columns: the missing ones
//! are empty.
//!
//! The faults of headers, H1 to H5, leave a batch without lines. A data line that breaks one of the rules S2, S3, S5,
//! S6, S7, S9, S10, S11 and S12 is refused alone; the first rule in this order is answered. The limits on decimals, the
//! columns that a line must have, and that other columns are passed over are this office's own.
#![tactic(auto)]

mod cells;
mod columns;
mod fault;
mod fields;
mod header;
pub mod laws;
mod magnitude;
mod names;
mod position;
mod reader;
mod reading;
mod walking;

pub use fault::PsvFault;
pub use reader::{PsvReader, read_psv};
