//! The second file, whose parcels are chained by digests.

mod appends;
mod carries;
mod files;
mod mendings;
mod openings;
