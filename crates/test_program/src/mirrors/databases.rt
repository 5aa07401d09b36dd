//! The mirrors over a database, in memory and over the file `mirror.db`, by the sessions of every mirror; and what such
//! a file may be that is none of the mirror's.

mod files;
mod memory;
mod trials;
