//! Batches of ADES: their headers, what their lines say, the rules that they break, the names that they give, and what
//! is said of them in pieces.

mod calls;
mod endings;
mod fields;
mod headers;
mod names;
mod observations;
mod pieces;
