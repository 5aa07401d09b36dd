//! Designations, links, verdicts and numbers that an office keeps, beside plain lists that are walked.

mod designations;
mod identifications;
mod numbers;
mod orders;
