//! Offices that are opened for tests: a desk on two disks in memory that is handed to a visit, and threads that take
//! turns at the lock of a desk on disks in memory or of an office in memory alone. What is done with an office, and
//! what is told of it, is the test's.
//!
//! Tests over them meet the large type of a desk nowhere, so that they are proved at little cost.
#![tactic(auto)]

mod asking;
mod desk_visits;
mod opening;
mod running;
mod turns;

pub use asking::{asked, enrolment, new_clock, number_asked, number_of_reply, request, take_turn};
pub use desk_visits::{Visit, visit_desk};
pub use opening::{told_of_desk, told_of_office};
pub use running::THREADS;
pub use turns::Turns;
