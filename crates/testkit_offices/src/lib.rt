//! Offices in memory that are founded for tests and handed to them as any office.
//!
//! Tests over them meet the large type of an office nowhere, so that they are proved at little cost.
#![tactic(auto)]

mod office_visits;
mod paging;

pub use office_visits::{Kind, Office, ReplayFault, Visit, visit_office};
pub use paging::Paged;
