//! A register of comets beside the office: what the founding officer asks of it, what it keeps and answers, and the
//! definitions by which every layer above says so.
//!
//! An object of the office that turns out to be a comet gets a comet's name beside its designation: a kind, the
//! half-month in which it was discovered, and a number that counts the comets of that half-month, C and P together. The
//! register is a list of acts of its own, each an entry as the office has them, and the founding officer alone keeps
//! it. The office's history stays as it is: the register reads it, in what it has of designations.
//!
//! Contracts see the types of this crate as the definitions in `specs/` have them, since every list in them is an
//! `ItemList`, whose value is the list.
#![tactic(auto)]

mod finding;
mod heard;
pub mod laws;
mod named;
mod naming;
mod reply;
mod request;
mod texts;
mod translation;

pub use finding::look_up;
pub use heard::{CometAsked, CometHeard, bytes_in, claimed, hear, read_comet_asked};
pub use named::{Found, NamedComet, half_in, named_in};
pub use naming::{Naming, read_naming};
pub use reply::{CometRefusal, CometReply, comet_reply_text, comet_status};
pub use request::{CometRequest, CometVerb, read_comet_verb};
pub use texts::{comet_answer, push_register_line};
pub use translation::{CometNames, translate};
