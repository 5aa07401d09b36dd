//! What becomes of an act before it is added.

ghost use Rattle.std.specs.Prelude.{◌≡◌};
ghost use Rattle.comet_core.specs.Register.{Ready};

use act_model::Entry;
use comet_model::{CometRefusal, CometReply, NamedComet};
use item_list::Bytes;
use std::marker::Model;

/// An act that is ready to become the next entry of the register: all memory that it needs is taken.
///
/// Contracts see its entry, what it names, and its answer. The entry is the founding officer's.
#[derive(Debug, Drop)]
pub struct Prepared {
    entry: Entry,
    named: NamedComet,
    answer: Bytes,
}

impl Model for Prepared {
    ghost use Rattle.std.specs.Prelude.{◌≡◌};
    ghost use Rattle.comet_core.specs.Register.{Ready};

    ghost Value = { Ready };

    ghost view = { λ p. record { entry = p.entry; named = p.named; answer = p.answer } };

    ghost invariant = { λ p. p.entry.caller ≡ 0 };
}

impl Prepared {
    /// An act that becomes this entry, the founding officer's.
    pub(crate) fn new(entry: Entry, named: NamedComet, answer: Bytes) -> Prepared
        requires founder { entry.caller ≡ 0 }
        ensures entry { result.entry ≡ entry }
        ensures named { result.named ≡ named }
        ensures answer { result.answer ≡ answer }
    {
        Prepared {
            entry,
            named,
            answer,
        }
    }

    /// The entry that the act becomes.
    pub fn entry(&self) -> &Entry
        ensures { result.now ≡ self.now.entry }
    {
        &self.entry
    }

    /// The entry, what it names, and its answer.
    pub(crate) fn into_parts(self) -> (Entry, NamedComet, Bytes)
        ensures entry { result.0 ≡ self.entry }
        ensures founder { self.entry.caller ≡ 0 }
        ensures named { result.1 ≡ self.named }
        ensures answer { result.2 ≡ self.answer }
    {
        let Prepared {
            entry,
            named,
            answer,
        } = self;
        (entry, named, answer)
    }
}

/// What preparing an act gives. Nothing has changed the register yet.
#[derive(Debug, Drop)]
pub enum Prep {
    /// The number was used. This is the reply that is kept for it: the answer of that time to the same request, and the
    /// refusal `OtherRequest` to another one.
    Kept(CometReply),
    /// The request is refused, and changes nothing; also where memory was refused.
    Refused(CometRefusal),
    /// The act is ready to be added, at the register at which it was worked out.
    Ready(Prepared),
}
