//! What becomes of an act before it is added.

ghost use Rattle.std.specs.Prelude.{◌≡◌, ◌≤◌, true, length};
ghost use Rattle.act_model.specs.declared.request.TheConstants.{BODY_BYTES};
ghost use Rattle.act_model.specs.Requests.{is_act};
ghost use Rattle.desk_core.specs.Filed.{WasRead};
ghost use Rattle.desk_core.specs.Office.{IsOfAct};

use crate::filed::Filed;
use act_model::{Deed, Entry, Refusal, Reply};
use item_list::Bytes;
use station_tables::Tables;
use std::marker::Model;

/// An act that is ready to become the next entry of the office: all memory that it needs is taken.
///
/// Contracts see its entry, its answer, its deed, and the tables with it, or None where they stay.
#[derive(Debug, Drop)]
pub struct Prepared {
    filed: Filed,
    answer: Bytes,
    deed: Deed,
    tables: Option<Tables>,
}

impl Model for Prepared {
    ghost use Rattle.std.specs.Prelude.{◌≡◌};
    ghost use Rattle.act_model.specs.declared.reply.Reply.TheVariants.{Done};
    ghost use Rattle.desk_core.specs.Filed.{WasRead};
    ghost use Rattle.desk_core.specs.Office.{Ready, IsOfAct};

    ghost Value = { Ready };

    ghost view = { λ p. record { entry = p.filed.entry; answer = p.answer; deed = p.deed; tables = p.tables } };

    ghost invariant = { λ p.
        (p.filed.reply ≡ Done p.answer) × IsOfAct p.filed.entry × WasRead p.filed.entry };
}

impl Prepared {
    /// An act that is filed so, with a second copy of its answer.
    pub(crate) fn new(filed: Filed, answer: Bytes, deed: Deed, tables: Option<Tables>) -> Prepared
        requires kept { filed.reply ≡ Reply.Done answer }
        requires act { IsOfAct filed.entry }
        requires read { WasRead filed.entry }
        ensures entry { result.entry ≡ filed.entry }
        ensures answer { result.answer ≡ answer }
        ensures deed { result.deed ≡ deed }
        ensures tables { result.tables ≡ tables }
    {
        Prepared {
            filed,
            answer,
            deed,
            tables,
        }
    }

    /// The entry that the act becomes.
    pub fn entry(&self) -> &Entry
        ensures entry { result.now ≡ self.now.entry }
        ensures act { is_act result.now.verb ≡ true }
        ensures short { length result.now.body ≤ BODY_BYTES }
    {
        &self.filed.entry
    }

    /// The entry with its answer, the answer, the deed, and the tables with it.
    pub(crate) fn into_parts(self) -> (Filed, Bytes, Deed, Option<Tables>)
        ensures entry { result.0.entry ≡ self.entry }
        ensures read { WasRead self.entry }
        ensures kept { result.0.reply ≡ Reply.Done self.answer }
        ensures answer { result.1 ≡ self.answer }
        ensures deed { result.2 ≡ self.deed }
        ensures tables { result.3 ≡ self.tables }
    {
        let Prepared {
            filed,
            answer,
            deed,
            tables,
        } = self;
        (filed, answer, deed, tables)
    }
}

/// What preparing a request gives. Nothing has changed the history yet.
#[derive(Debug, Drop)]
pub enum Prep {
    /// The caller has used the number. This is the reply that is kept for it: the answer of that
    /// time to the same request, and the refusal `OtherRequest` to another one.
    Kept(Reply),
    /// The request is refused, and changes nothing; also where memory was refused.
    Refused(Refusal),
    /// The act is ready to be added, at the history at which it was worked out.
    Ready(Prepared),
}
