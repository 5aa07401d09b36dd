//! Laws of histories that were seen and of calls, each the contract of a function that does nothing: a caller that
//! calls it may use it.

ghost use Rattle.std.specs.Prelude.{◌≡◌, ◌≤◌, ℕ, List, Option, length};
ghost use Rattle.act_bodies.specs.declared.key.Key.{Key};
ghost use Rattle.act_model.specs.declared.entry.Entry.{Entry};
ghost use Rattle.act_model.specs.Conducts.{Extends};
ghost use Rattle.act_model.specs.declared.keeper.Office.{Office};
ghost use Rattle.act_model.specs.declared.keeper.Stamps.{Stamps};
ghost use Rattle.intake_lock.specs.declared.view.Item.{Item};
ghost use Rattle.intake_lock.specs.Stamps.{StampsOn};
ghost use Rattle.intake_lock.specs.Items.{IsTrue, Calls, HasStamp, AreStamped};

/// Histories that begin one another: what begins a beginning of a history begins it; a beginning is no longer; and two
/// beginnings that are as long are one.
pub fn beginnings()
    ensures follow { (a b c : List Entry) → Extends a b → Extends b c → Extends a c }
    ensures longer { (a b : List Entry) → Extends a b → length a ≤ length b }
    ensures one { (a b c : List Entry) → Extends a c → Extends b c → length a ≡ length b → a ≡ b }
{}

/// A call on a keeper is true of the history that it leaves, which extends the one before; its place is no earlier than
/// the end of that. What is true of a history is true of a longer one.
pub fn calls_are_true()
    ensures here { (before after : Office) (item : Item) → Calls before item after →
        IsTrue before.founder before.limit after.state.settled item }
    ensures grows { (before after : Office) (item : Item) → Calls before item after →
        Extends before.state.settled after.state.settled }
    ensures place { (before after : Office) (item : Item) → Calls before item after →
        length before.state.settled ≤ item.position }
    ensures later { (founder : Key) (limit : Option ℕ) (history later : List Entry) (item : Item) →
        Extends history later → IsTrue founder limit history item → IsTrue founder limit later item }
{
    act_model::laws::steps_add_one_entry();
}

/// A call on a keeper adds to its stamps and takes none away, and leaves the call's own among them. A call that has its
/// stamp among some has it among more.
pub fn stamps_grow()
    ensures here { (before after : Office) (item : Item) → Calls before item after →
        HasStamp after.stamps item.reading item.stamp }
    ensures grows { (before after : Office) (item : Item) → Calls before item after →
        StampsOn before.stamps after.stamps }
    ensures follow { (a b c : Option Stamps) → StampsOn a b → StampsOn b c → StampsOn a c }
    ensures later { (a b : Option Stamps) (items : List Item) → StampsOn a b → AreStamped a items →
        AreStamped b items }
{}
