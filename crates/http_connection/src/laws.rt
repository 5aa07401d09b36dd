//! Laws of calls in their order, each the contract of a function that does nothing: a caller that calls it may use it.

ghost use Rattle.std.specs.Prelude.{◌≡◌, ◌+◌, ◌≤◌, ℕ, List, ◌∷◌, Option, IsSome, IfSome};
ghost use Rattle.act_bodies.specs.declared.key.Key.{Key};
ghost use Rattle.act_model.specs.declared.entry.Entry.{Entry};
ghost use Rattle.act_model.specs.Conducts.{Extends};
ghost use Rattle.intake_lock.specs.declared.view.Item.{Item};
ghost use Rattle.intake_lock.specs.Items.{IsTrue, AreTrue};
ghost use Rattle.http_connection.specs.Calls.{IsAdded, AreInOrder};
ghost use Rattle.http_connection.specs.Laws.{CallLaws, StreamLaws};

use act_model::laws as office_laws;
use desk_http::laws as http_laws;
use intake_lock::laws as lock_laws;

/// Calls that are true of a history, and whose places rise in it from one place on, have rising places in every later
/// history, from every earlier place on.
pub fn places_stay_in_order()
    ensures { (founder : Key) (limit : Option ℕ) (history later : List Entry) (from least : ℕ) (items : List Item) →
        Extends history later → least ≤ from → AreTrue founder limit history items →
        AreInOrder founder limit history from items → AreInOrder founder limit later least items }
{
    call_laws();
}

/// A call that added an entry to a history, and is true of a beginning of it, is an act. Its entry stands in that
/// beginning, and its stamp, where it got one, has as many entries as there were with it.
pub fn added_calls()
    ensures act { (founder : Key) (limit : Option ℕ) (history later : List Entry) (item : Item) →
        Extends history later → IsTrue founder limit history item → IsAdded founder limit later item →
        IsSome item.reading }
    ensures stands { (founder : Key) (limit : Option ℕ) (history later : List Entry) (item : Item) →
        Extends history later → IsTrue founder limit history item → (added : IsAdded founder limit later item) →
        Extends (added.entry ∷ added.past) history }
    ensures stamp { (founder : Key) (limit : Option ℕ) (history later : List Entry) (item : Item) →
        Extends history later → IsTrue founder limit history item → IsAdded founder limit later item →
        IfSome item.stamp (λ stamp. stamp.entries ≡ item.position + 1) }
{
    call_laws();
}

// What lower crates know of calls in one history, together.
pub(crate) fn call_laws()
    ensures { CallLaws }
{
    office_laws::readings_go_on();
    lock_laws::calls_are_true();
    lock_laws::stamps_grow();
    lock_laws::beginnings();
}

// What lower crates know of messages, together.
pub(crate) fn stream_laws()
    ensures { StreamLaws }
{
    http_laws::goes_on();
    http_laws::never_a_message();
    http_laws::no_message_yet();
}
