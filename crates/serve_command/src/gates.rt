//! A door that is lent to a thread.

ghost use Rattle.std.specs.Prelude.{◌≡◌, ℕ, ◌≤◌, List};
ghost use Rattle.std.specs.Prelude.{Option};
ghost use Rattle.std.specs.Borrow.{GName};
ghost use Rattle.desk_io.specs.Doors.{LinksAfter, FaultsAfter};

use desk_io::{Door, Next, Sink, Source};

/// A door that is handed on by value.
pub(crate) trait Gate: Drop {
    /// Where a link's bytes come from.
    type In: Source + Send;

    /// Where a link's bytes go.
    type Out: Sink + Send;

    /// The links to come, where they are known.
    ghost links: { Self → Option (List (Self.In × Self.Out)) };

    /// How often the door has failed.
    ghost faults: { Self → ℕ };

    /// Which door it is.
    ghost name: { Self → GName };

    /// Waits for the next link.
    fn next(&mut self) -> Next<Self::In, Self::Out>
        ensures links { LinksAfter (links self.old) (links self.new) result }
        ensures counts { faults self.old ≤ faults self.new }
        ensures cause { FaultsAfter (faults self.old) (faults self.new) result }
        ensures name { name self.new ≡ name self.old };
}

/// A door that is lent.
#[derive(Drop)]
pub(crate) struct Lent<'a, G> {
    pub door: &'a mut G,
}

impl<'a, G: Door> Gate for Lent<'a, G> {
    type In = G::In;

    type Out = G::Out;

    ghost links = { λ gate. G.links gate.door.now };

    ghost faults = { λ gate. G.faults gate.door.now };

    ghost name = { λ gate. gate.door.ghost_name };

    fn next(&mut self) -> Next<G::In, G::Out> {
        self.door.next()
    }
}

/// Gives a lent door back.
pub(crate) fn take_back<G>(door: &mut G)
    ensures { door.new ≡ door.old }
{}
