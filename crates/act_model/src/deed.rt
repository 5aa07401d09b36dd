//! What acts do where they stand in the history.

ghost use Rattle.std.specs.Prelude.{◌≡◌, ◌<◌, ◌^◌};
ghost use Rattle.act_model.specs.Designations.{with_order};

use crate::roster::Member;
use crate::taken::TakenLines;
use act_bodies::Ids;
use item_list::ItemList;
use numbering_core::Numbering;
use obs_record::Short;
use packed_names::{Designation, HalfMonth, Provisional};
use station_tables::Kind;

/// What an act does where it stands in the history, with all that was worked out there.
#[derive(Debug, Drop)]
pub enum Deed {
    /// It puts this caller on the roster.
    Enrolled(Member),
    /// It enters a station row.
    Stationed {
        /// The observatory code.
        code: [u8; 3],
        /// The first day on which the station serves, in days since 1970-01-01.
        from: i32,
        /// The last day on which it serves, not before the first.
        to: i32,
    },
    /// It enters a code row.
    Coded {
        /// What the letter and the word name.
        kind: Kind,
        /// The letter of the 80-column format.
        letter: u8,
        /// The word of ADES.
        word: Short,
    },
    /// It takes in a batch. These are its observation lines, each with what became of it.
    Submitted(TakenLines),
    /// It makes tracklets an object, and gives it a designation.
    Designated {
        /// The numbers of the tracklets.
        tracklets: Ids,
        /// The designation, the next one of the half-month in which the object was discovered.
        given: Provisional,
        /// The number of the observation by which it was discovered.
        discovery: u64,
    },
    /// It adds a tracklet to an object.
    Attributed {
        /// The tracklet's number.
        tracklet: u64,
        /// A designation of the object.
        to: Designation,
    },
    /// It takes this tracklet out of its object.
    Released(u64),
    /// It makes two objects one.
    Identified {
        /// The designation by which both are known from then on.
        principal: Designation,
        /// The designation by which the other one was known.
        secondary: Designation,
    },
    /// It makes this secondary designation an object of its own again.
    Separated(Designation),
    /// It enters how well an object's orbit is known.
    Judged {
        /// The principal designation of the object.
        principal: Designation,
        /// The uncertainty parameter U of the Minor Planet Center, 0 to 9.
        u: u8,
        /// At how many oppositions the object was observed.
        oppositions: u8,
    },
    /// It gives numbers to objects, in their order.
    Numbered(ItemList<Numbering>),
    /// It retracts this observation, for good.
    Retracted(u64),
    /// It takes over a half-month in which designations were given elsewhere, and some of them as objects.
    Opened {
        /// The half-month.
        half: HalfMonth,
        /// How many designations were given in it elsewhere, 1 to its limit.
        given: u32,
        /// The orders of those that become objects of this office, different ones from 1 to `given`.
        carried: Ids,
    },
    /// It does nothing: what it asks can't be read, or is refused. No history that the office comes to has such an
    /// entry.
    Nothing,
}

/// The designation of a half-month that has this order, one below 2^32.
pub fn with_order(half: HalfMonth, order: u64) -> Provisional
    requires { order < 2 ^ 32 }
    ensures { result ≡ with_order half order }
{
    Provisional {
        half,
        order: order as u32,
    }
}
