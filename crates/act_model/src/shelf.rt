//! What can be read of an office by those who export it or answer queries.

ghost use Rattle.std.specs.Prelude.{◌≡◌, ◌≤◌, List, length, option_copied, IfOk};
ghost use Rattle.packed_names.specs.Ranges.{IsHalfMonth, limit_of};
ghost use Rattle.designate_core.specs.Takes.{given_in, discovery_of};
ghost use Rattle.identify_core.specs.Acts.{principal, members};
ghost use Rattle.numbering_core.specs.Numbers.{number_of, named};
ghost use Rattle.station_tables.specs.Codes.{letter_of};
ghost use Rattle.tracklet_file.specs.Observations.{sighting_of, track_of, observations_of};
ghost use Rattle.act_model.specs.declared.entry.Entry.{Entry};
ghost use Rattle.act_model.specs.Deeds.{deeds};
ghost use Rattle.act_model.specs.Designations.{row_acts_of, links_of, principals};
ghost use Rattle.act_model.specs.History.{numbered_entry};
ghost use Rattle.act_model.specs.Holdings.{holdings};
ghost use Rattle.act_model.specs.Numbers.{numbers_of};
ghost use Rattle.act_model.specs.OfficeTables.{tables_of};
ghost use Rattle.act_model.specs.Shelves.{place_of, track_head, live_of, reply_kept};
ghost use Rattle.act_model.specs.Tallies.{tally};

use crate::reply::Reply;
use crate::tally::Tally;
use act_bodies::Ids;
use item_list::{ItemList, NoMemory};
use obs_record::{Short, Sighting, TrackName};
use packed_names::{Designation, HalfMonth, Number};
use station_tables::Kind;

/// Where an observation stands.
#[derive(Clone, Copy, Debug, PartialEq, Eq)]
pub enum Place {
    /// It was retracted.
    Retracted,
    /// It is live, and its tracklet is isolated.
    Isolated,
    /// It is live, and of the object with this principal designation.
    Object(Designation),
}

/// What is known of a tracklet beside its observations.
#[derive(Clone, Copy, Debug, PartialEq, Eq)]
pub struct TrackHead {
    /// The name that its lines go by.
    pub name: TrackName,
    /// The code of its station.
    pub station: Short,
    /// The designation that it was given to. None means that it is isolated.
    pub home: Option<Designation>,
}

/// A list of designations.
pub type Names = ItemList<Designation>;

/// An office that can be read. Observations, tracklets and numbers of acts count from 1.
pub trait Shelf {
    /// The history that it stands for, the newest entry first.
    ghost history: { Self → List Entry };

    /// How many entries there are, and how many observations stand in each place.
    fn tally(&self) -> Tally
        ensures { result ≡ tally (history self.now) };

    /// What was observed. None exactly for an observation that isn't there.
    fn sighting(&self, k: u64) -> Option<&Sighting>
        ensures { option_copied result ≡ sighting_of (holdings (deeds (history self.now))).observations k };

    /// The tracklet of an observation. None exactly for an observation that isn't there.
    fn track_of(&self, k: u64) -> Option<u64>
        ensures { result ≡ track_of (holdings (deeds (history self.now))).observations k };

    /// The place of an observation. None exactly for an observation that isn't there.
    fn place(&self, k: u64) -> Option<Place>
        ensures { result ≡ place_of (holdings (deeds (history self.now))) (links_of (deeds (history self.now))) k };

    /// How many tracklets there are, which is the number of the newest one.
    fn tracks(&self) -> u64
        ensures { result ≡ length (holdings (deeds (history self.now))).tracklets };

    /// What is known of a tracklet. None exactly for a tracklet that isn't there.
    fn track(&self, t: u64) -> Option<TrackHead>
        ensures { result ≡ track_head (holdings (deeds (history self.now))).tracklets t };

    /// The observations of a tracklet in the order of their numbers, retracted ones included. Empty for a tracklet that
    /// isn't there. It takes memory.
    fn items(&self, t: u64) -> Result<Ids, NoMemory>
        ensures { IfOk result (λ ids. ids ≡ observations_of (holdings (deeds (history self.now))).observations t) };

    /// The principal designations, in the order of designations. It takes memory.
    fn principals(&self) -> Result<Names, NoMemory>
        ensures { IfOk result (λ names. names ≡ principals (links_of (deeds (history self.now)))) };

    /// The principal designation of the object that a designation belongs to. None exactly for one that the office
    /// didn't give.
    fn principal(&self, d: Designation) -> Option<Designation>
        ensures { result ≡ principal (links_of (deeds (history self.now))) d };

    /// The designations whose principal is this one, itself included, in the order of designations. Empty for what is
    /// no principal. It takes memory.
    fn members(&self, p: Designation) -> Result<Names, NoMemory>
        ensures { IfOk result (λ names. names ≡ members (links_of (deeds (history self.now))) p) };

    /// The live observations of the object with this principal, by exact time, ties by number. Empty for what is no
    /// principal. It takes memory.
    fn live(&self, p: Designation) -> Result<Ids, NoMemory>
        ensures { IfOk result (λ ids.
            ids ≡ live_of (holdings (deeds (history self.now))) (links_of (deeds (history self.now))) p) };

    /// The number that a designation was given. None exactly where it has none.
    fn number_of(&self, d: Designation) -> Option<Number>
        ensures { result ≡ number_of (numbers_of (deeds (history self.now))) d };

    /// The designation that a number was given to. None exactly for a number that wasn't given.
    fn named(&self, n: Number) -> Option<Designation>
        ensures { result ≡ named (numbers_of (deeds (history self.now))) n.0 };

    /// How many designations were given in a half-month, one of the years 1925 to 2099: its opening count, and those
    /// that acts `designate` gave.
    fn given(&self, half: HalfMonth) -> u32
        requires { IsHalfMonth half }
        ensures count { result ≡ given_in half (row_acts_of (deeds (history self.now))) }
        ensures within { result ≤ limit_of half };

    /// The observation by which the object of a designation was discovered. None exactly for a designation that no
    /// act `designate` gave: one that the office didn't give, or that an opening carried.
    fn discovery(&self, d: Designation) -> Option<u64>
        ensures { result ≡ discovery_of d (row_acts_of (deeds (history self.now))) };

    /// The letter of a word. None exactly where no row of the kind has the word.
    fn letter(&self, kind: Kind, word: Short) -> Option<u8>
        ensures { result ≡ letter_of (tables_of (deeds (history self.now))).codes kind word };

    /// The reply that is kept for a caller's act with this number. None exactly where the caller hasn't used the
    /// number.
    fn kept(&self, caller: u32, number: u64) -> Option<&Reply>
        ensures { option_copied result ≡ reply_kept (numbered_entry (history self.now) caller number) };
}
