//! What can be read of the office by those who answer queries or export it.

use crate::office::Core;
use act_model::{Ids, Names, Place, Reply, Shelf, Tally, TrackHead};
use item_list::NoMemory;
use object_rules::Ledger;
use obs_record::{Short, Sighting};
use packed_names::{Designation, HalfMonth, Number};
use station_tables::Kind;

impl Shelf for Core {
    ghost history = { λ core. core.history };

    fn tally(&self) -> Tally {
        let file = self.held();
        Tally {
            entries: self.entries(),
            isolated: file.isolated(),
            objects: file.homed(),
            retracted: file.retracted(),
            accepted: file.observations(),
        }
    }

    fn sighting(&self, k: u64) -> Option<&Sighting> {
        self.held().sighting(k)
    }

    fn track_of(&self, k: u64) -> Option<u64> {
        self.held().track_of(k)
    }

    fn place(&self, k: u64) -> Option<Place> {
        object_rules::place(self, k)
    }

    fn tracks(&self) -> u64 {
        self.held().tracks()
    }

    fn track(&self, t: u64) -> Option<TrackHead> {
        object_rules::track_head(self, t)
    }

    fn items(&self, t: u64) -> Result<Ids, NoMemory> {
        object_rules::items(self, self.allocator(), t)
    }

    fn principals(&self) -> Result<Names, NoMemory> {
        object_rules::principals(self, self.allocator())
    }

    fn principal(&self, d: Designation) -> Option<Designation> {
        object_rules::principal_of(self, d)
    }

    fn members(&self, p: Designation) -> Result<Names, NoMemory> {
        object_rules::members(self, self.allocator(), p)
    }

    fn live(&self, p: Designation) -> Result<Ids, NoMemory> {
        object_rules::live(self, self.allocator(), p)
    }

    fn number_of(&self, d: Designation) -> Option<Number> {
        self.register().number_of(d)
    }

    fn named(&self, n: Number) -> Option<Designation> {
        object_rules::number_named(self, n)
    }

    fn given(&self, half: HalfMonth) -> u32 {
        self.rows().given(half)
    }

    fn discovery(&self, d: Designation) -> Option<u64> {
        self.rows().find(d)
    }

    fn letter(&self, kind: Kind, word: Short) -> Option<u8> {
        self.tables().letter(kind, word)
    }

    fn kept(&self, caller: u32, number: u64) -> Option<&Reply> {
        self.book().kept(caller, number)
    }
}
