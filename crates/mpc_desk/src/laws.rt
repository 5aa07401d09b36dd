//! Laws of files and of calls, each the contract of a function that does nothing.

ghost use Rattle.std.specs.Prelude.{◌≡◌, ℕ, List, [], Some};
ghost use Rattle.obs_journal.specs.Chains.{IsInForce};
ghost use Rattle.act_bodies.specs.declared.key.Key.{Key};
ghost use Rattle.act_model.specs.declared.entry.Entry.{Entry};
ghost use Rattle.act_model.specs.Conducts.{Extends};
ghost use Rattle.act_model.specs.Legal.{IsLegal};
ghost use Rattle.act_model.specs.Worlds.{WorldState, Event, World};
ghost use Rattle.mpc_desk.specs.Accepted.{AddsLines};
ghost use Rattle.mpc_desk.specs.Disks.{disk_words};
ghost use Rattle.mpc_desk.specs.Files.{Stands, StandsFirst};
ghost use Rattle.mpc_desk.specs.Opening.{IsDamagedFirst, IsDamagedSecond};
ghost use Rattle.mpc_desk.specs.Pairs.{FilePair, StandBoth};
ghost use Rattle.mpc_desk.specs.Worlds.{OnDisks, InFiles, Call, Calls, IsIn, IsKeptAt, AreAcknowledged};

use disk_model::Disk;

/// A file stands for at most one history, and so do two together; where the second stands for one, they do.
pub fn one_history()
    ensures first { (file : List ℕ) (h k : List Entry) → StandsFirst file h → StandsFirst file k → h ≡ k }
    ensures second { (file : List ℕ) (h k : List Entry) → Stands file h → Stands file k → h ≡ k }
    ensures both { (files : FilePair) (h k : List Entry) → StandBoth files h → StandBoth files k → h ≡ k }
    ensures decides { (files : FilePair) (h : List Entry) → Stands files.second h → StandBoth files h }
{
    obs_journal::laws::one_list();
    obs_journal::laws::one_chain();
}

/// A file that stands for a legal history isn't damaged; and a second file that is damaged is in force.
pub fn damage()
    ensures first { (founder : Key) (file : List ℕ) (offset : ℕ) (history : List Entry) →
        IsDamagedFirst founder file offset → IsLegal founder history → StandsFirst file history → ⊥ }
    ensures second { (founder : Key) (file : List ℕ) (offset : ℕ) (history : List Entry) →
        IsDamagedSecond founder file offset → IsLegal founder history → Stands file history → ⊥ }
    ensures in_force { (founder : Key) (file : List ℕ) (offset : ℕ) →
        IsDamagedSecond founder file offset → IsInForce file }
{
    obs_journal::laws::one_list();
    obs_journal::laws::damage();
    obs_journal::laws::one_chain();
    obs_journal::laws::broken_chain();
}

/// The calls of one office on disks of a kind, with stops between them and inside them, are a world: where the office
/// is in a state of the world before them, the world goes on to one that it is in after them, with the settled history
/// of the desk, or the one that the files stand for, and with the replies that were received. So each act whose 200 was
/// received since the office was opened on empty files is acknowledged by the history that is kept now.
pub fn calls_are_worlds<D: Disk>()
    ensures world { (founder : Key) (limit : ℕ) (before after : OnDisks D) (calls : List (Call D))
        (state : WorldState) →
        IsIn (disk_words D.reads D.leaves D.moment D.since D.faults) founder limit before state →
        Calls (disk_words D.reads D.leaves D.moment D.since D.faults) founder limit before calls after →
        (events : List Event) × (reached : WorldState) × World founder (Some limit) state events reached ×
        IsIn (disk_words D.reads D.leaves D.moment D.since D.faults) founder limit after reached }
    ensures acknowledged { (founder : Key) (limit : ℕ) (files : FilePair) (calls : List (Call D)) (after : OnDisks D)
        (history : List Entry) → StandBoth files [] →
        Calls (disk_words D.reads D.leaves D.moment D.since D.faults) founder limit
        (record { place = InFiles files; received = [] }) calls after →
        IsKeptAt after.place history → AreAcknowledged founder history after.received }
{
    act_model::laws::each_once();
    obs_journal::laws::one_list();
    obs_journal::laws::one_chain();
}

/// A later history has the accepted observations of an earlier one, and those of each newer entry's own accepted lines.
pub fn lines_are_added()
    ensures { (earlier later : List Entry) → Extends earlier later → AddsLines earlier later }
{
    act_model::laws::acts_add_their_lines();
}
