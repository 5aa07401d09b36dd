//! Laws of a register's file and of its calls, each the contract of a function that does nothing.

ghost use Rattle.std.specs.Prelude.{◌≡◌, ℕ, List, [], Some};
ghost use Rattle.obs_journal.specs.Chains.{IsInForce};
ghost use Rattle.act_bodies.specs.declared.key.Key.{Key};
ghost use Rattle.act_model.specs.declared.deed.Deed.{Deed};
ghost use Rattle.act_model.specs.declared.entry.Entry.{Entry};
ghost use Rattle.act_model.specs.Conducts.{Extends};
ghost use Rattle.act_model.specs.Deeds.{deeds};
ghost use Rattle.act_model.specs.History.{EachNumberOnce};
ghost use Rattle.mpc_desk.specs.Disks.{disk_words};
ghost use Rattle.mpc_desk.specs.Files.{Stands};
ghost use Rattle.comet_model.specs.Legal.{IsLegal};
ghost use Rattle.comet_model.specs.Unbroken.{UnbrokenNames};
ghost use Rattle.comet_model.specs.Worlds.{WorldState, Event, World};
ghost use Rattle.comet_desk.specs.Files.{HoldsEntries};
ghost use Rattle.comet_desk.specs.Desks.{CometDeskState, IsBeside};
ghost use Rattle.comet_desk.specs.Opening.{IsDamaged};
ghost use Rattle.comet_desk.specs.Worlds.{Kept, InFile, Call, Calls, IsIn, AreKeptAt, AreAcknowledged};

use disk_model::Disk;

/// A register that is one beside an office stays so as the office's history grows.
pub fn longer<D: Disk>()
    ensures { (earlier later : List Entry) (register : CometDeskState D) → Extends earlier later →
        IsBeside (deeds earlier) register → IsBeside (deeds later) register }
{
    comet_model::laws::longer();
}

/// A file holds one list of entries at most, and the one for which it stands.
pub fn one_register()
    ensures one { (file : List ℕ) (h k : List Entry) → HoldsEntries file h → HoldsEntries file k → h ≡ k }
    ensures stands { (file : List ℕ) (h : List Entry) → Stands file h → HoldsEntries file h }
{
    mpc_desk::laws::one_history();
    obs_journal::laws::one_chain();
}

/// A file that holds a legal list of entries isn't damaged; and a damaged one is in force.
pub fn damage()
    ensures none { (founder : Key) (desk : List Deed) (file : List ℕ) (offset : ℕ) (entries : List Entry) →
        IsDamaged founder desk file offset → IsLegal founder desk entries → HoldsEntries file entries → ⊥ }
    ensures in_force { (founder : Key) (desk : List Deed) (file : List ℕ) (offset : ℕ) →
        IsDamaged founder desk file offset → IsInForce file }
{
    obs_journal::laws::one_chain();
    obs_journal::laws::broken_chain();
}

/// The calls of one register on disks of a kind, with stops between them and inside them, and beside an office whose
/// history grows, are a world: where the register is in a state of the world before them, the world goes on to one that
/// it is in after them, with its settled entries, or those that the file holds, and with the replies that were
/// received. So beside the office as it is now what is kept is legal, each number acts at most once, the comets of each
/// half-month are numbered without gap or repeat and no designation has two; and each act whose 200 was received since
/// the register was opened on an empty file is acknowledged by the entries that are kept now.
pub fn calls_are_worlds<D: Disk>()
    ensures world { (founder : Key) (limit : ℕ) (before after : Kept D) (calls : List (Call D)) (state : WorldState) →
        IsIn (disk_words D.reads D.leaves D.moment D.since D.faults) founder limit before state →
        Calls (disk_words D.reads D.leaves D.moment D.since D.faults) founder limit before calls after →
        (events : List Event) × (reached : WorldState) × World founder (Some limit) state events reached ×
        IsIn (disk_words D.reads D.leaves D.moment D.since D.faults) founder limit after reached }
    ensures legal { (founder : Key) (limit : ℕ) (history : List Entry) (file : List ℕ) (calls : List (Call D))
        (after : Kept D) (entries : List Entry) → HoldsEntries file [] →
        Calls (disk_words D.reads D.leaves D.moment D.since D.faults) founder limit
        (record { history = history; place = InFile file; received = [] }) calls after →
        AreKeptAt after.place entries → IsLegal founder (deeds after.history) entries }
    ensures once { (founder : Key) (limit : ℕ) (history : List Entry) (file : List ℕ) (calls : List (Call D))
        (after : Kept D) (entries : List Entry) → HoldsEntries file [] →
        Calls (disk_words D.reads D.leaves D.moment D.since D.faults) founder limit
        (record { history = history; place = InFile file; received = [] }) calls after →
        AreKeptAt after.place entries → EachNumberOnce entries }
    ensures names { (desk : List Deed) (entries : List Entry) → UnbrokenNames desk entries }
    ensures acknowledged { (founder : Key) (limit : ℕ) (history : List Entry) (file : List ℕ) (calls : List (Call D))
        (after : Kept D) (entries : List Entry) → HoldsEntries file [] →
        Calls (disk_words D.reads D.leaves D.moment D.since D.faults) founder limit
        (record { history = history; place = InFile file; received = [] }) calls after →
        AreKeptAt after.place entries → AreAcknowledged (deeds after.history) entries after.received }
{
    comet_model::laws::each_once();
    comet_model::laws::unbroken_names();
    mpc_desk::laws::one_history();
    obs_journal::laws::one_chain();
}
