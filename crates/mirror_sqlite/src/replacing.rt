//! All rows of the tables replaced in one transaction.

ghost use Rattle.std.specs.Prelude.{◌≡◌, ◌≤◌, false, map, IsTrue, OnOk, OnErr};
ghost use Rattle.std.specs.List.{AllByRecursion};
ghost use Rattle.sqlite.specs.Held.{state};
ghost use Rattle.sqlite.specs.State.{HasCleanDisk, KeepsCommit};
ghost use Rattle.sqlite.specs.View.{doubt};
ghost use Rattle.mirror_store.specs.declared.rows.ObjectRow.{ObjectRow};
ghost use Rattle.mirror_store.specs.declared.rows.SightRow.{SightRow};
ghost use Rattle.mirror_store.specs.Rows.{IsObjectRow, IsSightRow, Ascend, AreReplaceable};
ghost use Rattle.mirror_sqlite.specs.Holding.{Goes, FillsObjects, FillsSights, Replaces, KeepsTables};

use crate::faults::fault;
use crate::texts::{add_object, add_sight, empty_objects, empty_sights};
use mirror_store::{MirrorErr, MirrorRows, ObjectRow, SightRow};
use sqlite::{Alter, Connection, Transaction};

/// Puts the objects into their table, which is empty.
fn put_objects<S: Alter>(tx: &mut Transaction<'_, S>, rows: &[ObjectRow]) -> Result<(), MirrorErr>
    requires range { AllByRecursion IsObjectRow rows.now }
    requires order { Ascend (map (λ (row : ObjectRow). row.place) rows.now) }
    ensures same_reference { tx.new.conn.ghost_name ≡ tx.old.conn.ghost_name }
    ensures clean { doubt (state S.Store tx.old.conn.now).is_clean ≤ doubt (state S.Store tx.new.conn.now).is_clean }
    ensures inside { HasCleanDisk (state S.Store tx.new.conn.now)
        → IsTrue (state S.Store tx.old.conn.now).in_transaction
        → OnOk result (Goes (state S.Store tx.old.conn.now) (state S.Store tx.new.conn.now)) }
    ensures fills { HasCleanDisk (state S.Store tx.new.conn.now) → IsTrue (state S.Store tx.old.conn.now).in_transaction
        → OnOk result (FillsObjects rows.now (state S.Store tx.old.conn.now) (state S.Store tx.new.conn.now)) }
    ensures kept { HasCleanDisk (state S.Store tx.new.conn.now) → IsTrue (state S.Store tx.old.conn.now).in_transaction
        → OnErr result (KeepsCommit (state S.Store tx.old.conn.now) (state S.Store tx.new.conn.now)) }
{
    for row in rows {
        add_object(tx, row)?;
    }
    Ok(())
}

/// Puts the observations into their table, which is empty.
fn put_sights<S: Alter>(tx: &mut Transaction<'_, S>, rows: &[SightRow]) -> Result<(), MirrorErr>
    requires range { AllByRecursion IsSightRow rows.now }
    requires order { Ascend (map (λ (row : SightRow). row.id) rows.now) }
    ensures same_reference { tx.new.conn.ghost_name ≡ tx.old.conn.ghost_name }
    ensures clean { doubt (state S.Store tx.old.conn.now).is_clean ≤ doubt (state S.Store tx.new.conn.now).is_clean }
    ensures inside { HasCleanDisk (state S.Store tx.new.conn.now)
        → IsTrue (state S.Store tx.old.conn.now).in_transaction
        → OnOk result (Goes (state S.Store tx.old.conn.now) (state S.Store tx.new.conn.now)) }
    ensures fills { HasCleanDisk (state S.Store tx.new.conn.now) → IsTrue (state S.Store tx.old.conn.now).in_transaction
        → OnOk result (FillsSights rows.now (state S.Store tx.old.conn.now) (state S.Store tx.new.conn.now)) }
    ensures kept { HasCleanDisk (state S.Store tx.new.conn.now) → IsTrue (state S.Store tx.old.conn.now).in_transaction
        → OnErr result (KeepsCommit (state S.Store tx.old.conn.now) (state S.Store tx.new.conn.now)) }
{
    for row in rows {
        add_sight(tx, row)?;
    }
    Ok(())
}

/// Puts the rows in the place of all that were there.
fn fill<S: Alter>(tx: &mut Transaction<'_, S>, rows: &MirrorRows) -> Result<(), MirrorErr>
    requires { AreReplaceable rows.now }
    ensures same_reference { tx.new.conn.ghost_name ≡ tx.old.conn.ghost_name }
    ensures clean { doubt (state S.Store tx.old.conn.now).is_clean ≤ doubt (state S.Store tx.new.conn.now).is_clean }
    ensures inside { HasCleanDisk (state S.Store tx.new.conn.now)
        → IsTrue (state S.Store tx.old.conn.now).in_transaction
        → OnOk result (Goes (state S.Store tx.old.conn.now) (state S.Store tx.new.conn.now)) }
    ensures replaces { HasCleanDisk (state S.Store tx.new.conn.now)
        → IsTrue (state S.Store tx.old.conn.now).in_transaction
        → OnOk result (Replaces rows.now (state S.Store tx.old.conn.now) (state S.Store tx.new.conn.now)) }
    ensures kept { HasCleanDisk (state S.Store tx.new.conn.now) → IsTrue (state S.Store tx.old.conn.now).in_transaction
        → OnErr result (KeepsCommit (state S.Store tx.old.conn.now) (state S.Store tx.new.conn.now)) }
{
    empty_sights(tx)?;
    empty_objects(tx)?;
    put_objects(tx, rows.objects.as_slice())?;
    put_sights(tx, rows.sights.as_slice())
}

/// Puts the rows in the place of all that were there, in one transaction. After an error the rows are what they were.
/// It takes memory.
///
/// # Errors
///
/// Those of the database.
pub fn replace<S: Alter>(conn: &mut Connection<S>, rows: &MirrorRows) -> Result<(), MirrorErr>
    requires rows { AreReplaceable rows.now }
    requires autocommit { conn.old.in_transaction ≡ false }
    ensures replaced { HasCleanDisk (state S.Store conn.new)
        → OnOk result (Replaces rows.now (state S.Store conn.old) (state S.Store conn.new)) }
    ensures kept { HasCleanDisk (state S.Store conn.new)
        → OnErr result (KeepsTables (state S.Store conn.old) (state S.Store conn.new)) }
    ensures mode { conn.new.in_transaction ≡ false }
{
    let mut tx = conn.transaction();
    fill(&mut tx, rows)?;
    match tx.commit() {
        Ok(()) => Ok(()),
        Err(error) => Err(fault(error)),
    }
}
