//! The statements on the two tables, one function for each. What they do is told in the two lists of the mirror.

ghost use Rattle.std.specs.Prelude.{◌≡◌, List, ℕ, true, false, IsTrue, IfOk, OnOk, OnErr};
ghost use Rattle.std.specs.List.{AllByRecursion};
ghost use Rattle.packed_names.specs.Labels.{IsLabelOf};
ghost use Rattle.obs_record.specs.Short.{IsShort};
ghost use Rattle.mirror_store.specs.Rows.{IsObjectRow, IsSightRow};
ghost use Rattle.sqlite.specs.Held.{state};
ghost use Rattle.sqlite.specs.State.{HasCleanDisk, Shows, KeepsCommit, Survives};
ghost use Rattle.mirror_sqlite.specs.Holding.{LosesSights, LosesObjects, GainsObject, GainsSight};
ghost use Rattle.mirror_sqlite.specs.Holding.{Holds, ListsObjects, ListsSights, KeepsTables};
ghost use Rattle.mirror_store.specs.declared.rows.MirrorRows.{MirrorRows};
ghost use Rattle.mirror_sqlite.specs.Stored.{name_text, code_text};
ghost use Rattle.mirror_sqlite.specs.Texts.{row_texts, IsUnderstood, IsAsItWas};

use crate::faults::fault;
use crate::reading::{objects_of, sights_of};
use mirror_store::{MirrorErr, ObjectRow, ObjectRows, SightRow, SightRows};
use obs_record::Short;
use packed_names::Label;
use sqlite::types::ValueRef;
use sqlite::{Alter, Connection, Transaction};
use std::alloc::Global;

const ADD_OBJECT: &str = "INSERT INTO object VALUES (?1, ?2, ?3, ?4)";

const ADD_SIGHT: &str = "INSERT INTO sight VALUES (?1, ?2, ?3, ?4, ?5, ?6)";

const LIST_OBJECTS: &str =
    "SELECT place, principal, number, observations FROM object ORDER BY place";

const LIST_SIGHTS: &str =
    "SELECT id, object, time, ra, dec, station FROM sight WHERE time >= ?1 AND time < ?2 ORDER BY time, id";

/// The text of a label.
fn name(label: &Label) -> &[u8]
    requires { (text : List ℕ) × IsLabelOf text label.now }
    ensures { result.now ≡ name_text label.now }
{
    label.as_slice()
}

/// The text of a code.
fn code(short: &Short) -> &[u8]
    requires { IsShort short.now }
    ensures { result.now ≡ code_text short.now }
{
    &short.bytes[..short.len as usize]
}

/// Takes all observations out.
///
/// # Errors
///
/// Those of the database; what the last commit left stays.
pub fn empty_sights<S: Alter>(tx: &mut Transaction<'_, S>) -> Result<(), MirrorErr>
    ensures same_reference { tx.new.conn.ghost_name ≡ tx.old.conn.ghost_name }
    ensures changes { HasCleanDisk (state S.Store tx.new.conn.now)
        → IsTrue (state S.Store tx.old.conn.now).in_transaction
        → OnOk result (LosesSights (state S.Store tx.old.conn.now) (state S.Store tx.new.conn.now)) }
    ensures inside { HasCleanDisk (state S.Store tx.new.conn.now)
        → IsTrue (state S.Store tx.old.conn.now).in_transaction
        → OnOk result (Shows (state S.Store tx.old.conn.now) (state S.Store tx.new.conn.now)
        (state S.Store tx.new.conn.now).now (state S.Store tx.old.conn.now).committed true) }
    ensures kept { HasCleanDisk (state S.Store tx.new.conn.now) → IsTrue (state S.Store tx.old.conn.now).in_transaction
        → OnErr result (KeepsCommit (state S.Store tx.old.conn.now) (state S.Store tx.new.conn.now)) }
    ensures survives { Survives (state S.Store tx.old.conn.now) (state S.Store tx.new.conn.now) (λ _. ⊥) }
{
    match tx.execute("DELETE FROM sight", &[]) {
        Ok(_) => Ok(()),
        Err(error) => Err(fault(error)),
    }
}

/// Takes all objects out.
///
/// # Errors
///
/// Those of the database; what the last commit left stays.
pub fn empty_objects<S: Alter>(tx: &mut Transaction<'_, S>) -> Result<(), MirrorErr>
    ensures same_reference { tx.new.conn.ghost_name ≡ tx.old.conn.ghost_name }
    ensures changes { HasCleanDisk (state S.Store tx.new.conn.now)
        → IsTrue (state S.Store tx.old.conn.now).in_transaction
        → OnOk result (LosesObjects (state S.Store tx.old.conn.now) (state S.Store tx.new.conn.now)) }
    ensures inside { HasCleanDisk (state S.Store tx.new.conn.now)
        → IsTrue (state S.Store tx.old.conn.now).in_transaction
        → OnOk result (Shows (state S.Store tx.old.conn.now) (state S.Store tx.new.conn.now)
        (state S.Store tx.new.conn.now).now (state S.Store tx.old.conn.now).committed true) }
    ensures kept { HasCleanDisk (state S.Store tx.new.conn.now) → IsTrue (state S.Store tx.old.conn.now).in_transaction
        → OnErr result (KeepsCommit (state S.Store tx.old.conn.now) (state S.Store tx.new.conn.now)) }
    ensures survives { Survives (state S.Store tx.old.conn.now) (state S.Store tx.new.conn.now) (λ _. ⊥) }
{
    match tx.execute("DELETE FROM object", &[]) {
        Ok(_) => Ok(()),
        Err(error) => Err(fault(error)),
    }
}

/// Puts an object after all others, whose places are less than its own.
///
/// # Errors
///
/// Those of the database; what the last commit left stays.
pub fn add_object<S: Alter>(tx: &mut Transaction<'_, S>, row: &ObjectRow) -> Result<(), MirrorErr>
    requires { IsObjectRow row.now }
    ensures same_reference { tx.new.conn.ghost_name ≡ tx.old.conn.ghost_name }
    ensures changes { HasCleanDisk (state S.Store tx.new.conn.now)
        → IsTrue (state S.Store tx.old.conn.now).in_transaction
        → OnOk result (GainsObject row.now (state S.Store tx.old.conn.now) (state S.Store tx.new.conn.now)) }
    ensures inside { HasCleanDisk (state S.Store tx.new.conn.now)
        → IsTrue (state S.Store tx.old.conn.now).in_transaction
        → OnOk result (Shows (state S.Store tx.old.conn.now) (state S.Store tx.new.conn.now)
        (state S.Store tx.new.conn.now).now (state S.Store tx.old.conn.now).committed true) }
    ensures kept { HasCleanDisk (state S.Store tx.new.conn.now) → IsTrue (state S.Store tx.old.conn.now).in_transaction
        → OnErr result (KeepsCommit (state S.Store tx.old.conn.now) (state S.Store tx.new.conn.now)) }
    ensures survives { Survives (state S.Store tx.old.conn.now) (state S.Store tx.new.conn.now) (λ _. ⊥) }
{
    let values = [
        ValueRef::Int(i64::from(row.place)),
        ValueRef::Text(name(&row.principal)),
        ValueRef::Int(i64::from(row.number)),
        ValueRef::Int(i64::from(row.observations)),
    ];
    match tx.execute(ADD_OBJECT, &values) {
        Ok(_) => Ok(()),
        Err(error) => Err(fault(error)),
    }
}

/// Puts an observation after all others, whose ids are less than its own.
///
/// # Errors
///
/// Those of the database; what the last commit left stays.
pub fn add_sight<S: Alter>(tx: &mut Transaction<'_, S>, row: &SightRow) -> Result<(), MirrorErr>
    requires { IsSightRow row.now }
    ensures same_reference { tx.new.conn.ghost_name ≡ tx.old.conn.ghost_name }
    ensures changes { HasCleanDisk (state S.Store tx.new.conn.now)
        → IsTrue (state S.Store tx.old.conn.now).in_transaction
        → OnOk result (GainsSight row.now (state S.Store tx.old.conn.now) (state S.Store tx.new.conn.now)) }
    ensures inside { HasCleanDisk (state S.Store tx.new.conn.now)
        → IsTrue (state S.Store tx.old.conn.now).in_transaction
        → OnOk result (Shows (state S.Store tx.old.conn.now) (state S.Store tx.new.conn.now)
        (state S.Store tx.new.conn.now).now (state S.Store tx.old.conn.now).committed true) }
    ensures kept { HasCleanDisk (state S.Store tx.new.conn.now) → IsTrue (state S.Store tx.old.conn.now).in_transaction
        → OnErr result (KeepsCommit (state S.Store tx.old.conn.now) (state S.Store tx.new.conn.now)) }
    ensures survives { Survives (state S.Store tx.old.conn.now) (state S.Store tx.new.conn.now) (λ _. ⊥) }
{
    let values = [
        ValueRef::Int(i64::from(row.id)),
        ValueRef::Text(name(&row.object)),
        ValueRef::Int(row.time),
        ValueRef::Int(row.ra),
        ValueRef::Int(row.dec),
        ValueRef::Text(code(&row.station)),
    ];
    match tx.execute(ADD_SIGHT, &values) {
        Ok(_) => Ok(()),
        Err(error) => Err(fault(error)),
    }
}

/// The objects, by place. It takes memory.
///
/// # Errors
///
/// Those of the database, or a row is out of range; the tables stay.
pub fn objects<S: Alter>(alloc: Global, conn: &mut Connection<S>) -> Result<ObjectRows, MirrorErr>
    ensures lists { HasCleanDisk (state S.Store conn.new) → IfOk result (ListsObjects (state S.Store conn.old)) }
    ensures in_range { IfOk result (AllByRecursion IsObjectRow) }
    ensures kept { HasCleanDisk (state S.Store conn.new)
        → KeepsTables (state S.Store conn.old) (state S.Store conn.new) }
    ensures mode { conn.old.in_transaction ≡ false → conn.new.in_transaction ≡ false }
    ensures survives { (lists : MirrorRows) → Holds (state S.Store conn.old) lists
        → Survives (state S.Store conn.old) (state S.Store conn.new) (λ _. ⊥) }
{
    let found = conn.query_all(LIST_OBJECTS, &[]);
    match found {
        Ok(rows) => objects_of(alloc, rows.as_slice()),
        Err(error) => Err(fault(error)),
    }
}

/// The observations from the one moment on and before the other, in nanoseconds since 1970, by time, those of one
/// moment by id. It takes memory.
///
/// # Errors
///
/// Those of the database, or a row is out of range; the tables stay.
pub fn between<S: Alter>(
    alloc: Global,
    conn: &mut Connection<S>,
    from: i64,
    to: i64,
) -> Result<SightRows, MirrorErr>
    ensures lists { HasCleanDisk (state S.Store conn.new) → IfOk result (ListsSights from to (state S.Store conn.old)) }
    ensures in_range { IfOk result (AllByRecursion IsSightRow) }
    ensures kept { HasCleanDisk (state S.Store conn.new)
        → KeepsTables (state S.Store conn.old) (state S.Store conn.new) }
    ensures mode { conn.old.in_transaction ≡ false → conn.new.in_transaction ≡ false }
    ensures survives { (lists : MirrorRows) → Holds (state S.Store conn.old) lists
        → Survives (state S.Store conn.old) (state S.Store conn.new) (λ _. ⊥) }
{
    let found = conn.query_all(LIST_SIGHTS, &[ValueRef::Int(from), ValueRef::Int(to)]);
    match found {
        Ok(rows) => sights_of(alloc, rows.as_slice()),
        Err(error) => Err(fault(error)),
    }
}

/// Tries whether a statement can be compiled.
fn compile<S: Alter>(conn: &mut Connection<S>, text: &str) -> Result<(), MirrorErr>
    ensures understood { HasCleanDisk (state S.Store conn.new)
        → OnOk result (IsUnderstood (state S.Store conn.old) text.now) }
    ensures unchanged { HasCleanDisk (state S.Store conn.new)
        → OnOk result (IsAsItWas (state S.Store conn.old) (state S.Store conn.new)) }
    ensures survives { Survives (state S.Store conn.old) (state S.Store conn.new) (λ _. ⊥) }
{
    match conn.prepare(text) {
        Ok(_) => Ok(()),
        Err(error) => Err(fault(error)),
    }
}

/// Tries whether the tables have the columns that the statements on rows name, and no others. Where they have, nothing is
/// changed.
///
/// # Errors
///
/// Those of the database, among them that a table has other columns.
pub fn compile_all<S: Alter>(conn: &mut Connection<S>) -> Result<(), MirrorErr>
    ensures understood { HasCleanDisk (state S.Store conn.new)
        → OnOk result (AllByRecursion (IsUnderstood (state S.Store conn.old)) row_texts) }
    ensures unchanged { HasCleanDisk (state S.Store conn.new)
        → OnOk result (IsAsItWas (state S.Store conn.old) (state S.Store conn.new)) }
{
    compile(conn, ADD_OBJECT)?;
    compile(conn, ADD_SIGHT)?;
    compile(conn, LIST_OBJECTS)?;
    compile(conn, LIST_SIGHTS)
}
