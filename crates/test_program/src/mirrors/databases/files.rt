//! The mirror over the file `mirror.db`. All of it is one test, since each trial has that file for its own.

use super::trials::{
    OverFile, each_session, in_turn, looked_once, mirrored_once, number_by, refused_once, run_each,
};
use mirror_sqlite::FileMirror;
use sqlite::Connection;
use std::fs;
use std::test::Fail;
use testkit_mirror::{EA_DAY, is_refused, look_faults, look_to};

const FILE: &str = "mirror.db";

/// The log beside it.
const LOG: &str = "mirror.db-wal";

/// The two tables, as the mirror makes them.
const TABLES: &str = concat!(
    "CREATE TABLE object (place INTEGER PRIMARY KEY, principal TEXT NOT NULL UNIQUE, ",
    "number INTEGER NOT NULL, observations INTEGER NOT NULL) STRICT; ",
    "CREATE TABLE sight (id INTEGER PRIMARY KEY, object TEXT NOT NULL, ",
    "time INTEGER NOT NULL, ra INTEGER NOT NULL, dec INTEGER NOT NULL, station TEXT NOT NULL) STRICT"
);

/// Rows, each of which has one value that is out of range.
const OUT_OF_RANGE: &[&str] = &[
    "INSERT INTO object VALUES (-1, '2024 EA', 0, 0)",
    "INSERT INTO object VALUES (4294967296, '2024 EA', 0, 0)",
    "INSERT INTO object VALUES (1, '2024 EA0', 0, 0)",
    "INSERT INTO object VALUES (1, '', 0, 0)",
    "INSERT INTO object VALUES (1, '620000', 0, 0)",
    "INSERT INTO object VALUES (1, '2024 EA', 15396336, 0)",
    "INSERT INTO object VALUES (1, '2024 EA', -1, 0)",
    "INSERT INTO object VALUES (1, '2024 EA', 0, -1)",
    "INSERT INTO sight VALUES (-1, '', 1710549000000000000, 0, 0, '703')",
    "INSERT INTO sight VALUES (1, 'EA', 1710549000000000000, 0, 0, '703')",
    "INSERT INTO sight VALUES (1, '', 1710549000000000000, 3240000000000000, 0, '703')",
    "INSERT INTO sight VALUES (1, '', 1710549000000000000, -1, 0, '703')",
    "INSERT INTO sight VALUES (1, '', 1710549000000000000, 0, 810000000000001, '703')",
    "INSERT INTO sight VALUES (1, '', 1710549000000000000, 0, -810000000000001, '703')",
    "INSERT INTO sight VALUES (1, '', 1710549000000000000, 0, 0, '7033')",
    "INSERT INTO sight VALUES (1, '', 1710549000000000000, 0, 0, '70-')",
];

/// Texts that are no database.
const TEXTS: &[&str] = &[
    "no database",
    "SQ",
    "SQLite format 3",
    "An astronomer keeps notes in a file of this name, which is longer than the hundred bytes that the head of a \
        database has, and which doesn't begin as one does.",
];

/// Tables of another shape, a query that gives one number of them, and the number.
const SHAPES: &[(&str, &str, i64)] = &[
    (
        "CREATE TABLE object (x INTEGER); CREATE TABLE sight (y INTEGER); INSERT INTO object VALUES (7)",
        "SELECT x FROM object",
        7,
    ),
    (
        "CREATE TABLE sight (y INTEGER); INSERT INTO sight VALUES (8)",
        "SELECT y FROM sight",
        8,
    ),
    (
        "CREATE TABLE sight (id INTEGER, object TEXT, time INTEGER, ra INTEGER, dec INTEGER, code TEXT); \
            INSERT INTO sight VALUES (9, '', 0, 0, 0, '703')",
        "SELECT id FROM sight",
        9,
    ),
    (
        "CREATE TABLE object (place INTEGER, principal TEXT, number INTEGER, observations INTEGER, note TEXT); \
            INSERT INTO object VALUES (1, '2024 EA', 0, 0, 'seen')",
        "SELECT place FROM object",
        1,
    ),
];

/// Takes away what an earlier trial left.
fn clear(rt: HostRuntime) {
    let _ = fs::remove_dir(&rt, FILE);
    let _ = fs::remove_file(&rt, FILE);
    let _ = fs::remove_file(&rt, LOG);
}

/// Makes the file by these statements.
fn make(rt: HostRuntime, texts: &[&str]) -> Result<(), Fail> {
    clear(rt);
    run_each(Connection::open(&rt, FILE), texts)
}

/// The number that this query gives.
fn number_in(rt: HostRuntime, query: &str) -> Result<i64, Fail> {
    number_by(Connection::open(&rt, FILE), query)
}

/// A mirror over the file refuses both commands, and what lies there keeps its bytes.
fn is_left(rt: HostRuntime, mark: usize) -> Result<(), Fail> {
    let before = fs::read(&rt, FILE)?;
    refused_once(rt.alloc(), FileMirror::new(rt), mark)?;
    let after = fs::read(&rt, FILE)?;
    if before.as_slice() == after.as_slice() {
        Ok(())
    } else {
        Err(Fail::new("other bytes"))
    }
}

/// The sessions of every mirror.
fn sessions(rt: HostRuntime) -> Result<(), Fail> {
    clear(rt);
    each_session(rt.alloc(), FileMirror::new(rt))
}

/// The rows are in the file alone, once it is closed, and in it and its log before.
fn found_again(rt: HostRuntime) -> Result<(), Fail> {
    clear(rt);
    mirrored_once(rt.alloc(), FileMirror::new(rt))?;
    looked_once(rt.alloc(), FileMirror::new(rt), &look_to(1, EA_DAY))?;
    fs::remove_file(&rt, LOG)?;
    looked_once(rt.alloc(), FileMirror::new(rt), &look_to(2, EA_DAY))?;
    Ok(())
}

/// A file that another mirror has open is refused, and is found once that one has closed it.
fn open_elsewhere(rt: HostRuntime) -> Result<(), Fail> {
    in_turn(rt.alloc(), FileMirror::new(rt), FileMirror::new(rt))?;
    Ok(())
}

/// The file is cut to its first half, without its log.
fn cut_short(rt: HostRuntime) -> Result<(), Fail> {
    let bytes = fs::read(&rt, FILE)?;
    let (half, _) = bytes.as_slice().split_at(bytes.len() / 2);
    fs::write(&rt, FILE, half)?;
    fs::remove_file(&rt, LOG)?;
    is_left(rt, 0)
}

/// A folder has the file's name. Once it is gone the same mirror makes the file.
fn folder(rt: HostRuntime) -> Result<(), Fail> {
    clear(rt);
    fs::create_dir(&rt, FILE)?;
    after_folder(rt, FileMirror::new(rt))
}

/// A mirror that a folder keeps from its file, until that is gone.
fn after_folder<M: OverFile>(rt: HostRuntime, mut mirror: M) -> Result<(), Fail> {
    is_refused(rt.alloc(), &mut mirror, 0)?;
    fs::remove_dir(&rt, FILE)?;
    looked_once(rt.alloc(), mirror, &look_to(1, ""))?;
    Ok(())
}

fn no_database(rt: HostRuntime) -> Result<(), Fail> {
    for (mark, text) in TEXTS.iter().enumerate() {
        clear(rt);
        fs::write(&rt, FILE, *text)?;
        is_left(rt, mark)?;
    }
    Ok(())
}

fn other_shapes(rt: HostRuntime) -> Result<(), Fail> {
    for (mark, &(tables, query, number)) in SHAPES.iter().enumerate() {
        make(rt, &[tables])?;
        refused_once(rt.alloc(), FileMirror::new(rt), mark)?;
        if number_in(rt, query)? != number {
            return Err(Fail::new("another row"));
        }
    }
    Ok(())
}

/// No row that is out of range is given, and `look` leaves it.
fn out_of_range(rt: HostRuntime) -> Result<(), Fail> {
    for (mark, row) in OUT_OF_RANGE.iter().enumerate() {
        make(rt, &[TABLES, row])?;
        looked_once(rt.alloc(), FileMirror::new(rt), &look_faults(mark))?;
        let rows = number_in(
            rt,
            "SELECT (SELECT count(*) FROM object) + (SELECT count(*) FROM sight)",
        )?;
        if rows != 1 {
            return Err(Fail::new("no row"));
        }
    }
    Ok(())
}

#[test]
fn over_the_file(rt: HostRuntime) -> Result<(), Fail> {
    sessions(rt)?;
    found_again(rt)?;
    open_elsewhere(rt)?;
    cut_short(rt)?;
    folder(rt)?;
    no_database(rt)?;
    other_shapes(rt)?;
    out_of_range(rt)?;
    clear(rt);
    Ok(())
}
