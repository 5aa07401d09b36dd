//! The mirror over a database in memory.

use mirror_sqlite::SqlMirror;
use std::alloc::Global;
use testkit_mirror::{each_look, each_office, ordinary, wrong_window};
use testkit_sessions::Wrong;

fn offices(alloc: Global) -> Result<(), Wrong> {
    each_office(alloc, &mut SqlMirror::new(alloc))
}

fn windows(alloc: Global) -> Result<Option<usize>, Wrong> {
    wrong_window(alloc, &mut SqlMirror::new(alloc))
}

fn looks(alloc: Global) -> Result<(), Wrong> {
    each_look(alloc, &mut SqlMirror::new(alloc))
}

fn large(alloc: Global) -> Result<(), Wrong> {
    ordinary(alloc, &mut SqlMirror::new(alloc))
}

#[test]
fn rows_of_each_office(rt: HostRuntime) {
    offices(rt.alloc()).expect(&rt, "as wanted");
}

#[test]
fn observations_of_some_time(rt: HostRuntime) {
    let wrong = windows(rt.alloc()).expect(&rt, "as wanted");
    assert_eq!(rt; wrong, None);
}

#[test]
fn lines_of_some_days(rt: HostRuntime) {
    looks(rt.alloc()).expect(&rt, "as wanted");
}

#[test]
fn ten_thousand_observations(rt: HostRuntime) {
    large(rt.alloc()).expect(&rt, "as wanted");
}
