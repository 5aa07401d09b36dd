//! Good and bad words.

use crate::tables::expect_none_wrong;
use command_line::{Command, Words, command_of};
use item_list::Bytes;
use std::alloc::Global;

fn words_of(alloc: Global, texts: &[&str]) -> Option<Words> {
    let mut words = Words::new(alloc);
    for text in texts {
        match Bytes::from_slice(alloc, text.as_bytes()) {
            Ok(word) => {
                if words.push(word).is_err() {
                    return None;
                }
            }
            Err(_) => return None,
        }
    }
    Some(words)
}

/// What a command is told as, in a line.
fn line_of(alloc: Global, command: Option<Command>) -> Option<String> {
    let told = match command {
        Some(Command::Run { key }) => format!(in alloc; "run {}", key.len),
        Some(Command::Serve { key, connections }) => {
            format!(in alloc; "serve {} {connections}", key.len)
        }
        Some(Command::Export) => format!(in alloc; "export"),
        Some(Command::Workload { seed, count }) => format!(in alloc; "workload {seed} {count}"),
        Some(Command::Mirror) => format!(in alloc; "mirror"),
        Some(Command::Look { from, to }) => format!(in alloc; "look {from} {to}"),
        Some(Command::Comets { key }) => format!(in alloc; "comets {}", key.len),
        None => format!(in alloc; "usage"),
    };
    told.ok()
}

fn command(alloc: Global, texts: &[&str]) -> Option<Option<Command>> {
    match words_of(alloc, texts) {
        Some(words) => Some(command_of(&words)),
        None => None,
    }
}

/// Whether the words are taken for the command of this line.
fn is_told(alloc: Global, texts: &[&str], want: &str) -> bool {
    match command(alloc, texts) {
        Some(command) => match line_of(alloc, command) {
            Some(line) => line.as_str() == want,
            None => false,
        },
        None => false,
    }
}

const GOOD: &[(&[&str], &str)] = &[
    (&["run", "--key", "+founder-1"], "run 10"),
    (&["run", "--key=+founder-1"], "run 10"),
    (
        &["serve", "--key", "+founder-1", "--connections", "1"],
        "serve 10 1",
    ),
    (
        &["serve", "--connections=1000", "--key=+1234567-"],
        "serve 9 1000",
    ),
    (&["export"], "export"),
    (&["workload", "--seed", "7", "--count", "3"], "workload 7 3"),
    (
        &["workload", "--count=20000", "--seed", "0"],
        "workload 0 20000",
    ),
    (
        &["workload", "--seed=18446744073709551615", "--count", "1"],
        "workload 18446744073709551615 1",
    ),
    (&["mirror"], "mirror"),
    (
        &["look", "--from", "2024-03-16", "--to", "2024-03-17"],
        "look 19798 19799",
    ),
    (
        &["look", "--to=2024-02-29", "--from", "2024-03-16"],
        "look 19798 19782",
    ),
    (
        &["look", "--from=1800-01-01", "--to=2199-12-31"],
        "look -62091 84005",
    ),
    (
        &["look", "--to", "1970-01-01", "--from", "1969-12-31"],
        "look -1 0",
    ),
    (&["comets", "--key", "+founder-1"], "comets 10"),
    (&["comets", "--key=+1234567-"], "comets 9"),
];

const BAD: &[&[&str]] = &[
    &[],
    &["--"],
    &["help"],
    &["--help"],
    &["tally", "--key", "+founder-1"],
    &["run"],
    &["run", "+founder-1"],
    &["run", "--key"],
    &["run", "--key", "+1234567"],
    &["run", "--key", "founder-1"],
    &["run", "--key", "-founder-1"],
    &["run", "--key", "+founder_1"],
    &["run", "--key", "+123456789012345678901234567890123"],
    &["run", "--key=", "+founder-1"],
    &["run", "--key", "=+founder-1"],
    &["run", "-key", "+founder-1"],
    &["run", "--key", "+founder-1", "--key"],
    &["run", "--key", "+founder-1", "--key", "+founder-1"],
    &["run", "--", "--key", "+founder-1"],
    &["run", "--key", "+founder-1", "--connections", "1"],
    &["serve", "--key", "+founder-1"],
    &["serve", "--key", "+founder-1", "--connections", "1001"],
    &[
        "serve",
        "--key",
        "+founder-1",
        "--key",
        "+founder-1",
        "--connections",
        "1",
    ],
    &["export", "--help"],
    &["workload", "--seed", "07", "--count", "3"],
    &["workload", "--seed", "18446744073709551616", "--count", "3"],
    &["workload", "--seed", "+7", "--count", "3"],
    &["workload", "--seed", "7", "--count", "0"],
    &["workload", "--seed", "7", "--count", "20001"],
    &["workload", "--seed", "", "--count", "3"],
    &["mirror", "x"],
    &["Mirror"],
    &["look"],
    &["look", "2024-03-16", "2024-03-17"],
    &["look", "--from", "2024-03-16"],
    &["look", "--to", "2024-03-17"],
    &["look", "--from", "2024-03-16", "--from", "2024-03-17"],
    &[
        "look",
        "--from=2024-03-16",
        "--to=2024-03-17",
        "--to=2024-03-17",
    ],
    &["look", "--from", "2024-03-16", "--to", "2024-03-17", "x"],
    &["look", "--from", "2024-02-30", "--to", "2024-03-01"],
    &["look", "--from", "2023-02-28", "--to", "2023-02-29"],
    &["look", "--from", "1799-12-31", "--to", "1800-01-01"],
    &["look", "--from", "2199-12-31", "--to", "2200-01-01"],
    &["look", "--from", "2024-3-16", "--to", "2024-03-17"],
    &[
        "look",
        "--from",
        "2024-03-16",
        "--to",
        "2024-03-17T00:00:00Z",
    ],
    &["look", "--from", "20240316", "--to", "20240317"],
    &["look", "--from", "", "--to", "2024-03-17"],
    &["look", "--from", "19798", "--to", "19799"],
    &["look", "-from", "2024-03-16", "-to", "2024-03-17"],
    &["comets"],
    &["comets", "--key", "founder-1"],
    &["comets", "--key=+founder-1", "--key=+founder-1"],
    &["comets", "--key", "+founder-1", "--connections", "1"],
    &["comet", "--key", "+founder-1"],
];

/// The first words that are taken for another command, counted from 0; None where there are none. So are those below.
fn wrong_good(alloc: Global) -> Option<usize> {
    for (row, &(texts, want)) in GOOD.iter().enumerate() {
        if !is_told(alloc, texts, want) {
            return Some(row);
        }
    }
    None
}

fn wrong_bad(alloc: Global) -> Option<usize> {
    for (row, &texts) in BAD.iter().enumerate() {
        if !is_told(alloc, texts, "usage") {
            return Some(row);
        }
    }
    None
}

#[test]
fn commands_of_words(rt: HostRuntime) {
    let good = wrong_good(rt.alloc());
    expect_none_wrong(&rt, good);
    let bad = wrong_bad(rt.alloc());
    expect_none_wrong(&rt, bad);
}
