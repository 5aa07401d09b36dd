//! Good and bad words of the command line.

use testkit_program::call_single;
use testkit_sessions::{Call, FIRST, FIRST_ANSWER};

/// The words of `run` with the founder's key.
const RUN: [&str; 3] = ["run", "--key", "+founder-1"];

#[test]
fn words_of_run(rt: HostRuntime) {
    let good: [&[&str]; 2] = [&RUN, &["run", "--key=+founder-1"]];
    for words in good {
        let call = Call {
            words,
            ..Call::run(FIRST.as_bytes(), 1, FIRST_ANSWER.as_bytes())
        };
        call_single(rt.alloc(), &call).expect(&rt, "as wanted");
    }
    let bad: [&[&str]; 14] = [
        &["run"],
        &[],
        &["tally", "--key", "+founder-1"],
        &["run", "--key", "+1234567"],
        &["run", "--key", "founder-1"],
        &["run", "--key=", "+founder-1"],
        &["run", "--key", "+founder-1", "--key"],
        &["mirror", "x"],
        &["look", "--from", "2024-02-30", "--to", "2024-03-01"],
        &["look", "--from", "1799-12-31", "--to", "2200-01-01"],
        &["look", "--from=2024-03-16", "--from=2024-03-16"],
        &["look", "--to", "2024-03-17"],
        &["comets"],
        &["comets", "--key", "founder-1"],
    ];
    for words in bad {
        let call = Call {
            words,
            status: "Usage",
            number: 2,
            ..Call::run(FIRST.as_bytes(), 0, b"")
        };
        call_single(rt.alloc(), &call).expect(&rt, "as wanted");
    }
}
