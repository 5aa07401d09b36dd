//! The made-up workload: its summary, a sink that fails, and words that are no workload.

use std::alloc::Global;
use std::process::Abort;
use testkit_program::call_single;
use testkit_sessions::Call;

/// Three objects of four observations each. The catalogue has 56 bytes of a head and a tally, three lines of 42 bytes
/// for objects, twelve of 81 for observations, and four at its end.
pub(super) const SUMMARY: &str = concat!(
    "workload seed 7 count 3\n",
    "entries 7\n",
    "isolated 0\n",
    "objects 12\n",
    "retracted 0\n",
    "accepted 12\n",
    "last 2024 AC K24A00C\n",
    "catalogue 1170 bytes\n",
);

/// The call of the program with these words over nothing, which is done and writes this.
fn done<'a>(words: &'a [&'a str], taken: &'a str) -> Call<'a> {
    Call {
        words,
        ..Call::run(b"", 0, taken.as_bytes())
    }
}

fn expect_workload<R: Abort>(rt: &R, alloc: Global, call: &Call) {
    call_single(alloc, call).expect(rt, "as wanted");
}

#[test]
fn three_objects(rt: HostRuntime) {
    let words = ["workload", "--seed", "7", "--count", "3"];
    expect_workload(&rt, rt.alloc(), &done(&words, SUMMARY));
    let other_order = ["workload", "--count=3", "--seed=7"];
    expect_workload(&rt, rt.alloc(), &done(&other_order, SUMMARY));
}

/// As many objects as there may be. The last is the 20,000th of 2024 A: the letter after 799 cycles of 25, and packed
/// 4,499 after the first of the long form, 72 times 62 and 35.
const GREATEST: &str = concat!(
    "workload seed 7 count 20000\n",
    "entries 40001\n",
    "isolated 0\n",
    "objects 80000\n",
    "retracted 0\n",
    "accepted 80000\n",
    "last 2024 AZ799 _OA01AZ\n",
    "catalogue 7377307 bytes\n",
);

#[test]
fn twenty_thousand_objects(rt: HostRuntime) {
    let words = ["workload", "--seed", "7", "--count", "20000"];
    expect_workload(&rt, rt.alloc(), &done(&words, GREATEST));
}

#[test]
fn a_sink_that_fails(rt: HostRuntime) {
    let words = ["workload", "--seed", "7", "--count", "3"];
    let call = Call {
        write: 1,
        status: "WriteFault",
        number: 7,
        ..done(&words, "")
    };
    expect_workload(&rt, rt.alloc(), &call);
}

#[test]
fn words_of_no_workload(rt: HostRuntime) {
    let bad: [&[&str]; 6] = [
        &["workload", "--seed", "7"],
        &["workload", "--seed", "07", "--count", "3"],
        &["workload", "--seed", "7", "--count", "0"],
        &["workload", "--seed", "7", "--count", "20001"],
        &["workload", "--seed", "18446744073709551616", "--count", "3"],
        &["workload", "--seed", "7", "--seed", "7"],
    ];
    for words in bad {
        let call = Call {
            status: "Usage",
            number: 2,
            ..done(words, "")
        };
        expect_workload(&rt, rt.alloc(), &call);
    }
}
