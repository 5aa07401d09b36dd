//! Large bodies, long batches and long refusals.

use std::alloc::Global;
use testkit_sessions::{
    BATCH, Call, FIRST, FOUNDER, NoMemory, Script, Wrong, call_alone, put, put_lines, put_reply,
    put_taken,
};

/// Without rows no station is known.
const STRANGERS: &str = concat!(
    "422 90\n",
    "refused 7 NoLine\n",
    "line 7 refused T1\n",
    "line 8 refused T1\n",
    "line 9 refused T1\n",
    "line 10 refused T1\n",
);

fn without_rows(alloc: Global) -> Result<(), Wrong> {
    let mut bytes = Vec::new(alloc);
    put(&mut bytes, "+founder-1 1 submit80 411\n")?;
    put(&mut bytes, BATCH)?;
    call_alone(alloc, &Call::run(&bytes, 0, STRANGERS.as_bytes()))
}

#[test]
fn office_without_rows(rt: HostRuntime) {
    without_rows(rt.alloc()).expect(&rt, "as wanted");
}

/// Heads, the number of bytes of the body, the byte, and the answers to both frames.
const LARGE: &[(&str, usize, u8, &str)] = &[
    (
        "+founder-1 9 submit80 1048577\n",
        1_048_577,
        b'x',
        "413 34\nrefused 14 TooLarge bytes 1048577\n200 10\nreceipt 1\n",
    ),
    (
        "+founder-1 9 submit80 1048576\n",
        1_048_576,
        b'x',
        "422 35\nrefused 7 NoLine\nline 1 refused S1\n200 10\nreceipt 1\n",
    ),
    (
        "nobody-here 9 orbit 10001\n",
        10_001,
        b'\n',
        "413 32\nrefused 14 TooLarge lines 10001\n200 10\nreceipt 1\n",
    ),
    (
        "+founder-1 9 submit80 10000\n",
        10_000,
        b'\n',
        "422 17\nrefused 7 NoLine\n200 10\nreceipt 1\n",
    ),
];

/// A head with a body of so many bytes of one kind, and the founder's first request.
fn large(alloc: Global, head: &str, count: usize, byte: u8) -> Result<Vec<u8>, NoMemory> {
    let mut bytes = Vec::new(alloc);
    put(&mut bytes, head)?;
    let end = bytes.len().saturating_add(count);
    bytes.resize(end, byte)?;
    put(&mut bytes, FIRST)?;
    Ok(bytes)
}

/// Each large body by its place in the table.
fn larges(alloc: Global) -> Result<(), Wrong> {
    for (mark, &(head, count, byte, taken)) in LARGE.iter().enumerate() {
        let bytes = large(alloc, head, count, byte)?;
        let call = Call {
            mark,
            greatest: 65_536,
            ..Call::run(&bytes, 1, taken.as_bytes())
        };
        call_alone(alloc, &call)?;
    }
    Ok(())
}

#[test]
fn large_bodies(rt: HostRuntime) {
    larges(rt.alloc()).expect(&rt, "as wanted");
}

/// What stands before and after the decimals of a day, in a line of station 703.
const BEFORE: &str = "     P10abcd  C2024 03 15.";

const BEHIND: &str = " 06 12 34.56 +23 45 01.2          19.5 V      703\n";

/// What is told of their tracklet: each line is 864 milliseconds after the one before, from the 10,000th of these on.
fn tracklet(alloc: Global) -> Result<Vec<u8>, NoMemory> {
    let mut text = Vec::new(alloc);
    put(
        &mut text,
        "track 1 station 703 name P10abcd\nhome isolated\n",
    )?;
    for line in 0..1_200u64 {
        let observation = line.saturating_add(1);
        let time = line.saturating_add(10_000).saturating_mul(864);
        let (minutes, rest) = (time / 60_000, time % 60_000);
        let (hour, minute) = (minutes / 60, minutes % 60);
        let (second, part) = (rest / 1_000, rest % 1_000);
        let next = format!(in alloc;
            "obs {observation} live 2024-03-15T{hour:02}:{minute:02}:{second:02}.{part:03}000000Z"
        )?;
        put(&mut text, next.as_str())?;
        put(&mut text, " 93.144000000000 +23.750333333333\n")?;
    }
    Ok(text)
}

/// The founder's sixth request is a batch of 1,200 lines of 81 bytes, each a little later than the one before; then the
/// founder asks for their tracklet.
fn accepted(alloc: Global) -> Result<(), Wrong> {
    let mut script = Script::begun(alloc)?;
    let mut body = Vec::new(alloc);
    put_lines(alloc, &mut body, 1_200, 10_000, BEFORE, BEHIND)?;
    let mut text = Vec::new(alloc);
    put(&mut text, "receipt 6\naccepted 1200 refused 0\n")?;
    put_taken(alloc, &mut text, 1_200)?;
    script.add(FOUNDER, 6, "submit80", &body, "200 ", &text)?;
    let told = tracklet(alloc)?;
    script.add(FOUNDER, 0, "tracklet", b"1", "200 ", &told)?;
    call_alone(alloc, &script.call(6))
}

#[test]
fn batch_of_1200_lines(rt: HostRuntime) {
    accepted(rt.alloc()).expect(&rt, "as wanted");
}

/// Twelve such lines in an office that has no row, so that each is of an unknown station.
fn refused(alloc: Global) -> Result<(), Wrong> {
    let mut bytes = Vec::new(alloc);
    put(&mut bytes, "+founder-1 6 submit80 972\n")?;
    put_lines(alloc, &mut bytes, 12, 10_000, BEFORE, BEHIND)?;
    let mut text = Vec::new(alloc);
    put(&mut text, "refused 7 NoLine\n")?;
    put_lines(alloc, &mut text, 12, 1, "line ", " refused T1\n")?;
    let mut taken = Vec::new(alloc);
    put_reply(alloc, &mut taken, "422 ", &text)?;
    let call = Call {
        greatest: 65_536,
        ..Call::run(&bytes, 0, &taken)
    };
    call_alone(alloc, &call)
}

#[test]
fn refusal_with_12_faults(rt: HostRuntime) {
    refused(rt.alloc()).expect(&rt, "as wanted");
}
