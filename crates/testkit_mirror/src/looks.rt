//! What the command `look` writes of the observations of some days.

use crate::calls::{call_alone, mirrored_after};
use crate::offices::{EA_LINE, EA_OBJECT, ISOLATED, ISOLATED_LINE, OBJECT, SUBMITTED};
use command_ends::Status;
use desk_io::MemSink;
use look_command::look;
use mirror_store::Mirror;
use obs_time::read_date;
use std::alloc::Global;
use testkit_sessions::{Call, Devices, Drives, Wrong, disks_of, has_ended_with};

const FROM: &str = "2024-03-16";

const TO: &str = "2024-03-17";

/// The object of the office with one, and its observations of 2024-03-16.
const OBJECT_LINE: &str = "object 2024 EA number none observations 4\n";

pub const EA_DAY: &str = concat!(
    "object 2024 EA number none observations 4\n",
    "obs 2 object 2024 EA 2024-03-16T00:30:00.000000000Z 150.010000000000 -05.500000000000 703\n",
    "obs 3 object 2024 EA 2024-03-16T12:00:00.000000000Z 150.200000000000 -05.500000000000 703\n",
    "obs 4 object 2024 EA 2024-03-16T12:30:00.000000000Z 150.210000000000 -05.500000000000 703\n",
);

/// The one of the evening before.
const EVENING: &str = concat!(
    "object 2024 EA number none observations 4\n",
    "obs 1 object 2024 EA 2024-03-15T23:59:59.999000000Z 150.000000000000 -05.500000000000 703\n",
);

/// Those of 2024-03-16 where they are isolated.
const ISOLATED_DAY: &str = concat!(
    "obs 2 isolated 2024-03-16T00:30:00.000000000Z 150.010000000000 -05.500000000000 703\n",
    "obs 3 isolated 2024-03-16T12:00:00.000000000Z 150.200000000000 -05.500000000000 703\n",
    "obs 4 isolated 2024-03-16T12:30:00.000000000Z 150.210000000000 -05.500000000000 703\n",
);

/// The days, and what is written.
const LOOKS: &[(&str, &str, &str)] = &[
    ("2024-03-16", "2024-03-17", EA_DAY),
    ("2024-03-15", "2024-03-16", EVENING),
    // Nothing lies between a day and itself, nor between two that are exchanged.
    ("2024-03-16", "2024-03-16", OBJECT_LINE),
    ("2024-03-17", "2024-03-16", OBJECT_LINE),
    ("1800-01-01", "2024-03-15", OBJECT_LINE),
    ("2024-03-17", "2199-12-31", OBJECT_LINE),
];

/// The status with which `look` ends over these days; Usage where they are none.
fn look_of<M: Mirror>(mirror: &mut M, sink: &mut MemSink, from: &str, to: &str) -> Status {
    match (read_date(from.as_bytes()), read_date(to.as_bytes())) {
        (Ok(from), Ok(to)) => look(from, to, sink, mirror),
        _ => Status::Usage,
    }
}

/// Calls `look` over these days, and looks whether it ends and writes as this call wants it.
///
/// # Errors
///
/// What is wrong with it.
pub fn looked<M: Mirror>(
    alloc: Global,
    mirror: &mut M,
    from: &str,
    to: &str,
    wanted: &Call,
) -> Result<(), Wrong> {
    let mut devices = Devices::new(alloc, wanted)?;
    let status = look_of(mirror, &mut devices.sink, from, to);
    has_ended_with(alloc, wanted, &status, 0, &devices.sink)
}

/// A look that writes this text.
pub fn look_to<'a>(mark: usize, text: &'a str) -> Call<'a> {
    Call {
        mark,
        ..Call::run(b"", 0, text.as_bytes())
    }
}

/// A look that ends with MirrorFault, and writes nothing.
pub fn look_faults(mark: usize) -> Call<'static> {
    Call {
        status: "MirrorFault",
        number: 10,
        ..look_to(mark, "")
    }
}

/// Calls `mirror` on two empty disks, and then `look`: the mirror fails under both, and nothing is written.
///
/// # Errors
///
/// What is wrong with the first of them that isn't as wanted.
pub fn is_refused<M: Mirror>(alloc: Global, mirror: &mut M, mark: usize) -> Result<(), Wrong> {
    let fault = look_faults(mark);
    let call = Call {
        words: &["mirror"],
        ..fault
    };
    call_alone(alloc, &call, disks_of(alloc, &Drives::EMPTY), mirror)?;
    looked(alloc, mirror, FROM, TO, &fault)
}

/// The looks of the table at a mirror that holds the object, numbered from 2 on.
fn each_day<M: Mirror>(alloc: Global, mirror: &mut M) -> Result<(), Wrong> {
    for (mark, &(from, to, text)) in LOOKS.iter().enumerate() {
        looked(
            alloc,
            mirror,
            from,
            to,
            &look_to(mark.saturating_add(2), text),
        )?;
    }
    Ok(())
}

/// What `look` writes of a mirror that holds nothing, of isolated observations, and of those of an object.
///
/// # Errors
///
/// What is wrong with the first call that isn't as wanted.
pub fn each_look<M: Mirror>(alloc: Global, mirror: &mut M) -> Result<(), Wrong> {
    looked(alloc, mirror, FROM, TO, &look_to(0, ""))?;
    mirrored_after(alloc, mirror, &[SUBMITTED], 6, ISOLATED_LINE, &ISOLATED, 1)?;
    looked(alloc, mirror, FROM, TO, &look_to(1, ISOLATED_DAY))?;
    mirrored_after(
        alloc,
        mirror,
        &[SUBMITTED, OBJECT],
        7,
        EA_LINE,
        &EA_OBJECT,
        2,
    )?;
    each_day(alloc, mirror)
}
