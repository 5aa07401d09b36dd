//! The rows that a mirror holds after sessions that show each of their rules. Times, angles and lines are computed by
//! hand from the batches: nanoseconds since 1970, and degrees times 9,000,000,000,000.

use crate::calls::mirrored_after;
use crate::held::{Holds, NOTHING};
use mirror_store::Mirror;
use std::alloc::Global;
use testkit_sessions::Wrong;

/// Two tracklets of one batch.
pub const SUBMITTED: &str = r#"
> observer-1 1 submitpsv $MIDNIGHT
< 200 $MIDNIGHT_TEXT
"#;

/// They become an object.
pub const OBJECT: &str = r#"
> +founder-1 6 designate {"tracklets":[1,2]}
< 200 receipt 7
object 2024 EA K24E00A
"#;

/// Its discovery observation is retracted.
const RETRACTED: &str = r#"
> observer-1 2 retract {"observation":1}
< 200 receipt 8
"#;

/// It is numbered.
const NUMBERED: &str = r#"
> +founder-1 7 verdict {"object":"2024 EA","oppositions":4,"u":2}
< 200 receipt 8
> +founder-1 8 number {"first":620000,"most":1}
< 200 receipt 9
number 620000 2024 EA
"#;

/// A second object, and a tracklet that is left isolated.
const SECOND: &str = r#"
> observer-1 2 submitpsv $NIGHT
< 200 $NIGHT_TEXT
> +founder-1 7 designate {"tracklets":[3,5]}
< 200 receipt 9
object 2024 FA K24F00A
"#;

/// The second object is the first one.
const JOINED: &str = r#"
> +founder-1 8 identify {"principal":"2024 EA","secondary":"2024 FA"}
< 200 receipt 10
"#;

/// It isn't.
const PARTED: &str = r#"
> +founder-1 9 separate {"secondary":"2024 FA"}
< 200 receipt 11
"#;

/// A half-month is taken over, with two designations.
const CARRIED: &str = r#"
> +founder-1 6 opening {"half":"2024 E","given":3,"carried":[1,3]}
< 200 receipt 6
object 2024 EA K24E00A
object 2024 EC K24E00C
"#;

/// The line of the office with that batch, and the isolated observations that it has.
pub const ISOLATED_LINE: &str = "mirror 6 objects 0 sights 4\n";

pub const ISOLATED: Holds<'static> = Holds {
    objects: "",
    sights: concat!(
        "1||1710547199999000000|1350000000000000|-49500000000000|703\n",
        "2||1710549000000000000|1350090000000000|-49500000000000|703\n",
        "3||1710590400000000000|1351800000000000|-49500000000000|703\n",
        "4||1710592200000000000|1351890000000000|-49500000000000|703\n",
    ),
};

/// Those of the object.
const EA: &str = concat!(
    "1|2024 EA|1710547199999000000|1350000000000000|-49500000000000|703\n",
    "2|2024 EA|1710549000000000000|1350090000000000|-49500000000000|703\n",
    "3|2024 EA|1710590400000000000|1351800000000000|-49500000000000|703\n",
    "4|2024 EA|1710592200000000000|1351890000000000|-49500000000000|703\n",
);

/// The line of the office with that object, and what a mirror then holds.
pub const EA_LINE: &str = "mirror 7 objects 1 sights 4\n";

pub const EA_OBJECT: Holds<'static> = Holds {
    objects: "1|2024 EA|0|4\n",
    sights: EA,
};

/// Those that are left of it, once the first one is retracted.
const EA_LEFT: &str = concat!(
    "2|2024 EA|1710549000000000000|1350090000000000|-49500000000000|703\n",
    "3|2024 EA|1710590400000000000|1351800000000000|-49500000000000|703\n",
    "4|2024 EA|1710592200000000000|1351890000000000|-49500000000000|703\n",
);

/// Those of both objects, and the isolated ones, by time.
const EA_FA: &str = concat!(
    "1|2024 EA|1710547199999000000|1350000000000000|-49500000000000|703\n",
    "2|2024 EA|1710549000000000000|1350090000000000|-49500000000000|703\n",
    "3|2024 EA|1710590400000000000|1351800000000000|-49500000000000|703\n",
    "4|2024 EA|1710592200000000000|1351890000000000|-49500000000000|703\n",
    "5|2024 FA|1710892800000000000|90000000000000|9000000000000|703\n",
    "6|2024 FA|1710893400000000000|90000000000000|9000000000000|703\n",
    "7||1710935340000000000|99000000000000|9000000000000|703\n",
    "9|2024 FA|1710935400000000000|108000000000000|9000000000000|703\n",
    "8||1710935940000000000|99000000000000|9000000000000|703\n",
    "10|2024 FA|1710936000000000000|108000000000000|9000000000000|703\n",
);

/// The same, under the principal designation of the one object that they are.
const EA_ALONE: &str = concat!(
    "1|2024 EA|1710547199999000000|1350000000000000|-49500000000000|703\n",
    "2|2024 EA|1710549000000000000|1350090000000000|-49500000000000|703\n",
    "3|2024 EA|1710590400000000000|1351800000000000|-49500000000000|703\n",
    "4|2024 EA|1710592200000000000|1351890000000000|-49500000000000|703\n",
    "5|2024 EA|1710892800000000000|90000000000000|9000000000000|703\n",
    "6|2024 EA|1710893400000000000|90000000000000|9000000000000|703\n",
    "7||1710935340000000000|99000000000000|9000000000000|703\n",
    "9|2024 EA|1710935400000000000|108000000000000|9000000000000|703\n",
    "8||1710935940000000000|99000000000000|9000000000000|703\n",
    "10|2024 EA|1710936000000000000|108000000000000|9000000000000|703\n",
);

/// The transcripts of a session, by how many entries it makes an office, the line that is then written, and what the
/// mirror then holds.
type Office = (&'static [&'static str], u64, &'static str, Holds<'static>);

const OFFICES: &[Office] = &[
    (&[], 5, "mirror 5 objects 0 sights 0\n", NOTHING),
    (&[SUBMITTED], 6, ISOLATED_LINE, ISOLATED),
    (&[SUBMITTED, OBJECT], 7, EA_LINE, EA_OBJECT),
    (
        &[SUBMITTED, OBJECT, RETRACTED],
        8,
        "mirror 8 objects 1 sights 3\n",
        Holds {
            objects: "1|2024 EA|0|3\n",
            sights: EA_LEFT,
        },
    ),
    (
        &[SUBMITTED, OBJECT, NUMBERED],
        9,
        "mirror 9 objects 1 sights 4\n",
        Holds {
            objects: "1|2024 EA|620000|4\n",
            sights: EA,
        },
    ),
    (
        &[SUBMITTED, OBJECT, SECOND],
        9,
        "mirror 9 objects 2 sights 10\n",
        Holds {
            objects: "1|2024 EA|0|4\n2|2024 FA|0|4\n",
            sights: EA_FA,
        },
    ),
    (
        &[SUBMITTED, OBJECT, SECOND, JOINED],
        10,
        "mirror 10 objects 1 sights 10\n",
        Holds {
            objects: "1|2024 EA|0|8\n",
            sights: EA_ALONE,
        },
    ),
    (
        &[SUBMITTED, OBJECT, SECOND, JOINED, PARTED],
        11,
        "mirror 11 objects 2 sights 10\n",
        Holds {
            objects: "1|2024 EA|0|4\n2|2024 FA|0|4\n",
            sights: EA_FA,
        },
    ),
    (
        &[CARRIED],
        6,
        "mirror 6 objects 2 sights 0\n",
        Holds {
            objects: "1|2024 EA|0|0\n2|2024 EC|0|0\n",
            sights: "",
        },
    ),
];

/// Each of the offices, one after another, with one mirror for all of them: each call leaves nothing of what it held
/// before.
///
/// # Errors
///
/// What is wrong with the first one that isn't as wanted.
pub fn each_office<M: Mirror>(alloc: Global, mirror: &mut M) -> Result<(), Wrong> {
    for (mark, &(transcripts, added, line, holds)) in OFFICES.iter().enumerate() {
        mirrored_after(alloc, mirror, transcripts, added, line, &holds, mark)?;
    }
    Ok(())
}
