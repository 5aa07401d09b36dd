//! Which observations a mirror gives of some time.

use crate::calls::mirrored_after;
use crate::held::{Holds, told_between};
use mirror_store::Mirror;
use std::alloc::Global;
use testkit_sessions::Wrong;

/// Three tracklets of a station of which there are observations before 1970: two at the same two moments of 1950, and
/// one about the first moment of 1970.
const SUBMITTED: &str = r#"
> +founder-1 6 station {"code":"G96","from":"1925-01-01","name":"Mt. Lemmon","to":"2199-12-31"}
< 200 receipt 6
> observer-1 1 submitpsv
# version=2017
# observatory
! mpcCode G96
trkSub|mode|stn|obsTime|ra|dec|astCat
T1|CCD|G96|1950-01-01T00:00:00Z|10.0|-1.0|Gaia3
T1|CCD|G96|1950-01-01T00:10:00Z|10.1|-1.0|Gaia3
T2|CCD|G96|1950-01-01T00:00:00Z|11.0|-1.0|Gaia3
T2|CCD|G96|1950-01-01T00:10:00Z|11.1|-1.0|Gaia3
T3|CCD|G96|1969-12-31T23:59:59.999999999Z|12.0|-1.0|Gaia3
T3|CCD|G96|1970-01-01T00:00:00Z|12.01|-1.0|Gaia3
< 200 receipt 7
accepted 6 refused 0
line 5 obs 1 track 1
line 6 obs 2 track 1
line 7 obs 3 track 2
line 8 obs 4 track 2
line 9 obs 5 track 3
line 10 obs 6 track 3
"#;

const FIRST: &str = "1||-631152000000000000|90000000000000|-9000000000000|G96\n\
    3||-631152000000000000|99000000000000|-9000000000000|G96\n";

const SECOND: &str = "2||-631151400000000000|90900000000000|-9000000000000|G96\n\
    4||-631151400000000000|99900000000000|-9000000000000|G96\n";

const LAST: &str = "5||-1|108000000000000|-9000000000000|G96\n";

const EPOCH: &str = "6||0|108090000000000|-9000000000000|G96\n";

/// All of them, by time; those of one moment by id.
const ALL: Holds<'static> = Holds {
    objects: "",
    sights: "1||-631152000000000000|90000000000000|-9000000000000|G96\n\
        3||-631152000000000000|99000000000000|-9000000000000|G96\n\
        2||-631151400000000000|90900000000000|-9000000000000|G96\n\
        4||-631151400000000000|99900000000000|-9000000000000|G96\n\
        5||-1|108000000000000|-9000000000000|G96\n\
        6||0|108090000000000|-9000000000000|G96\n",
};

/// From a moment on and before another, and what is given.
const WINDOWS: &[(i64, i64, &str)] = &[
    // The first moment is in, and the last one isn't.
    (-631_152_000_000_000_000, -631_151_400_000_000_000, FIRST),
    (-631_151_999_999_999_999, -631_151_399_999_999_999, SECOND),
    (-1, 0, LAST),
    (0, 1, EPOCH),
    // Nothing lies between a moment and itself, nor between two that are exchanged.
    (0, 0, ""),
    (0, -1, ""),
    (1, -631_152_000_000_000_000, ""),
    (1, 7_258_118_399_999_999_999, ""),
    (-5_364_662_400_000_000_000, -631_152_000_000_000_000, ""),
];

/// The first window by its place in the table in which a mirror gives something else; None where each is as wanted.
///
/// # Errors
///
/// What is wrong before that.
pub fn wrong_window<M: Mirror>(alloc: Global, mirror: &mut M) -> Result<Option<usize>, Wrong> {
    let line = "mirror 7 objects 0 sights 6\n";
    mirrored_after(alloc, mirror, &[SUBMITTED], 7, line, &ALL, 0)?;
    for (mark, &(from, to, wanted)) in WINDOWS.iter().enumerate() {
        let given = told_between(alloc, mirror, from, to)?;
        if given.as_str() != wanted {
            return Ok(Some(mark));
        }
    }
    Ok(None)
}
