//! A history with every verb on a disk: what is told of it, and the same once more after a crash, of the journal that
//! was left. Each answer was worked out beside the program, by the rules of docs/RULES.md.

use super::told::{CATALOGUE, TOLD, TRACKS};
use std::alloc::Global;
use testkit_sessions::{Script, Wrong, call_days};

/// The office's tables, its callers and their batches. A tracklet in columns begins a millionth of a day before the
/// half-month's end, with a minus before zero degrees.
const ENTERED: &str = r#"
> +founder-1 6 station {"code":"G96","from":"2000-01-01","name":"Lemmon","to":"2199-12-31"}
< 200 receipt 6
> +founder-1 7 code {"kind":"mode","letter":"B","word":"CMO"}
< 200 receipt 7
> +founder-1 8 code {"kind":"band","letter":"R","word":"R"}
< 200 receipt 8
> +founder-1 9 code {"kind":"catalogue","letter":"U","word":"Gaia2"}
< 200 receipt 9
> +founder-1 10 enrol {"key":"observer-2","name":"Bob","role":"observer"}
< 200 receipt 10
caller 2
> +founder-1 11 enrol {"key":"officer-01","name":"Cid","role":"officer"}
< 200 receipt 11
caller 3
> observer-1 1 submitpsv $FIVE
< 200 receipt 12
accepted 10 refused 0
line 5 obs 1 track 1
line 6 obs 2 track 1
line 7 obs 3 track 2
line 8 obs 4 track 2
line 9 obs 5 track 3
line 10 obs 6 track 3
line 11 obs 7 track 4
line 12 obs 8 track 4
line 13 obs 9 track 5
line 14 obs 10 track 5
> observer-2 1 submitpsv $TWO
< 200 receipt 13
accepted 4 refused 0
line 5 obs 11 track 6
line 6 obs 12 track 6
line 7 obs 13 track 7
line 8 obs 14 track 7
> observer-1 2 submit80 $BATCH
< 200 receipt 14
accepted 4 refused 0
line 7 obs 15 track 8
line 8 obs 16 track 8
line 9 obs 17 track 8
line 10 obs 18 track 8
> observer-2 2 submit80
     Q000001  B2024 02 15.99999906 12 34.5  -00 00 01.2          17.25R      G96
     Q000001  B2024 02 16.75    06 12 34.5  -00 00 01.2          17   R      G96
< 200 receipt 15
accepted 2 refused 0
line 1 obs 19 track 9
line 2 obs 20 track 9
> officer-01 1 submitpsv $THREE
< 200 receipt 16
accepted 6 refused 0
line 5 obs 21 track 10
line 6 obs 22 track 10
line 7 obs 23 track 11
line 8 obs 24 track 11
line 9 obs 25 track 12
line 10 obs 26 track 12
"#;

/// Tracklets become objects, come into them and out of them.
const DESIGNATED: &str = r#"
> +founder-1 12 designate {"tracklets":[1,2]}
< 200 receipt 17
object 2024 EA K24E00A
> officer-01 2 designate {"tracklets":[3,4]}
< 200 receipt 18
object 2024 EB K24E00B
> +founder-1 13 designate {"tracklets":[6,7]}
< 200 receipt 19
object 2024 EC K24E00C
> officer-01 3 designate {"tracklets":[10]}
< 200 receipt 20
object 2024 ED K24E00D
> +founder-1 14 designate {"tracklets":[11]}
< 200 receipt 21
object 2024 EE K24E00E
> +founder-1 15 designate {"tracklets":[12]}
< 200 receipt 22
object 2024 EF K24E00F
> officer-01 4 designate {"tracklets":[9]}
< 200 receipt 23
object 2024 CA K24C00A
> +founder-1 16 attribute {"tracklet":5,"to":"2024 EB"}
< 200 receipt 24
> officer-01 5 attribute {"tracklet":8,"to":"2024 EC"}
< 200 receipt 25
> +founder-1 17 release {"tracklet":8}
< 200 receipt 26
> officer-01 6 release {"tracklet":9}
< 200 receipt 27
> +founder-1 18 attribute {"tracklet":9,"to":"2024 EB"}
< 200 receipt 28
"#;

/// Objects become one, and two again.
const JOINED: &str = r#"
> +founder-1 19 identify {"principal":"2024 EA","secondary":"2024 EB"}
< 200 receipt 29
> officer-01 7 identify {"principal":"2024 ED","secondary":"2024 EE"}
< 200 receipt 30
> +founder-1 20 identify {"principal":"2024 EA","secondary":"2024 EC"}
< 200 receipt 31
> officer-01 8 separate {"secondary":"2024 EC"}
< 200 receipt 32
> +founder-1 21 separate {"secondary":"2024 EE"}
< 200 receipt 33
> +founder-1 22 identify {"principal":"2024 EC","secondary":"2024 EE"}
< 200 receipt 34
"#;

/// Verdicts, of which a retraction voids one, and the numbers of three objects and of one.
const JUDGED: &str = r#"
> +founder-1 23 verdict {"object":"2024 EA","u":3,"oppositions":4}
< 200 receipt 35
> officer-01 9 verdict {"object":"2024 EA","u":2,"oppositions":4}
< 200 receipt 36
> +founder-1 24 verdict {"object":"2024 EC","u":1,"oppositions":5}
< 200 receipt 37
> +founder-1 25 verdict {"object":"2024 ED","u":0,"oppositions":255}
< 200 receipt 38
> officer-01 10 verdict {"object":"2024 EF","u":2,"oppositions":3}
< 200 receipt 39
> observer-2 3 retract {"observation":11}
< 200 receipt 40
> observer-1 3 retract {"observation":15}
< 200 receipt 41
> officer-01 11 verdict {"object":"2024 EC","u":2,"oppositions":4}
< 200 receipt 42
> +founder-1 26 number {"first":619999,"most":5}
< 200 receipt 43
number 619999 2024 EA
number 620000 2024 EC
number 620001 2024 ED
> +founder-1 27 verdict {"object":"2024 EF","u":2,"oppositions":4}
< 200 receipt 44
> officer-01 12 number {"first":620002,"most":1}
< 200 receipt 45
number 620002 2024 EF
"#;

/// Observations retracted in each place, lines under the office's names, and what is refused then. The lines of ADES
/// are under a number, under a designation that is no principal, under both names of one object, under those of two,
/// and under a designation that wasn't given; those in columns are the line of a retracted observation, and one more of
/// its tracklet.
const AFTER: &str = r#"
> observer-1 4 retract {"observation":5}
< 200 receipt 46
> +founder-1 28 retract {"observation":20}
< 200 receipt 47
> officer-01 13 retract {"observation":25}
< 200 receipt 48
> officer-01 14 retract {"observation":26}
< 200 receipt 49
> observer-1 5 submitpsv
# version=2017
# observatory
! mpcCode 703
permID|provID|mode|stn|obsTime|ra|dec|astCat|mag|band
619999||CCD|703|2024-03-20T00:00:00Z|13.0|1.0|Gaia2|20.1|R
|2024 EE|CMO|G96|2024-03-20T01:00:00.123456789Z|359.9999999999|-1.000000000001|Gaia3|20.125|V
620000|2024 EE|CMO|G96|2024-03-20T02:00:00Z|13.2|1.0|Gaia3||
619999|2024 EE|CMO|G96|2024-03-20T03:00:00Z|13.2|1.0|Gaia3||
|2024 EG|CMO|G96|2024-03-20T03:00:00Z|13.2|1.0|Gaia3||
< 200 receipt 50
accepted 3 refused 2
line 5 obs 27 track 13
line 6 obs 28 track 14
line 7 obs 29 track 15
line 8 refused B9
line 9 refused B3
> observer-2 4 submit80
     P10abcd  C2024 03 15.12345 06 12 34.56 +23 45 01.2          19.5 V      703
     P10abcd  C2024 03 15.16345 06 12 36.72 +23 45 16.4          19.5 V      703
< 200 receipt 51
accepted 2 refused 0
line 1 obs 30 track 16
line 2 obs 31 track 16
> +founder-1 29 attribute {"tracklet":8,"to":"2024 EE"}
< 200 receipt 52
> officer-01 15 identify {"principal":"2024 ED","secondary":"2024 CA"}
< 200 receipt 53
> officer-01 16 opening {"half":"2025 A","given":2,"carried":[2]}
< 200 receipt 54
object 2025 AB K25A00B
> +founder-1 30 identify {"principal":"2024 EA","secondary":"2024 EC"}
< 409 refused 10 BothNumbered
> +founder-1 30 designate {"tracklets":[12]}
< 409 refused 8 NotIsolated 12
> observer-1 6 retract {"observation":20}
< 403 refused 4 Role
> +founder-1 30 number {"first":620003,"most":1000}
< 409 refused 12 NoneEligible
"#;

fn days(alloc: Global) -> Result<(Script, Script), Wrong> {
    let acts = [ENTERED, DESIGNATED, JOINED, JUDGED, AFTER];
    let told = [TOLD, TRACKS];
    let mut day = Script::begun(alloc)?;
    day.add_transcripts(&acts)?;
    day.add_transcripts(&told)?;
    let mut later = Script::new(alloc);
    later.add_transcripts(&told)?;
    later.add_transcripts(&acts)?;
    Ok((day, later))
}

/// The history is made and told. Then a crash takes what isn't safe, and the office is opened again, told of, and sent
/// the same acts; then its catalogue is written out.
fn every_verb(alloc: Global) -> Result<(), Wrong> {
    let (day, later) = days(alloc)?;
    call_days(
        alloc,
        1_048_576,
        &day,
        54,
        Some(0),
        &later,
        CATALOGUE.as_bytes(),
    )
}

#[test]
fn history_with_every_verb(rt: HostRuntime) {
    every_verb(rt.alloc()).expect(&rt, "as wanted");
}
