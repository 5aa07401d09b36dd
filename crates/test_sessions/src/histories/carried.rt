//! Designations that an opening carried: lines under them, and what becomes of them, once more over the journal that
//! was left.

use super::openings::told_again;
use std::alloc::Global;
use testkit_sessions::Wrong;

/// Before a half-month is taken over none of its designations is known.
const BEFORE: &str = r#"
> observer-1 20 submit80
     K24E00A  C2024 03 15.12345 06 12 34.56 +23 45 01.2          19.5 V      703
< 422 refused 7 NoLine
line 1 refused B3
> observer-1 0 object 2024 EA
< 404 refused 5 UnknownThing designation 2024 EA
"#;

/// Lines under what is carried, also by its packed form with an underscore: in columns, of which one came with a star,
/// and of ADES; and under the last designation that is counted alone, and the first. What the office gives itself goes
/// on from the count.
const FILED: &str = r#"
> +founder-1 6 opening {"half":"2024 E","given":15501,"carried":[15501,1]}
< 200 receipt 6
object 2024 EA620 _OE0000
object 2024 EA K24E00A
> observer-1 1 submit80
     K24E00A  C2024 03 15.12345 06 12 34.56 +23 45 01.2          19.5 V      703
     _OE0000* C2024 03 14.12345 06 12 34.56 +23 45 01.2          19.5 V      703
     K24Ez9Z  C2024 03 14.22345 06 12 34.56 +23 45 01.2          19.5 V      703
< 200 receipt 7
accepted 2 refused 1
line 1 obs 1 track 1
line 2 obs 2 track 2
line 3 refused B3
> observer-1 2 submitpsv
# version=2017
# observatory
! mpcCode 703
provID|mode|stn|obsTime|ra|dec|astCat
2024 EA620|CCD|703|2024-03-15T12:00:00Z|10.0|1.0|Gaia3
2024 EZ619|CCD|703|2024-03-15T12:00:00Z|11.0|1.0|Gaia3
2024 EA|CCD|703|2024-03-15T13:00:00Z|12.0|1.0|Gaia3
2024 EB|CCD|703|2024-03-15T13:00:00Z|13.0|1.0|Gaia3
< 200 receipt 8
accepted 2 refused 2
line 5 obs 3 track 3
line 6 refused B3
line 7 obs 4 track 4
line 8 refused B3
> observer-1 20 submit80
     K24E00B  C2024 03 14.32345 06 12 34.56 +23 45 01.2          19.5 V      703
< 422 refused 7 NoLine
line 1 refused B3
> observer-1 3 submitpsv $TWO
< 200 receipt 9
accepted 4 refused 0
line 5 obs 5 track 5
line 6 obs 6 track 5
line 7 obs 7 track 6
line 8 obs 8 track 6
> +founder-1 7 designate {"tracklets":[5,6]}
< 200 receipt 10
object 2024 EB620 _OE0001
> observer-1 0 halfmonth 2024 E
< 200 halfmonth 2024 E given 15502 next 2024 EC620
> observer-1 0 object 2024 EA620
< 200 principal 2024 EA620
number none
name 2024 EA620
obs 2 track 2
obs 3 track 3
> observer-1 0 object 2024 EA
< 200 principal 2024 EA
number none
name 2024 EA
obs 1 track 1
obs 4 track 4
> observer-1 0 name _OE0000
< 200 printed 2024 EA620
packed _OE0000
principal 2024 EA620
> observer-1 0 name K24Ez9Z
< 200 printed 2024 EZ619
packed K24Ez9Z
principal none
> observer-1 0 tracklet 1
< 200 track 1 station 703 name 2024 EA
home 2024 EA principal 2024 EA
obs 1 live 2024-03-15T02:57:46.080000000Z 93.144000000000 +23.750333333333
> observer-1 0 tracklet 3
< 200 track 3 station 703 name 2024 EA620
home 2024 EA620 principal 2024 EA620
obs 3 live 2024-03-15T12:00:00.000000000Z 10.000000000000 +01.000000000000
"#;

/// The star that a line came with isn't read. The office's own object alone has one.
const FILED_CATALOGUE: &str = concat!(
    "catalogue 1\n",
    "entries 10\n",
    "isolated 0\n",
    "objects 8\n",
    "retracted 0\n",
    "accepted 8\n",
    "object 2024 EA number none observations 2\n",
    "     K24E00A  C2024 03 15.12345 06 12 34.56 +23 45 01.2          19.5 V      703\n",
    "     K24E00A  C2024 03 15.54166700 48 00.000+01 00 00.00               W     703\n",
    "object 2024 EA620 number none observations 2\n",
    "     _OE0000  C2024 03 14.12345 06 12 34.56 +23 45 01.2          19.5 V      703\n",
    "     _OE0000  C2024 03 15.50000000 40 00.000+01 00 00.00               W     703\n",
    "object 2024 EB620 number none observations 4\n",
    "     _OE0001* C2024 03 04.00000001 00 00.000+01 00 00.00               W     703\n",
    "     _OE0001  C2024 03 04.00694401 00 24.000+01 00 00.00               W     703\n",
    "     _OE0001  C2024 03 04.54166701 04 00.000+01 00 00.00               W     703\n",
    "     _OE0001  C2024 03 04.54861101 04 24.000+01 00 00.00               W     703\n",
    "end\n",
);

fn filed(alloc: Global) -> Result<(), Wrong> {
    told_again(alloc, &[BEFORE, FILED], 10, &[FILED], FILED_CATALOGUE)
}

#[test]
fn lines_under_carried_designations(rt: HostRuntime) {
    filed(rt.alloc()).expect(&rt, "as wanted");
}

/// Two are carried, and one of them is judged before it has an observation.
const CARRIED: &str = r#"
> +founder-1 6 opening {"half":"2024 E","given":3,"carried":[3,1]}
< 200 receipt 6
object 2024 EC K24E00C
object 2024 EA K24E00A
> +founder-1 7 verdict {"object":"2024 EA","u":2,"oppositions":4}
< 200 receipt 7
"#;

const NONE_YET: &str = r#"
> +founder-1 30 number {"first":620000,"most":5}
< 409 refused 12 NoneEligible
"#;

/// Both get a line, the office gives a designation of its own, and the two that are carried become one object.
const JOINED: &str = r#"
> observer-1 1 submitpsv
# version=2017
# observatory
! mpcCode 703
provID|mode|stn|obsTime|ra|dec|astCat
2024 EA|CCD|703|2024-03-14T00:00:00Z|150.0|-5.5|Gaia3
2024 EC|CCD|703|2024-03-13T00:00:00Z|160.0|-5.5|Gaia3
< 200 receipt 8
accepted 2 refused 0
line 5 obs 1 track 1
line 6 obs 2 track 2
> observer-1 2 submitpsv $TWO
< 200 receipt 9
accepted 4 refused 0
line 5 obs 3 track 3
line 6 obs 4 track 3
line 7 obs 5 track 4
line 8 obs 6 track 4
> +founder-1 8 designate {"tracklets":[3,4]}
< 200 receipt 10
object 2024 ED K24E00D
> +founder-1 9 identify {"principal":"2024 EA","secondary":"2024 EC"}
< 200 receipt 11
"#;

/// What is told then, and refused: the identification voided the verdict.
const JOINED_TOLD: &str = r#"
> observer-1 0 object 2024 EC
< 200 principal 2024 EA
number none
name 2024 EA
name 2024 EC
obs 2 track 2
obs 1 track 1
> +founder-1 30 verdict {"object":"2024 EC","u":2,"oppositions":4}
< 409 refused 10 NotPrincipal 2024 EC
> observer-1 0 name K24E00C
< 200 printed 2024 EC
packed K24E00C
principal 2024 EA
> +founder-1 30 number {"first":620000,"most":5}
< 409 refused 12 NoneEligible
"#;

/// One is separated; it becomes a name of the office's own object, and with that one of the other that is carried.
const MOVED: &str = r#"
> +founder-1 10 separate {"secondary":"2024 EC"}
< 200 receipt 12
> +founder-1 11 identify {"principal":"2024 ED","secondary":"2024 EC"}
< 200 receipt 13
> +founder-1 12 identify {"principal":"2024 EA","secondary":"2024 ED"}
< 200 receipt 14
"#;

const MOVED_TOLD: &str = r#"
> observer-1 0 object 2024 EC
< 200 principal 2024 EA
number none
name 2024 EA
name 2024 EC
name 2024 ED
obs 3 track 3
obs 4 track 3
obs 5 track 4
obs 6 track 4
obs 2 track 2
obs 1 track 1
"#;

/// It is separated once more, with its own tracklet alone; both get numbers, in the order of their designations, and a
/// line comes under one of these. What was counted alone is nothing here.
const NUMBERED: &str = r#"
> +founder-1 13 separate {"secondary":"2024 EC"}
< 200 receipt 15
> +founder-1 30 separate {"secondary":"2024 EC"}
< 409 refused 10 NotSecondary 2024 EC
> +founder-1 14 verdict {"object":"2024 EC","u":0,"oppositions":255}
< 200 receipt 16
> +founder-1 15 verdict {"object":"2024 EA","u":2,"oppositions":4}
< 200 receipt 17
> +founder-1 16 number {"first":620000,"most":5}
< 200 receipt 18
number 620000 2024 EA
number 620001 2024 EC
> observer-1 3 submitpsv
# version=2017
# observatory
! mpcCode 703
permID|mode|stn|obsTime|ra|dec|astCat
620001|CCD|703|2024-03-21T01:00:00Z|13.1|1.0|Gaia3
< 200 receipt 19
accepted 1 refused 0
line 5 obs 7 track 5
> +founder-1 30 identify {"principal":"2024 EA","secondary":"2024 EC"}
< 409 refused 10 BothNumbered
> +founder-1 30 identify {"principal":"2024 EA","secondary":"2024 EB"}
< 404 refused 5 UnknownThing designation 2024 EB
> +founder-1 30 separate {"secondary":"2024 EB"}
< 404 refused 5 UnknownThing designation 2024 EB
> +founder-1 30 verdict {"object":"2024 EB","u":2,"oppositions":4}
< 404 refused 5 UnknownThing designation 2024 EB
> +founder-1 30 attribute {"tracklet":1,"to":"2024 EB"}
< 404 refused 5 UnknownThing designation 2024 EB
> observer-1 0 object 2024 EC
< 200 principal 2024 EC
number 620001
name 2024 EC
obs 2 track 2
obs 7 track 5
> observer-1 0 object 2024 ED
< 200 principal 2024 EA
number 620000
name 2024 EA
name 2024 ED
obs 3 track 3
obs 4 track 3
obs 5 track 4
obs 6 track 4
obs 1 track 1
> observer-1 0 name 620001
< 200 printed 620001
packed ~0001
principal 2024 EC
> observer-1 0 halfmonth 2024 E
< 200 halfmonth 2024 E given 4 next 2024 EE
"#;

/// The discovery of 2024 ED stands under 2024 EA, and has no star there.
const NUMBERED_CATALOGUE: &str = concat!(
    "catalogue 1\n",
    "entries 19\n",
    "isolated 0\n",
    "objects 7\n",
    "retracted 0\n",
    "accepted 7\n",
    "object 2024 EA number 620000 observations 5\n",
    "also 2024 ED\n",
    "~0000K24E00A  C2024 03 04.00000001 00 00.000+01 00 00.00               W     703\n",
    "~0000K24E00A  C2024 03 04.00694401 00 24.000+01 00 00.00               W     703\n",
    "~0000K24E00A  C2024 03 04.54166701 04 00.000+01 00 00.00               W     703\n",
    "~0000K24E00A  C2024 03 04.54861101 04 24.000+01 00 00.00               W     703\n",
    "~0000K24E00A  C2024 03 14.00000010 00 00.000-05 30 00.00               W     703\n",
    "object 2024 EC number 620001 observations 2\n",
    "~0001K24E00C  C2024 03 13.00000010 40 00.000-05 30 00.00               W     703\n",
    "~0001K24E00C  C2024 03 21.04166700 52 24.000+01 00 00.00               W     703\n",
    "end\n",
);

fn carried_to_numbers(alloc: Global) -> Result<(), Wrong> {
    let day = [
        CARRIED,
        NONE_YET,
        JOINED,
        JOINED_TOLD,
        MOVED,
        MOVED_TOLD,
        NUMBERED,
    ];
    let later = [CARRIED, JOINED, MOVED, NUMBERED];
    told_again(alloc, &day, 19, &later, NUMBERED_CATALOGUE)
}

#[test]
fn identified_separated_judged_and_numbered(rt: HostRuntime) {
    carried_to_numbers(rt.alloc()).expect(&rt, "as wanted");
}
