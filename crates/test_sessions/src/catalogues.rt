//! The catalogue: after sessions that show each of its rules, as the answer to a query and as what `export` writes.

use std::alloc::Global;
use testkit_sessions::{Script, Wrong, catalogue_after, catalogue_of};

/// A declination of zero with a minus, and one of a tenth of an arcsecond below it.
const ZERO_80: &str = r#"
> observer-1 1 submit80
     MINUS0   C2024 03 15.12345 06 12 34.56 -00 00 00.00         19.5 V      703
     MINUS0   C2024 03 15.13345 06 12 35.10 -00 00 00.10         19.4 V      703
< 200 receipt 6
accepted 2 refused 0
line 1 obs 1 track 1
line 2 obs 2 track 1
"#;

/// The minus stands.
const ZERO_80_CATALOGUE: &str = concat!(
    "catalogue 1\n",
    "entries 6\n",
    "isolated 2\n",
    "objects 0\n",
    "retracted 0\n",
    "accepted 2\n",
    "track 1 MINUS0\n",
    "     MINUS0   C2024 03 15.12345 06 12 34.56 -00 00 00.00         19.5 V      703\n",
    "     MINUS0   C2024 03 15.13345 06 12 35.10 -00 00 00.10         19.4 V      703\n",
    "end\n",
);

/// A declination of nine units below zero, and one of zero with a minus.
const ZERO_PSV: &str = r#"
> observer-1 1 submitpsv
# version=2017
# observatory
! mpcCode 703
trkSub|mode|stn|obsTime|ra|dec|astCat
ZERO|CCD|703|2024-03-15T12:00:00Z|150.0|-0.000000000001|Gaia3
ZERO|CCD|703|2024-03-15T12:30:00Z|150.0|-0.0|Gaia3
< 200 receipt 6
accepted 2 refused 0
line 5 obs 1 track 1
line 6 obs 2 track 1
"#;

/// What is below zero has a minus, and what is zero came in PSV and has a plus.
const ZERO_PSV_CATALOGUE: &str = concat!(
    "catalogue 1\n",
    "entries 6\n",
    "isolated 2\n",
    "objects 0\n",
    "retracted 0\n",
    "accepted 2\n",
    "track 1 ZERO\n",
    "     ZERO     C2024 03 15.50000010 00 00.000-00 00 00.00               W     703\n",
    "     ZERO     C2024 03 15.52083310 00 00.000+00 00 00.00               W     703\n",
    "end\n",
);

/// The last moments of a year.
const LAST: &str = r#"
> observer-1 1 submitpsv
# version=2017
# observatory
! mpcCode 703
trkSub|mode|stn|obsTime|ra|dec|astCat
LAST|CCD|703|2024-12-31T23:29:59.9999999Z|150.0|-5.5|Gaia3
LAST|CCD|703|2024-12-31T23:59:59.9999999Z|150.0|-5.5|Gaia3
< 200 receipt 6
accepted 2 refused 0
line 5 obs 1 track 1
line 6 obs 2 track 1
"#;

/// The second one is carried into the next year.
const LAST_CATALOGUE: &str = concat!(
    "catalogue 1\n",
    "entries 6\n",
    "isolated 2\n",
    "objects 0\n",
    "retracted 0\n",
    "accepted 2\n",
    "track 1 LAST\n",
    "     LAST     C2024 12 31.97916710 00 00.000-05 30 00.00               W     703\n",
    "     LAST     C2025 01 01.00000010 00 00.000-05 30 00.00               W     703\n",
    "end\n",
);

/// A right ascension that is carried past 24 hours, in a tracklet of eight characters.
const CARRY: &str = r#"
> observer-1 1 submitpsv
# version=2017
# observatory
! mpcCode 703
trkSub|mode|stn|obsTime|ra|dec|astCat
ABCDEFGH|CCD|703|2024-03-15T12:00:00Z|359.999999999999|-5.5|Gaia3
ABCDEFGH|CCD|703|2024-03-15T12:30:00Z|0|-5.5|Gaia3
< 200 receipt 6
accepted 2 refused 0
line 5 obs 1 track 1
line 6 obs 2 track 1
"#;

/// It is written as 0, and the head has all of the name and the columns seven characters.
const CARRY_CATALOGUE: &str = concat!(
    "catalogue 1\n",
    "entries 6\n",
    "isolated 2\n",
    "objects 0\n",
    "retracted 0\n",
    "accepted 2\n",
    "track 1 ABCDEFGH\n",
    "     ABCDEFG  C2024 03 15.50000000 00 00.000-05 30 00.00               W     703\n",
    "     ABCDEFG  C2024 03 15.52083300 00 00.000-05 30 00.00               W     703\n",
    "end\n",
);

/// The exact time decides which is the first, though its day is written as the next one's.
const OBJECT_CATALOGUE: &str = concat!(
    "catalogue 1\n",
    "entries 7\n",
    "isolated 0\n",
    "objects 4\n",
    "retracted 0\n",
    "accepted 4\n",
    "object 2024 EA number none observations 4\n",
    "     K24E00A* C2024 03 16.00000010 00 00.000-05 30 00.00         20.25VW     703\n",
    "     K24E00A  C2024 03 16.02083310 00 02.400-05 30 00.00         20.3 VW     703\n",
    "     K24E00A  C2024 03 16.50000010 00 48.000-05 30 00.00               W     703\n",
    "     K24E00A  C2024 03 16.52083310 00 50.400-05 30 00.00               W     703\n",
    "end\n",
);

/// The discovery was retracted: no line has the star.
const LOST_CATALOGUE: &str = concat!(
    "catalogue 1\n",
    "entries 8\n",
    "isolated 0\n",
    "objects 3\n",
    "retracted 1\n",
    "accepted 4\n",
    "object 2024 EA number none observations 3\n",
    "     K24E00A  C2024 03 16.02083310 00 02.400-05 30 00.00         20.3 VW     703\n",
    "     K24E00A  C2024 03 16.50000010 00 48.000-05 30 00.00               W     703\n",
    "     K24E00A  C2024 03 16.52083310 00 50.400-05 30 00.00               W     703\n",
    "end\n",
);

/// Nothing is left of the object but its designation.
const EMPTY_CATALOGUE: &str = concat!(
    "catalogue 1\n",
    "entries 11\n",
    "isolated 0\n",
    "objects 0\n",
    "retracted 4\n",
    "accepted 4\n",
    "object 2024 EA number none observations 0\n",
    "end\n",
);

/// Both tracklets were released: they are isolated again, and the object has no observation.
const RELEASED_CATALOGUE: &str = concat!(
    "catalogue 1\n",
    "entries 9\n",
    "isolated 4\n",
    "objects 0\n",
    "retracted 0\n",
    "accepted 4\n",
    "object 2024 EA number none observations 0\n",
    "track 1 AAA1\n",
    "     AAA1     C2024 03 16.00000010 00 00.000-05 30 00.00         20.25VW     703\n",
    "     AAA1     C2024 03 16.02083310 00 02.400-05 30 00.00         20.3 VW     703\n",
    "track 2 AAA2\n",
    "     AAA2     C2024 03 16.50000010 00 48.000-05 30 00.00               W     703\n",
    "     AAA2     C2024 03 16.52083310 00 50.400-05 30 00.00               W     703\n",
    "end\n",
);

/// They stand in the object that has the number.
const NUMBERED_CATALOGUE: &str = concat!(
    "catalogue 1\n",
    "entries 10\n",
    "isolated 0\n",
    "objects 6\n",
    "retracted 0\n",
    "accepted 6\n",
    "object 2024 EA number 620000 observations 6\n",
    "~0000K24E00A* C2024 03 16.00000010 00 00.000-05 30 00.00         20.25VW     703\n",
    "~0000K24E00A  C2024 03 16.02083310 00 02.400-05 30 00.00         20.3 VW     703\n",
    "~0000K24E00A  C2024 03 16.50000010 00 48.000-05 30 00.00               W     703\n",
    "~0000K24E00A  C2024 03 16.52083310 00 50.400-05 30 00.00               W     703\n",
    "~0000K24E00A  C2024 04 10.50000 10 20 00.00 -05 30 00.0                      703\n",
    "~0000K24E00A  C2024 04 10.52000 10 20 01.00 -05 30 00.0                      703\n",
    "end\n",
);

/// The tracklet was released: it has the number's digits in its head, and nothing in columns 1 to 12.
const FREED_CATALOGUE: &str = concat!(
    "catalogue 1\n",
    "entries 11\n",
    "isolated 2\n",
    "objects 4\n",
    "retracted 0\n",
    "accepted 6\n",
    "object 2024 EA number 620000 observations 4\n",
    "~0000K24E00A* C2024 03 16.00000010 00 00.000-05 30 00.00         20.25VW     703\n",
    "~0000K24E00A  C2024 03 16.02083310 00 02.400-05 30 00.00         20.3 VW     703\n",
    "~0000K24E00A  C2024 03 16.50000010 00 48.000-05 30 00.00               W     703\n",
    "~0000K24E00A  C2024 03 16.52083310 00 50.400-05 30 00.00               W     703\n",
    "track 3 620000\n",
    "              C2024 04 10.50000 10 20 00.00 -05 30 00.0                      703\n",
    "              C2024 04 10.52000 10 20 01.00 -05 30 00.0                      703\n",
    "end\n",
);

/// The tracklet with the discovery of one object is in another one: its star is gone, and the other's stands where it
/// stood.
const MOVED_CATALOGUE: &str = concat!(
    "catalogue 1\n",
    "entries 11\n",
    "isolated 2\n",
    "objects 8\n",
    "retracted 0\n",
    "accepted 10\n",
    "object 2024 EA number none observations 2\n",
    "     K24E00A  C2024 03 16.50000010 00 48.000-05 30 00.00               W     703\n",
    "     K24E00A  C2024 03 16.52083310 00 50.400-05 30 00.00               W     703\n",
    "object 2024 FA number none observations 6\n",
    "     K24F00A  C2024 03 16.00000010 00 00.000-05 30 00.00         20.25VW     703\n",
    "     K24F00A  C2024 03 16.02083310 00 02.400-05 30 00.00         20.3 VW     703\n",
    "     K24F00A* C2024 03 20.00000000 40 00.000+01 00 00.00               W     703\n",
    "     K24F00A  C2024 03 20.00694400 40 00.000+01 00 00.00               W     703\n",
    "     K24F00A  C2024 03 20.49305600 48 00.000+01 00 00.00               W     703\n",
    "     K24F00A  C2024 03 20.50000000 48 00.000+01 00 00.00               W     703\n",
    "track 4 B2\n",
    "     B2       C2024 03 20.49236100 44 00.000+01 00 00.00               W     703\n",
    "     B2       C2024 03 20.49930600 44 00.000+01 00 00.00               W     703\n",
    "end\n",
);

/// Three objects of four observations each: 1,170 bytes.
const MADE_CATALOGUE: &str = concat!(
    "catalogue 1\n",
    "entries 7\n",
    "isolated 0\n",
    "objects 12\n",
    "retracted 0\n",
    "accepted 12\n",
    "object 2024 AA number none observations 4\n",
    "     K24A00A*  2024 01 01.0000  00 00 07.050+67 38 37.11                     703\n",
    "     K24A00A   2024 01 01.0050  00 00 07.050+67 38 37.11                     703\n",
    "     K24A00A   2024 01 01.5000  00 00 07.050+67 38 37.11                     703\n",
    "     K24A00A   2024 01 01.5050  00 00 07.050+67 38 37.11                     703\n",
    "object 2024 AB number none observations 4\n",
    "     K24A00B*  2024 01 01.0004  00 00 11.921+76 15 51.06                     703\n",
    "     K24A00B   2024 01 01.0054  00 00 11.921+76 15 51.06                     703\n",
    "     K24A00B   2024 01 01.5004  00 00 11.921+76 15 51.06                     703\n",
    "     K24A00B   2024 01 01.5054  00 00 11.921+76 15 51.06                     703\n",
    "object 2024 AC number none observations 4\n",
    "     K24A00C*  2024 01 01.0008  00 00 16.332+34 44 50.33                     703\n",
    "     K24A00C   2024 01 01.0058  00 00 16.332+34 44 50.33                     703\n",
    "     K24A00C   2024 01 01.5008  00 00 16.332+34 44 50.33                     703\n",
    "     K24A00C   2024 01 01.5058  00 00 16.332+34 44 50.33                     703\n",
    "end\n",
);

/// Batches alone: each is the first of its office.
const BATCHES: &[(&str, &str)] = &[
    (ZERO_80, ZERO_80_CATALOGUE),
    (ZERO_PSV, ZERO_PSV_CATALOGUE),
    (LAST, LAST_CATALOGUE),
    (CARRY, CARRY_CATALOGUE),
];

/// An object of two tracklets.
const OBJECT: &str = r#"
> observer-1 1 submitpsv $MIDNIGHT
< 200 $MIDNIGHT_TEXT
> +founder-1 6 designate {"tracklets":[1,2]}
< 200 receipt 7
object 2024 EA K24E00A
"#;

/// What comes then, how many entries the office has after it, and what the catalogue is.
const LATER: &[(&str, u64, &str)] = &[
    ("", 7, OBJECT_CATALOGUE),
    (LOST, 8, LOST_CATALOGUE),
    (EMPTY, 11, EMPTY_CATALOGUE),
    (RELEASED, 9, RELEASED_CATALOGUE),
    (NUMBERING, 10, NUMBERED_CATALOGUE),
    (MOVED, 11, MOVED_CATALOGUE),
];

const LOST: &str = r#"
> observer-1 2 retract {"observation":1}
< 200 receipt 8
"#;

const EMPTY: &str = r#"
> observer-1 2 retract {"observation":4}
< 200 receipt 8
> observer-1 3 retract {"observation":3}
< 200 receipt 9
> observer-1 4 retract {"observation":2}
< 200 receipt 10
> observer-1 5 retract {"observation":1}
< 200 receipt 11
"#;

const RELEASED: &str = r#"
> +founder-1 7 release {"tracklet":1}
< 200 receipt 8
> +founder-1 8 release {"tracklet":2}
< 200 receipt 9
"#;

const NUMBERING: &str = r#"
> +founder-1 7 verdict {"object":"2024 EA","oppositions":4,"u":2}
< 200 receipt 8
> +founder-1 8 number {"first":620000,"most":1}
< 200 receipt 9
number 620000 2024 EA
> observer-1 2 submit80
~0000         C2024 04 10.50000 10 20 00.00 -05 30 00.0                      703
~0000         C2024 04 10.52000 10 20 01.00 -05 30 00.0                      703
< 200 receipt 10
accepted 2 refused 0
line 1 obs 5 track 3
line 2 obs 6 track 3
"#;

const FREED: &str = r#"
> +founder-1 9 release {"tracklet":3}
< 200 receipt 11
"#;

/// A second object, to which the first one's tracklet goes.
const MOVED: &str = r#"
> observer-1 2 submitpsv $NIGHT
< 200 $NIGHT_TEXT
> +founder-1 7 designate {"tracklets":[3,5]}
< 200 receipt 9
object 2024 FA K24F00A
> +founder-1 8 release {"tracklet":1}
< 200 receipt 10
> +founder-1 9 attribute {"tracklet":1,"to":"2024 FA"}
< 200 receipt 11
"#;

/// A station, and three objects of made-up lines: two tracklets of two observations each.
const MADE: &str = r#"
> +founder-1 1 station {"code":"703","from":"1998-01-01","name":"Catalina","to":"2199-12-31"}
< 200 receipt 1
> +founder-1 2 submit80
     W00001a   2024 01 01.0000  00 00 07.050+67 38 37.11                     703
     W00001a   2024 01 01.0050  00 00 07.050+67 38 37.11                     703
     W00001b   2024 01 01.5000  00 00 07.050+67 38 37.11                     703
     W00001b   2024 01 01.5050  00 00 07.050+67 38 37.11                     703
< 200 receipt 2
accepted 4 refused 0
line 1 obs 1 track 1
line 2 obs 2 track 1
line 3 obs 3 track 2
line 4 obs 4 track 2
> +founder-1 3 designate {"tracklets":[1,2]}
< 200 receipt 3
object 2024 AA K24A00A
> +founder-1 4 submit80
     W00002a   2024 01 01.0004  00 00 11.921+76 15 51.06                     703
     W00002a   2024 01 01.0054  00 00 11.921+76 15 51.06                     703
     W00002b   2024 01 01.5004  00 00 11.921+76 15 51.06                     703
     W00002b   2024 01 01.5054  00 00 11.921+76 15 51.06                     703
< 200 receipt 4
accepted 4 refused 0
line 1 obs 5 track 3
line 2 obs 6 track 3
line 3 obs 7 track 4
line 4 obs 8 track 4
> +founder-1 5 designate {"tracklets":[3,4]}
< 200 receipt 5
object 2024 AB K24A00B
> +founder-1 6 submit80
     W00003a   2024 01 01.0008  00 00 16.332+34 44 50.33                     703
     W00003a   2024 01 01.0058  00 00 16.332+34 44 50.33                     703
     W00003b   2024 01 01.5008  00 00 16.332+34 44 50.33                     703
     W00003b   2024 01 01.5058  00 00 16.332+34 44 50.33                     703
< 200 receipt 6
accepted 4 refused 0
line 1 obs 9 track 5
line 2 obs 10 track 5
line 3 obs 11 track 6
line 4 obs 12 track 6
> +founder-1 7 designate {"tracklets":[5,6]}
< 200 receipt 7
object 2024 AC K24A00C
"#;

/// Each batch by its place in the table.
fn after_batches(alloc: Global) -> Result<(), Wrong> {
    for (place, &(batch, after)) in BATCHES.iter().enumerate() {
        catalogue_of(alloc, &[batch], 6, after, place)?;
    }
    Ok(())
}

#[test]
fn catalogues_of_batches(rt: HostRuntime) {
    after_batches(rt.alloc()).expect(&rt, "as wanted");
}

/// What comes after the object, by its place in the table.
fn after_an_object(alloc: Global) -> Result<(), Wrong> {
    for (place, &(later, added, after)) in LATER.iter().enumerate() {
        catalogue_of(alloc, &[OBJECT, later], added, after, place)?;
    }
    Ok(())
}

#[test]
fn catalogues_of_an_object(rt: HostRuntime) {
    after_an_object(rt.alloc()).expect(&rt, "as wanted");
}

#[test]
fn catalogue_of_a_numbered_tracklet(rt: HostRuntime) {
    let transcripts = [OBJECT, NUMBERING, FREED];
    catalogue_of(rt.alloc(), &transcripts, 11, FREED_CATALOGUE, 0).expect(&rt, "as wanted");
}

/// Without the founder's five requests.
fn three_objects(alloc: Global) -> Result<(), Wrong> {
    let mut script = Script::new(alloc);
    script.add_transcript(MADE)?;
    catalogue_after(alloc, &mut script, 7, MADE_CATALOGUE, 0)
}

#[test]
fn catalogue_of_three_objects(rt: HostRuntime) {
    assert_eq!(rt; MADE_CATALOGUE.len(), 1_170);
    three_objects(rt.alloc()).expect(&rt, "as wanted");
}

/// A half-month is taken over, with two designations.
const OPENED: &str = r#"
> +founder-1 6 opening {"half":"2024 E","given":3,"carried":[1,3]}
< 200 receipt 6
object 2024 EA K24E00A
object 2024 EC K24E00C
"#;

/// Both stand there without an observation.
const OPENED_CATALOGUE: &str = concat!(
    "catalogue 1\n",
    "entries 6\n",
    "isolated 0\n",
    "objects 0\n",
    "retracted 0\n",
    "accepted 0\n",
    "object 2024 EA number none observations 0\n",
    "object 2024 EC number none observations 0\n",
    "end\n",
);

/// Lines under one of them, the first with a star.
const FILED: &str = r#"
> observer-1 1 submit80
     K24E00C* C2024 03 01.50000 06 12 34.56 +23 45 01.2          19.5 V      703
     K24E00C  C2024 03 01.51000 06 12 34.56 +23 45 01.2          19.5 V      703
< 200 receipt 7
accepted 2 refused 0
line 1 obs 1 track 1
line 2 obs 2 track 1
"#;

/// The star isn't read, and the first of the lines is no discovery.
const FILED_CATALOGUE: &str = concat!(
    "catalogue 1\n",
    "entries 7\n",
    "isolated 0\n",
    "objects 2\n",
    "retracted 0\n",
    "accepted 2\n",
    "object 2024 EA number none observations 0\n",
    "object 2024 EC number none observations 2\n",
    "     K24E00C  C2024 03 01.50000 06 12 34.56 +23 45 01.2          19.5 V      703\n",
    "     K24E00C  C2024 03 01.51000 06 12 34.56 +23 45 01.2          19.5 V      703\n",
    "end\n",
);

/// The tracklets of one batch come to them, one to each.
const SHARED: &str = r#"
> observer-1 1 submitpsv $MIDNIGHT
< 200 receipt 7
accepted 4 refused 0
line 5 obs 1 track 1
line 6 obs 2 track 1
line 7 obs 3 track 2
line 8 obs 4 track 2
> +founder-1 7 attribute {"tracklet":1,"to":"2024 EC"}
< 200 receipt 8
> +founder-1 8 attribute {"tracklet":2,"to":"2024 EA"}
< 200 receipt 9
"#;

const SHARED_CATALOGUE: &str = concat!(
    "catalogue 1\n",
    "entries 9\n",
    "isolated 0\n",
    "objects 4\n",
    "retracted 0\n",
    "accepted 4\n",
    "object 2024 EA number none observations 2\n",
    "     K24E00A  C2024 03 16.50000010 00 48.000-05 30 00.00               W     703\n",
    "     K24E00A  C2024 03 16.52083310 00 50.400-05 30 00.00               W     703\n",
    "object 2024 EC number none observations 2\n",
    "     K24E00C  C2024 03 16.00000010 00 00.000-05 30 00.00         20.25VW     703\n",
    "     K24E00C  C2024 03 16.02083310 00 02.400-05 30 00.00         20.3 VW     703\n",
    "end\n",
);

/// What was carried has two observations, and the office gives a designation of its own.
const BESIDE: &str = r#"
> observer-1 1 submit80
     K24E00C* C2024 03 01.50000 06 12 34.56 +23 45 01.2          19.5 V      703
     K24E00C  C2024 03 01.51000 06 12 34.56 +23 45 01.2          19.5 V      703
< 200 receipt 7
accepted 2 refused 0
line 1 obs 1 track 1
line 2 obs 2 track 1
> observer-1 2 submitpsv $MIDNIGHT
< 200 receipt 8
accepted 4 refused 0
line 5 obs 3 track 2
line 6 obs 4 track 2
line 7 obs 5 track 3
line 8 obs 6 track 3
> +founder-1 7 designate {"tracklets":[2,3]}
< 200 receipt 9
object 2024 ED K24E00D
"#;

/// What was carried becomes a name of the office's own object.
const UNDER_OWN: &str = r#"
> +founder-1 8 identify {"principal":"2024 ED","secondary":"2024 EC"}
< 200 receipt 10
"#;

/// The discovery of 2024 ED has its star, after earlier lines.
const UNDER_OWN_CATALOGUE: &str = concat!(
    "catalogue 1\n",
    "entries 10\n",
    "isolated 0\n",
    "objects 6\n",
    "retracted 0\n",
    "accepted 6\n",
    "object 2024 EA number none observations 0\n",
    "object 2024 ED number none observations 6\n",
    "also 2024 EC\n",
    "     K24E00D  C2024 03 01.50000 06 12 34.56 +23 45 01.2          19.5 V      703\n",
    "     K24E00D  C2024 03 01.51000 06 12 34.56 +23 45 01.2          19.5 V      703\n",
    "     K24E00D* C2024 03 16.00000010 00 00.000-05 30 00.00         20.25VW     703\n",
    "     K24E00D  C2024 03 16.02083310 00 02.400-05 30 00.00         20.3 VW     703\n",
    "     K24E00D  C2024 03 16.50000010 00 48.000-05 30 00.00               W     703\n",
    "     K24E00D  C2024 03 16.52083310 00 50.400-05 30 00.00               W     703\n",
    "end\n",
);

/// Its own object becomes a name of what was carried.
const UNDER_CARRIED: &str = r#"
> +founder-1 8 identify {"principal":"2024 EC","secondary":"2024 ED"}
< 200 receipt 10
"#;

/// No line has a star.
const UNDER_CARRIED_CATALOGUE: &str = concat!(
    "catalogue 1\n",
    "entries 10\n",
    "isolated 0\n",
    "objects 6\n",
    "retracted 0\n",
    "accepted 6\n",
    "object 2024 EA number none observations 0\n",
    "object 2024 EC number none observations 6\n",
    "also 2024 ED\n",
    "     K24E00C  C2024 03 01.50000 06 12 34.56 +23 45 01.2          19.5 V      703\n",
    "     K24E00C  C2024 03 01.51000 06 12 34.56 +23 45 01.2          19.5 V      703\n",
    "     K24E00C  C2024 03 16.00000010 00 00.000-05 30 00.00         20.25VW     703\n",
    "     K24E00C  C2024 03 16.02083310 00 02.400-05 30 00.00         20.3 VW     703\n",
    "     K24E00C  C2024 03 16.50000010 00 48.000-05 30 00.00               W     703\n",
    "     K24E00C  C2024 03 16.52083310 00 50.400-05 30 00.00               W     703\n",
    "end\n",
);

/// An opening and what comes after it, how many entries the office has then, and what the catalogue is.
const AFTER_OPENING: &[(&[&str], u64, &str)] = &[
    (&[OPENED], 6, OPENED_CATALOGUE),
    (&[OPENED, FILED], 7, FILED_CATALOGUE),
    (&[OPENED, SHARED], 9, SHARED_CATALOGUE),
    (&[OPENED, BESIDE, UNDER_OWN], 10, UNDER_OWN_CATALOGUE),
    (
        &[OPENED, BESIDE, UNDER_CARRIED],
        10,
        UNDER_CARRIED_CATALOGUE,
    ),
];

/// Each by its place in the table.
fn after_an_opening(alloc: Global) -> Result<(), Wrong> {
    for (place, &(requests, added, after)) in AFTER_OPENING.iter().enumerate() {
        catalogue_of(alloc, requests, added, after, place)?;
    }
    Ok(())
}

#[test]
fn catalogues_of_carried_designations(rt: HostRuntime) {
    after_an_opening(rt.alloc()).expect(&rt, "as wanted");
}
