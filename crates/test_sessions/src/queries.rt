//! What the office tells of its tracklets, objects, half-months and names, in whole sessions.

use testkit_sessions::session;

/// A tracklet of lines of 80 columns. Its first line has the day 15.12345, which is 2 h 57 m 46.08 s, the right
/// ascension 06 12 34.56 and the declination +23 45 01.2.
const OF_COLUMNS: &str = r#"
> observer-1 1 submit80 $BATCH
< 200 receipt 6
accepted 4 refused 0
line 7 obs 1 track 1
line 8 obs 2 track 1
line 9 obs 3 track 1
line 10 obs 4 track 1
> observer-1 0 tracklet 1
< 200 track 1 station 703 name P10abcd
home isolated
obs 1 live 2024-03-15T02:57:46.080000000Z 93.144000000000 +23.750333333333
obs 2 live 2024-03-15T03:12:10.080000000Z 93.146250000000 +23.751388888889
obs 3 live 2024-03-15T03:26:34.080000000Z 93.148500000000 +23.752444444444
obs 4 live 2024-03-15T03:40:58.080000000Z 93.150750000000 +23.753500000000
> observer-1 0 isolated
< 200 track 1 live 4
"#;

/// An object whose earliest observation falls a thousandth of a second before the half-month's end; and names, of which
/// the office gave one.
const OF_MIDNIGHT: &str = r#"
> observer-1 1 submitpsv $MIDNIGHT
< 200 $MIDNIGHT_TEXT
> +founder-1 6 designate {"tracklets":[1,2]}
< 200 receipt 7
object 2024 EA K24E00A
> observer-1 0 halfmonth 2024 E
< 200 halfmonth 2024 E given 1 next 2024 EB
> observer-1 0 halfmonth 2024 F
< 200 halfmonth 2024 F given 0 next 2024 FA
> +founder-1 0 name K24E00A
< 200 printed 2024 EA
packed K24E00A
principal 2024 EA
> +founder-1 0 name 2040 P-L
< 200 printed 2040 P-L
packed PLS2040
principal none
> +founder-1 0 name 1995 XA
< 200 printed 1995 XA
packed J95X00A
principal none
> observer-1 0 object 2024 EA
< 200 principal 2024 EA
number none
name 2024 EA
obs 1 track 1
obs 2 track 1
obs 3 track 2
obs 4 track 2
> observer-1 0 tracklet 2
< 200 track 2 station 703 name AAA2
home 2024 EA principal 2024 EA
obs 3 live 2024-03-16T12:00:00.000000000Z 150.200000000000 -05.500000000000
obs 4 live 2024-03-16T12:30:00.000000000Z 150.210000000000 -05.500000000000
> observer-1 0 isolated
< 200
> observer-1 0 halfmonth 2024 I
< 400 refused 1 Unread body
"#;

/// Two objects of two tracklets each are identified; the fifth tracklet comes to the secondary, which is separated
/// again.
const OF_PLACES: &str = r#"
> observer-1 1 submitpsv $FIVE
< 200 $FIVE_TEXT
> +founder-1 6 designate {"tracklets":[1,2]}
< 200 receipt 7
object 2024 EA K24E00A
> +founder-1 7 designate {"tracklets":[3,4]}
< 200 receipt 8
object 2024 EB K24E00B
> +founder-1 8 identify {"principal":"2024 EA","secondary":"2024 EB"}
< 200 receipt 9
> +founder-1 9 attribute {"tracklet":5,"to":"2024 EB"}
< 200 receipt 10
> observer-1 0 object 2024 EA
< 200 principal 2024 EA
number none
name 2024 EA
name 2024 EB
obs 1 track 1
obs 2 track 1
obs 3 track 2
obs 4 track 2
obs 5 track 3
obs 6 track 3
obs 7 track 4
obs 8 track 4
obs 9 track 5
obs 10 track 5
> observer-1 0 object 2024 EB
< 200 principal 2024 EA
number none
name 2024 EA
name 2024 EB
obs 1 track 1
obs 2 track 1
obs 3 track 2
obs 4 track 2
obs 5 track 3
obs 6 track 3
obs 7 track 4
obs 8 track 4
obs 9 track 5
obs 10 track 5
> +founder-1 10 separate {"secondary":"2024 EB"}
< 200 receipt 11
> observer-1 2 retract {"observation":1}
< 200 receipt 12
> observer-1 0 object 2024 EA
< 200 principal 2024 EA
number none
name 2024 EA
obs 2 track 1
obs 3 track 2
obs 4 track 2
> observer-1 0 object 2024 EB
< 200 principal 2024 EB
number none
name 2024 EB
obs 5 track 3
obs 6 track 3
obs 7 track 4
obs 8 track 4
obs 9 track 5
obs 10 track 5
> observer-1 0 tally
< 200 entries 12
isolated 0
objects 9
retracted 1
accepted 10
"#;

/// What makes the office: 2024 EC is identified with 2024 EA and gets a tracklet, 2024 EB is separated, 2024 EA gets a
/// number, its discovery observation is retracted, a tracklet of it is released, and two lines come under its number,
/// the second of them earlier than the first, and at the time of another observation.
const ACTS: &str = r#"
> observer-1 1 submitpsv $FIVE
< 200 $FIVE_TEXT
> +founder-1 6 designate {"tracklets":[1,2]}
< 200 receipt 7
object 2024 EA K24E00A
> +founder-1 7 designate {"tracklets":[3,4]}
< 200 receipt 8
object 2024 EB K24E00B
> observer-1 2 submitpsv $TWO
< 200 receipt 9
accepted 4 refused 0
line 5 obs 11 track 6
line 6 obs 12 track 6
line 7 obs 13 track 7
line 8 obs 14 track 7
> +founder-1 8 designate {"tracklets":[6,7]}
< 200 receipt 10
object 2024 EC K24E00C
> +founder-1 9 identify {"principal":"2024 EA","secondary":"2024 EB"}
< 200 receipt 11
> +founder-1 10 identify {"principal":"2024 EA","secondary":"2024 EC"}
< 200 receipt 12
> +founder-1 11 separate {"secondary":"2024 EB"}
< 200 receipt 13
> +founder-1 12 attribute {"tracklet":5,"to":"2024 EC"}
< 200 receipt 14
> +founder-1 13 verdict {"object":"2024 EA","u":2,"oppositions":4}
< 200 receipt 15
> +founder-1 14 number {"first":620000,"most":5}
< 200 receipt 16
number 620000 2024 EA
> observer-1 3 retract {"observation":1}
< 200 receipt 17
> +founder-1 15 release {"tracklet":2}
< 200 receipt 18
> observer-1 4 submitpsv
# version=2017
# observatory
! mpcCode 703
permID|mode|stn|obsTime|ra|dec|astCat
620000|CCD|703|2024-03-01T06:00:00Z|10.3|1.0|Gaia3
620000|CCD|703|2024-03-01T00:10:00Z|10.2|1.0|Gaia3
< 200 receipt 19
accepted 2 refused 0
line 5 obs 15 track 8
line 6 obs 16 track 8
"#;

/// What is told of objects and half-months. Of the two observations at ten past midnight that with the smaller number
/// comes first.
const OBJECTS: &str = r#"
> observer-1 0 object 2024 EA
< 200 principal 2024 EA
number 620000
name 2024 EA
name 2024 EC
obs 2 track 1
obs 16 track 8
obs 15 track 8
obs 9 track 5
obs 10 track 5
obs 11 track 6
obs 12 track 6
obs 13 track 7
obs 14 track 7
> +founder-1 0 object 2024 EC
< 200 principal 2024 EA
number 620000
name 2024 EA
name 2024 EC
obs 2 track 1
obs 16 track 8
obs 15 track 8
obs 9 track 5
obs 10 track 5
obs 11 track 6
obs 12 track 6
obs 13 track 7
obs 14 track 7
> +founder-1 0 object 2024 EB
< 200 principal 2024 EB
number none
name 2024 EB
obs 5 track 3
obs 6 track 3
obs 7 track 4
obs 8 track 4
> +founder-1 0 object 2024 ED
< 404 refused 5 UnknownThing designation 2024 ED
> +founder-1 0 object K24E00A
< 400 refused 1 Unread body
> +founder-1 0 halfmonth 2024 E
< 200 halfmonth 2024 E given 3 next 2024 ED
> observer-1 0 tally
< 200 entries 19
isolated 2
objects 13
retracted 1
accepted 16
"#;

/// What is told of tracklets: in an object, released, attributed to a secondary, and under a number.
const TRACKLETS: &str = r#"
> observer-1 0 tracklet 1
< 200 track 1 station 703 name A1
home 2024 EA principal 2024 EA
obs 1 retracted 2024-03-01T00:00:00.000000000Z 10.000000000000 +01.000000000000
obs 2 live 2024-03-01T00:10:00.000000000Z 10.100000000000 +01.000000000000
> observer-1 0 tracklet 2
< 200 track 2 station 703 name A2
home isolated
obs 3 live 2024-03-01T13:00:00.000000000Z 11.000000000000 +01.000000000000
obs 4 live 2024-03-01T13:10:00.000000000Z 11.100000000000 +01.000000000000
> observer-1 0 tracklet 5
< 200 track 5 station 703 name A5
home 2024 EC principal 2024 EA
obs 9 live 2024-03-03T00:00:00.000000000Z 14.000000000000 +01.000000000000
obs 10 live 2024-03-03T00:10:00.000000000Z 14.100000000000 +01.000000000000
> observer-1 0 tracklet 8
< 200 track 8 station 703 name 620000
home 2024 EA principal 2024 EA
obs 15 live 2024-03-01T06:00:00.000000000Z 10.300000000000 +01.000000000000
obs 16 live 2024-03-01T00:10:00.000000000Z 10.200000000000 +01.000000000000
> observer-1 0 tracklet 9
< 404 refused 5 UnknownThing tracklet 9
> observer-1 0 tracklet 09
< 400 refused 1 Unread body
> observer-1 0 isolated
< 200 track 2 live 2
> observer-1 0 isolated 2
< 400 refused 1 Unread body
"#;

/// What is told of names: a number, a packed number, a secondary designation, and a number that wasn't given; and what
/// a caller's own act was answered.
const NAMES: &str = r#"
> observer-1 0 name 620000
< 200 printed 620000
packed ~0000
principal 2024 EA
> observer-1 0 name ~0000
< 200 printed 620000
packed ~0000
principal 2024 EA
> observer-1 0 name 2024 EC
< 200 printed 2024 EC
packed K24E00C
principal 2024 EA
> observer-1 0 name 620001
< 200 printed 620001
packed ~0001
principal none
> observer-1 0 name 00001
< 200 printed 1
packed 00001
principal none
> observer-1 0 name 2024 E
< 400 refused 1 Unread body
> observer-1 0 receipt 3
< 200 receipt 17
"#;

/// Half-months that are taken over: with two designations, with the last one alone, and without any; what was counted
/// and not carried isn't known.
const OF_OPENINGS: &str = r#"
> +founder-1 6 opening {"half":"2024 E","given":3,"carried":[1,3]}
< 200 receipt 6
object 2024 EA K24E00A
object 2024 EC K24E00C
> observer-1 0 halfmonth 2024 E
< 200 halfmonth 2024 E given 3 next 2024 ED
> observer-1 0 halfmonth 2024 D
< 200 halfmonth 2024 D given 0 next 2024 DA
> observer-1 0 halfmonth 2023 E
< 200 halfmonth 2023 E given 0 next 2023 EA
> observer-1 0 object 2024 EA
< 200 principal 2024 EA
number none
name 2024 EA
> observer-1 0 object 2024 EC
< 200 principal 2024 EC
number none
name 2024 EC
> observer-1 0 object 2024 EB
< 404 refused 5 UnknownThing designation 2024 EB
> observer-1 0 object 2024 ED
< 404 refused 5 UnknownThing designation 2024 ED
> observer-1 0 name 2024 EA
< 200 printed 2024 EA
packed K24E00A
principal 2024 EA
> observer-1 0 name K24E00C
< 200 printed 2024 EC
packed K24E00C
principal 2024 EC
> observer-1 0 name 2024 EB
< 200 printed 2024 EB
packed K24E00B
principal none
> +founder-1 7 opening {"half":"2024 F","given":14791836,"carried":[14791836]}
< 200 receipt 7
object 2024 FL591673 _OFzzzz
> observer-1 0 halfmonth 2024 F
< 200 halfmonth 2024 F given 14791836 next none
> observer-1 0 object 2024 FL591673
< 200 principal 2024 FL591673
number none
name 2024 FL591673
> observer-1 0 name _OFzzzz
< 200 printed 2024 FL591673
packed _OFzzzz
principal 2024 FL591673
> observer-1 0 name _OFzzzy
< 200 printed 2024 FK591673
packed _OFzzzy
principal none
> +founder-1 8 opening {"half":"1998 S","given":15500,"carried":[]}
< 200 receipt 8
> observer-1 0 halfmonth 1998 S
< 200 halfmonth 1998 S given 15500 next none
> observer-1 0 object 1998 SZ619
< 404 refused 5 UnknownThing designation 1998 SZ619
> +founder-1 9 opening {"half":"2061 Y","given":15500,"carried":[15500]}
< 200 receipt 9
object 2061 YZ619 K61Yz9Z
> observer-1 0 halfmonth 2061 Y
< 200 halfmonth 2061 Y given 15500 next 2061 YA620
> +founder-1 10 opening {"half":"2062 A","given":15500,"carried":[]}
< 200 receipt 10
> observer-1 0 halfmonth 2062 A
< 200 halfmonth 2062 A given 15500 next none
> observer-1 0 isolated
< 200
> +founder-1 0 receipt 6
< 200 receipt 6
object 2024 EA K24E00A
object 2024 EC K24E00C
> observer-1 0 tally
< 200 entries 10
isolated 0
objects 0
retracted 0
accepted 0
"#;

#[test]
fn tells_of_a_tracklet_in_columns(rt: HostRuntime) {
    session(rt.alloc(), &[OF_COLUMNS], 6).expect(&rt, "as wanted");
}

#[test]
fn tells_of_half_months_and_names(rt: HostRuntime) {
    session(rt.alloc(), &[OF_MIDNIGHT], 7).expect(&rt, "as wanted");
}

#[test]
fn tells_of_identified_objects(rt: HostRuntime) {
    session(rt.alloc(), &[OF_PLACES], 12).expect(&rt, "as wanted");
}

#[test]
fn tells_of_everything(rt: HostRuntime) {
    let transcripts = [ACTS, OBJECTS, TRACKLETS, NAMES];
    session(rt.alloc(), &transcripts, 19).expect(&rt, "as wanted");
}

#[test]
fn tells_of_half_months_that_are_taken_over(rt: HostRuntime) {
    session(rt.alloc(), &[OF_OPENINGS], 10).expect(&rt, "as wanted");
}
