//! A whole session: the office is set up, batches come, refusals, retractions and queries.

use crate::setup::SETUP;

/// A batch of the observer, and the same sent again.
pub const BATCHES: &str = r#"
> observer-1 1 submit80 $BATCH
< 200 receipt 6
accepted 4 refused 0
line 7 obs 1 track 1
line 8 obs 2 track 1
line 9 obs 3 track 1
line 10 obs 4 track 1
> observer-1 1 submit80 $BATCH
< 200 receipt 6
accepted 4 refused 0
line 7 obs 1 track 1
line 8 obs 2 track 1
line 9 obs 3 track 1
line 10 obs 4 track 1
"#;

/// Batches under a number that was used, without lines, and with lines that break rules: lines of an unknown station,
/// outside its days, on its first day, of an unknown band and of an unknown mode; lines that break two of these rules;
/// a line under a designation; one without mode and band, a quarter of an hour after the one of the first day; and one
/// of 79 bytes.
const FURTHER_BATCHES: &str = r#"
> observer-1 1 submit80
< 409 refused 3 OtherRequest receipt 6
> observer-1 2 submit80
< 422 refused 7 NoLine
> observer-1 2 submit80
     P10abce  C2024 03 15.12345 06 12 34.56 +23 45 01.2          19.5 V      568
     P10abce  C1997 12 31.99999 06 12 34.56 +23 45 01.2          19.5 V      703
     P10abce  C1998 01 01.00000 06 12 34.56 +23 45 01.2          19.5 V      703
     P10abce  C2024 03 15.12345 06 12 34.56 +23 45 01.2          19.5 R      703
     P10abce  B2024 03 15.12345 06 12 34.56 +23 45 01.2          19.5 V      703
     P10abce  B2024 03 15.12345 06 12 34.56 +23 45 01.2          19.5 R      568
     P10abce  B2024 03 15.12345 06 12 34.56 +23 45 01.2          19.5 R      703
     K24E00A  B2024 03 15.12345 06 12 34.56 +23 45 01.2          19.5 V      703
     K24E00A  C2024 03 15.12345 06 12 34.56 +23 45 01.2          19.5 V      703
     P10abce   1998 01 01.01000 06 12 34.56 +23 45 01.2                      703
     P10abce  C2024 03 15.12345 06 12 34.56 +23 45 01.2          19.5 V      70
< 200 receipt 7
accepted 2 refused 9
line 1 refused T1
line 2 refused T2
line 3 obs 5 track 2
line 4 refused T4
line 5 refused T5
line 6 refused T1
line 7 refused T4
line 8 refused T5
line 9 refused B3
line 10 obs 6 track 2
line 11 refused S1
"#;

/// Refusals in the order of the office's table.
const REFUSALS: &str = r#"
> nobody-here 1 submit80
< 401 refused 2 UnknownKey
> nobody-here 1 enrol {}
< 400 refused 1 Unread body
> nobody-here 0 enrol {}
< 400 refused 1 Unread number
> nobody-here 0 orbit {}
< 400 refused 1 Unread verb
> founder-1 1 station {"code":"703","from":"1998-01-01","name":"Catalina","to":"2199-12-31"}
< 401 refused 2 UnknownKey
> observer-1 3 enrol {"key":"observer-1","name":"Ann","role":"observer"}
< 403 refused 4 Role
> observer-1 3 station {"code":"703","from":"1998-01-01","name":"Catalina","to":"2199-12-31"}
< 403 refused 4 Role
> observer-1 3 code {"kind":"mode","letter":"C","word":"CCD"}
< 403 refused 4 Role
> observer-1 1 enrol {"key":"observer-1","name":"Ann","role":"observer"}
< 409 refused 3 OtherRequest receipt 6
> +founder-1 7 station {"code":"703","from":"1998-01-01","name":"Catalina","to":"2199-12-31"}
< 409 refused 13 AlreadyThere
> +founder-1 7 enrol {"key":"observer-1","name":"Ann","role":"observer"}
< 409 refused 13 AlreadyThere
> +founder-1 7 code {"kind":"mode","letter":"C","word":"CCD"}
< 409 refused 13 AlreadyThere
> +founder-1 1 station {"code":"703","from":"1998-01-01","name":"Catalina","to":"2199-12-31"}
< 200 receipt 1
> +founder-1 2 station {"code":"703","from":"1998-01-01","name":"Catalina","to":"2199-12-31"}
< 409 refused 3 OtherRequest receipt 2
"#;

/// Observers with a name of 100 characters, the most that there may be, and with one more.
pub(super) const LONG_NAME: &str = concat!(
    "{\"key\":\"observer-2\",\"name\":\"",
    "AAAAAAAAAAAAAAAAAAAAAAAAAAAAAAAAAAAAAAAAAAAAAAAAAA",
    "AAAAAAAAAAAAAAAAAAAAAAAAAAAAAAAAAAAAAAAAAAAAAAAAAA",
    "\",\"role\":\"observer\"}",
);

pub(super) const TOO_LONG_NAME: &str = concat!(
    "{\"key\":\"observer-2\",\"name\":\"",
    "AAAAAAAAAAAAAAAAAAAAAAAAAAAAAAAAAAAAAAAAAAAAAAAAAA",
    "AAAAAAAAAAAAAAAAAAAAAAAAAAAAAAAAAAAAAAAAAAAAAAAAAAA",
    "\",\"role\":\"observer\"}",
);

/// Batches of ADES and what is refused of them, and names of observers. The first has lines of an unknown catalogue, of
/// a known one, of an unknown band, and of an unknown mode; then lines that break two of the rules, and one more of the
/// accepted line's tracklet. In the others there is nothing, a line out of range, not the columns that must be there,
/// and a column's name twice.
const ADES: &str = r#"
> observer-1 3 submitpsv
# version=2017
# observatory
! mpcCode 703
trkSub|mode|stn|obsTime|ra|dec|astCat|mag|band
AAA1|CCD|703|2024-03-15T23:59:59Z|150.0|-5.5|Gaia2
AAA1|CCD|703|2024-03-16T00:10:00Z|150.0|-5.5|Gaia3
AAA1|CCD|703|2024-03-16T00:20:00Z|150.0|-5.5|Gaia3|20.1|R
AAA1|VID|703|2024-03-16T00:20:00Z|150.0|-5.5|Gaia3|20.1|V
AAA1|VID|703|2024-03-16T00:20:00Z|150.0|-5.5|Gaia2|20.1|R
AAA1|CCD|568|2024-03-16T00:20:00Z|150.0|-5.5|Gaia2|20.1|R
AAA1|VID|703|2024-03-16T00:20:00Z|150.0|-5.5|Gaia3|20.1|R
AAA1|CCD|703|2024-03-16T00:30:00Z|150.01|-5.5|Gaia3|20.3|V
< 200 receipt 8
accepted 2 refused 6
line 5 refused T3
line 6 obs 7 track 3
line 7 refused T4
line 8 refused T5
line 9 refused T3
line 10 refused T1
line 11 refused T4
line 12 obs 8 track 3
> observer-1 4 submitpsv
< 422 refused 6 Header H1 line 1
> observer-1 4 submitpsv
# version=2017
trkSub|mode|stn|obsTime|ra|dec|astCat
AAA1|CCD|703|2024-03-15T23:59:59Z|150.0|-95.5|Gaia3
< 422 refused 7 NoLine
line 3 refused S7
> observer-1 4 submitpsv
# version=2017
stn|obsTime|deltaRA
AAA1|CCD
< 422 refused 6 Header H3 line 2
> observer-1 4 submitpsv
# version=2017
trkSub|mode|stn|obsTime|ra|dec|astCat|stn
AAA1|CCD|703|2024-03-15T23:59:59Z|150.0|-5.5|Gaia3|703
< 422 refused 6 Header H5 line 2
> +founder-1 6 enrol $TOO_LONG_NAME
< 400 refused 1 Unread body
> +founder-1 6 enrol $LONG_NAME
< 200 receipt 9
caller 2
"#;

/// Rules beside the observations that are there, retractions, and queries. The second batch has two lines of a name
/// that are 25 hours apart, two in which the declination changes by 2 degrees in an hour, and a single one; the last
/// one has the first observation of the observer's first batch, after it was retracted, and a new one of the same name.
const PLACES: &str = r#"
> observer-1 0 tally
< 200 entries 9
isolated 8
objects 0
retracted 0
accepted 8
> observer-1 4 submit80 $BATCH
< 422 refused 7 NoLine
line 7 refused B4
line 8 refused B4
line 9 refused B4
line 10 refused B4
> observer-1 4 submit80
     BBBBBB1  C2024 03 15.00000 06 12 34.56 +23 45 01.2          19.5 V      703
     BBBBBB1  C2024 03 16.04167 06 12 34.56 +23 45 01.2          19.5 V      703
     BBBBBB2  C2024 03 15.00000 06 12 34.56 +10 00 00.0          19.5 V      703
     BBBBBB2  C2024 03 15.04166 06 12 34.56 +12 00 00.0          19.5 V      703
     BBBBBB3  C2024 03 15.00000 06 12 34.56 +30 00 00.0          19.5 V      703
< 422 refused 7 NoLine
line 1 refused B6
line 2 refused B7
line 3 refused B8
line 4 refused B8
line 5 refused B6
> observer-2 1 retract {"observation":1}
< 403 refused 4 Role
> observer-2 1 retract {"observation":9}
< 404 refused 5 UnknownThing observation 9
> observer-1 5 retract {"observation":1}
< 200 receipt 10
> observer-1 0 tally
< 200 entries 10
isolated 7
objects 0
retracted 1
accepted 8
> observer-1 6 retract {"observation":1}
< 409 refused 11 AlreadyRetracted 1
> observer-1 5 retract {"observation":1}
< 200 receipt 10
> observer-1 6 retract {}
< 400 refused 1 Unread body
> +founder-1 7 retract {"observation":2}
< 200 receipt 11
> observer-1 0 receipt 1
< 200 receipt 6
accepted 4 refused 0
line 7 obs 1 track 1
line 8 obs 2 track 1
line 9 obs 3 track 1
line 10 obs 4 track 1
> observer-1 0 receipt 9
< 404 refused 5 UnknownThing receipt 9
> observer-2 0 receipt 1
< 404 refused 5 UnknownThing receipt 1
> observer-1 0 receipt 01
< 400 refused 1 Unread body
> observer-1 0 receipt 0
< 400 refused 1 Unread body
> observer-1 0 tally x
< 400 refused 1 Unread body
> observer-1 3 tally
< 400 refused 1 Unread number
> nobody-here 0 tally
< 401 refused 2 UnknownKey
> observer-1 8 submit80
     P10abcd  C2024 03 15.12345 06 12 34.56 +23 45 01.2          19.5 V      703
     P10abcd  C2024 03 15.16345 06 12 34.56 +23 45 16.4          19.5 V      703
< 200 receipt 12
accepted 2 refused 0
line 1 obs 9 track 4
line 2 obs 10 track 4
> observer-1 0 tally
< 200 entries 12
isolated 8
objects 0
retracted 2
accepted 10
"#;

/// How many frames the whole session has.
pub const FRAMES: usize = 52;

/// All of them, one after another.
pub fn whole_session() -> [&'static str; 6] {
    [SETUP, BATCHES, FURTHER_BATCHES, REFUSALS, ADES, PLACES]
}
