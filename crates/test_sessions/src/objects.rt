//! Designations, objects, verdicts and numbers in one session.

use testkit_sessions::session;

/// Tracklets become objects, of which the earliest observation gives the half-month.
const DESIGNATIONS: &str = r#"
> observer-1 1 submitpsv $MIDNIGHT
< 200 $MIDNIGHT_TEXT
> +founder-1 6 designate {"tracklets":[1,9]}
< 404 refused 5 UnknownThing tracklet 9
> +founder-1 6 designate {"tracklets":[1,2]}
< 200 receipt 7
object 2024 EA K24E00A
> +founder-1 7 designate {"tracklets":[2,1]}
< 409 refused 8 NotIsolated 2
> observer-1 2 submitpsv $NIGHT
< 200 $NIGHT_TEXT
> +founder-1 8 designate {"tracklets":[3,4]}
< 409 refused 8 OneNight 43140000000000
> +founder-1 8 designate {"tracklets":[3,5]}
< 200 receipt 9
object 2024 FA K24F00A
> observer-1 0 tally
< 200 entries 9
isolated 2
objects 8
retracted 0
accepted 10
> +founder-1 9 attribute {"tracklet":4,"to":"2024 EB"}
< 404 refused 5 UnknownThing designation 2024 EB
> +founder-1 9 attribute {"tracklet":4,"to":"2024 FA"}
< 200 receipt 10
> +founder-1 10 attribute {"tracklet":4,"to":"2024 EA"}
< 409 refused 8 NotIsolated 4
> observer-1 3 designate {"tracklets":[4]}
< 403 refused 4 Role
"#;

/// Objects become one, and two again.
const IDENTIFICATIONS: &str = r#"
> +founder-1 10 identify {"principal":"2024 EA","secondary":"2024 FA"}
< 200 receipt 11
> +founder-1 11 identify {"principal":"2024 FA","secondary":"2024 EA"}
< 409 refused 10 NotPrincipal 2024 FA
> +founder-1 11 identify {"principal":"2024 EA","secondary":"2024 FA"}
< 409 refused 10 NotPrincipal 2024 FA
> +founder-1 11 identify {"principal":"2024 EA","secondary":"2024 EA"}
< 409 refused 10 SameObject
> +founder-1 11 separate {"secondary":"2024 EA"}
< 409 refused 10 NotSecondary 2024 EA
> +founder-1 11 verdict {"object":"2024 FA","u":2,"oppositions":4}
< 409 refused 10 NotPrincipal 2024 FA
> +founder-1 11 separate {"secondary":"2024 FA"}
< 200 receipt 12
> +founder-1 12 separate {"secondary":"2024 FA"}
< 409 refused 10 NotSecondary 2024 FA
> +founder-1 12 separate {"secondary":"1995 XA"}
< 404 refused 5 UnknownThing designation 1995 XA
"#;

/// Verdicts, and the numbers that they give.
const NUMBERS: &str = r#"
> +founder-1 12 verdict {"object":"2024 EA","u":2,"oppositions":4}
< 200 receipt 13
> +founder-1 13 verdict {"object":"2024 FA","u":0,"oppositions":255}
< 200 receipt 14
> +founder-1 14 number {"first":15396335,"most":2}
< 409 refused 12 NumbersFull
> observer-1 3 retract {"observation":1}
< 200 receipt 15
> +founder-1 14 number {"first":620000,"most":5}
< 200 receipt 16
number 620000 2024 FA
> +founder-1 15 number {"first":620002,"most":5}
< 409 refused 12 NotNext 620001
> +founder-1 15 number {"first":620001,"most":5}
< 409 refused 12 NoneEligible
> +founder-1 15 verdict {"object":"2024 EA","u":3,"oppositions":4}
< 200 receipt 17
> +founder-1 16 number {"first":620001,"most":5}
< 409 refused 12 NoneEligible
> +founder-1 16 verdict {"object":"2024 EA","u":2,"oppositions":3}
< 200 receipt 18
> +founder-1 17 number {"first":620001,"most":5}
< 409 refused 12 NoneEligible
> +founder-1 17 identify {"principal":"2024 EA","secondary":"2024 FA"}
< 409 refused 10 NumberedSecondary
> +founder-1 17 verdict {"object":"2024 EA","u":2,"oppositions":4}
< 200 receipt 19
> +founder-1 18 number {"first":620001,"most":5}
< 200 receipt 20
number 620001 2024 EA
> +founder-1 19 identify {"principal":"2024 EA","secondary":"2024 FA"}
< 409 refused 10 BothNumbered
"#;

/// Lines under the office's names, one of them under a number and the designation of another object; tracklets that
/// come out of their objects, and a resend.
const RELEASES: &str = r#"
> observer-1 4 submitpsv
# version=2017
# observatory
! mpcCode 703
permID|provID|mode|stn|obsTime|ra|dec|astCat
620000|2024 EA|CCD|703|2024-03-21T00:00:00Z|13.0|1.0|Gaia3
620000||CCD|703|2024-03-21T01:00:00Z|13.1|1.0|Gaia3
|2024 EA|CCD|703|2024-03-21T02:00:00Z|13.2|1.0|Gaia3
< 200 receipt 21
accepted 2 refused 1
line 5 refused B9
line 6 obs 11 track 6
line 7 obs 12 track 7
> +founder-1 19 release {"tracklet":6}
< 200 receipt 22
> +founder-1 20 release {"tracklet":6}
< 409 refused 8 NotHomed 6
> +founder-1 20 release {"tracklet":99}
< 404 refused 5 UnknownThing tracklet 99
> +founder-1 20 release {"tracklet":4}
< 200 receipt 23
> observer-1 5 retract {"observation":7}
< 200 receipt 24
> observer-1 6 retract {"observation":8}
< 200 receipt 25
> +founder-1 21 designate {"tracklets":[4]}
< 409 refused 8 Empty 4
> +founder-1 21 designate {"tracklets":[6,1]}
< 409 refused 8 NotIsolated 1
> +founder-1 21 designate {"tracklets":[]}
< 400 refused 1 Unread body
> observer-1 0 tally
< 200 entries 25
isolated 1
objects 8
retracted 3
accepted 12
> +founder-1 6 designate {"tracklets":[1,2]}
< 200 receipt 7
object 2024 EA K24E00A
> +founder-1 0 receipt 18
< 200 receipt 20
number 620001 2024 EA
"#;

#[test]
fn designations_objects_and_numbers(rt: HostRuntime) {
    let transcripts = [DESIGNATIONS, IDENTIFICATIONS, NUMBERS, RELEASES];
    session(rt.alloc(), &transcripts, 25).expect(&rt, "as wanted");
}
