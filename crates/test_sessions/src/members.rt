//! Places of observations, members of objects, and numbers that go on, in one session.

use testkit_sessions::session;

/// The observations of two objects, and of a tracklet that comes into one of them, stand in one place each.
const PLACES: &str = r#"
> observer-1 1 submitpsv $FIVE
< 200 $FIVE_TEXT
> +founder-1 6 designate {"tracklets":[1,2]}
< 200 receipt 7
object 2024 EA K24E00A
> +founder-1 7 designate {"tracklets":[3,4]}
< 200 receipt 8
object 2024 EB K24E00B
> observer-1 0 tally
< 200 entries 8
isolated 2
objects 8
retracted 0
accepted 10
> +founder-1 8 identify {"principal":"2024 EA","secondary":"2024 EB"}
< 200 receipt 9
> observer-1 0 tally
< 200 entries 9
isolated 2
objects 8
retracted 0
accepted 10
> +founder-1 9 attribute {"tracklet":5,"to":"2024 EB"}
< 200 receipt 10
> observer-1 0 tally
< 200 entries 10
isolated 0
objects 10
retracted 0
accepted 10
> +founder-1 10 separate {"secondary":"2024 EB"}
< 200 receipt 11
> observer-1 0 tally
< 200 entries 11
isolated 0
objects 10
retracted 0
accepted 10
> +founder-1 11 separate {"secondary":"2024 EB"}
< 409 refused 10 NotSecondary 2024 EB
> observer-1 2 retract {"observation":1}
< 200 receipt 12
> observer-1 0 tally
< 200 entries 12
isolated 0
objects 9
retracted 1
accepted 10
> observer-1 3 retract {"observation":1}
< 409 refused 11 AlreadyRetracted 1
> observer-1 3 submitpsv $TWO
< 200 receipt 13
accepted 4 refused 0
line 5 obs 11 track 6
line 6 obs 12 track 6
line 7 obs 13 track 7
line 8 obs 14 track 7
"#;

/// Three objects become one, of which a separated one leaves the others.
const MEMBERS: &str = r#"
> +founder-1 11 designate {"tracklets":[6,7]}
< 200 receipt 14
object 2024 EC K24E00C
> +founder-1 12 identify {"principal":"2024 EB","secondary":"2024 EC"}
< 200 receipt 15
> +founder-1 13 identify {"principal":"2024 EA","secondary":"2024 EB"}
< 200 receipt 16
> +founder-1 14 separate {"secondary":"2024 EB"}
< 200 receipt 17
> +founder-1 15 identify {"principal":"2024 EA","secondary":"2024 EC"}
< 409 refused 10 NotPrincipal 2024 EC
> +founder-1 15 identify {"principal":"2024 EA","secondary":"2024 EA"}
< 409 refused 10 SameObject
> +founder-1 15 separate {"secondary":"2024 EC"}
< 200 receipt 18
"#;

/// A verdict that a retraction voids, and the numbers of two objects; then a line under a number and the designation of
/// another object, before and after the two are one.
const NUMBERED: &str = r#"
> +founder-1 16 verdict {"object":"2024 EA","u":2,"oppositions":4}
< 200 receipt 19
> observer-1 4 retract {"observation":2}
< 200 receipt 20
> +founder-1 17 number {"first":620000,"most":5}
< 409 refused 12 NoneEligible
> +founder-1 17 verdict {"object":"2024 EA","u":2,"oppositions":4}
< 200 receipt 21
> +founder-1 18 number {"first":620000,"most":5}
< 200 receipt 22
number 620000 2024 EA
> +founder-1 19 number {"first":620002,"most":5}
< 409 refused 12 NotNext 620001
> +founder-1 19 verdict {"object":"2024 EB","u":1,"oppositions":4}
< 200 receipt 23
> +founder-1 20 number {"first":620001,"most":5}
< 200 receipt 24
number 620001 2024 EB
> +founder-1 21 identify {"principal":"2024 EA","secondary":"2024 EB"}
< 409 refused 10 BothNumbered
> +founder-1 21 identify {"principal":"2024 EC","secondary":"2024 EA"}
< 409 refused 10 NumberedSecondary
> observer-1 5 submitpsv
# version=2017
# observatory
! mpcCode 703
permID|provID|mode|stn|obsTime|ra|dec|astCat
620000|2024 EC|CCD|703|2024-03-05T00:00:00Z|17.0|1.0|Gaia3
< 422 refused 7 NoLine
line 5 refused B9
> +founder-1 21 identify {"principal":"2024 EA","secondary":"2024 EC"}
< 200 receipt 25
> observer-1 5 submitpsv
# version=2017
# observatory
! mpcCode 703
permID|provID|mode|stn|obsTime|ra|dec|astCat
620000|2024 EC|CCD|703|2024-03-05T00:00:00Z|17.0|1.0|Gaia3
< 200 receipt 26
accepted 1 refused 0
line 5 obs 15 track 8
> observer-1 0 tally
< 200 entries 26
isolated 0
objects 13
retracted 2
accepted 15
"#;

/// Objects with good verdicts and without a number: of one only the second member has live observations, and of the
/// other all observations are retracted, so that the first alone gets a number.
const OBSERVED: &str = r#"
> observer-1 6 submitpsv $THREE
< 200 receipt 27
accepted 6 refused 0
line 5 obs 16 track 9
line 6 obs 17 track 9
line 7 obs 18 track 10
line 8 obs 19 track 10
line 9 obs 20 track 11
line 10 obs 21 track 11
> +founder-1 22 designate {"tracklets":[9]}
< 200 receipt 28
object 2024 ED K24E00D
> +founder-1 23 designate {"tracklets":[10]}
< 200 receipt 29
object 2024 EE K24E00E
> +founder-1 24 designate {"tracklets":[11]}
< 200 receipt 30
object 2024 EF K24E00F
> +founder-1 25 identify {"principal":"2024 ED","secondary":"2024 EE"}
< 200 receipt 31
> observer-1 7 retract {"observation":16}
< 200 receipt 32
> observer-1 8 retract {"observation":17}
< 200 receipt 33
> observer-1 9 retract {"observation":20}
< 200 receipt 34
> observer-1 10 retract {"observation":21}
< 200 receipt 35
> +founder-1 26 verdict {"object":"2024 ED","u":2,"oppositions":4}
< 200 receipt 36
> +founder-1 27 verdict {"object":"2024 EF","u":2,"oppositions":4}
< 200 receipt 37
> +founder-1 28 number {"first":620002,"most":5}
< 200 receipt 38
number 620002 2024 ED
> +founder-1 29 number {"first":620003,"most":5}
< 409 refused 12 NoneEligible
> observer-1 0 tally
< 200 entries 38
isolated 0
objects 15
retracted 6
accepted 21
"#;

#[test]
fn places_members_and_numbers(rt: HostRuntime) {
    let transcripts = [PLACES, MEMBERS, NUMBERED, OBSERVED];
    session(rt.alloc(), &transcripts, 38).expect(&rt, "as wanted");
}
