//! Lines at the edge of a half-month, a line alone in its tracklet beside one that isn't, a line under a designation
//! that wasn't given, and a caller's own second act.

use testkit_sessions::session;

/// Two tracklets of two lines each: the first begins a millionth of a day before the end of 2024 C, the second at the
/// begin of 2024 D. Then a line under a designation and one alone in its tracklet, and a line under a designation that
/// wasn't given.
const EDGES: &str = r#"
> observer-1 1 submit80 $BATCH
< 200 receipt 6
accepted 4 refused 0
line 7 obs 1 track 1
line 8 obs 2 track 1
line 9 obs 3 track 1
line 10 obs 4 track 1
> observer-1 0 receipt 2
< 404 refused 5 UnknownThing receipt 2
> observer-1 2 submit80
     M1       C2024 02 15.99999906 12 34.56 +23 45 01.2          19.5 V      703
     M1       C2024 02 16.60000006 12 34.56 +23 45 01.2          19.5 V      703
     M2       C2024 02 16.00000006 12 34.56 +23 45 01.2          19.5 V      703
     M2       C2024 02 16.65000006 12 34.56 +23 45 01.2          19.5 V      703
< 200 receipt 7
accepted 4 refused 0
line 1 obs 5 track 2
line 2 obs 6 track 2
line 3 obs 7 track 3
line 4 obs 8 track 3
> observer-1 0 receipt 2
< 200 receipt 7
accepted 4 refused 0
line 1 obs 5 track 2
line 2 obs 6 track 2
line 3 obs 7 track 3
line 4 obs 8 track 3
> +founder-1 0 receipt 2
< 200 receipt 2
> +founder-1 6 designate {"tracklets":[2]}
< 200 receipt 8
object 2024 CA K24C00A
> +founder-1 7 designate {"tracklets":[3]}
< 200 receipt 9
object 2024 DA K24D00A
> observer-1 3 submit80
     K24C00A  C2024 02 17.50000006 12 34.56 +23 45 01.2          19.5 V      703
     M3       C2024 02 17.50000006 12 35.56 +23 45 01.2          19.5 V      703
< 200 receipt 10
accepted 1 refused 1
line 1 obs 9 track 4
line 2 refused B6
> observer-1 4 submit80
     K24E00C  C2024 02 17.60000006 12 34.56 +23 45 01.2          19.5 V      703
< 422 refused 7 NoLine
line 1 refused B3
> observer-1 4 submit80 $BATCH
< 422 refused 7 NoLine
line 7 refused B4
line 8 refused B4
line 9 refused B4
line 10 refused B4
"#;

#[test]
fn half_months_and_lines_at_their_edges(rt: HostRuntime) {
    session(rt.alloc(), &[EDGES], 10).expect(&rt, "as wanted");
}
