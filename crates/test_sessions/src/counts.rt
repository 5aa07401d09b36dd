//! Acts on a few things at once: three tracklets of one object, two numbers of one act.

use testkit_sessions::session;

/// Seven tracklets: the first three are one object, and two each of the others, more than a night apart; two of the
/// three objects can be numbered.
const COUNTS: &str = r#"
> observer-1 1 submitpsv $FIVE
< 200 $FIVE_TEXT
> observer-1 2 submitpsv $TWO
< 200 receipt 7
accepted 4 refused 0
line 5 obs 11 track 6
line 6 obs 12 track 6
line 7 obs 13 track 7
line 8 obs 14 track 7
> +founder-1 6 designate {"tracklets":[1,2,3]}
< 200 receipt 8
object 2024 EA K24E00A
> +founder-1 7 designate {"tracklets":[4,6]}
< 200 receipt 9
object 2024 EB K24E00B
> +founder-1 8 designate {"tracklets":[5,7]}
< 200 receipt 10
object 2024 EC K24E00C
> +founder-1 9 verdict {"object":"2024 EC","u":2,"oppositions":4}
< 200 receipt 11
> +founder-1 10 verdict {"object":"2024 EA","u":2,"oppositions":4}
< 200 receipt 12
> +founder-1 11 number {"first":100,"most":5}
< 200 receipt 13
number 100 2024 EA
number 101 2024 EC
> +founder-1 0 tally
< 200 entries 13
isolated 0
objects 14
retracted 0
accepted 14
"#;

#[test]
fn three_tracklets_and_two_numbers(rt: HostRuntime) {
    session(rt.alloc(), &[COUNTS], 13).expect(&rt, "as wanted");
}
