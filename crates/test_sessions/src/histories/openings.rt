//! Half-months that are taken over, each session asked and sent once more over the journal that it left: up to the last
//! designation, with as many carried as may be, and what is refused and not read.

use super::half_months::{ORDER_LETTERS, at};
use std::alloc::Global;
use testkit_sessions::{FOUNDER, NoMemory, Script, Wrong, call_days, put};

/// A session of the founder's five requests and of `day`, after which there are so many entries; `later` over the
/// journal that was left, by which there are no more; and the catalogue that is written out then, where one is given.
pub(super) fn told_again(
    alloc: Global,
    day: &[&str],
    entries: u64,
    later: &[&str],
    catalogue: &str,
) -> Result<(), Wrong> {
    let mut first = Script::begun(alloc)?;
    first.add_transcripts(day)?;
    let mut second = Script::new(alloc);
    second.add_transcripts(later)?;
    call_days(
        alloc,
        1_048_576,
        &first,
        entries,
        None,
        &second,
        catalogue.as_bytes(),
    )
}

/// 2024 E is taken over but for its last designation, which an object gets; then it has none left. The tracklet with
/// the discovery comes to a designation that was carried. Of 1998 S all are taken over. The acts that are refused have
/// numbers that no other act has, so that they are refused again.
const UP_TO_THE_LAST: &str = r#"
> observer-1 1 submitpsv $MIDNIGHT
< 200 $MIDNIGHT_TEXT
> +founder-1 6 opening {"carried":[1,3],"given":14791835,"half":"2024 E"}
< 200 receipt 7
object 2024 EA K24E00A
object 2024 EC K24E00C
> +founder-1 7 designate {"tracklets":[1,2]}
< 200 receipt 8
object 2024 EL591673 _OEzzzz
> observer-1 0 halfmonth 2024 E
< 200 halfmonth 2024 E given 14791836 next none
> observer-1 2 submitpsv $TWO
< 200 receipt 9
accepted 4 refused 0
line 5 obs 5 track 3
line 6 obs 6 track 3
line 7 obs 7 track 4
line 8 obs 8 track 4
> +founder-1 20 designate {"tracklets":[3,4]}
< 409 refused 9 HalfMonthFull 2024 E 14791836
> +founder-1 20 opening {"carried":[],"given":1,"half":"2024 E"}
< 409 refused 18 HalfMonthBegun 2024 E
> +founder-1 8 release {"tracklet":1}
< 200 receipt 10
> +founder-1 9 attribute {"tracklet":1,"to":"2024 EC"}
< 200 receipt 11
> +founder-1 10 opening {"carried":[],"given":15500,"half":"1998 S"}
< 200 receipt 12
> observer-1 0 halfmonth 1998 S
< 200 halfmonth 1998 S given 15500 next none
> +founder-1 20 opening {"carried":[],"given":15501,"half":"1998 S"}
< 400 refused 1 Unread body
"#;

/// The discovery of 2024 EL591673 stands under 2024 EC, so that no line has the star.
const LAST_CATALOGUE: &str = concat!(
    "catalogue 1\n",
    "entries 12\n",
    "isolated 4\n",
    "objects 4\n",
    "retracted 0\n",
    "accepted 8\n",
    "object 2024 EA number none observations 0\n",
    "object 2024 EC number none observations 2\n",
    "     K24E00C  C2024 03 16.00000010 00 00.000-05 30 00.00         20.25VW     703\n",
    "     K24E00C  C2024 03 16.02083310 00 02.400-05 30 00.00         20.3 VW     703\n",
    "object 2024 EL591673 number none observations 2\n",
    "     _OEzzzz  C2024 03 16.50000010 00 48.000-05 30 00.00               W     703\n",
    "     _OEzzzz  C2024 03 16.52083310 00 50.400-05 30 00.00               W     703\n",
    "track 3 A6\n",
    "     A6       C2024 03 04.00000001 00 00.000+01 00 00.00               W     703\n",
    "     A6       C2024 03 04.00694401 00 24.000+01 00 00.00               W     703\n",
    "track 4 A7\n",
    "     A7       C2024 03 04.54166701 04 00.000+01 00 00.00               W     703\n",
    "     A7       C2024 03 04.54861101 04 24.000+01 00 00.00               W     703\n",
    "end\n",
);

/// What is told then: of designations that were carried, of one that was counted alone, and of the last one.
const LAST_TOLD: &str = r#"
> observer-1 0 tally
< 200 entries 12
isolated 4
objects 4
retracted 0
accepted 8
> observer-1 0 object 2024 EA
< 200 principal 2024 EA
number none
name 2024 EA
> observer-1 0 object 2024 EC
< 200 principal 2024 EC
number none
name 2024 EC
obs 1 track 1
obs 2 track 1
> observer-1 0 object 2024 EB
< 404 refused 5 UnknownThing designation 2024 EB
> observer-1 0 object 2024 EL591673
< 200 principal 2024 EL591673
number none
name 2024 EL591673
obs 3 track 2
obs 4 track 2
> observer-1 0 tracklet 1
< 200 track 1 station 703 name AAA1
home 2024 EC principal 2024 EC
obs 1 live 2024-03-15T23:59:59.999000000Z 150.000000000000 -05.500000000000
obs 2 live 2024-03-16T00:30:00.000000000Z 150.010000000000 -05.500000000000
> observer-1 0 name 2024 EC
< 200 printed 2024 EC
packed K24E00C
principal 2024 EC
> observer-1 0 name K24E00B
< 200 printed 2024 EB
packed K24E00B
principal none
> observer-1 0 name _OEzzzz
< 200 printed 2024 EL591673
packed _OEzzzz
principal 2024 EL591673
> observer-1 0 halfmonth 2024 E
< 200 halfmonth 2024 E given 14791836 next none
> observer-1 0 halfmonth 2024 F
< 200 halfmonth 2024 F given 0 next 2024 FA
> observer-1 0 halfmonth 1998 S
< 200 halfmonth 1998 S given 15500 next none
> observer-1 0 halfmonth 1998 R
< 200 halfmonth 1998 R given 0 next 1998 RA
> observer-1 0 isolated
< 200 track 3 live 2
track 4 live 2
> +founder-1 0 receipt 6
< 200 receipt 7
object 2024 EA K24E00A
object 2024 EC K24E00C
> +founder-1 0 catalogue
< 200 catalogue 1
entries 12
isolated 4
objects 4
retracted 0
accepted 8
object 2024 EA number none observations 0
object 2024 EC number none observations 2
     K24E00C  C2024 03 16.00000010 00 00.000-05 30 00.00         20.25VW     703
     K24E00C  C2024 03 16.02083310 00 02.400-05 30 00.00         20.3 VW     703
object 2024 EL591673 number none observations 2
     _OEzzzz  C2024 03 16.50000010 00 48.000-05 30 00.00               W     703
     _OEzzzz  C2024 03 16.52083310 00 50.400-05 30 00.00               W     703
track 3 A6
     A6       C2024 03 04.00000001 00 00.000+01 00 00.00               W     703
     A6       C2024 03 04.00694401 00 24.000+01 00 00.00               W     703
track 4 A7
     A7       C2024 03 04.54166701 04 00.000+01 00 00.00               W     703
     A7       C2024 03 04.54861101 04 24.000+01 00 00.00               W     703
end
"#;

fn up_to_the_last(alloc: Global) -> Result<(), Wrong> {
    let day = [UP_TO_THE_LAST, LAST_TOLD];
    let later = [LAST_TOLD, UP_TO_THE_LAST, LAST_TOLD];
    told_again(alloc, &day, 12, &later, LAST_CATALOGUE)
}

#[test]
fn taken_over_but_for_the_last(rt: HostRuntime) {
    up_to_the_last(rt.alloc()).expect(&rt, "as wanted");
}

/// All designations of 1998 S but one are taken over, with the last of them. There are two tracklets of it, of which
/// one is too many.
const AUTUMN_OPENED: &str = r#"
> observer-1 1 submit80
     W00001a   1998 09 16.00000106 12 34.56 +23 45 01.2                      703
     W00001a   1998 09 16.50000106 12 34.56 +23 45 01.2                      703
     W00002a   1998 09 16.00000206 12 34.56 +23 45 01.2                      703
     W00002a   1998 09 16.50000206 12 34.56 +23 45 01.2                      703
< 200 receipt 6
accepted 4 refused 0
line 1 obs 1 track 1
line 2 obs 2 track 1
line 3 obs 3 track 2
line 4 obs 4 track 2
> +founder-1 6 opening {"carried":[15499],"given":15499,"half":"1998 S"}
< 200 receipt 7
object 1998 SY619 J98Sz9Y
"#;

const AUTUMN_NEXT: &str = r#"
> observer-1 0 halfmonth 1998 S
< 200 halfmonth 1998 S given 15499 next 1998 SZ619
"#;

/// The office gives the one that is left, and no other.
const AUTUMN_FULL: &str = r#"
> +founder-1 7 designate {"tracklets":[1]}
< 200 receipt 8
object 1998 SZ619 J98Sz9Z
> +founder-1 20 designate {"tracklets":[2]}
< 409 refused 9 HalfMonthFull 1998 S 15500
> +founder-1 20 opening {"carried":[15499],"given":15499,"half":"1998 S"}
< 409 refused 18 HalfMonthBegun 1998 S
> observer-1 0 halfmonth 1998 S
< 200 halfmonth 1998 S given 15500 next none
> observer-1 0 object 1998 SZ619
< 200 principal 1998 SZ619
number none
name 1998 SZ619
obs 1 track 1
obs 2 track 1
> observer-1 0 object 1998 SY619
< 200 principal 1998 SY619
number none
name 1998 SY619
"#;

fn one_is_left(alloc: Global) -> Result<(), Wrong> {
    let day = [AUTUMN_OPENED, AUTUMN_NEXT, AUTUMN_FULL];
    told_again(alloc, &day, 8, &[AUTUMN_OPENED, AUTUMN_FULL], "")
}

#[test]
fn one_designation_is_left(rt: HostRuntime) {
    one_is_left(rt.alloc()).expect(&rt, "as wanted");
}

/// Who may not, half-months that were begun by a designation or taken over before, and a number that was used.
const REFUSED: &str = r#"
> observer-1 1 submitpsv $MIDNIGHT
< 200 $MIDNIGHT_TEXT
> observer-1 20 opening {"half":"2024 F","given":3,"carried":[1,3]}
< 403 refused 4 Role
> +founder-1 6 designate {"tracklets":[1,2]}
< 200 receipt 7
object 2024 EA K24E00A
> +founder-1 20 opening {"half":"2024 E","given":3,"carried":[1,3]}
< 409 refused 18 HalfMonthBegun 2024 E
"#;

/// The object loses one tracklet, and then the observations of the other.
const LOST: &str = r#"
> +founder-1 7 release {"tracklet":1}
< 200 receipt 8
> observer-1 2 retract {"observation":3}
< 200 receipt 9
> observer-1 3 retract {"observation":4}
< 200 receipt 10
> observer-1 0 object 2024 EA
< 200 principal 2024 EA
number none
name 2024 EA
> +founder-1 20 opening {"half":"2024 E","given":3,"carried":[1,3]}
< 409 refused 18 HalfMonthBegun 2024 E
> observer-1 0 halfmonth 2024 E
< 200 halfmonth 2024 E given 1 next 2024 EB
> +founder-1 8 opening {"half":"2024 F","given":3,"carried":[1,3]}
< 200 receipt 11
object 2024 FA K24F00A
object 2024 FC K24F00C
> +founder-1 8 opening {"half":"2024 F","given":3,"carried":[1,3]}
< 200 receipt 11
object 2024 FA K24F00A
object 2024 FC K24F00C
"#;

/// The same in another order of its members, and with another order of its list.
const REPEATED: &str = r#"
> +founder-1 8 opening {"given":3,"half":"2024 F","carried":[1,3]}
< 409 refused 3 OtherRequest receipt 11
> +founder-1 8 opening {"half":"2024 F","given":3,"carried":[3,1]}
< 409 refused 3 OtherRequest receipt 11
> +founder-1 20 opening {"half":"2024 F","given":3,"carried":[1,3]}
< 409 refused 18 HalfMonthBegun 2024 F
> +founder-1 20 opening {"half":"2024 F","given":4,"carried":[]}
< 409 refused 18 HalfMonthBegun 2024 F
"#;

/// None is carried, of one that was given.
const UNCARRIED: &str = r#"
> +founder-1 9 opening {"half":"2024 G","given":1,"carried":[]}
< 200 receipt 12
> +founder-1 20 opening {"half":"2024 G","given":1,"carried":[]}
< 409 refused 18 HalfMonthBegun 2024 G
> observer-1 0 object 2024 GA
< 404 refused 5 UnknownThing designation 2024 GA
> observer-1 0 halfmonth 2024 F
< 200 halfmonth 2024 F given 3 next 2024 FD
> observer-1 0 halfmonth 2024 G
< 200 halfmonth 2024 G given 1 next 2024 GB
> observer-1 0 tally
< 200 entries 12
isolated 2
objects 0
retracted 2
accepted 4
"#;

/// The edges of a body, each at a half-month that nobody took over, which stays so.
const UNREAD: &str = r#"
> +founder-1 20 opening {"half":"2024 H","given":0,"carried":[]}
< 400 refused 1 Unread body
> +founder-1 20 opening {"half":"2024 H","given":14791837,"carried":[]}
< 400 refused 1 Unread body
> +founder-1 20 opening {"half":"2062 A","given":15501,"carried":[]}
< 400 refused 1 Unread body
> +founder-1 20 opening {"half":"1999 Y","given":15501,"carried":[]}
< 400 refused 1 Unread body
> +founder-1 20 opening {"half":"2024 H","given":3,"carried":[1,4]}
< 400 refused 1 Unread body
> +founder-1 20 opening {"half":"2024 H","given":3,"carried":[0]}
< 400 refused 1 Unread body
> +founder-1 20 opening {"half":"2024 H","given":3,"carried":[1,2,1]}
< 400 refused 1 Unread body
> +founder-1 20 opening {"half":"2024 I","given":3,"carried":[]}
< 400 refused 1 Unread body
> +founder-1 20 opening {"half":"2024 H","given":3}
< 400 refused 1 Unread body
> +founder-1 20 opening
< 400 refused 1 Unread body
> observer-1 0 halfmonth 2024 H
< 200 halfmonth 2024 H given 0 next 2024 HA
> observer-1 0 halfmonth 2062 A
< 200 halfmonth 2062 A given 0 next 2062 AA
> observer-1 0 halfmonth 1999 Y
< 200 halfmonth 1999 Y given 0 next 1999 YA
"#;

fn refused(alloc: Global) -> Result<(), Wrong> {
    let day = [REFUSED, LOST, REPEATED, UNCARRIED, UNREAD];
    told_again(alloc, &day, 12, &day, "")
}

#[test]
fn refused_and_unread(rt: HostRuntime) {
    refused(rt.alloc()).expect(&rt, "as wanted");
}

/// How many an opening may carry.
const MOST: u64 = 100;

/// The line of the answer for this order of 2024 E, up to 100.
fn carried_line(alloc: Global, order: u64) -> Result<String, NoMemory> {
    let before = order.saturating_sub(1);
    let (letter, cycle) = (at(ORDER_LETTERS, before % 25), before / 25);
    if cycle == 0 {
        return format!(in alloc; "object 2024 E{letter} K24E00{letter}\n");
    }
    format!(in alloc; "object 2024 E{letter}{cycle} K24E0{cycle}{letter}\n")
}

/// The opening that carries the orders from the hundredth down to the first, and the answer to it.
fn add_hundred(alloc: Global, script: &mut Script) -> Result<(), NoMemory> {
    let mut body = Vec::new(alloc);
    let mut text = Vec::new(alloc);
    put(
        &mut body,
        "{\"half\":\"2024 E\",\"given\":100,\"carried\":[",
    )?;
    put(&mut text, "receipt 6\n")?;
    for place in 0..MOST {
        let order = MOST.saturating_sub(place);
        let end = if order > 1 { "," } else { "]}" };
        let next = format!(in alloc; "{order}{end}")?;
        put(&mut body, next.as_str())?;
        let line = carried_line(alloc, order)?;
        put(&mut text, line.as_str())?;
    }
    script.add(FOUNDER, 6, "opening", &body, "200 ", &text)
}

/// What is told of the first, of the last, and of what comes next.
const HUNDRED_TOLD: &str = r#"
> observer-1 0 object 2024 EA
< 200 principal 2024 EA
number none
name 2024 EA
> observer-1 0 object 2024 EZ3
< 200 principal 2024 EZ3
number none
name 2024 EZ3
> observer-1 0 object 2024 EA4
< 404 refused 5 UnknownThing designation 2024 EA4
> observer-1 0 halfmonth 2024 E
< 200 halfmonth 2024 E given 100 next 2024 EA4
"#;

fn a_hundred(alloc: Global) -> Result<(), Wrong> {
    let mut day = Script::begun(alloc)?;
    add_hundred(alloc, &mut day)?;
    day.add_transcript(HUNDRED_TOLD)?;
    let mut later = Script::new(alloc);
    add_hundred(alloc, &mut later)?;
    later.add_transcript(HUNDRED_TOLD)?;
    call_days(alloc, 1_048_576, &day, 6, None, &later, b"")
}

#[test]
fn hundred_are_carried(rt: HostRuntime) {
    a_hundred(rt.alloc()).expect(&rt, "as wanted");
}
