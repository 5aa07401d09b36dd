//! A register whose file may have so many bytes: an act fits to the byte or is refused, and what is sent again is
//! answered all the same. An act on one of these objects takes 89 bytes, 58 and those of its body, and a file without
//! entries has two.

use super::files::{ONE, Sealed, TWO, drive_of, file_of};
use super::office::{office_call, office_with};
use std::alloc::Global;
use testkit_comets::comets_within;
use testkit_sessions::Wrong;

/// For an act one of 90 bytes is missing.
const NONE: &str = r#"
> +founder-1 1 comet {"kind":"C","object":"2024 EA"}
< 409 refused 15 JournalFull used 2 more 89 limit 90
> +founder-1 1 comet {"kind":"C","object":"2024 EZ"}
< 404 refused 5 UnknownThing designation 2024 EZ
> +founder-1 1 comet {"kind":"C","object":"2024 EA"}
< 409 refused 15 JournalFull used 2 more 89 limit 90
> +founder-1 0 register
< 200
"#;

/// 91 bytes have room for one act, but not for one whose body has a byte more. A number under which an act was refused
/// isn't used. All that is refused before the file is asked is refused so in a full one, too.
const ONE_ACT: &str = r#"
> +founder-1 1 comet {"kind":"C","object":"2024 EA"}
< 200 receipt 1
comet C/2024 E1 CK24E010
> +founder-1 2 comet {"kind":"P","object":"2024 EB"}
< 409 refused 15 JournalFull used 91 more 89 limit 91
> +founder-1 1 comet {"kind":"C","object":"2024 EA"}
< 200 receipt 1
comet C/2024 E1 CK24E010
> +founder-1 1 comet {"kind":"P","object":"2024 EA"}
< 409 refused 3 OtherRequest receipt 1
> +founder-1 2 comet {"kind":"P","object":"2024 EA"}
< 409 refused 20 AlreadyComet C/2024 E1
> +founder-1 2 comet $EB_LONGER
< 409 refused 15 JournalFull used 91 more 90 limit 91
> +founder-1 0 register
< 200 comet C/2024 E1 CK24E010 object 2024 EA principal 2024 EA
"#;

const EB_LONGER: &str = "{\"kind\":\"P\",\"object\":\"2024 EB\"} ";

/// For a second act one of 179 bytes is missing, before and after the first is sent again.
const ONE_MISSING: &str = r#"
> +founder-1 1 comet {"kind":"C","object":"2024 EA"}
< 200 receipt 1
comet C/2024 E1 CK24E010
> +founder-1 2 comet {"kind":"P","object":"2024 EB"}
< 409 refused 15 JournalFull used 91 more 89 limit 179
> +founder-1 1 comet {"kind":"C","object":"2024 EA"}
< 200 receipt 1
comet C/2024 E1 CK24E010
> +founder-1 2 comet {"kind":"P","object":"2024 EB"}
< 409 refused 15 JournalFull used 91 more 89 limit 179
"#;

/// Two acts fit, and a third one doesn't, before and after the first is sent again.
const TWO_ACTS: &str = r#"
> +founder-1 1 comet {"kind":"C","object":"2024 EA"}
< 200 receipt 1
comet C/2024 E1 CK24E010
> +founder-1 2 comet {"kind":"P","object":"2024 EB"}
< 200 receipt 2
comet P/2024 E2 PK24E020
> +founder-1 3 comet {"kind":"C","object":"2024 EC"}
< 409 refused 15 JournalFull used 180 more 89 limit 180
> +founder-1 1 comet {"kind":"C","object":"2024 EA"}
< 200 receipt 1
comet C/2024 E1 CK24E010
> +founder-1 3 comet {"kind":"C","object":"2024 EC"}
< 409 refused 15 JournalFull used 180 more 89 limit 180
"#;

/// A file that is longer than it may be is opened as any; what it has is told.
const BEYOND: &str = r#"
> +founder-1 3 comet {"kind":"C","object":"2024 EC"}
< 409 refused 15 JournalFull used 180 more 89 limit 0
> +founder-1 2 comet {"kind":"P","object":"2024 EB"}
< 200 receipt 2
comet P/2024 E2 PK24E020
> +founder-1 0 register
< 200 comet C/2024 E1 CK24E010 object 2024 EA principal 2024 EA
comet P/2024 E2 PK24E020 object 2024 EB principal 2024 EB
"#;

/// Whether a register with this limit, whose file has these parcels, so answers beside an office with three objects,
/// and leaves a file with those.
fn is_within(
    alloc: Global,
    limit: u64,
    parcels: &[Sealed],
    transcript: &str,
    kept: &[Sealed],
) -> Result<(), Wrong> {
    let office = office_with(alloc, 3)?;
    let (file, left) = (file_of(alloc, parcels)?, file_of(alloc, kept)?);
    let drive = drive_of(&file, &left);
    comets_within(
        alloc,
        &office_call(&office, 3),
        limit,
        &drive,
        transcript,
        &[("EB_LONGER", EB_LONGER)],
    )
}

fn each_limit(alloc: Global) -> Result<(), Wrong> {
    is_within(alloc, 90, &[], NONE, &[])?;
    is_within(alloc, 91, &[], ONE_ACT, &[ONE])?;
    is_within(alloc, 179, &[], ONE_MISSING, &[ONE])?;
    is_within(alloc, 180, &[], TWO_ACTS, &[ONE, TWO])?;
    is_within(alloc, 0, &[ONE, TWO], BEYOND, &[ONE, TWO])
}

#[test]
fn registers_are_full_to_the_byte(rt: HostRuntime) {
    each_limit(rt.alloc()).expect(&rt, "as wanted");
}
