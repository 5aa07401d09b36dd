//! The bytes of journals with an opening and without one, the same read again and moved, and files whose opening is no
//! entry.

use std::alloc::Global;
use testkit_sessions::{
    Asked, Call, Drive, Drives, NoMemory, Script, Wrong, asked_in, call_in_turn,
};

/// 2024-04-01T00:00:00Z, and how long a clock takes from one reading to the next.
const APRIL: i64 = 1_711_929_600_000_000_000;

const SECOND: i64 = 1_000_000_000;

/// The verbs of acts, in the order of their codes, of which the first is 1.
const VERBS: &str =
    "enrol station code submit80 submitpsv designate attribute release identify separate verdict number \
    retract opening";

fn code_of(verb: &str) -> u8 {
    let mut code = 0u8;
    for next in VERBS.split(' ') {
        code = code.saturating_add(1);
        if next == verb {
            return code;
        }
    }
    0
}

/// An entry of the founder, who is caller 0, as it stands in the journal after an open gate: the length of what follows
/// it, the caller, the number, the moment, the code of the verb, and the body.
fn put_entry(file: &mut Vec<u8>, act: &Asked<'_>, moment: i64) -> Result<(), NoMemory> {
    let length = (act.body.len().min(1_048_576) as u32).saturating_add(21);
    file.extend_from_slice(&[1])?;
    file.extend_from_slice(&length.to_be_bytes())?;
    file.extend_from_slice(&[0, 0, 0, 0])?;
    file.extend_from_slice(&act.number.to_be_bytes())?;
    file.extend_from_slice(&moment.to_be_bytes())?;
    file.extend_from_slice(&[code_of(act.verb)])?;
    file.extend_from_slice(act.body.as_bytes())
}

/// A file of these acts: the bytes before its first gate; each entry, and after it the next 32 of these digests, where
/// there are any; and a closed gate. Each moment is a second later than the one before.
fn journal_of(alloc: Global, acts: &str, head: &[u8], digests: &[u8]) -> Result<Vec<u8>, Wrong> {
    let mut file = Vec::from_slice(alloc, head)?;
    let mut left = digests;
    let mut moment = APRIL;
    for act in &asked_in(alloc, acts, &[])? {
        put_entry(&mut file, act, moment)?;
        let (digest, rest) = left.split_at(left.len().min(32));
        file.extend_from_slice(digest)?;
        left = rest;
        moment = moment.saturating_add(SECOND);
    }
    file.extend_from_slice(&[0])?;
    Ok(file)
}

/// The first file of these acts.
fn first_file(alloc: Global, acts: &str) -> Result<Vec<u8>, Wrong> {
    journal_of(alloc, acts, b"", b"")
}

/// Their second file. Each digest is the SHA-256 digest of the one before it, first of 32 bytes of 0, and of its entry
/// from the length to the body.
fn second_file(alloc: Global, acts: &str, digests: &[u8]) -> Result<Vec<u8>, Wrong> {
    journal_of(alloc, acts, b"\x01", digests)
}

/// Whether these acts, of which there are so many, leave their journal, and are answered as before where it is read
/// again, and where the first file of them is moved.
fn kept_and_read(alloc: Global, acts: &str, count: u64, digests: &[u8]) -> Result<(), Wrong> {
    let (plain, chained) = (first_file(alloc, acts)?, second_file(alloc, acts, digests)?);
    let mut session = Script::new(alloc);
    session.add_transcript(acts)?;
    let written = Drive {
        left: Some(&chained),
        ..Drive::EMPTY
    };
    call_in_turn(alloc, &Drives::with_second(written), &[session.call(count)])?;
    let again = Call {
        mark: 10,
        ..session.call(0)
    };
    call_in_turn(alloc, &Drives::with_second(Drive::kept(&chained)), &[again])?;
    let moved = Drives {
        first: Drive::kept(&plain),
        second: written,
    };
    let after_move = Call { mark: 20, ..again };
    call_in_turn(alloc, &moved, &[after_move])
}

/// Every verb but the opening. The two tracklets of two lines each are 12 hours apart.
const WITHOUT: &str = r#"
> +founder-1 1 station {"code":"703","from":"1998-01-01","name":"Catalina","to":"2199-12-31"}
< 200 receipt 1
> +founder-1 2 code {"kind":"mode","letter":"C","word":"CCD"}
< 200 receipt 2
> +founder-1 3 code {"kind":"catalogue","letter":"W","word":"Gaia3"}
< 200 receipt 3
> +founder-1 4 submit80
     W00001a   1998 09 16.00000106 12 34.56 +23 45 01.2                      703
     W00001a   1998 09 16.50000106 12 34.56 +23 45 01.2                      703
     W00002a   1998 09 16.00000206 12 34.56 +23 45 01.2                      703
     W00002a   1998 09 16.50000206 12 34.56 +23 45 01.2                      703
< 200 receipt 4
accepted 4 refused 0
line 1 obs 1 track 1
line 2 obs 2 track 1
line 3 obs 3 track 2
line 4 obs 4 track 2
> +founder-1 5 designate {"tracklets":[1]}
< 200 receipt 5
object 1998 SA J98S00A
> +founder-1 6 designate {"tracklets":[2]}
< 200 receipt 6
object 1998 SB J98S00B
> +founder-1 7 submitpsv
# version=2017
provID|mode|stn|obsTime|ra|dec|astCat
1998 SA|CCD|703|1998-09-17T00:00:00Z|150.0|-5.5|Gaia3
< 200 receipt 7
accepted 1 refused 0
line 3 obs 5 track 3
> +founder-1 8 release {"tracklet":3}
< 200 receipt 8
> +founder-1 9 attribute {"tracklet":3,"to":"1998 SB"}
< 200 receipt 9
> +founder-1 10 identify {"principal":"1998 SA","secondary":"1998 SB"}
< 200 receipt 10
> +founder-1 11 separate {"secondary":"1998 SB"}
< 200 receipt 11
> +founder-1 12 verdict {"object":"1998 SB","u":2,"oppositions":4}
< 200 receipt 12
> +founder-1 13 number {"first":7,"most":1}
< 200 receipt 13
number 7 1998 SB
> +founder-1 14 retract {"observation":5}
< 200 receipt 14
> +founder-1 15 enrol {"key":"observer-1","name":"Ann","role":"observer"}
< 200 receipt 15
caller 1
"#;

const WITHOUT_DIGESTS: &[u8] = b"\x1a\x3e\xe1\x17\x84\x8d\xa8\x0e\x64\x2e\xfc\x1e\x2c\xfa\x55\x85\
    \x5f\x99\x51\xb7\xad\x4a\xe1\x46\xe9\xb8\x06\x94\x42\x25\x79\xc7\
    \x3b\x19\x0e\xf6\xb5\x94\x7d\x42\x23\x4c\x1a\xe3\x29\x74\x81\x03\
    \x0c\x80\x17\xd1\x4d\x99\x11\x09\x2d\x50\x1e\xab\xae\xad\x4b\x43\
    \xb1\xfc\xc8\x55\x97\xff\x8b\xbf\x4c\xb0\x83\xb1\xf8\x2e\xe2\x5c\
    \x4f\x02\x46\x67\xcf\x1b\xee\x6c\xa0\x27\x2b\xb8\xcc\xd3\x7c\x22\
    \xe6\xc6\x9c\x7a\xc8\x0d\x27\xc6\xa1\x47\x3f\x6a\x61\x56\x3c\x02\
    \x42\xfd\x1f\xd8\x77\x0d\x50\x62\xc0\x6b\xf1\x29\x58\x54\x83\x16\
    \x69\xc6\x57\x29\x4b\x2e\xf4\x25\xea\x96\xcc\x2b\x43\xaf\x06\x0d\
    \x5f\xc6\x4c\x7a\x59\xd2\x68\x1d\xd7\x9f\xd5\x66\x3c\x56\x50\xe4\
    \xe5\x4d\x2b\x60\x9c\x83\xa7\xe4\xa8\xe0\x26\x1c\x1f\x95\x07\x94\
    \x4a\x7f\x45\x1f\xd5\xbe\x33\xf6\xf3\x67\xd7\x8c\xe2\x31\x1c\x38\
    \xba\x4f\xe2\xd1\x47\xcf\xdc\x31\x20\x18\x49\xec\xbf\x8e\x13\xa7\
    \xc3\x86\x21\x42\x22\x69\xff\x58\x54\x45\x4f\x50\xf6\xd3\x8c\xe1\
    \x4b\x61\xb6\x56\x38\x0e\x03\xba\xc6\x3c\xaf\x9c\x38\x57\xb1\xaf\
    \x5d\x40\x45\xb8\xcf\xda\xce\xf6\x43\x3c\x5e\x9a\xc6\xbb\x11\x00\
    \xcf\x91\x31\x41\x2b\x09\x0c\x3d\x9e\x94\x6c\x80\xc0\x49\xec\xf5\
    \xd9\xcc\x52\x0d\x1f\x8b\x86\x76\x77\xeb\xf7\xe6\x33\xef\x92\x35\
    \xaa\x4b\xc3\x6c\x82\x1d\x8a\x5c\x3f\x4e\x43\xdd\xfb\x8c\xc4\x5d\
    \xa2\x60\x84\xde\xf3\xed\xc4\x9b\xa7\xcf\xae\x90\x84\xc2\xa6\xab\
    \x29\xf3\x6c\xf2\x51\xa1\xea\x67\x17\xb4\x39\x24\xd9\xd3\xcc\x3c\
    \x0e\xb7\x42\x21\xa9\x64\xed\xb4\x4f\xaa\x1b\x3e\x5f\xb5\x74\xa4\
    \x31\x11\x6e\x0e\xa8\x2f\xee\x89\x0e\xa4\x5a\xa0\xbc\x80\x38\x19\
    \x9c\x71\xbb\x35\x94\x00\x03\x0c\xb9\x96\xf2\x06\xec\xd5\x17\xab\
    \x6a\x02\x2f\x69\x01\x3e\xf1\xea\xd2\xab\x97\x28\xfe\xc1\x02\xf7\
    \x5a\xe3\xd6\xa3\x71\x04\xfd\x6d\x73\xe0\x0b\xd3\x45\xe5\x4b\x8c\
    \x4d\x41\xa6\xed\xf7\x34\xff\xe4\xed\xa0\xde\x11\xbf\x95\x6b\xaf\
    \xcb\x2b\xfc\x7b\xa5\x03\x2d\xec\x35\x4f\x79\xe3\x82\xc1\x52\x2d\
    \x09\x2f\xa2\xa6\xd3\x4c\x62\xc6\xbf\x3a\xdb\x69\xcb\x27\xfb\x04\
    \xc3\xfe\x22\x11\x29\x5a\x64\x2c\x9d\x09\x00\x14\xd6\x5a\x35\x16";

#[test]
fn journal_without_an_opening(rt: HostRuntime) {
    kept_and_read(rt.alloc(), WITHOUT, 15, WITHOUT_DIGESTS).expect(&rt, "as wanted");
}

/// An office whose second act is an opening.
const OPENED: &str = r#"
> +founder-1 1 station {"code":"703","from":"1998-01-01","name":"Catalina","to":"2199-12-31"}
< 200 receipt 1
> +founder-1 2 opening {"half":"2024 E","given":3,"carried":[1,3]}
< 200 receipt 2
object 2024 EA K24E00A
object 2024 EC K24E00C
> +founder-1 3 submit80
     W00001a   1998 09 16.00000106 12 34.56 +23 45 01.2                      703
     W00001a   1998 09 16.50000106 12 34.56 +23 45 01.2                      703
     W00002a   1998 09 16.00000206 12 34.56 +23 45 01.2                      703
     W00002a   1998 09 16.50000206 12 34.56 +23 45 01.2                      703
< 200 receipt 3
accepted 4 refused 0
line 1 obs 1 track 1
line 2 obs 2 track 1
line 3 obs 3 track 2
line 4 obs 4 track 2
> +founder-1 4 designate {"tracklets":[1,2]}
< 200 receipt 4
object 1998 SA J98S00A
"#;

const OPENED_DIGESTS: &[u8] = b"\x1a\x3e\xe1\x17\x84\x8d\xa8\x0e\x64\x2e\xfc\x1e\x2c\xfa\x55\x85\
    \x5f\x99\x51\xb7\xad\x4a\xe1\x46\xe9\xb8\x06\x94\x42\x25\x79\xc7\
    \xc7\xb4\x35\xb9\xa5\xc6\xe5\x68\x72\x5c\x16\x59\x60\x7a\x56\xab\
    \xf8\xb2\x24\xa7\x07\xa2\x66\x58\xa4\x57\x87\x93\x22\x78\x64\x61\
    \xdc\x61\x19\xe5\x80\xd5\x88\x27\x88\xbd\x27\xf1\x50\x12\x15\x3b\
    \x40\x34\x6c\x86\xc7\x93\x61\x6e\x41\x11\xe1\xf3\x28\xa4\x58\xd4\
    \xe5\xd3\xc8\x1e\x4d\x55\xdc\x9f\x9e\xf6\x8e\x3b\xf3\x1e\x8d\xfa\
    \x66\x02\xcf\xfc\x86\x84\xd0\x5c\xa0\x60\x20\x25\xf3\x4b\xee\x0e";

#[test]
fn journal_with_an_opening(rt: HostRuntime) {
    kept_and_read(rt.alloc(), OPENED, 4, OPENED_DIGESTS).expect(&rt, "as wanted");
}

/// Bytes of that journal's first file, what is put in their places, and the digest of the opening then. The station's
/// parcel takes 96 bytes with its gate, so that the opening's gate is the byte 96, the last one of its caller 104, the
/// code of its verb 121, and its body begins at 122: the count of those given is the byte 147, and the two orders are
/// 160 and 162. In the second file a byte and a digest stand before it, so that each is 33 bytes further on.
const CHANGES: &[(usize, u8, &[u8; 32])] = &[
    // A code that no verb has, and the code of another verb.
    (
        121,
        15,
        b"\x68\xf2\x54\x3d\x09\x74\x79\x19\x31\x5b\x32\xae\x6c\xa7\xc0\x68\
        \xf6\x9a\x4c\xf2\x1f\xf3\x6b\x5f\x9a\xe2\xab\x52\x62\xb5\xc1\x64",
    ),
    (
        121,
        0,
        b"\xbb\xc5\xce\x05\x81\xc6\x20\xd6\x8d\x3f\xef\xf0\x2e\xcc\x02\x34\
        \xcf\x40\xf3\x34\xf1\x2d\xf2\xfc\x3d\x5b\x78\x4c\x66\x67\x31\x3d",
    ),
    (
        121,
        255,
        b"\xfb\x65\x26\x40\xe2\xa6\x5a\x84\xe6\x22\x48\x75\x68\xc6\x89\xe9\
        \x3a\xb2\xb2\x9d\x2f\x05\x11\x8e\x86\xa9\x6f\x16\x21\xab\x03\xcf",
    ),
    (
        121,
        6,
        b"\xaa\xcb\xf6\x7f\xe4\xd1\x0c\xad\xfa\x2f\x97\x86\x15\x66\x42\xa7\
        \x2a\x39\x0d\x9f\x70\x98\x88\x43\xf3\x7c\x15\x98\x44\xc9\x15\x1b",
    ),
    // Nobody is caller 1.
    (
        104,
        1,
        b"\xac\x7e\x66\xeb\xcc\x3a\x43\x85\xe0\xc2\xc6\x51\xa8\xac\x39\x06\
        \x68\x0b\x53\xe9\x5d\x4c\x71\x91\xab\x72\x9f\x05\x79\x06\x49\x32",
    ),
    // None given, fewer than an order that is carried, and one order twice.
    (
        147,
        b'0',
        b"\x95\x1c\xd5\xf2\x36\x50\x61\x52\x09\xb5\xab\x04\x5f\x9c\xcd\x97\
        \x43\x0a\x2b\x10\x87\x03\x58\x9a\x14\x64\x8a\xd0\x56\x1c\x02\x51",
    ),
    (
        147,
        b'2',
        b"\xc3\x68\xfb\xc9\xd1\xc3\x0f\xce\xb8\xde\x0a\x51\x3c\xe1\xd2\xc7\
        \xdc\x2e\x44\x41\x7d\x2d\xaf\x1c\x55\x37\x27\xfb\x99\xdf\x9f\xc9",
    ),
    (
        162,
        b'1',
        b"\xe4\x0c\x0b\x8c\x82\x5f\xe8\x2d\xb4\x67\x62\x90\xd6\xa2\x6c\xf3\
        \x5c\x78\xa1\x10\x49\x34\xf8\xda\x74\xd1\x9e\x90\x24\xda\xaf\xa9",
    ),
];

/// A run over these two files that ends with this status, and leaves them as they are.
fn damaged<'a>(
    alloc: Global,
    mark: usize,
    first: &'a [u8],
    second: &'a [u8],
    status: &'static str,
) -> Result<(), Wrong> {
    let drives = Drives {
        first: Drive::kept(first),
        second: Drive::kept(second),
    };
    let call = Call {
        mark,
        status,
        number: 5,
        ..Call::run(b"+founder-1 0 tally 0\n", 0, b"")
    };
    call_in_turn(alloc, &drives, &[call])
}

/// The first file with another byte.
fn changed_first(alloc: Global, at: usize, byte: u8) -> Result<Vec<u8>, Wrong> {
    let mut file = first_file(alloc, OPENED)?;
    if let Some(place) = file.get_mut(at) {
        *place = byte;
    }
    Ok(file)
}

/// The acts up to the opening. Here and below they are written into a file and no desk is asked for them, so that they
/// have a status which no reply has.
const UP_TO_OPENING: &str = r#"
> +founder-1 1 station {"code":"703","from":"1998-01-01","name":"Catalina","to":"2199-12-31"}
< 000
> +founder-1 2 opening {"half":"2024 E","given":3,"carried":[1,3]}
< 000
"#;

/// The second file of these, with another byte of the opening and its digest then, so that the chain is right.
fn changed_second(alloc: Global, at: usize, byte: u8, digest: &[u8; 32]) -> Result<Vec<u8>, Wrong> {
    let of_station = OPENED_DIGESTS.get(..32).unwrap_or(&[]);
    let mut digests = Vec::from_slice(alloc, of_station)?;
    digests.extend_from_slice(digest)?;
    let mut file = second_file(alloc, UP_TO_OPENING, &digests)?;
    if let Some(place) = file.get_mut(at.saturating_add(33)) {
        *place = byte;
    }
    Ok(file)
}

/// Each change by its place in the table: the opening is no entry, and its gate is named.
fn each_change(alloc: Global) -> Result<(), Wrong> {
    for (mark, &(at, byte, digest)) in CHANGES.iter().enumerate() {
        let first = changed_first(alloc, at, byte)?;
        damaged(alloc, mark, &first, b"", "Damaged in 1 at 96")?;
        let second = changed_second(alloc, at, byte, digest)?;
        let mark = mark.saturating_add(10);
        damaged(alloc, mark, b"", &second, "Damaged in 2 at 129")?;
    }
    Ok(())
}

#[test]
fn changed_openings(rt: HostRuntime) {
    each_change(rt.alloc()).expect(&rt, "as wanted");
}

/// A half-month is taken over a second time, in the parcel that begins at the byte 96 + 26 + 43 of the first file, and
/// at 129 + 58 + 43 of the second.
const TWICE: &str = r#"
> +founder-1 1 station {"code":"703","from":"1998-01-01","name":"Catalina","to":"2199-12-31"}
< 000
> +founder-1 2 opening {"half":"2024 E","given":3,"carried":[1,3]}
< 000
> +founder-1 3 opening {"half":"2024 E","given":4,"carried":[]}
< 000
"#;

const TWICE_DIGESTS: &[u8] = b"\x1a\x3e\xe1\x17\x84\x8d\xa8\x0e\x64\x2e\xfc\x1e\x2c\xfa\x55\x85\
    \x5f\x99\x51\xb7\xad\x4a\xe1\x46\xe9\xb8\x06\x94\x42\x25\x79\xc7\
    \xc7\xb4\x35\xb9\xa5\xc6\xe5\x68\x72\x5c\x16\x59\x60\x7a\x56\xab\
    \xf8\xb2\x24\xa7\x07\xa2\x66\x58\xa4\x57\x87\x93\x22\x78\x64\x61\
    \xe9\x36\x00\xe2\x38\x2b\x70\xef\x3a\xeb\x67\x85\x27\xac\xbd\x8a\
    \xb3\x43\xe0\x78\x41\x24\x11\x89\x01\xcb\x4a\x82\xdc\x29\x8d\xb1";

/// A half-month is taken over in which there is a designation: the four lines take 26 bytes and 324 in the first file,
/// and the act on the tracklet 26 and 17; in the second one each takes 32 more.
const LATE: &str = r#"
> +founder-1 1 station {"code":"703","from":"1998-01-01","name":"Catalina","to":"2199-12-31"}
< 000
> +founder-1 2 submit80
     W00001a   1998 09 16.00000106 12 34.56 +23 45 01.2                      703
     W00001a   1998 09 16.50000106 12 34.56 +23 45 01.2                      703
     W00002a   1998 09 16.00000206 12 34.56 +23 45 01.2                      703
     W00002a   1998 09 16.50000206 12 34.56 +23 45 01.2                      703
< 000
> +founder-1 3 designate {"tracklets":[1]}
< 000
> +founder-1 4 opening {"half":"1998 S","given":1,"carried":[]}
< 000
"#;

const LATE_DIGESTS: &[u8] = b"\x1a\x3e\xe1\x17\x84\x8d\xa8\x0e\x64\x2e\xfc\x1e\x2c\xfa\x55\x85\
    \x5f\x99\x51\xb7\xad\x4a\xe1\x46\xe9\xb8\x06\x94\x42\x25\x79\xc7\
    \xf3\xbc\x74\x7a\x58\x8d\x1a\x6b\x33\x60\x8b\xcf\xa7\x90\x29\x9b\
    \x7b\x1b\xf3\x21\x08\x74\x47\xae\x05\xa1\x8e\xdd\xef\xd5\x84\x21\
    \x6e\x44\xa7\x1e\x09\x5a\x32\xe7\xac\xf4\xa7\x4d\xf5\xa5\x49\x50\
    \xed\x40\xa7\xa4\x3b\x13\x0d\x11\x9c\x89\xf6\x8e\x51\x64\xb3\xcd\
    \x78\x6b\x42\xd3\xfa\x23\x56\xab\x19\x60\xf8\x34\xc4\x94\x33\x08\
    \xb1\xf7\x8d\x19\x12\xfa\x86\x1d\xa6\xa9\x35\x7b\x39\xd7\x46\x32";

fn begun_before(alloc: Global) -> Result<(), Wrong> {
    let (twice, late) = (first_file(alloc, TWICE)?, first_file(alloc, LATE)?);
    damaged(alloc, 0, &twice, b"", "Damaged in 1 at 165")?;
    damaged(alloc, 1, &late, b"", "Damaged in 1 at 489")?;
    let twice = second_file(alloc, TWICE, TWICE_DIGESTS)?;
    let late = second_file(alloc, LATE, LATE_DIGESTS)?;
    damaged(alloc, 10, b"", &twice, "Damaged in 2 at 230")?;
    damaged(alloc, 11, b"", &late, "Damaged in 2 at 586")
}

#[test]
fn openings_of_half_months_that_were_begun(rt: HostRuntime) {
    begun_before(rt.alloc()).expect(&rt, "as wanted");
}
