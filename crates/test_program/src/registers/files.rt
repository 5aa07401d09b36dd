//! The file of a register: what two acts make of it; what is found in it where it was cut at each byte, where each bit
//! was turned, where its last act wasn't kept, and where an entry isn't one that the register makes beside its office.

use super::office::{
    EA, EA_AS_P, EB, OBJECTS, SA, add_act, add_register, comets_of, office_call, office_with,
    register_text,
};
use std::alloc::Global;
use testkit_comets::{Opening, Openings, comets_in_turn, comets_over};
use testkit_sessions::{CHAINED, Call, Drive, NoMemory, PLAIN, Script, Wrong, put_reply};

/// What a parcel has: its caller, its number, its moment, the code of its verb and its body.
type Parcel = (u32, u64, i64, u8, &'static str);

/// A parcel, and the SHA-256 digest of the digest before it, of zeros at first, and its bytes from their length on.
/// Python's hashlib gave the digests.
pub(super) type Sealed = (Parcel, &'static [u8; 32]);

/// 2024-04-01T00:00:00Z, which is a call's first reading of the clock, and a second later, which is its next one.
const APRIL: i64 = 1_711_929_600_000_000_000;

const LATER: i64 = 1_711_929_601_000_000_000;

/// The act that makes a comet of 2024 EA, and the one that makes one of 2024 EB after it.
pub(super) const ONE: Sealed = (
    (0, 1, APRIL, 1, EA),
    b"\x54\x34\x78\x4f\x56\x67\xed\x39\x50\x9f\x0d\x51\x80\x5b\x48\x0c\
      \xc1\xd1\x46\xa9\x82\x57\x35\xf8\x34\x33\x03\x9c\xcb\xba\xc8\x50",
);

pub(super) const TWO: Sealed = (
    (0, 2, LATER, 1, EB),
    b"\x36\xd0\x94\xa4\xb4\xbe\x07\xc9\x09\x9f\xe5\x4e\xe9\x82\xe3\x22\
      \x5d\x8b\x62\x8e\x8f\x5c\x83\x94\xe4\xc7\x15\xd2\xe7\xc5\x56\xce",
);

/// An open gate and this parcel, whose bytes after the length are counted in it.
fn put_parcel(file: &mut Vec<u8>, sealed: &Sealed) -> Result<(), NoMemory> {
    let &((caller, number, moment, verb, body), digest) = sealed;
    let length = (body.len() as u64).saturating_add(21).to_be_bytes();
    file.push(1)?;
    file.extend_from_slice(length.get(4..).unwrap_or(&[]))?;
    file.extend_from_slice(&caller.to_be_bytes())?;
    file.extend_from_slice(&number.to_be_bytes())?;
    file.extend_from_slice(&moment.to_be_bytes())?;
    file.push(verb)?;
    file.extend_from_slice(body.as_bytes())?;
    file.extend_from_slice(digest)
}

/// A file in force with these parcels, and a closed gate after them.
fn put_file(file: &mut Vec<u8>, parcels: &[Sealed]) -> Result<(), NoMemory> {
    file.push(1)?;
    for sealed in parcels {
        put_parcel(file, sealed)?;
    }
    file.push(0)?;
    Ok(())
}

pub(super) fn file_of(alloc: Global, parcels: &[Sealed]) -> Result<Vec<u8>, NoMemory> {
    let mut file = Vec::new(alloc);
    put_file(&mut file, parcels)?;
    Ok(file)
}

/// What is found in a file.
#[derive(Clone, Copy)]
enum Holding {
    /// It isn't in force, and is made one that has no entries.
    Idle,
    /// The first so many of the two acts. It stays as it is.
    Acts(usize),
    /// It is damaged, as this status says. It stays as it is.
    Damaged(&'static str),
}

const AT_1: Holding = Holding::Damaged("Damaged in 3 at 1");

const AT_90: Holding = Holding::Damaged("Damaged in 3 at 90");

const AT_179: Holding = Holding::Damaged("Damaged in 3 at 179");

/// Files that are opened one after another.
#[derive(Clone, Copy)]
enum Files {
    /// Each front of the two acts' file.
    Fronts,
    /// The same where the second act wasn't kept.
    UnkeptFronts,
    /// The two acts' file with a bit turned, of one byte after the other the next one.
    Bits,
    /// The same, with each bit of the first byte and of the gates turned.
    Gates,
    /// Those of the tables of entries.
    Entries,
    /// The two acts' file alone, in which this is found.
    Acts(Holding),
    /// The second file of an office, and its first one.
    Chained,
    Plain,
}

/// The answer to the query for the register, where the file is opened.
fn put_taken(alloc: Global, taken: &mut Vec<u8>, holding: Holding) -> Result<(), NoMemory> {
    let acts = match holding {
        Holding::Idle => "",
        Holding::Acts(count) => "12".get(..count).unwrap_or("12"),
        Holding::Damaged(_) => return Ok(()),
    };
    let text = register_text(alloc, acts)?;
    put_reply(alloc, taken, "200 ", &text)
}

/// The file that is left of this one.
fn left_of(file: &[u8], holding: Holding) -> &[u8] {
    match holding {
        Holding::Idle => b"\x01\0",
        Holding::Acts(_) | Holding::Damaged(_) => file,
    }
}

/// How a file is opened in which this is found.
fn opening_of(alloc: Global, file: Vec<u8>, holding: Holding) -> Result<Opening, NoMemory> {
    let mut taken = Vec::new(alloc);
    put_taken(alloc, &mut taken, holding)?;
    let mut left = Vec::new(alloc);
    left.extend_from_slice(left_of(&file, holding))?;
    let (status, number) = match holding {
        Holding::Damaged(status) => (status, 5),
        Holding::Idle | Holding::Acts(_) => ("Done", 0),
    };
    Ok(Opening {
        file,
        status,
        number,
        taken,
        left,
    })
}

impl Openings for Files {
    fn count(&self) -> usize {
        match *self {
            Files::Fronts | Files::UnkeptFronts => LENGTH.saturating_add(1),
            Files::Bits => LENGTH,
            Files::Gates => 32,
            Files::Entries => FIRST.len().saturating_add(SECOND.len()),
            Files::Acts(_) | Files::Chained | Files::Plain => 1,
        }
    }

    fn opening(&self, alloc: Global, place: usize) -> Result<Opening, NoMemory> {
        let mut file = Vec::new(alloc);
        let holding = put_one(&mut file, *self, place)?;
        opening_of(alloc, file, holding)
    }
}

/// The file in this place of those, and what is found in it.
fn put_one(file: &mut Vec<u8>, files: Files, place: usize) -> Result<Holding, NoMemory> {
    match files {
        Files::Chained => {
            file.extend_from_slice(&CHAINED)?;
            Ok(AT_1)
        }
        Files::Plain => {
            file.extend_from_slice(&PLAIN)?;
            Ok(Holding::Acts(0))
        }
        Files::Entries => put_entry(file, place),
        _ => {
            put_file(file, &[ONE, TWO])?;
            Ok(changed_by(file, files, place))
        }
    }
}

/// The two acts' file as it stands in this place of those, and what is found in it.
fn changed_by(file: &mut Vec<u8>, files: Files, place: usize) -> Holding {
    match files {
        Files::Fronts => {
            file.truncate(place);
            cut_short(place)
        }
        Files::UnkeptFronts => {
            close_second(file);
            file.truncate(place);
            cut_without_second(place)
        }
        Files::Bits => turned(file, place, BITS[place % 8]),
        Files::Gates => turned(file, GATES[(place / 8) % 4], BITS[place % 8]),
        Files::Acts(holding) => holding,
        _ => Holding::Idle,
    }
}

/// Whether this is found in the files beside an office with so many objects.
fn are_found(alloc: Global, objects: usize, files: Files) -> Result<(), Wrong> {
    let office = office_with(alloc, objects)?;
    comets_over(alloc, &office_call(&office, objects), &files)
}

/// A disk with this file, on which that one is to be left.
pub(super) fn drive_of<'a>(file: &'a [u8], left: &'a [u8]) -> Drive<'a> {
    Drive {
        file,
        left: Some(left),
        ..Drive::EMPTY
    }
}

/// The two acts, by a register without entries.
fn acts(alloc: Global) -> Result<Script, NoMemory> {
    let mut script = Script::new(alloc);
    add_act(alloc, &mut script, 1, b'1')?;
    add_act(alloc, &mut script, 2, b'2')?;
    Ok(script)
}

fn written(alloc: Global) -> Result<(), Wrong> {
    let office = office_with(alloc, 2)?;
    let acts = acts(alloc)?;
    let file = file_of(alloc, &[ONE, TWO])?;
    let calls = [office_call(&office, 2), comets_of(1, &acts, 2)];
    comets_in_turn(alloc, &drive_of(b"", &file), &calls)
}

#[test]
fn the_file_of_two_acts(rt: HostRuntime) {
    written(rt.alloc()).expect(&rt, "as wanted");
}

/// How many bytes the two acts' file has.
const LENGTH: usize = 180;

/// Its byte 0 says that it is in force. The gates stand at 1, 90 and 179, and the last one is closed. What so many
/// bytes of it hold:
fn cut_short(length: usize) -> Holding {
    match length {
        0 | 1 => Holding::Idle,
        2..=90 => AT_1,
        91..=179 => AT_90,
        _ => Holding::Acts(2),
    }
}

/// The same where the second act's gate is closed, so that it was never acknowledged.
fn cut_without_second(length: usize) -> Holding {
    match length {
        0 | 1 => Holding::Idle,
        2..=90 => AT_1,
        _ => Holding::Acts(1),
    }
}

#[test]
fn a_file_cut_at_each_byte(rt: HostRuntime) {
    are_found(rt.alloc(), 2, Files::Fronts).expect(&rt, "as wanted");
}

/// Closes the gate before the second act.
fn close_second(file: &mut [u8]) {
    if let Some(gate) = file.get_mut(90) {
        *gate = 0;
    }
}

#[test]
fn a_file_whose_last_act_was_not_kept(rt: HostRuntime) {
    are_found(rt.alloc(), 2, Files::UnkeptFronts).expect(&rt, "as wanted");
}

/// What the file holds with this value in this place, which had another.
fn changed(place: usize, value: u8) -> Holding {
    match (place, value) {
        (0, _) => Holding::Idle,
        (1, _) => Holding::Acts(0),
        (2..=89, _) => AT_1,
        (90, _) => Holding::Acts(1),
        (91..=178, _) => AT_90,
        (_, 1) => AT_179,
        _ => Holding::Acts(2),
    }
}

/// Turns this bit of the byte in this place, and tells what the file then holds.
fn turned(file: &mut [u8], place: usize, bit: u8) -> Holding {
    match file.get_mut(place) {
        Some(byte) => {
            *byte ^= bit;
            changed(place, *byte)
        }
        None => Holding::Acts(2),
    }
}

const BITS: [u8; 8] = [1, 2, 4, 8, 16, 32, 64, 128];

/// The first byte and the gates.
const GATES: [usize; 4] = [0, 1, 90, 179];

#[test]
fn a_file_with_a_bit_turned(rt: HostRuntime) {
    are_found(rt.alloc(), 2, Files::Bits).expect(&rt, "as wanted");
    are_found(rt.alloc(), 2, Files::Gates).expect(&rt, "as wanted");
}

/// The file whose second act wasn't kept, and the second act once more: its parcel is written over what stands there.
fn kept_again(alloc: Global) -> Result<(), Wrong> {
    let office = office_with(alloc, 2)?;
    let mut script = Script::new(alloc);
    add_register(alloc, &mut script, "1")?;
    add_act(alloc, &mut script, 2, b'2')?;
    add_register(alloc, &mut script, "12")?;
    let again = Call {
        start: LATER,
        ..comets_of(1, &script, 1)
    };
    let (mut file, left) = (file_of(alloc, &[ONE, TWO])?, file_of(alloc, &[ONE, TWO])?);
    close_second(&mut file);
    let calls = [office_call(&office, 2), again];
    comets_in_turn(alloc, &drive_of(&file, &left), &calls)
}

#[test]
fn an_act_that_was_not_kept_is_kept(rt: HostRuntime) {
    kept_again(rt.alloc()).expect(&rt, "as wanted");
}

/// A sealed parcel, and whether an entry of it is one that the register makes.
type Row = (Parcel, &'static [u8; 32], bool);

/// Parcels of a first entry.
const FIRST: &[Row] = &[
    // the greatest number and the one after it; no number
    (
        (0, 999_999_999_999_999_999, APRIL, 1, EA),
        b"\xd5\x31\x2f\x6a\x28\x17\xd5\x50\x27\xe4\x2c\x15\xaa\xcb\xd7\x0a\
              \x49\xf6\xe0\x02\x5a\x7e\x3d\x26\x05\x3f\x28\x95\x46\xe7\xcd\xf0",
        true,
    ),
    (
        (0, 1_000_000_000_000_000_000, APRIL, 1, EA),
        b"\xb1\x19\xf3\x16\x47\x79\x76\xbf\xdf\x87\x55\x8b\xd1\x81\xac\xa2\
              \x18\x7d\x02\x03\x48\x94\x4f\xf6\xde\xd8\0\x77\x6a\xc1\x6f\x80",
        false,
    ),
    (
        (0, 0, APRIL, 1, EA),
        b"\x76\xaf\x8f\x3e\x6b\x09\x02\x5a\x6f\x15\x8c\x11\xa6\x68\x83\xde\
              \x98\x8f\x51\xff\x49\x84\x61\x19\xad\xe5\x4c\x3a\x76\x23\x68\x0e",
        false,
    ),
    // another caller than the founding officer, other verbs than the one act
    (
        (1, 1, APRIL, 1, EA),
        b"\xe7\xdd\x67\x64\x7f\x94\x22\x5c\x46\xe7\x3f\xa7\xf0\xd0\x36\x3d\
              \x04\x40\x03\xea\xa7\xcb\xe9\x6d\xc9\x3c\xe9\xd5\xb8\xa6\x34\x3f",
        false,
    ),
    (
        (0, 1, APRIL, 0, EA),
        b"\xad\xbd\x63\xf7\x70\x35\xd5\xfb\xe6\xf3\xe7\x86\x3b\x63\x4c\x8a\
              \xb1\x4c\xdc\x3c\xa9\x30\x86\xd8\x5f\x6d\xc6\x69\xf8\xf0\x77\xd6",
        false,
    ),
    (
        (0, 1, APRIL, 2, EA),
        b"\x66\x89\x0b\xfe\xf3\xf5\xf2\x4a\x35\x8f\x89\x70\xe2\x8a\x70\x63\
              \xc2\xf1\x34\x6a\x1b\xb1\x29\x9f\x6e\xb7\x43\xd8\x97\x8f\x0c\x39",
        false,
    ),
    // bodies that say no comet
    (
        (0, 1, APRIL, 1, "{\"kind\":\"D\",\"object\":\"2024 EA\"}"),
        b"\xd0\x1a\xfd\xe9\x8a\x36\x5b\xa9\xb3\x87\x61\xc5\x1b\x16\x01\x2d\
              \x18\x85\xfa\x27\xf4\xa6\xae\xb2\x61\x05\x6a\xf0\xd7\x14\xe3\x18",
        false,
    ),
    (
        (0, 1, APRIL, 1, ""),
        b"\x6f\x5d\x67\x5c\x3d\x0e\xdd\x89\x62\x9c\x44\x03\xbe\xab\x7d\x1e\
              \x40\x67\x05\xe5\x2d\x0c\xc6\x0f\x52\x32\x03\xef\x81\xee\x81\x2f",
        false,
    ),
    // an object that was carried over from elsewhere
    (
        (0, 1, APRIL, 1, SA),
        b"\x10\x8e\x97\x29\x20\xfb\xd6\x1e\x78\xba\xfa\xe0\x1b\x98\x54\x86\
              \xff\xc0\x8f\x31\x3e\x51\x0b\xd9\x7c\x67\x76\x98\xed\x15\x25\xf6",
        false,
    ),
    // the first and the last moment that there is, and those beyond them
    (
        (0, 1, -5_364_662_400_000_000_000, 1, EA),
        b"\x9f\x28\xd2\x4e\x8c\x07\xa2\xd1\xf3\xaf\x44\xf6\x6c\x4e\x2f\x1e\
              \x20\xbb\xb6\x24\x8d\x49\xb5\x9e\x4c\x19\x47\xb9\xf3\x37\xc1\xfb",
        true,
    ),
    (
        (0, 1, -5_364_662_400_000_000_001, 1, EA),
        b"\x46\x1c\x80\x23\x32\xd8\xbb\xfd\xec\x71\x18\xec\xaa\x3d\x6e\x59\
              \xb4\xf9\x18\x6e\x17\x85\xb5\x6d\x44\x9a\x71\x23\x6c\x60\xc8\xdc",
        false,
    ),
    (
        (0, 1, 7_258_118_399_999_999_999, 1, EA),
        b"\xc1\x9d\xde\x7f\x0b\xfc\xf4\x99\x38\xb8\x34\x03\x4d\x02\x50\xdf\
              \x21\xc3\x4c\x68\xf9\xc5\x72\x97\x2f\x02\x64\x91\x57\xe8\x94\xf9",
        true,
    ),
    (
        (0, 1, 7_258_118_400_000_000_000, 1, EA),
        b"\xe9\x4a\x39\xd3\x6a\x02\x77\xa3\xf5\x69\x83\xbf\x46\x2a\x80\x45\
              \x2c\xee\x56\x28\x68\x9c\x5c\xc7\x5d\x26\xe9\x08\x2c\xfa\xfe\xb5",
        false,
    ),
];

/// Parcels of an entry after that of 2024 EA, whose number is 1.
const SECOND: &[Row] = &[
    // the number or the object of the first entry again, and the whole of it
    (
        (0, 1, APRIL, 1, EB),
        b"\x66\xe9\x46\x5a\x3f\xdc\xfc\x16\x52\xb2\xf1\xe8\xf9\x9c\x57\xad\
              \xe0\x0b\xc0\x02\x47\xeb\x4c\x61\xdf\x23\xfe\xaf\x44\x49\x0d\x98",
        false,
    ),
    (
        (0, 2, APRIL, 1, EA_AS_P),
        b"\x7c\xd9\xb6\x6d\x73\xf4\x1b\x45\x36\xd7\xc1\0\x3f\xe0\x92\xab\
              \x8a\x3a\x24\xe0\xfa\x2d\x36\xd4\x61\x47\xeb\x40\x0c\xc5\xbd\x25",
        false,
    ),
    (
        (0, 1, APRIL, 1, EA),
        b"\x16\xee\xf3\x82\x0f\x8a\x86\x91\x35\x91\x09\x56\x83\xe1\x4d\x3b\
              \xc5\x38\x8b\xde\x92\xb0\xf9\x48\x81\xa8\x28\x9f\xe1\x9f\x02\xc1",
        false,
    ),
    // a moment before that of the first entry, and the same
    (
        (0, 2, 1_711_929_599_999_999_999, 1, EB),
        b"\x5b\x82\x66\x41\x26\x04\xa3\x7f\xb4\x9f\x78\xd9\x59\xcc\x5f\x44\
              \x65\x2f\x5b\xac\x5e\xc2\x49\x83\xbf\xf0\x4d\xbe\x64\x1d\xfc\x68",
        false,
    ),
    (
        (0, 2, APRIL, 1, EB),
        b"\x5d\x5f\xde\x7b\xc7\x70\xe5\x19\x14\xb6\x42\xea\x7c\x96\x81\x75\
              \x7f\xf1\x4e\x3d\xef\x60\x47\xff\x7c\x6a\x8d\x1a\x27\x07\x50\xb5",
        true,
    ),
];

/// The file with the entry in this place of the tables, and what is found in it.
fn put_entry(file: &mut Vec<u8>, place: usize) -> Result<Holding, NoMemory> {
    if let Some(&(parcel, digest, is_legal)) = FIRST.get(place) {
        put_file(file, &[(parcel, digest)])?;
        return Ok(if is_legal { Holding::Acts(1) } else { AT_1 });
    }
    if let Some(&(parcel, digest, is_legal)) = SECOND.get(place.saturating_sub(FIRST.len())) {
        put_file(file, &[ONE, (parcel, digest)])?;
        return Ok(if is_legal { Holding::Acts(2) } else { AT_90 });
    }
    Ok(Holding::Idle)
}

#[test]
fn entries_that_no_register_makes(rt: HostRuntime) {
    are_found(rt.alloc(), OBJECTS, Files::Entries).expect(&rt, "as wanted");
}

/// The two acts beside offices with so many objects: one that gave fewer designations makes fewer of the entries legal,
/// and one that gave more the same.
const BESIDE: [(usize, Holding); 4] = [
    (OBJECTS, Holding::Acts(2)),
    (2, Holding::Acts(2)),
    (1, AT_90),
    (0, AT_1),
];

/// Files of an office in the place of the register's, too. The first act of the one is no comet, and the second byte of
/// the other, a first file, is a closed gate.
fn each_other(alloc: Global) -> Result<(), Wrong> {
    for (objects, holding) in BESIDE {
        are_found(alloc, objects, Files::Acts(holding))?;
    }
    are_found(alloc, 2, Files::Chained)?;
    are_found(alloc, 2, Files::Plain)
}

#[test]
fn registers_of_another_office(rt: HostRuntime) {
    each_other(rt.alloc()).expect(&rt, "as wanted");
}
