//! What stands under the name of a disk over a real file, before it is opened and beside it.
//!
//! Pipes, devices and files of another owner aren't tried here: no call of the library makes them.

use disk_model::{Disk, FileDisk};
use std::fs::{File, Permissions};
use std::os::unix::fs::{MetadataExt, PermissionsExt, symlink};
use std::{fs, io};

// A step of a trial: what the disk does, what is done beside it, or what is seen then.
#[derive(Clone, Copy)]
enum Step {
    AllFail,
    Takes(&'static [u8]),
    TakesNothing,
    IsShort,
    HasLen(u64),
    MakeFolder(&'static str),
    RemoveFolder(&'static str),
    Link(&'static str, &'static str),
    Write(&'static str, &'static str),
    SetRights(&'static str, u32),
    Rename(&'static str, &'static str),
    CutTo(&'static str, u64),
    Remove(&'static str),
    IsFolder(&'static str),
    IsLink(&'static str),
    IsMissing(&'static str),
    IsText(&'static str, &'static str),
    HasRights(&'static str, u32),
}

// What is tried, the name of the disk's file, and the steps. The last ones remove what is left.
const TRIALS: &[(&str, &str, &[Step])] = &[
    (
        "a folder; its name is free later, and the next call opens anew",
        "names.folder",
        &[
            Step::MakeFolder("names.folder"),
            Step::AllFail,
            Step::IsFolder("names.folder"),
            Step::RemoveFolder("names.folder"),
            Step::HasLen(0),
            Step::Remove("names.folder"),
        ],
    ),
    (
        "a link that leads nowhere",
        "names.dangling",
        &[
            Step::Link("names.nowhere", "names.dangling"),
            Step::AllFail,
            Step::IsMissing("names.nowhere"),
            Step::IsLink("names.dangling"),
            Step::Remove("names.dangling"),
        ],
    ),
    (
        "a link to a file",
        "names.link",
        &[
            Step::Write("names.target", "abcdef"),
            Step::Link("names.target", "names.link"),
            Step::AllFail,
            Step::IsText("names.target", "abcdef"),
            Step::IsLink("names.link"),
            Step::Remove("names.link"),
            Step::Remove("names.target"),
        ],
    ),
    (
        "a file that the disk makes is its owner's alone",
        "names.made",
        &[
            Step::Takes(b"abc"),
            Step::HasRights("names.made", 0o600),
            Step::Remove("names.made"),
        ],
    ),
    (
        "a file that is there keeps its rights and its bytes",
        "names.there",
        &[
            Step::Write("names.there", "abcdef"),
            Step::SetRights("names.there", 0o640),
            Step::HasLen(6),
            Step::IsText("names.there", "abcdef"),
            Step::HasRights("names.there", 0o640),
            Step::Remove("names.there"),
        ],
    ),
    (
        "a file that is removed beside the disk",
        "names.removed",
        &[
            Step::Takes(b"abcdef"),
            Step::Remove("names.removed"),
            Step::TakesNothing,
            Step::IsMissing("names.removed"),
        ],
    ),
    (
        "a file that is renamed beside it, and is whole again once it gets its name back",
        "names.renamed",
        &[
            Step::Takes(b"abcdef"),
            Step::Rename("names.renamed", "names.away"),
            Step::TakesNothing,
            Step::IsText("names.away", "abcdef"),
            Step::Rename("names.away", "names.renamed"),
            Step::Takes(b"ABC"),
            Step::IsText("names.renamed", "ABCdef"),
            Step::Remove("names.renamed"),
        ],
    ),
    (
        "a file that is replaced beside it",
        "names.replaced",
        &[
            Step::Takes(b"abcdef"),
            Step::Write("names.new", "ghijklm"),
            Step::Rename("names.new", "names.replaced"),
            Step::TakesNothing,
            Step::IsText("names.replaced", "ghijklm"),
            Step::Remove("names.replaced"),
        ],
    ),
    (
        "a file that is cut beside it",
        "names.cut",
        &[
            Step::Takes(b"abcdef"),
            Step::CutTo("names.cut", 5),
            Step::IsShort,
            Step::IsText("names.cut", "abcde"),
            Step::Remove("names.cut"),
        ],
    ),
];

// Whether each call of the disk fails.
fn all_fail<D: Disk>(disk: &mut D) -> bool {
    let mut piece = [0u8; 4];
    disk.len().is_err()
        && disk.read_at(0, &mut piece).is_err()
        && disk.write_at(0, b"xyz").is_err()
        && disk.cut(0).is_err()
        && disk.sync().is_err()
}

// Whether the disk writes these bytes at the front of its file, and makes them safe.
fn takes<D: Disk>(disk: &mut D, bytes: &[u8]) -> bool {
    disk.write_at(0, bytes).is_ok() && disk.sync().is_ok()
}

// Whether neither a write nor a sync is done.
fn takes_nothing<D: Disk>(disk: &mut D) -> bool {
    disk.write_at(0, b"xyz").is_err() && disk.sync().is_err()
}

// Whether the disk says nowhere that its file is whole, also where a cut of it would leave it as it is.
fn is_short<D: Disk>(disk: &mut D) -> bool {
    disk.len().is_err() && disk.cut(5).is_err() && takes_nothing(disk)
}

// Cuts the file to this length, as somebody else would.
fn cut_beside(rt: HostRuntime, name: &str, len: u64) -> io::Result<()> {
    File::options().write(true).open(&rt, name)?.set_len(len)
}

fn is_text(rt: HostRuntime, name: &str, want: &str) -> bool {
    match fs::read_to_string(&rt, name) {
        Ok(text) => text.as_str() == want,
        Err(_) => false,
    }
}

// Whether what is under the name itself is a folder, or a link, which isn't followed.
fn is_folder(rt: HostRuntime, name: &str) -> bool {
    match fs::symlink_metadata(&rt, name) {
        Ok(metadata) => metadata.is_dir(),
        Err(_) => false,
    }
}

fn is_link(rt: HostRuntime, name: &str) -> bool {
    match fs::symlink_metadata(&rt, name) {
        Ok(metadata) => metadata.is_symlink(),
        Err(_) => false,
    }
}

fn is_missing(rt: HostRuntime, name: &str) -> bool {
    matches!(fs::exists(&rt, name), Ok(false))
}

fn has_rights(rt: HostRuntime, name: &str, rights: u32) -> bool {
    match fs::metadata(&rt, name) {
        Ok(metadata) => metadata.mode() & 0o777 == rights,
        Err(_) => false,
    }
}

fn is_done<D: Disk>(rt: HostRuntime, disk: &mut D, step: Step) -> bool {
    match step {
        Step::AllFail => all_fail(disk),
        Step::Takes(bytes) => takes(disk, bytes),
        Step::TakesNothing => takes_nothing(disk),
        Step::IsShort => is_short(disk),
        Step::HasLen(len) => disk.len() == Ok(len),
        Step::MakeFolder(name) => fs::create_dir(&rt, name).is_ok(),
        Step::RemoveFolder(name) => fs::remove_dir(&rt, name).is_ok(),
        Step::Link(target, name) => symlink(&rt, target, name).is_ok(),
        Step::Write(name, text) => fs::write(&rt, name, text).is_ok(),
        Step::SetRights(name, rights) => {
            fs::set_permissions(&rt, name, Permissions::from_mode(rights)).is_ok()
        }
        Step::Rename(from, to) => fs::rename(&rt, from, to).is_ok(),
        Step::CutTo(name, len) => cut_beside(rt, name, len).is_ok(),
        Step::Remove(name) => fs::remove_file(&rt, name).is_ok(),
        Step::IsFolder(name) => is_folder(rt, name),
        Step::IsLink(name) => is_link(rt, name),
        Step::IsMissing(name) => is_missing(rt, name),
        Step::IsText(name, want) => is_text(rt, name, want),
        Step::HasRights(name, rights) => has_rights(rt, name, rights),
    }
}

// The first step that isn't done with a disk, counted from 0.
fn wrong_step<D: Disk>(rt: HostRuntime, disk: D, steps: &[Step]) -> Option<usize> {
    let mut disk = disk;
    for (place, &step) in steps.iter().enumerate() {
        if !is_done(rt, &mut disk, step) {
            return Some(place);
        }
    }
    None
}

// The first trial with such a step.
fn wrong_trial(rt: HostRuntime) -> Option<(&'static str, usize)> {
    for &(trial, name, steps) in TRIALS {
        if let Some(place) = wrong_step(rt, FileDisk::new(rt, name), steps) {
            return Some((trial, place));
        }
    }
    None
}

#[test]
fn names(rt: HostRuntime) {
    let wrong = wrong_trial(rt);
    assert_eq!(rt; wrong, None);
}
