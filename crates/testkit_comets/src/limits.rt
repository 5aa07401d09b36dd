//! A register whose file may have so many bytes, asked beside an office that a run made.

ghost use Rattle.act_model.specs.Deeds.{deeds};
ghost use Rattle.comet_desk.specs.Desks.{IsBeside};

use crate::runs::{Disks, call_on, three_disks};
use act_model::{Body, Key, Shelf};
use comet_desk::{CometDesk, CometReply, CometRequest};
use comet_model::{comet_reply_text, comet_status, read_comet_verb};
use command_ends::{Status, end_reading, open_to_read};
use desk_io::{Clock, TickClock};
use disk_model::Disk;
use item_list::Bytes;
use obs_time::Instant;
use std::alloc::Global;
use testkit_sessions::{
    Asked, Call, Drive, Drives, FOUNDER, Found, Named, NoMemory, Wrong, are_left, asked_in,
    put_number,
};

/// What is asked.
fn request_of(alloc: Global, asked: &Asked<'_>) -> Result<CometRequest, NoMemory> {
    let body = Bytes::from_slice(alloc, asked.body.as_bytes())?;
    Ok(CometRequest {
        key: Key::new(asked.who.as_bytes()),
        number: Some(asked.number),
        verb: read_comet_verb(asked.verb.as_bytes()),
        body: Body::Whole(body),
    })
}

/// What the register answers to a request, for which an act takes a reading of the clock.
fn reply_of<D: Disk, V: Shelf>(
    register: &mut CometDesk<D>,
    shelf: &V,
    clock: &mut TickClock,
    request: &CometRequest,
) -> CometReply
    requires { IsBeside (deeds (V.history shelf.now)) register.old }
    ensures { IsBeside (deeds (V.history shelf.now)) register.new }
{
    if request.verb.is_act() {
        let reading = clock.now();
        register.act(shelf, request, reading)
    } else {
        register.ask(shelf, request)
    }
}

/// Whether a reply is the one that is wanted.
fn is_wanted(alloc: Global, reply: CometReply, asked: &Asked<'_>) -> Result<bool, NoMemory> {
    let mut status = Vec::new(alloc);
    put_number(alloc, &mut status, u64::from(comet_status(&reply)))?;
    let text = comet_reply_text(reply);
    Ok(status.as_slice() == asked.status.as_bytes() && text.as_slice() == asked.text.as_bytes())
}

/// Whether a request is answered as is wanted.
fn is_answered<D: Disk, V: Shelf>(
    alloc: Global,
    register: &mut CometDesk<D>,
    shelf: &V,
    clock: &mut TickClock,
    asked: &Asked<'_>,
) -> Result<bool, NoMemory>
    requires { IsBeside (deeds (V.history shelf.now)) register.old }
    ensures { IsBeside (deeds (V.history shelf.now)) register.new }
{
    let request = request_of(alloc, asked)?;
    let reply = reply_of(register, shelf, clock, &request);
    is_wanted(alloc, reply, asked)
}

/// The first request that isn't so answered, counted from 0; None where there is none.
fn first_wrong<D: Disk, V: Shelf>(
    alloc: Global,
    register: &mut CometDesk<D>,
    shelf: &V,
    clock: &mut TickClock,
    asked: &[Asked<'_>],
) -> Result<Option<usize>, NoMemory>
    requires { IsBeside (deeds (V.history shelf.now)) register.old }
{
    for (place, next) in asked.iter().enumerate() {
        if !is_answered(alloc, register, shelf, clock, next)? {
            return Ok(Some(place));
        }
    }
    Ok(None)
}

/// The register's disk after this was asked, and the first request that was answered otherwise.
fn answered<D: Disk, V: Shelf>(
    alloc: Global,
    limit: u64,
    shelf: &V,
    disk: D,
    clock: &mut TickClock,
    asked: &[Asked<'_>],
) -> Result<(D, Option<usize>), Wrong> {
    let founder = Key::new(FOUNDER.as_bytes());
    let Ok(mut register) = CometDesk::open(alloc, founder, limit, shelf, disk) else {
        let found = Found::File(3);
        return Err(Wrong { mark: 0, found });
    };
    // The register is closed first, so that it is let go nowhere here.
    let wrong = first_wrong(alloc, &mut register, shelf, clock, asked);
    let disk = register.close();
    Ok((disk, wrong?))
}

/// The same beside the office on these two disks, which is read alone.
fn answered_beside<D: Disk>(
    alloc: Global,
    limit: u64,
    disks: Disks<D>,
    clock: &mut TickClock,
    asked: &[Asked<'_>],
) -> Result<(D, Option<usize>), Wrong> {
    let Disks { office, register } = disks;
    match open_to_read(alloc, office.0, office.1) {
        Ok(office) => {
            let told = answered(alloc, limit, office.core(), register, clock, asked);
            end_reading(office, Status::Done);
            told
        }
        Err(ended) => {
            let found = Found::Number(ended.status.number());
            Err(Wrong { mark: 0, found })
        }
    }
}

/// A clock that begins where this call's does, and goes by seconds.
fn clock_of(call: &Call) -> Result<TickClock, Wrong> {
    match Instant::new(call.start) {
        Some(first) => Ok(TickClock::new(first, 1_000_000_000)),
        None => Err(Wrong {
            mark: call.mark,
            found: Found::NoClock,
        }),
    }
}

/// What is wrong with the run, or with what this register answers beside the office that the run leaves.
fn within<D: Disk>(
    alloc: Global,
    office: &Call,
    limit: u64,
    drives: &Drives,
    disks: Result<(Disks<D>, D), NoMemory>,
    asked: &[Asked<'_>],
) -> Result<(), Wrong> {
    let (before, other) = disks?;
    let disks = call_on(alloc, office, before)?;
    let mut clock = clock_of(office)?;
    let (register, wrong) = answered_beside(alloc, limit, disks, &mut clock, asked)?;
    if let Some(mark) = wrong {
        let found = Found::BytesFrom(0);
        return Err(Wrong { mark, found });
    }
    are_left(alloc, drives, (other, register), asked.len())
}

/// Makes a run on two empty disks for the office, opens the founding officer's register on this disk beside it, where
/// its file may have so many bytes, and asks it what this transcript asks, where these texts have names.
///
/// # Errors
///
/// What is wrong with the transcript; with the run; with the first request that is answered otherwise, whose place is
/// the mark; or with the register's file, which is told as file 3 where the register can't be opened, and as file 2
/// where another is left.
pub fn comets_within<'a>(
    alloc: Global,
    office: &Call,
    limit: u64,
    register: &Drive,
    transcript: &'a str,
    named: &'a [Named<'a>],
) -> Result<(), Wrong> {
    let asked = asked_in(alloc, transcript, named)?;
    let drives = Drives::with_second(*register);
    let disks = three_disks(alloc, &drives);
    within(alloc, office, limit, &drives, disks, &asked)
}
