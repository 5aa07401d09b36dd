//! Tests of bodies that nest deeply.

use act_bodies::{BodyFault, read_enrol};
use item_list::{Bytes, NoMemory};
use std::alloc::Global;

/// Puts so many arrays in one another at the end of a body, and behind them the other members.
fn nest(body: &mut Bytes, arrays: u8) -> Result<(), NoMemory> {
    for _ in 0..arrays {
        body.push(b'[')?;
    }
    for _ in 0..arrays {
        body.push(b']')?;
    }
    body.extend_from_slice(b",\"key\":\"observer-1\",\"name\":\"Ann\",\"role\":\"observer\"}")
}

/// A body whose key stands twice, first as so many arrays in one another. With the object they are one level more.
fn nested(alloc: Global, arrays: u8) -> Result<Bytes, NoMemory> {
    let mut body = Bytes::from_slice(alloc, b"{\"key\":")?;
    nest(&mut body, arrays)?;
    Ok(body)
}

/// The fault of that body; None where it has none.
fn fault_of(alloc: Global, arrays: u8) -> Option<BodyFault> {
    match nested(alloc, arrays) {
        Ok(body) => read_enrol(alloc, body.as_slice()).err(),
        Err(_) => Some(BodyFault::NoMemory),
    }
}

#[test]
fn levels(rt: HostRuntime) {
    let most = fault_of(rt.alloc(), 126);
    assert_eq!(rt; most, None);
    let more = fault_of(rt.alloc(), 127);
    assert_eq!(rt; more, Some(BodyFault::Unread));
}
