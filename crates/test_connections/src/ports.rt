//! Tests of the door on a port and of its links.
//!
//! What happens at a door and its links stands in functions over any door, source and sink, which give what they found:
//! so no test has the proof of what becomes of a link's two halves.

use crate::tables::{Wrong, expect_nothing_wrong};
use desk_io::{Door, Failed, Next, Sink, Source, TcpDoor, write_all};
use program_door::ServingDoor;
use std::alloc::Global;
use std::io::{ErrorKind, Read, Write};
use std::net::{Ipv4Addr, Net, Shutdown, SocketAddr, TcpListener, TcpStream};
use std::rt::Clock;
use std::test::Fail;
use std::thread::join;
use std::time::Duration;
use std::{io, thread};

// Reads eight bytes from the source, writes as many to the sink, and gives both up.
fn answer<S: Source, K: Sink>(source: &mut S, sink: &mut K) -> Result<[u8; 8], Failed> {
    let mut question = [0u8; 8];
    source.read(&mut question)?;
    write_all(sink, b"answered")?;
    source.end();
    sink.end();
    Ok(question)
}

// What the next link of the door asks. It is answered.
fn asked_next<D: Door>(door: &mut D) -> Result<[u8; 8], Failed> {
    match door.next() {
        Next::Link(source, sink) => {
            let (mut source, mut sink) = (source, sink);
            answer(&mut source, &mut sink)
        }
        _ => Err(Failed),
    }
}

// The same of a door of which nothing else is wanted.
fn asked<D: Door>(mut door: D) -> Result<[u8; 8], Failed> {
    asked_next(&mut door)
}

// What the peer gets until its stream ends.
fn heard<P: Read>(peer: &mut P) -> io::Result<[u8; 8]> {
    let mut text = [0u8; 8];
    peer.read_exact(&mut text)?;
    match peer.read(&mut [0u8; 1])? {
        0 => Ok(text),
        _ => Err(io::Error::from(ErrorKind::InvalidData)),
    }
}

// A door at a port of the system's choice, and where it is.
fn bound_door(rt: HostRuntime) -> io::Result<(TcpDoor<HostRuntime>, SocketAddr)> {
    let mut door = TcpDoor::on_port(rt, rt.alloc(), 0);
    let address = door.bind()?;
    Ok((door, address))
}

// What is wrong with what the door is asked, or with what its peer gets.
fn wrong_exchange(asked: Result<[u8; 8], Failed>, got: [u8; 8]) -> Wrong {
    if asked != Ok(*b"question") {
        return Some("what the door is asked");
    }
    if got != *b"answered" {
        return Some("what the peer gets");
    }
    None
}

// The same where a peer asks the door at this address.
fn wrong_peer<N: Net<Listener = TcpListener, Stream = TcpStream>, D: Door>(
    net: &N,
    door: D,
    address: SocketAddr,
) -> io::Result<Wrong> {
    let mut peer = TcpStream::connect(net, address)?;
    peer.write_all(b"question")?;
    let question = asked(door);
    Ok(wrong_exchange(question, heard(&mut peer)?))
}

#[test]
fn link_over_a_port(rt: HostRuntime) -> Result<(), Fail> {
    let (door, address) = bound_door(rt)?;
    // The system chose a port, which isn't that of the program.
    assert!(rt; address.port() != 8_017);
    let wrong = wrong_peer(&rt, door, address)?;
    expect_nothing_wrong(&rt, wrong);
    Ok(())
}

// Asks the door at this address, sends 300,000 bytes more, and reads nothing before.
fn heard_late<N: Net<Listener = TcpListener, Stream = TcpStream>>(
    net: &N,
    address: SocketAddr,
) -> io::Result<[u8; 8]> {
    let mut peer = TcpStream::connect(net, address)?;
    peer.write_all(b"question")?;
    for _ in 0..300 {
        peer.write_all(&[b'.'; 1_000])?;
    }
    heard(&mut peer)
}

#[test]
fn last_answer_before_bytes_that_are_not_read(rt: HostRuntime) -> Result<(), Fail> {
    let (door, address) = bound_door(rt)?;
    let (answer, question) = join(&rt, move || heard_late(&rt, address), move || asked(door));
    expect_nothing_wrong(&rt, wrong_exchange(question, answer?));
    Ok(())
}

// What is wrong with a door at a port that is in use. It tries the port again at each call.
fn wrong_in_use(rt: HostRuntime, port: u16) -> Wrong {
    let mut door = TcpDoor::on_port(rt, rt.alloc(), port);
    if door.bind().is_ok() || door.bind().is_ok() {
        return Some("the door is bound");
    }
    if !matches!(door.next(), Next::Failed) {
        return Some("the door doesn't fail");
    }
    None
}

#[test]
fn port_in_use(rt: HostRuntime) -> Result<(), Fail> {
    let (door, address) = bound_door(rt)?;
    let wrong = wrong_in_use(rt, address.port());
    drop(door);
    expect_nothing_wrong(&rt, wrong);
    Ok(())
}

// A port that nobody listens at.
fn free_port<N: Net<Listener = TcpListener, Stream = TcpStream>>(net: &N) -> io::Result<u16> {
    let listener = TcpListener::bind(net, (Ipv4Addr::LOCALHOST, 0))?;
    Ok(listener.local_addr()?.port())
}

// A peer of the door at this port, once it is bound.
fn peer_at<N: Net<Listener = TcpListener, Stream = TcpStream> + Clock>(
    net: &N,
    port: u16,
) -> io::Result<TcpStream> {
    for _ in 0..1_000 {
        if let Ok(peer) = TcpStream::connect(net, (Ipv4Addr::LOCALHOST, port)) {
            return Ok(peer);
        }
        thread::sleep(net, Duration::from_millis(10));
    }
    Err(io::Error::from(ErrorKind::NotConnected))
}

// Whether nobody listens at this port of this address.
fn is_refused<N: Net<Listener = TcpListener, Stream = TcpStream>>(
    net: &N,
    address: Ipv4Addr,
    port: u16,
) -> bool {
    match TcpStream::connect(net, (address, port)) {
        Ok(_) => false,
        Err(error) => error.kind() == ErrorKind::ConnectionRefused,
    }
}

// What the door at this port answers at 127.0.0.1, and whether it can't be asked at 127.0.0.2, an address of this
// machine too.
fn heard_at_each<N: Net<Listener = TcpListener, Stream = TcpStream> + Clock>(
    net: &N,
    port: u16,
) -> io::Result<([u8; 8], bool)> {
    let mut peer = peer_at(net, port)?;
    let is_refused = is_refused(net, Ipv4Addr::new(127, 0, 0, 2), port);
    peer.write_all(b"question")?;
    Ok((heard(&mut peer)?, is_refused))
}

// What is wrong with what the door is asked, or with what is found at each address.
fn wrong_at_each(asked: Result<[u8; 8], Failed>, found: ([u8; 8], bool)) -> Wrong {
    let (answer, is_refused) = found;
    if !is_refused {
        return Some("somebody listens at 127.0.0.2");
    }
    wrong_exchange(asked, answer)
}

#[test]
fn no_other_address(rt: HostRuntime) -> Result<(), Fail> {
    let port = free_port(&rt)?;
    // Its first call is for a link.
    let door = TcpDoor::on_port(rt, rt.alloc(), port);
    let (found, question) = join(&rt, move || heard_at_each(&rt, port), move || asked(door));
    expect_nothing_wrong(&rt, wrong_at_each(question, found?));
    Ok(())
}

// The next link, as far as it is one.
fn link_of<D: Door>(door: &mut D) -> Option<(D::In, D::Out)> {
    match door.next() {
        Next::Link(source, sink) => Some((source, sink)),
        _ => None,
    }
}

// Whether a read gives these bytes.
fn gives<S: Source>(source: &mut S, want: &[u8; 8]) -> bool {
    let mut piece = [0u8; 8];
    source.read(&mut piece) == Ok(8) && piece == *want
}

// What is wrong with two links, of which each is asked and answered.
fn wrong_links<S: Source, K: Sink>(
    first: &mut S,
    to_first: &mut K,
    second: &mut S,
    to_second: &mut K,
) -> Wrong {
    if !gives(second, b"inquired") {
        return Some("what the second peer asks");
    }
    if !gives(first, b"question") {
        return Some("what the first peer asks");
    }
    if write_all(to_first, b"answered").is_err() {
        return Some("no answer to the first peer");
    }
    if write_all(to_second, b"returned").is_err() {
        return Some("no answer to the second peer");
    }
    None
}

// What is wrong with what a peer asks later.
fn wrong_later<S: Source, P: Write>(source: &mut S, peer: &mut P) -> io::Result<Wrong> {
    peer.write_all(b"a second")?;
    if gives(source, b"a second") {
        Ok(None)
    } else {
        Ok(Some("what the second peer asks later"))
    }
}

// Ends what both peers say.
fn end_both(first: &TcpStream, second: &TcpStream) -> io::Result<()> {
    first.shutdown(Shutdown::Write)?;
    second.shutdown(Shutdown::Write)
}

// What is wrong with the next two links of a door, of which the second is asked once more. Both peers end what they say
// before the links are given up.
fn wrong_peers<D: Door>(
    door: &mut D,
    first: &mut TcpStream,
    second: &mut TcpStream,
) -> io::Result<Wrong> {
    let Some((mut ours, mut to_first)) = link_of(door) else {
        return Ok(Some("no link comes"));
    };
    let Some((mut theirs, mut to_second)) = link_of(door) else {
        return Ok(Some("no second link comes"));
    };
    let wrong = wrong_links(&mut ours, &mut to_first, &mut theirs, &mut to_second);
    let later = wrong_later(&mut theirs, second);
    end_both(first, second)?;
    Ok(wrong.or(later?))
}

// Asks by either peer.
fn ask_each<P: Write>(first: &mut P, second: &mut P) -> io::Result<()> {
    first.write_all(b"question")?;
    second.write_all(b"inquired")
}

// What is wrong with what both peers get.
fn wrong_answers<P: Read>(first: &mut P, second: &mut P) -> io::Result<Wrong> {
    if heard(second)? != *b"returned" {
        return Ok(Some("what the second peer gets"));
    }
    if heard(first)? != *b"answered" {
        return Ok(Some("what the first peer gets"));
    }
    Ok(None)
}

// What is wrong where two peers ask the door at this address side by side.
fn wrong_pair<N: Net<Listener = TcpListener, Stream = TcpStream>, D: Door>(
    net: &N,
    mut door: D,
    address: SocketAddr,
) -> io::Result<Wrong> {
    let mut first = TcpStream::connect(net, address)?;
    let mut second = TcpStream::connect(net, address)?;
    ask_each(&mut first, &mut second)?;
    let wrong = wrong_peers(&mut door, &mut first, &mut second)?;
    if wrong.is_some() {
        return Ok(wrong);
    }
    wrong_answers(&mut first, &mut second)
}

#[test]
fn each_peer_its_own(rt: HostRuntime) -> Result<(), Fail> {
    let (door, address) = bound_door(rt)?;
    let wrong = wrong_pair(&rt, door, address)?;
    expect_nothing_wrong(&rt, wrong);
    Ok(())
}

// Whether the door gives no link more.
fn is_shut<D: Door>(door: &mut D) -> bool {
    matches!(door.next(), Next::Shut)
}

// Whether the door has two links that ask, and is shut then.
fn asked_twice<D: Door>(mut door: D) -> Result<bool, Failed> {
    let first = asked_next(&mut door)?;
    let second = asked_next(&mut door)?;
    let are_asked = first == *b"question" && second == *b"question";
    Ok(are_asked && is_shut(&mut door) && is_shut(&mut door))
}

// Asks by both peers, and waits for both answers.
fn ask_both<P: Read + Write>(first: &mut P, second: &mut P) -> io::Result<()> {
    first.write_all(b"question")?;
    second.write_all(b"question")?;
    heard(first)?;
    heard(second)?;
    Ok(())
}

// Asks the door at this port twice, and says whether it can't be asked once more.
fn ask_twice<N: Net<Listener = TcpListener, Stream = TcpStream> + Clock>(
    net: &N,
    port: u16,
) -> io::Result<bool> {
    let mut first = peer_at(net, port)?;
    let mut second = peer_at(net, port)?;
    ask_both(&mut first, &mut second)?;
    Ok(is_refused(net, Ipv4Addr::LOCALHOST, port))
}

// The two ends of a stream.
fn stream_ends<N: Net<Listener = TcpListener, Stream = TcpStream>>(
    net: &N,
) -> io::Result<(TcpStream, TcpStream)> {
    let listener = TcpListener::bind(net, (Ipv4Addr::LOCALHOST, 0))?;
    let near = TcpStream::connect(net, listener.local_addr()?)?;
    let (far, _) = listener.accept()?;
    Ok((near, far))
}

// What is wrong with what was said: once, where the door serves.
fn wrong_place<P: Read>(alloc: Global, told: &mut P, port: u16) -> io::Result<Wrong> {
    let mut text = String::new(alloc);
    told.read_to_string(&mut text)?;
    if text == format!(in alloc; "mpc_cli: serving at 127.0.0.1:{port}\n")? {
        Ok(None)
    } else {
        Ok(Some("where the door says that it serves"))
    }
}

// What is wrong with two links, or with the port after them.
fn wrong_service(are_asked: bool, is_refused: bool) -> Wrong {
    if !are_asked {
        return Some("what the door is asked, or that it is shut");
    }
    if !is_refused {
        return Some("the port is in use");
    }
    None
}

#[test]
fn port_for_two_links(rt: HostRuntime) -> Result<(), Fail> {
    let port = free_port(&rt)?;
    let (said, mut told) = stream_ends(&rt)?;
    let door = ServingDoor::new(TcpDoor::on_port(rt, rt.alloc(), port), 2, said);
    let (late, links) = join(&rt, move || ask_twice(&rt, port), move || asked_twice(door));
    expect_nothing_wrong(&rt, wrong_service(links?, late?));
    let wrong = wrong_place(rt.alloc(), &mut told, port)?;
    expect_nothing_wrong(&rt, wrong);
    Ok(())
}

// What is wrong with a door at this port of which no link is wanted.
fn wrong_unbound<N: Net<Listener = TcpListener, Stream = TcpStream>, D: Door>(
    net: &N,
    mut door: D,
    port: u16,
) -> Wrong {
    if !is_shut(&mut door) {
        return Some("the door isn't shut");
    }
    if !is_refused(net, Ipv4Addr::LOCALHOST, port) {
        return Some("the port is in use");
    }
    None
}

#[test]
fn no_link_is_wanted(rt: HostRuntime) -> Result<(), Fail> {
    let port = free_port(&rt)?;
    let door = ServingDoor::new(TcpDoor::on_port(rt, rt.alloc(), port), 0, rt.stderr());
    expect_nothing_wrong(&rt, wrong_unbound(&rt, door, port));
    Ok(())
}
