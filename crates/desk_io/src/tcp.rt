//! A door on a port of this machine. Nothing of what its links carry is known to a proof: that they carry the bytes of
//! their peers is trusted.

ghost use Rattle.std.specs.Prelude.{◌≡◌, ◌≤◌, true, false, IfOk, OnOk, OnErr, None};
ghost use Rattle.call_log.specs.Counts.{one_more};
ghost use Rattle.desk_io.specs.declared.doors.Next.TheVariants as answers;
ghost use Rattle.desk_io.specs.Doors.{LinksAfter, FaultsAfter, AcceptsOnce, IsPlaceOf};

use crate::accepting::next_peer;
use crate::links::{NoLink, halves};
use crate::{Door, HalfStream, LinkLimits, Next, StreamSink, StreamSource};
use std::alloc::Global;
use std::io;
use std::io::ErrorKind;
use std::marker::Model;
use std::net::{IpAddr, Ipv4Addr, Net, SocketAddr, TcpListener, TcpStream};
use std::rt::Clock;

/// The port at which the desk is called.
const PORT: u16 = 8017;

// Where the listener is called: at 127.0.0.1, and at this port where it isn't 0. No contract says where the system
// binds a listener, so that it is asked, and another place is refused.
fn place_of(listener: &TcpListener, port: u16) -> io::Result<SocketAddr>
    ensures { IfOk result (λ place. IsPlaceOf port place) }
{
    let place = listener.local_addr()?;
    if place.ip() != IpAddr::V4(Ipv4Addr::LOCALHOST) {
        return Err(io::Error::from(ErrorKind::AddrNotAvailable));
    }
    if port != 0 && place.port() != port {
        return Err(io::Error::from(ErrorKind::AddrNotAvailable));
    }
    Ok(place)
}

// A listener beside the place that the system said about it.
#[derive(Debug, Drop)]
struct Listening {
    listener: TcpListener,
    place: SocketAddr,
}

// A listener at this port, or at one of the system's choice where it is 0.
fn listen<R: Net<Listener = TcpListener, Stream = TcpStream>>(
    system: &R,
    port: u16,
) -> io::Result<Listening>
    ensures { IfOk result (λ made. IsPlaceOf port made.place) }
{
    let listener = TcpListener::bind(system, (Ipv4Addr::LOCALHOST, port))?;
    let place = place_of(&listener, port)?;
    Ok(Listening { listener, place })
}

/// The door on a port of 127.0.0.1. It is bound to its port at the first call, and never shut.
///
/// It tells nothing of its links, counts each error as a fault, and keeps the last one for people to read. After a
/// failure to bind, the next call tries again. A peer that is gone before it is taken is no failure; where descriptors
/// or memory of the system are short it tries again for 10 seconds before it fails. Each link has limits to the time
/// that its peer may take.
#[derive(Debug, Drop)]
pub struct TcpDoor<R: Net<Listener = TcpListener, Stream = TcpStream> + Clock + Copy> {
    system: R,
    alloc: Global,
    port: u16,
    limits: LinkLimits,
    listening: Option<Listening>,
    faults: u64,
    last_error: Option<io::Error>,
}

impl<R: Net<Listener = TcpListener, Stream = TcpStream> + Clock + Copy> Model for TcpDoor<R> {
    ghost use Rattle.std.specs.Prelude.{is_some, IfSome};
    ghost use Rattle.desk_io.specs.Doors.{TcpDoorState, IsPlaceOf};

    ghost Value = { TcpDoorState };

    ghost view = { λ door. record { port = door.port; is_bound = is_some door.listening; faults = door.faults } };

    ghost invariant = { λ door. IfSome door.listening (λ it. IsPlaceOf door.port it.place) };
}

impl<R: Net<Listener = TcpListener, Stream = TcpStream> + Clock + Copy> TcpDoor<R> {
    /// The door at port 8017, which isn't bound yet.
    pub fn new(system: R, alloc: Global) -> TcpDoor<R>
        ensures { result ≡ record { port = 8017; is_bound = false; faults = 0 } }
    {
        TcpDoor::on_port(system, alloc, PORT)
    }

    /// A door that isn't bound yet, at a port of the caller's choice. At port 0 the system chooses one.
    pub fn on_port(system: R, alloc: Global, port: u16) -> TcpDoor<R>
        ensures { result ≡ record { port = port; is_bound = false; faults = 0 } }
    {
        TcpDoor::with_limits(system, alloc, port, LinkLimits::usual())
    }

    /// A door that isn't bound yet, at a port and with limits to its links' time that the caller chooses. A limit that
    /// the system refuses, as one of no time at all, is a failure of each link that comes.
    pub fn with_limits(system: R, alloc: Global, port: u16, limits: LinkLimits) -> TcpDoor<R>
        ensures { result ≡ record { port = port; is_bound = false; faults = 0 } }
    {
        TcpDoor {
            system,
            alloc,
            port,
            limits,
            listening: None,
            faults: 0,
            last_error: None,
        }
    }

    /// Binds the door, if it isn't bound, and says where it is.
    ///
    /// # Errors
    ///
    /// The system's, as where the port is in use, and `AddrNotAvailable` where the system bound another place. The door
    /// is as it was.
    pub fn bind(&mut self) -> io::Result<SocketAddr>
        ensures bound { OnOk result (self.new ≡ record self.old { is_bound = true }) }
        ensures place { IfOk result (λ place. IsPlaceOf self.old.port place) }
        ensures unbound { OnErr result (self.new ≡ self.old) }
    {
        if let Some(listening) = &self.listening {
            return Ok(listening.place);
        }
        let listening = listen(&self.system, self.port)?;
        let place = listening.place;
        self.listening = Some(listening);
        Ok(place)
    }

    // The stream of the next peer.
    fn accept(&mut self) -> io::Result<TcpStream>
        ensures bound { OnOk result (self.new ≡ record self.old { is_bound = true }) }
        ensures port { self.new.port ≡ self.old.port }
        ensures faults { self.new.faults ≡ self.old.faults }
        ensures stays { self.old.is_bound ≡ true → self.new.is_bound ≡ true }
    {
        self.bind()?;
        let Some(listening) = &self.listening else {
            unreachable!();
        };
        next_peer(&self.system, &listening.listener)
    }

    /// Why a call that was to give a link failed the last time, in the system's words; None where none failed.
    pub fn last_error(&self) -> Option<io::Error> {
        self.last_error
    }

    // The answer of a call in which the door failed, which is counted, with its reason kept.
    fn fail<I, O>(&mut self, error: io::Error) -> Next<I, O>
        ensures failed { result ≡ answers.Failed }
        ensures counted { self.new ≡ record self.old { faults = one_more self.old.faults } }
        ensures counts { self.old.faults ≤ self.new.faults }
    {
        self.faults = self.faults.saturating_add(1);
        self.last_error = Some(error);
        Next::Failed
    }
}

impl<R: Net<Listener = TcpListener, Stream = TcpStream> + Clock + Copy + Send + Sync> Door
    for TcpDoor<R> {
    type In = StreamSource<HalfStream<R>>;

    type Out = StreamSink<HalfStream<R>>;

    ghost links = { λ _. None };

    ghost faults = { λ door. door.faults };

    fn next(&mut self) -> Next<StreamSource<HalfStream<R>>, StreamSink<HalfStream<R>>>
        ensures accepts { AcceptsOnce self.old self.new result }
        ensures stays { self.old.is_bound ≡ true → self.new.is_bound ≡ true }

        ensures links { LinksAfter None None result }
        ensures counts { self.old.faults ≤ self.new.faults }
        ensures cause { FaultsAfter self.old.faults self.new.faults result }
    {
        let stream = match self.accept() {
            Ok(stream) => stream,
            Err(error) => return self.fail(error),
        };
        match halves(self.system, self.alloc, stream, self.limits) {
            Ok((source, sink)) => Next::Link(StreamSource::new(source), StreamSink::new(sink)),
            Err(NoLink::NoMemory) => Next::NoMemory,
            Err(NoLink::Refused(error)) => self.fail(error),
        }
    }
}
