//! A door to the network. What goes over its links it doesn't tell, and it is never sound.

ghost use Rattle.std.specs.Prelude.{◌≡◌, [], None, Some, false};

use crate::link::TcpLink;
use crate::waits::Waits;
use mls_base::faults::{Failed, NoMemory, counted, fail};
use mls_wire::Door;
use std::alloc::Global;
use std::io;
use std::io::ErrorKind;
use std::net::{IpAddr, Ipv4Addr, Net, OpenListener, SocketAddr, TcpListener, TcpStream};
use std::time::Duration;

/// A door to the network. An address is HOST:PORT, with `localhost` or an IP address for its host.
#[derive(Drop)]
pub struct TcpDoor<R: Net + Drop> {
    rt: R,
    listener: Option<R::Listener>,
    waits: Waits,
    faults: u64,
    accepts: u64,
    link_faults: u64,
}

impl<R: Net + Drop> TcpDoor<R> {
    /// It listens nowhere yet, no call failed, and no link was accepted or closed.
    pub fn new(rt: R) -> TcpDoor<R>
        ensures closed { ⟦<TcpDoor<R> as Door>⟧.closed result ≡ None }
        ensures faults { ⟦<TcpDoor<R> as Door>⟧.faults result ≡ 0 }
        ensures accepts { ⟦<TcpDoor<R> as Door>⟧.accepts result ≡ 0 }
        ensures link_faults { ⟦<TcpDoor<R> as Door>⟧.link_faults result ≡ 0 }
    {
        TcpDoor {
            rt,
            listener: None,
            waits: Waits::endless(),
            faults: 0,
            accepts: 0,
            link_faults: 0,
        }
    }

    /// The same, but that a read of a link that was accepted fails where it waits longer than `first` while less than a
    /// group's first frame has come, and longer than `silence` after it. Links that were connected wait as ever.
    pub fn with_time_outs(rt: R, first: Duration, silence: Duration) -> TcpDoor<R>
        ensures closed { ⟦<TcpDoor<R> as Door>⟧.closed result ≡ None }
        ensures faults { ⟦<TcpDoor<R> as Door>⟧.faults result ≡ 0 }
        ensures accepts { ⟦<TcpDoor<R> as Door>⟧.accepts result ≡ 0 }
        ensures link_faults { ⟦<TcpDoor<R> as Door>⟧.link_faults result ≡ 0 }
        ensures waits { result.waits ≡ record { next = Some first; later = Some silence; awaited = 19 } }
    {
        TcpDoor {
            rt,
            listener: None,
            waits: Waits::bounded(first, silence),
            faults: 0,
            accepts: 0,
            link_faults: 0,
        }
    }
}

/// The address of a text. `localhost` is 127.0.0.1. No other name is looked up.
fn address_of(addr: &str) -> io::Result<SocketAddr> {
    if let Some(port) = addr.strip_prefix("localhost:") {
        return match port.parse::<u16>() {
            Ok(port) => Ok(SocketAddr::new(IpAddr::V4(Ipv4Addr::LOCALHOST), port)),
            Err(_) => Err(io::Error::from(ErrorKind::InvalidInput)),
        };
    }
    match addr.parse::<SocketAddr>() {
        Ok(address) => Ok(address),
        Err(_) => Err(io::Error::from(ErrorKind::InvalidInput)),
    }
}

/// Waits for connections at an address.
fn bind<R: Net>(rt: &R, addr: &str) -> io::Result<R::Listener> {
    TcpListener::bind(rt, address_of(addr)?)
}

/// A connection to an address.
fn connect<R: Net>(rt: &R, addr: &str) -> io::Result<R::Stream> {
    TcpStream::connect(rt, address_of(addr)?)
}

/// Whether no connection came, and the next may: a signal broke the waiting off, or the peer was gone before it was
/// accepted.
fn is_passing(kind: ErrorKind) -> bool {
    matches!(
        kind,
        ErrorKind::Interrupted | ErrorKind::ConnectionAborted | ErrorKind::ConnectionReset
    )
}

/// The next connection that comes, past those that were gone before they were accepted.
fn accept_one<L: OpenListener>(listener: &Option<L>) -> io::Result<L::Stream> {
    let Some(listener) = listener else {
        return Err(io::Error::from(ErrorKind::NotConnected));
    };
    for _ in 0..u64::MAX {
        match listener.accept() {
            Ok((stream, _)) => return Ok(stream),
            Err(error) if is_passing(error.kind()) => {}
            Err(error) => return Err(error),
        }
    }
    Err(io::Error::from(ErrorKind::Interrupted))
}

impl<R: Net + Drop> Door for TcpDoor<R> {
    type L = TcpLink<R::Stream>;

    ghost faults = { λ d. d.faults };

    ghost accepts = { λ d. d.accepts };

    ghost link_faults = { λ d. d.link_faults };

    ghost closed = { λ d. None };

    ghost sound = { λ d. false };

    ghost awaited = { λ d. [] };

    fn listen(&mut self, addr: &str) -> Result<(), Failed> {
        let listener = counted(&mut self.faults, bind(&self.rt, addr))?;
        self.listener = Some(listener);
        Ok(())
    }

    fn accept(&mut self) -> Result<TcpLink<R::Stream>, Failed> {
        if self.accepts == u64::MAX {
            return fail(&mut self.faults, Failed);
        }
        let stream = counted(&mut self.faults, accept_one(&self.listener))?;
        self.accepts += 1;
        Ok(TcpLink::new(stream, self.waits))
    }

    fn connect(&mut self, addr: &str) -> Result<TcpLink<R::Stream>, Failed> {
        let stream = counted(&mut self.faults, connect(&self.rt, addr))?;
        Ok(TcpLink::new(stream, Waits::endless()))
    }

    fn close(&mut self, _alloc: Global, link: TcpLink<R::Stream>) -> Result<(), NoMemory> {
        if link.faults() > 0 {
            self.link_faults = self.link_faults.saturating_add(1);
        }
        Ok(())
    }
}
