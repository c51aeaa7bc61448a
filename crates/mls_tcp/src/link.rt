//! One connection over a stream. What goes over it it doesn't tell, and it is never sound.

ghost use Rattle.std.specs.Prelude.{◌≡◌, ◌<◌, ◌≤◌, None, false, length, IfOk};

use crate::waits::Waits;
use mls_base::faults::{Failed, counted};
use mls_wire::Link;
use std::io;
use std::io::{ErrorKind, Read, Write};
use std::net::OpenStream;

/// One connection over a stream.
#[derive(Drop)]
pub struct TcpLink<S: Read + Write + OpenStream + Drop> {
    stream: S,
    waits: Waits,
    faults: u64,
}

impl<S: Read + Write + OpenStream + Drop> TcpLink<S> {
    /// A link whose reads wait so long. No read or write failed so far.
    pub(crate) fn new(stream: S, waits: Waits) -> TcpLink<S>
        ensures { ⟦<TcpLink<S> as Link>⟧.faults result ≡ 0 }
    {
        TcpLink {
            stream,
            waits,
            faults: 0,
        }
    }

    /// How many reads and writes failed.
    pub(crate) fn faults(&self) -> u64
        ensures { result ≡ ⟦<TcpLink<S> as Link>⟧.faults self.now }
    {
        self.faults
    }
}

/// One read, again where a signal breaks it off.
fn read_some<S: Read>(stream: &mut S, into: &mut [u8]) -> io::Result<usize>
    ensures { IfOk result (λ n. n ≤ length into.old) }
{
    for _ in 0..u64::MAX {
        match stream.read(into) {
            Err(error) if error.kind() == ErrorKind::Interrupted => {}
            answer => return answer,
        }
    }
    Err(io::Error::from(ErrorKind::Interrupted))
}

/// One read that waits no longer than it may.
fn read_in_time<S: Read + OpenStream>(
    stream: &mut S,
    waits: &mut Waits,
    into: &mut [u8],
) -> io::Result<usize>
    ensures { IfOk result (λ n. n ≤ length into.old) }
{
    if let Some(wait) = waits.next {
        stream.set_read_timeout(Some(wait))?;
        waits.next = None;
    }
    let n = read_some(stream, into)?;
    waits.hear(n);
    Ok(n)
}

/// One write of at least one byte, again where a signal breaks it off.
fn write_some<S: Write>(stream: &mut S, piece: &[u8]) -> io::Result<usize>
    ensures some { IfOk result (λ n. 0 < n) }
    ensures within { IfOk result (λ n. n ≤ length piece.now) }
{
    for _ in 0..u64::MAX {
        match stream.write(piece) {
            Ok(0) => return Err(io::Error::from(ErrorKind::WriteZero)),
            Err(error) if error.kind() == ErrorKind::Interrupted => {}
            answer => return answer,
        }
    }
    Err(io::Error::from(ErrorKind::Interrupted))
}

impl<S: Read + Write + OpenStream + Drop> Link for TcpLink<S> {
    ghost faults = { λ l. l.faults };

    ghost told = { λ l. None };

    ghost sound = { λ l. false };

    ghost sure = { λ l. 0 };

    fn read(&mut self, into: &mut [u8]) -> Result<usize, Failed> {
        let answer = read_in_time(&mut self.stream, &mut self.waits, into);
        counted(&mut self.faults, answer)
    }

    fn write(&mut self, piece: &[u8]) -> Result<usize, Failed> {
        counted(&mut self.faults, write_some(&mut self.stream, piece))
    }
}
