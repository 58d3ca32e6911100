//! Doors and connections of the system, over TCP. They tell nothing of what comes, and count each error of the system.

ghost use Rattle.std.specs.Prelude.{◌≡◌, ⊤, ◌≤◌, length, None, IfOk};
ghost use Rattle.outside_doors.specs.Waits.{AreOfService};

use crate::door::Doors;
use crate::waits::{DRAIN, Limits, PAUSE, SPELL, TRIES, Waits};
use fz_outside::Failed;
use outside_links::fault;
use outside_links::link::Link;
use std::io::{ErrorKind, Read, Write};
use std::net::{Net, OpenListener, OpenStream, Shutdown, TcpListener, TcpStream};
use std::time::{Clock, Duration, Instant};
use std::{io, thread};

// How many bytes are drained at once.
const PIECE: usize = 8192;

/// A connection of the system. A call fails where the peer was waited for too long, and goes on after an interrupt.
#[derive(Drop)]
pub struct RealLink<'a, R, S> {
    clock: &'a R,
    stream: S,
    waits: Waits,
    faults: u64,
}

impl<'a, R: Clock, S: Read + Write + OpenStream> RealLink<'a, R, S> {
    /// A connection over this stream, whose peer is waited for within these limits. It has not failed yet.
    pub fn new(clock: &'a R, stream: S, limits: Limits) -> Self
        ensures { ⟦<RealLink<'a, R, S> as Link>⟧.faults result ≡ 0 }
    {
        RealLink {
            clock,
            stream,
            waits: Waits::new(limits),
            faults: 0,
        }
    }
}

// The microseconds since a moment, those begun included.
fn micros_since<R: Clock>(clock: &R, start: Instant) -> io::Result<u64> {
    let micros = start.elapsed(clock)?.as_micros();
    Ok(u64::try_from(micros).unwrap_or(u64::MAX).saturating_add(1))
}

// How long may be waited at once, or the error that says that it was long enough. A system may end a long wait later by some hundredths
// of it, so it is waited for a second at a time.
fn within(left: u64) -> io::Result<Option<Duration>> {
    if left == 0 {
        return Err(ErrorKind::TimedOut.into());
    }
    Ok(Some(Duration::from_micros(left.min(SPELL))))
}

// Whether a call is made again after such an error: it was interrupted, or nothing came in the time that is waited at once.
fn goes_on(kind: ErrorKind) -> bool {
    matches!(
        kind,
        ErrorKind::Interrupted | ErrorKind::WouldBlock | ErrorKind::TimedOut
    )
}

// Reads what comes within the limits.
fn read_within<R: Clock, S: Read + OpenStream>(
    clock: &R,
    stream: &mut S,
    waits: &mut Waits,
    buf: &mut [u8],
) -> io::Result<usize>
    ensures bound { IfOk result (λ n. n ≤ length buf.old) }
{
    for _ in 0..u64::MAX {
        stream.set_read_timeout(within(waits.left_to_read())?)?;
        let start = Instant::now(clock)?;
        let answer = stream.read(buf);
        waits.read(micros_since(clock, start)?);
        match answer {
            Err(e) if goes_on(e.kind()) => {}
            answer => return answer,
        }
    }
    Err(ErrorKind::TimedOut.into())
}

// Writes what is taken within the limits.
fn write_within<R: Clock, S: Write + OpenStream>(
    clock: &R,
    stream: &mut S,
    waits: &mut Waits,
    piece: &[u8],
) -> io::Result<usize>
    ensures bound { IfOk result (λ n. n ≤ length piece.now) }
{
    for _ in 0..u64::MAX {
        stream.set_write_timeout(within(waits.left_to_write())?)?;
        let start = Instant::now(clock)?;
        let answer = stream.write(piece);
        let took = micros_since(clock, start)?;
        waits.wrote(took, matches!(&answer, Ok(n) if *n == piece.len()));
        match answer {
            Err(e) if goes_on(e.kind()) => {}
            answer => return answer,
        }
    }
    Err(ErrorKind::TimedOut.into())
}

impl<R: Clock, S: Read + Write + OpenStream> Link for RealLink<'_, R, S> {
    ghost left = { λ _. None };

    ghost written = { λ _. None };

    ghost faults = { λ link. link.faults };

    fn read(&mut self, buf: &mut [u8]) -> Result<usize, Failed> {
        match read_within(self.clock, &mut self.stream, &mut self.waits, buf) {
            Ok(n) => Ok(n),
            Err(_) => Err(fault(&mut self.faults)),
        }
    }

    fn write(&mut self, piece: &[u8]) -> Result<usize, Failed> {
        match write_within(self.clock, &mut self.stream, &mut self.waits, piece) {
            Ok(n) if n > 0 || piece.is_empty() => Ok(n),
            _ => Err(fault(&mut self.faults)),
        }
    }
}

// Whether an error of `accept` says that the listener is none. Each other one is of a single connection, or wants for something that
// others hold, as numbers of files.
fn is_final(kind: ErrorKind) -> bool {
    matches!(kind, ErrorKind::InvalidInput | ErrorKind::Unsupported)
}

/// The next connection of a listener. After an error that passes it tries again, with a pause before.
pub fn accept<R: Clock, L: OpenListener>(clock: &R, listener: &L) -> io::Result<L::Stream> {
    for _ in 0..TRIES {
        match listener.accept() {
            Ok((stream, _)) => return Ok(stream),
            Err(e) if is_final(e.kind()) => return Err(e),
            Err(_) => thread::sleep(clock, Duration::from_micros(PAUSE)),
        }
    }
    Err(ErrorKind::TimedOut.into())
}

// Says that nothing more is sent, and reads away what the peer has sent behind what was answered, for a while: a connection that is
// dropped over bytes that weren't read takes back replies that are on their way.
fn hang_up<R: Clock, S: Read + OpenStream>(clock: &R, stream: &mut S) -> io::Result<()> {
    stream.shutdown(Shutdown::Write)?;
    let start = Instant::now(clock)?;
    let mut buffer = [0u8; PIECE];
    for _ in 0..u64::MAX {
        let left = DRAIN.saturating_sub(micros_since(clock, start)?);
        stream.set_read_timeout(within(left)?)?;
        match stream.read(&mut buffer) {
            Ok(0) => return Ok(()),
            Err(e) if e.kind() != ErrorKind::Interrupted => return Err(e),
            _ => {}
        }
    }
    Ok(())
}

/// A door of the system.
#[derive(Drop)]
pub struct RealDoors<'a, R> {
    rt: &'a R,
    listener: Option<TcpListener>,
    limits: Limits,
    faults: u64,
}

impl<'a, R: Net<Listener = TcpListener, Stream = TcpStream> + Clock> RealDoors<'a, R> {
    /// A door that doesn't listen yet. Who comes is waited for within the limits of the service.
    pub fn new(rt: &'a R) -> Self
        ensures limits { AreOfService result.limits }
        ensures faults { ⟦<RealDoors<'a, R> as Doors>⟧.faults result ≡ 0 }
    {
        RealDoors::within(rt, Limits::of_service())
    }

    /// A door whose peers are waited for within these limits.
    pub fn within(rt: &'a R, limits: Limits) -> Self
        ensures limits { result.limits ≡ limits }
        ensures faults { ⟦<RealDoors<'a, R> as Doors>⟧.faults result ≡ 0 }
    {
        RealDoors {
            rt,
            listener: None,
            limits,
            faults: 0,
        }
    }

    /// The port at which it listens: where it was to listen at port 0, the one that the system has chosen.
    pub fn port(&self) -> Option<u16> {
        let listener = self.listener.as_ref()?;
        Some(listener.local_addr().ok()?.port())
    }

    // The next connection, whose replies go out at once.
    fn come(&self) -> io::Result<RealLink<'a, R, TcpStream>> {
        let Some(listener) = &self.listener else {
            return Err(ErrorKind::NotConnected.into());
        };
        let stream = accept(self.rt, listener)?;
        let _ = stream.set_nodelay(true);
        Ok(RealLink::new(self.rt, stream, self.limits))
    }
}

impl<'a, R: Net<Listener = TcpListener, Stream = TcpStream> + Clock> Doors for RealDoors<'a, R> {
    type L = RealLink<'a, R, TcpStream>;

    ghost coming = { λ _. None };

    ghost served = { λ _. None };

    ghost is_out = { λ _. ⊤ };

    ghost listens = { λ _ _ _. ⊤ };

    ghost faults = { λ doors. doors.faults };

    fn listen(&mut self, addr: &str, port: u16) -> Result<(), Failed> {
        match TcpListener::bind(self.rt, (addr, port)) {
            Ok(listener) => {
                self.listener = Some(listener);
                Ok(())
            }
            Err(_) => Err(fault(&mut self.faults)),
        }
    }

    fn next(&mut self) -> Result<RealLink<'a, R, TcpStream>, Failed> {
        match self.come() {
            Ok(link) => Ok(link),
            Err(_) => Err(fault(&mut self.faults)),
        }
    }

    fn done(&mut self, link: RealLink<'a, R, TcpStream>) {
        let failed = link.faults > 0;
        let mut stream = link.stream;
        // Nothing that is on its way is waited for over a connection that has failed, since then its peer was waited for long enough.
        if !failed {
            let _ = hang_up(self.rt, &mut stream);
        }
    }
}
