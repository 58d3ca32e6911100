//! Connections over loopback, with what peers may do to them.

use fz_outside::Failed;
use outside_doors::door::Doors;
use outside_doors::real::{RealDoors, RealLink};
use outside_doors::waits::Limits;
use outside_links::link::{Link, send};
use std::alloc::Global;
use std::io;
use std::io::{Read, Write};
use std::net::{Net, Shutdown, TcpListener, TcpStream};
use std::test::Fail;
use std::thread::join;
use std::time::{Clock, Instant};

const ADDRESS: &str = "127.0.0.1";

// A fifth of a second for each wait.
const SHORT: Limits = Limits {
    first_line: 200_000,
    next_line: 200_000,
    reply: 200_000,
    in_all: 60_000_000,
};

// A door that listens, and its port.
fn open<R: Net<Listener = TcpListener, Stream = TcpStream> + Clock>(
    rt: &R,
    limits: Limits,
) -> Result<(RealDoors<'_, R>, u16), Failed> {
    let mut doors = RealDoors::within(rt, limits);
    doors.listen(ADDRESS, 0)?;
    match doors.port() {
        Some(port) => Ok((doors, port)),
        None => Err(Failed),
    }
}

// Reads so many bytes, or what comes until the end.
fn take<L: Link>(link: &mut L, most: usize) -> Result<usize, Failed> {
    let mut buf = [0; 8192];
    let mut taken = 0usize;
    for _ in 0..most {
        let room = most.saturating_sub(taken).min(buf.len());
        let n = link.read(&mut buf[..room])?;
        if n == 0 {
            break;
        }
        taken = taken.saturating_add(n);
    }
    Ok(taken)
}

#[test]
fn a_port_in_use(rt: HostRuntime) -> Result<(), Fail> {
    let (doors, port) = open(&rt, SHORT)?;
    let mut other = RealDoors::new(&rt);
    assert!(rt; other.next().is_err());
    assert!(rt; other.listen(ADDRESS, port) == Err(Failed));
    assert!(rt; other.port().is_none());
    assert!(rt; doors.port() == Some(port));
    Ok(())
}

// A peer that has said all has every reply, and then the end.
#[test]
fn a_peer_that_half_closes(rt: HostRuntime) -> Result<(), Fail> {
    let (mut doors, port) = open(&rt, SHORT)?;
    let mut peer = TcpStream::connect(&rt, (ADDRESS, port))?;
    let mut link = doors.next()?;
    peer.write_all(b"one\ntwo\n")?;
    peer.shutdown(Shutdown::Write)?;
    assert!(rt; take(&mut link, 100)? == 8);
    send(&mut link, b"1\n2\n")?;
    doors.done(link);
    assert!(rt; io::read_to_string(rt.alloc(), peer)?.as_str() == "1\n2\n");
    Ok(())
}

// A stream that is dropped over bytes that weren't read is reset.
#[test]
fn a_peer_that_resets(rt: HostRuntime) -> Result<(), Fail> {
    let (mut doors, port) = open(&rt, SHORT)?;
    let peer = TcpStream::connect(&rt, (ADDRESS, port))?;
    let mut link = doors.next()?;
    send(&mut link, b"1\n")?;
    assert!(rt; peer.peek(&mut [0])? == 1);
    drop(peer);
    assert!(rt; take(&mut link, 100) == Err(Failed));
    doors.done(link);
    let _next = TcpStream::connect(&rt, (ADDRESS, port))?;
    assert!(rt; doors.next().is_ok());
    Ok(())
}

// A call fails after the limit, and each later one at once.
#[test]
fn a_peer_that_never_writes(rt: HostRuntime) -> Result<(), Fail> {
    let (mut doors, port) = open(&rt, SHORT)?;
    let _peer = TcpStream::connect(&rt, (ADDRESS, port))?;
    let mut link = doors.next()?;
    let start = Instant::now(&rt)?;
    assert!(rt; take(&mut link, 1) == Err(Failed));
    assert!(rt; start.elapsed(&rt)?.as_millis() >= 200);
    assert!(rt; take(&mut link, 1) == Err(Failed));
    Ok(())
}

// Replies fill what the system keeps for the peer, and then one isn't taken.
#[test]
fn a_peer_that_never_reads(rt: HostRuntime) -> Result<(), Fail> {
    let (mut doors, port) = open(&rt, SHORT)?;
    let _peer = TcpStream::connect(&rt, (ADDRESS, port))?;
    let mut link = doors.next()?;
    let block = [b'x'; 65536];
    let mut taken = 0u32;
    for _ in 0..10_000 {
        if send(&mut link, &block).is_err() {
            break;
        }
        taken = taken.saturating_add(1);
    }
    assert!(rt; 0 < taken && taken < 10_000);
    assert!(rt; send(&mut link, b"x") == Err(Failed));
    Ok(())
}

// Serves one connection: takes so many bytes, replies once, and hangs up.
fn serve_one<R: Net<Listener = TcpListener, Stream = TcpStream> + Clock>(
    doors: &mut RealDoors<'_, R>,
    most: usize,
) -> Result<usize, Failed> {
    let mut link = doors.next()?;
    let taken = take(&mut link, most)?;
    send(&mut link, b"bye\n")?;
    doors.done(link);
    Ok(taken)
}

// Sends so many bytes and reads to the end. The reply that came, and nothing else.
fn is_told_bye<R: Net<Listener = TcpListener, Stream = TcpStream>>(
    rt: &R,
    alloc: Global,
    port: u16,
    size: usize,
) -> io::Result<bool> {
    let mut stream = TcpStream::connect(rt, (ADDRESS, port))?;
    let block = [b'x'; 65536];
    let mut left = size;
    while left > 0 {
        let n = left.min(block.len());
        stream.write_all(&block[..n])?;
        left -= n;
    }
    Ok(io::read_to_string(alloc, stream)?.as_str() == "bye\n")
}

// How many bytes a peer sends, how many are read, and that it has the reply all the same.
static SENT: [(usize, usize); 2] = [(16_777_217, 16_777_217), (300_000, 4)];

#[test]
fn peers_that_send_much(rt: HostRuntime) -> Result<(), Fail> {
    for (sent, wanted) in SENT {
        let (mut doors, port) = open(&rt, Limits::of_service())?;
        let alloc = rt.alloc();
        let (taken, told) = join(
            &rt,
            || serve_one(&mut doors, wanted),
            || is_told_bye(&rt, alloc, port, sent),
        );
        assert!(rt; taken? == wanted);
        assert!(rt; told?);
    }
    Ok(())
}
