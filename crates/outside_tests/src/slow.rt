//! Connections whose peer sends and takes bit by bit, on a clock of their own.

use outside_doors::real::RealLink;
use outside_doors::waits::Limits;
use outside_links::link::{Link, send};
use std::io;
use std::io::{ErrorKind, Read, Write};
use std::net::OpenStream;
use std::sync::atomic::{AtomicU64, Ordering};
use std::test::Fail;
use std::time::{Clock, Duration};

// A clock that goes on where it is told.
#[derive(Drop)]
struct Told {
    seconds: AtomicU64,
}

impl Clock for Told {
    fn monotonic(&self) -> io::Result<Duration> {
        Ok(Duration::from_secs(self.seconds.load(Ordering::SeqCst)))
    }

    fn since_1970(&self) -> io::Result<Duration> {
        self.monotonic()
    }
}

// A peer for each of whose bytes so many seconds go by. Every other call is interrupted, after one second.
#[derive(Drop)]
struct Slow<'a> {
    clock: &'a Told,
    seconds: u64,
    interrupted: bool,
}

impl Slow<'_> {
    fn pass(&mut self, size: usize) -> io::Result<usize> {
        self.interrupted = !self.interrupted;
        if self.interrupted {
            self.clock.seconds.fetch_add(1, Ordering::SeqCst);
            return Err(ErrorKind::Interrupted.into());
        }
        self.clock.seconds.fetch_add(self.seconds, Ordering::SeqCst);
        Ok(size.min(1))
    }
}

impl Read for Slow<'_> {
    fn read(&mut self, buf: &mut [u8]) -> io::Result<usize> {
        Ok(self.pass(buf.len())?.min(buf.len()))
    }
}

impl Write for Slow<'_> {
    fn write(&mut self, buf: &[u8]) -> io::Result<usize> {
        Ok(self.pass(buf.len())?.min(buf.len()))
    }

    fn flush(&mut self) -> io::Result<()> {
        Ok(())
    }
}

impl OpenStream for Slow<'_> {
    fn set_read_timeout(&self, _dur: Option<Duration>) -> io::Result<()> {
        Ok(())
    }

    fn set_write_timeout(&self, _dur: Option<Duration>) -> io::Result<()> {
        Ok(())
    }
}

fn reads<L: Link>(link: &mut L) -> u32 {
    let mut buf = [0; 4];
    let mut count = 0u32;
    for _ in 0..9999 {
        match link.read(&mut buf) {
            Ok(1) => count = count.saturating_add(1),
            _ => return count,
        }
    }
    count
}

// A byte comes every ten seconds: three of the first line are in time. Three of a reply are taken in time.
#[test]
fn first_line_and_reply(rt: HostRuntime) -> Result<(), Fail> {
    let clock = Told {
        seconds: AtomicU64::new(0),
    };
    let peer = Slow {
        clock: &clock,
        seconds: 9,
        interrupted: false,
    };
    let mut link = RealLink::new(&clock, peer, Limits::of_service());
    assert!(rt; reads(&mut link) == 3);
    assert!(rt; send(&mut link, b"abcd").is_err());
    assert!(rt; clock.seconds.load(Ordering::SeqCst) == 60);
    Ok(())
}

// 60 bytes of a later line are in time, and a whole reply begins the next one's.
#[test]
fn from_a_reply_to_the_next_line(rt: HostRuntime) -> Result<(), Fail> {
    let clock = Told {
        seconds: AtomicU64::new(0),
    };
    let peer = Slow {
        clock: &clock,
        seconds: 9,
        interrupted: false,
    };
    let mut link = RealLink::new(&clock, peer, Limits::of_service());
    assert!(rt; send(&mut link, b"a").is_ok());
    assert!(rt; reads(&mut link) == 60);
    // what passes between two calls counts in none
    clock.seconds.fetch_add(100_000, Ordering::SeqCst);
    assert!(rt; send(&mut link, b"ab").is_ok());
    assert!(rt; reads(&mut link) == 60);
    Ok(())
}

// An hour in all.
#[test]
fn an_hour_in_all(rt: HostRuntime) -> Result<(), Fail> {
    let clock = Told {
        seconds: AtomicU64::new(0),
    };
    let peer = Slow {
        clock: &clock,
        seconds: 9,
        interrupted: false,
    };
    let mut link = RealLink::new(&clock, peer, Limits::of_service());
    let mut replies = 0u32;
    for _ in 0..9999 {
        if send(&mut link, b"a").is_err() {
            break;
        }
        replies = replies.saturating_add(1);
    }
    assert!(rt; replies == 360);
    assert!(rt; reads(&mut link) == 0);
    Ok(())
}
