//! A listener that lets nobody in at first.

use outside_doors::real::accept;
use std::io;
use std::net::{Ipv4Addr, OpenListener, SocketAddr};
use std::sync::atomic::{AtomicU64, Ordering};
use std::test::Fail;
use std::time::{Clock, Duration};

// A clock that only counts how long was slept, in milliseconds.
#[derive(Drop)]
struct Sleeps {
    millis: AtomicU64,
}

impl Clock for Sleeps {
    fn monotonic(&self) -> io::Result<Duration> {
        Ok(Duration::ZERO)
    }

    fn since_1970(&self) -> io::Result<Duration> {
        Ok(Duration::ZERO)
    }

    fn sleep(&self, duration: Duration) {
        let millis = u64::try_from(duration.as_millis()).unwrap_or(0);
        self.millis.fetch_add(millis, Ordering::SeqCst);
    }
}

// A listener whose first calls fail with this error of the system.
#[derive(Drop)]
struct Busy {
    error: i32,
    failing: u64,
    calls: AtomicU64,
}

impl OpenListener for Busy {
    type Stream = u8;

    fn accept(&self) -> io::Result<(u8, SocketAddr)> {
        if self.calls.fetch_add(1, Ordering::SeqCst) < self.failing {
            return Err(io::Error::from_raw_os_error(self.error));
        }
        Ok((5, SocketAddr::from((Ipv4Addr::LOCALHOST, 1))))
    }
}

// An error of the system, how many calls fail with it, whether a connection comes, and how long was slept.
struct Row {
    error: i32,
    failing: u64,
    comes: bool,
    slept: u64,
}

const ABORTED: i32 = 103;

const TOO_MANY_FILES: i32 = 24;

const NO_BUFFERS: i32 = 105;

const INVALID: i32 = 22;

static ROWS: [Row; 7] = [
    Row {
        error: ABORTED,
        failing: 0,
        comes: true,
        slept: 0,
    },
    Row {
        error: ABORTED,
        failing: 1,
        comes: true,
        slept: 100,
    },
    Row {
        error: NO_BUFFERS,
        failing: 3,
        comes: true,
        slept: 300,
    },
    Row {
        error: TOO_MANY_FILES,
        failing: 5999,
        comes: true,
        slept: 599_900,
    },
    Row {
        error: TOO_MANY_FILES,
        failing: 6000,
        comes: false,
        slept: 600_000,
    },
    Row {
        error: INVALID,
        failing: 1,
        comes: false,
        slept: 0,
    },
    Row {
        error: TOO_MANY_FILES,
        failing: u64::MAX,
        comes: false,
        slept: 600_000,
    },
];

#[test]
fn errors_that_pass(rt: HostRuntime) -> Result<(), Fail> {
    for row in &ROWS {
        let clock = Sleeps {
            millis: AtomicU64::new(0),
        };
        let busy = Busy {
            error: row.error,
            failing: row.failing,
            calls: AtomicU64::new(0),
        };
        assert!(rt; accept(&clock, &busy).is_ok() == row.comes);
        assert!(rt; clock.millis.load(Ordering::SeqCst) == row.slept);
    }
    Ok(())
}
