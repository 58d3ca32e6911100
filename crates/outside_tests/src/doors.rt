//! The door in memory, and which of its calls fail.

use fz_outside::Failed;
use outside_doors::door::Doors;
use outside_doors::memory::MemDoors;
use outside_links::link::{Link, send};
use outside_links::memory::MemLink;
use std::collections::VecDeque;
use std::test::Fail;

// Two connections come in their order. Call 0 of a door is listed, and before it listens none comes; the third isn't there.
#[test]
fn each_call_once(rt: HostRuntime) -> Result<(), Fail> {
    let mut coming = VecDeque::new(rt.alloc());
    for bytes in [b"one".as_slice(), b"two".as_slice()] {
        let _ = coming.push_back(MemLink::new(rt.alloc(), bytes, 8, 8, &[])?);
    }
    let mut doors = MemDoors::new(rt.alloc(), coming, &[0])?;
    assert!(rt; doors.listen("here", 7) == Err(Failed));
    assert!(rt; doors.next().is_err());
    assert!(rt; doors.port().is_none() && doors.addr().is_empty());
    assert!(rt; doors.listen("here", 8) == Ok(()));
    assert!(rt; doors.port() == Some(8) && doors.addr() == b"here".as_slice());
    let first = doors.next()?;
    doors.done(first);
    let mut second = doors.next()?;
    let mut buf = [0; 3];
    assert!(rt; second.read(&mut buf)? == 3 && &buf == b"two");
    send(&mut second, b"2\n")?;
    doors.done(second);
    assert!(rt; doors.next().is_err());
    let served = doors.served();
    assert!(rt; served.len() == 2);
    assert!(rt; served[0].left() == b"one".as_slice() && served[0].written().is_empty());
    assert!(rt; served[1].left().is_empty() && served[1].written() == b"2\n".as_slice());
    assert!(rt; doors.faults() == 3);
    Ok(())
}
