//! The connection in memory, and which of its calls fail.

use fz_outside::Failed;
use outside_links::link::{Link, send};
use outside_links::memory::MemLink;
use std::test::Fail;

// What a read gives, and the first two bytes of the buffer then.
type Read = (Result<usize, Failed>, &'static [u8]);

fn gives(link: &mut MemLink, reads: &[Read]) -> bool {
    let mut buf = [0; 8];
    for (want, bytes) in reads {
        if link.read(&mut buf) != *want || &buf[..2] != *bytes {
            return false;
        }
    }
    true
}

// Pieces of two bytes, and the second call fails.
static READS: [Read; 4] = [
    (Ok(2), b"ab"),
    (Err(Failed), b"ab"),
    (Ok(1), b"cb"),
    (Ok(0), b"cb"),
];

// Whether each write takes so many bytes.
fn takes(link: &mut MemLink, writes: &[(&'static [u8], Result<usize, Failed>)]) -> bool {
    for (piece, want) in writes {
        if link.write(piece) != *want {
            return false;
        }
    }
    true
}

// Calls 1 and 5 are listed, and there is room for five bytes: a call that fails changes nothing, a write takes what there is
// room for, and then none.
#[test]
fn calls_by_number(rt: HostRuntime) -> Result<(), Fail> {
    let mut link = MemLink::new(rt.alloc(), b"abc", 5, 2, &[1, 5])?;
    assert!(rt; gives(&mut link, &READS));
    assert!(rt; link.left().is_empty());
    assert!(rt; takes(&mut link, &[(b"xyz", Ok(2)), (b"z", Err(Failed))]));
    assert!(rt; send(&mut link, b"zuv!") == Err(Failed));
    assert!(rt; takes(&mut link, &[(b"", Ok(0))]));
    assert!(rt; link.written() == b"xyzuv".as_slice());
    assert!(rt; link.faults() == 3 && link.calls() == 10);
    Ok(())
}
