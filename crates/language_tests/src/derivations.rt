//! The lines of derivations.

use derivation_lines::line::JudgeFault;
use derivation_lines::lines::read_lines;
use fz_ast::Arena;
use std::alloc::{AllocError, Global};
use std::test::Fail;

// Lines, of which one says the most names, so many; or the line at fault.
#[derive(Clone, Copy, Debug, PartialEq)]
enum Outcome {
    Read(usize),
    At(usize),
    NoMemory,
}

use Outcome::{At, Read};

fn read(alloc: Global, bytes: &[u8], count: usize) -> Outcome {
    if bytes.len() > 67108864 {
        return Outcome::NoMemory;
    }
    let mut arena = Arena::new(alloc);
    match read_lines(alloc, &mut arena, bytes, count) {
        Ok(lines) => Read(lines.iter().map(|line| line.says.len()).max().unwrap_or(0)),
        Err(JudgeFault::Line { at }) => At(at),
        Err(JudgeFault::NoMemory) => Outcome::NoMemory,
    }
}

// Bytes, how many lines are wanted, and what comes of them.
#[rattlefmt::skip]
static LINES: [(&[u8], usize, Outcome); 46] = [
    (b"", 0, Read(0)),
    (b"", 1, At(0)),
    (b"\n", 0, At(0)),
    (b"\n", 1, At(0)),
    (b"num\n", 1, Read(0)),
    (b"num", 1, At(0)),
    (b"num\nnum", 1, At(1)),
    (b"num\nnum", 2, At(1)),
    (b"num\n\n", 1, At(1)),
    (b"num\nnum\n", 1, At(1)),
    (b"num\nnum\n", 2, Read(0)),
    (b"num\nnum\n", 3, At(2)),
    (b"nun\nnum\n", 1, At(0)),
    (b"num | people 1\nbag num | people 1\n", 2, Read(1)),
    (b"num|people 1\n", 1, Read(1)),
    (b"\t num \r|\tpeople  1 / 2 \r\n", 1, Read(1)),
    (b"bool -> (num)\n", 1, Read(0)),
    (b"num | people inf\n", 1, Read(1)),
    (b"num | people 4294967295 / 4294967295\n", 1, Read(1)),
    (b"num | people 4294967296\n", 1, At(0)),
    (b"num | people 1/4294967296\n", 1, At(0)),
    (b"num | people 0\n", 1, At(0)),
    (b"num | people 1/0\n", 1, At(0)),
    (b"num | people\n", 1, At(0)),
    (b"num | 1\n", 1, At(0)),
    (b"num |\n", 1, At(0)),
    (b"num | \n", 1, At(0)),
    (b"| people 1\n", 1, At(0)),
    (b"num || people 1\n", 1, At(0)),
    (b"num | people 1 |\n", 1, At(0)),
    (b"num | people 1 1\n", 1, At(0)),
    (b"num | people 1,\n", 1, At(0)),
    (b"num | fun 1\n", 1, At(0)),
    (b"num | a 1 | b 1\n", 1, Read(2)),
    (b"num | b 1 | a 1\n", 1, At(0)),
    (b"num | a 1 | a 1\n", 1, At(0)),
    (b"num | B 1 | a 1\n", 1, Read(2)),
    (b"num | a 1 | B 1\n", 1, At(0)),
    (b"num | a 1 | aa 1 | b 1\n", 1, Read(3)),
    (b"num | aa 1 | a 1\n", 1, At(0)),
    (b"num | a 1 | c 1 | b 1\n", 1, At(0)),
    (b"num | abcdefghijklmnopqrstuvwxyz012345 1\n", 1, Read(1)),
    (b"num | abcdefghijklmnopqrstuvwxyz0123456 1\n", 1, At(0)),
    (b"num num\n", 1, At(0)),
    (b"num # no type\n", 1, At(0)),
    (b"![2/1] num | a 2/4\n", 1, Read(1)),
];

#[test]
fn lines(rt: HostRuntime) {
    for (bytes, count, wanted) in &LINES {
        assert_eq!(rt; read(rt.alloc(), *bytes, *count), *wanted);
    }
}

// A bag of bags, so many.
fn bags(alloc: Global, most: usize) -> Result<Vec<u8>, AllocError> {
    let mut text = Vec::new(alloc);
    for _ in 0..most {
        text.extend_from_slice(b"bag ")?;
    }
    text.extend_from_slice(b"num\n")?;
    Ok(text)
}

// So many names, which rise.
fn names(alloc: Global, most: usize) -> Result<Vec<u8>, AllocError> {
    let mut text = Vec::new(alloc);
    text.extend_from_slice(b"num")?;
    for i in 0..most {
        let said = format!(in alloc; " | n{i:07} 1")?;
        text.extend_from_slice(said.as_bytes())?;
    }
    text.extend_from_slice(b"\n")?;
    Ok(text)
}

#[test]
fn long_lines(rt: HostRuntime) -> Result<(), Fail> {
    let bags = bags(rt.alloc(), 1000000)?;
    assert!(rt; read(rt.alloc(), &bags, 1) == Read(0));
    let names = names(rt.alloc(), 1000000)?;
    assert!(rt; read(rt.alloc(), &names, 1) == Read(1000000));
    Ok(())
}
