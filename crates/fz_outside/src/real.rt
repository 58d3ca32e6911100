//! The real outside: standard input and output, and files. It tells nothing of what it holds,
//! and counts each error of the system.
#![tactic(auto)]

ghost use Rattle.std.specs.Prelude.{◌≡◌, ℕ, [], None};

use crate::files::{FileRead, Files, read_whole};
use crate::names::{Name, Names};
use crate::sink::Sink;
use crate::source::Source;
use crate::{Failed, FileFault, fault};
use std::alloc::Global;
use std::io::{ErrorKind, Read, Write};
use std::{fs, rt};

/// What a reader of the system gives, as `RealSource::new(rt.reader())` for standard input.
#[derive(Drop)]
pub struct RealSource<R> {
    reader: R,
    faults: u64,
}

impl<R: Read> RealSource<R> {
    /// A source that has not failed yet.
    pub fn new(reader: R) -> Self
        ensures { ⟦<RealSource<R> as Source>⟧.faults result ≡ 0 }
    {
        RealSource { reader, faults: 0 }
    }
}

impl<R: Read> Source for RealSource<R> {
    ghost left = { λ _. None };

    ghost faults = { λ source. source.faults };

    fn read(&mut self, buf: &mut [u8]) -> Result<usize, Failed> {
        match self.reader.read(buf) {
            Ok(n) => Ok(n),
            Err(_) => Err(fault(&mut self.faults)),
        }
    }
}

/// What a writer of the system takes, as `RealSink::new(io::writer(&rt))` for standard output.
#[derive(Drop)]
pub struct RealSink<W> {
    writer: W,
    faults: u64,
}

impl<W: Write> RealSink<W> {
    /// A sink that has not failed yet.
    pub fn new(writer: W) -> Self
        ensures { ⟦<RealSink<W> as Sink>⟧.faults result ≡ 0 }
    {
        RealSink { writer, faults: 0 }
    }
}

impl<W: Write> Sink for RealSink<W> {
    ghost contents = { λ _. None };

    ghost faults = { λ sink. sink.faults };

    fn write(&mut self, piece: &[u8]) -> Result<usize, Failed> {
        match self.writer.write(piece) {
            Ok(n) if n > 0 || piece.is_empty() => Ok(n),
            _ => Err(fault(&mut self.faults)),
        }
    }
}

// Whether an error says that there is no such file: no such name, or a path that goes through a file.
fn is_absence(kind: ErrorKind) -> bool {
    matches!(kind, ErrorKind::NotFound | ErrorKind::NotADirectory)
}

/// The files of the system, by their paths.
#[derive(Drop)]
pub struct RealFiles<'a, R> {
    rt: &'a R,
    names: Names,
    faults: u64,
}

impl<'a, R: rt::Files> RealFiles<'a, R> {
    /// The files of this runtime, none of which has failed yet.
    pub fn new(rt: &'a R) -> Self
        ensures faults { ⟦<RealFiles<'a, R> as Files>⟧.faults result ≡ 0 }
        ensures unread { ⟦<RealFiles<'a, R> as Files>⟧.names result ≡ [] }
    {
        RealFiles {
            rt,
            names: Names::new(),
            faults: 0,
        }
    }
}

impl<R: rt::Files> Files for RealFiles<'_, R> {
    ghost held = { λ _. None };

    ghost names = { λ files. files.names.read };

    ghost faults = { λ files. files.faults };

    fn read(&mut self, alloc: Global, name: &str) -> Result<FileRead, FileFault> {
        self.names = self.names.and(&Name { text: name });
        let file = match fs::open(self.rt, name) {
            Ok(file) => file,
            Err(e) if is_absence(e.kind()) => return Ok(FileRead::Absent),
            Err(_) => return Err(fault(&mut self.faults).into()),
        };
        let mut source = RealSource {
            reader: file,
            faults: self.faults,
        };
        let read = read_whole(alloc, &mut source);
        self.faults = source.faults;
        read
    }
}
