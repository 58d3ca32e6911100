//! Commands over files, journals and connections in memory.

ghost use Rattle.std.specs.Prelude.{◌≤◌, length, IfOk};

use fz_outside::files::{MemFile, MemFiles};
use fz_outside::flaky::{Flaky, Schedule};
use fz_outside::sink::MemSink;
use fz_outside::source::MemSource;
use memory_runs::doors::{DOORS, ROOM_OF_LINK, doors_behind};
use memory_runs::journals::{LARGE, MemJournals, journals_on, mirrored_journals_on};
use memory_runs::{ROOM, Status, is_mirrored, words_of};
use outside_disks::disks::Disks as Home;
use outside_disks::memory::{Limits, MemDisk, Torn};
use outside_doors::memory::MemDoors;
use outside_links::memory::MemLink;
use std::alloc::{AllocError, Global};
use std::collections::VecDeque;
use std::sync::Wait;
use std::thread::Threads;

/// A file's name and bytes.
#[derive(Drop)]
pub struct Held {
    pub name: String,
    pub bytes: Vec<u8>,
}

/// A command's words, and its input: the script, or the bytes of each connection.
#[derive(Drop)]
pub struct Command {
    pub words: String,
    pub inputs: Vec<Vec<u8>>,
}

/// The bytes of the journals of owners 0 and 1, and of their mirrors.
#[derive(Drop)]
pub struct Disks {
    pub first: Vec<u8>,
    pub second: Vec<u8>,
    pub first_mirror: Vec<u8>,
    pub second_mirror: Vec<u8>,
}

/// Which calls fail, how many calls owner 0's disk and its mirror take, what a stop makes of them then, and how many bytes a connection takes.
#[derive(Drop)]
pub struct Faults {
    pub calls: u32,
    pub mirror_calls: u32,
    pub torn: Option<Torn>,
    pub mirror_torn: Option<Torn>,
    pub room: usize,
    pub first: Vec<u64>,
    pub mirror: Vec<u64>,
    pub second: Vec<u64>,
    pub bay: Vec<u64>,
    pub files: Vec<u64>,
    pub source: Vec<u64>,
    pub sink: Vec<u64>,
    pub link: Vec<u64>,
}

impl Faults {
    /// None.
    pub fn new(alloc: Global) -> Faults {
        Faults {
            calls: LARGE.calls,
            mirror_calls: LARGE.calls,
            torn: None,
            mirror_torn: None,
            room: ROOM_OF_LINK,
            first: Vec::new(alloc),
            mirror: Vec::new(alloc),
            second: Vec::new(alloc),
            bay: Vec::new(alloc),
            files: Vec::new(alloc),
            source: Vec::new(alloc),
            sink: Vec::new(alloc),
            link: Vec::new(alloc),
        }
    }
}

/// What stands around a command: the files, and how many bytes a call of source, sink or connection passes.
#[derive(Drop)]
pub struct Outside {
    pub files: Vec<Held>,
    pub piece: usize,
}

// A source, a sink or files that pass so many bytes a call, one at least, and fail these calls.
fn flaky<T>(inner: T, piece: usize, failing: &[u64]) -> Flaky<'_, T> {
    let piece = if piece == 0 { 1 } else { piece };
    Flaky {
        inner,
        piece,
        schedule: Schedule {
            failing,
            calls: 0,
            faults: 0,
        },
    }
}

// The words of a command: none where its line is empty.
fn split_words(alloc: Global, line: &str) -> Result<Vec<String>, AllocError> {
    if line.is_empty() {
        return Ok(Vec::new(alloc));
    }
    let texts: Vec<&str> = line.split(' ').collect(alloc)?;
    words_of(alloc, &texts)
}

// The files as a command finds them.
fn found<'a>(alloc: Global, files: &'a [Held]) -> Result<Vec<MemFile<'a>>, AllocError> {
    let mut held = Vec::new(alloc);
    for file in files {
        held.push(MemFile {
            name: &file.name,
            bytes: &file.bytes,
        })?;
    }
    Ok(held)
}

// A door to which connections of these bytes come, and others to which nobody does.
fn doors_of<'a>(
    alloc: Global,
    inputs: &'a [Vec<u8>],
    piece: usize,
    faults: &'a Faults,
) -> Result<Vec<MemDoors<'a>>, AllocError>
    ensures { IfOk result (λ doors. DOORS ≤ length doors.items) }
{
    let door = door_of(alloc, inputs, piece, faults)?;
    doors_behind(alloc, vec![in alloc; door]?)
}

// A door to which connections of these bytes come.
fn door_of<'a>(
    alloc: Global,
    inputs: &'a [Vec<u8>],
    piece: usize,
    faults: &'a Faults,
) -> Result<MemDoors<'a>, AllocError> {
    let piece = if piece == 0 { 1 } else { piece };
    let mut coming = VecDeque::new(alloc);
    for input in inputs {
        let link = MemLink::new(alloc, input, faults.room, piece, &faults.link)?;
        coming.push_back(link)?;
    }
    MemDoors::new(alloc, coming, &[])
}

// Puts each line of a text at the end, after `before`. One that isn't ended has a backslash after it.
fn push_lines(out: &mut Vec<u8>, text: &[u8], before: &[u8]) -> Result<(), AllocError> {
    for line in text.split_inclusive(|byte| *byte == b'\n') {
        out.extend_from_slice(before)?;
        match line.strip_suffix(b"\n") {
            Some(whole) => out.extend_from_slice(whole)?,
            None => {
                out.extend_from_slice(line)?;
                out.push(b'\\')?;
            }
        }
    }
    Ok(())
}

// Puts at the end what was written over a connection, after how many calls failed and how many bytes weren't read, where there are any.
fn push_link(
    out: &mut Vec<u8>,
    alloc: Global,
    link: &MemLink<'_>,
    before: &[u8],
) -> Result<(), AllocError> {
    let (faults, left) = (link.faults(), link.left().len());
    let line = if faults == 0 && left == 0 {
        String::from_str(alloc, "--\n")?
    } else {
        format!(in alloc; "-- {faults} failed, {left} unread\n")?
    };
    push_lines(out, line.as_bytes(), before)?;
    push_lines(out, link.written(), before)
}

// Puts at the end what was written over the connections of a door.
fn push_served(
    out: &mut Vec<u8>,
    alloc: Global,
    doors: &[MemDoors<'_>],
    before: &[u8],
) -> Result<(), AllocError> {
    let Some(door) = doors.first() else {
        return Ok(());
    };
    for link in door.served() {
        push_link(out, alloc, link, before)?;
    }
    Ok(())
}

// Puts the status of a command and what it wrote at the end.
fn push_outcome(
    out: &mut Vec<u8>,
    alloc: Global,
    status: Status,
    written: &[u8],
    doors: &[MemDoors<'_>],
    before: &[u8],
) -> Result<(), AllocError> {
    let code = status.code();
    let line = format!(in alloc; "= {code}")?;
    out.extend_from_slice(line.as_bytes())?;
    push_lines(out, written, before)?;
    push_served(out, alloc, doors, before)?;
    out.push(b'\n')?;
    Ok(())
}

// How a command of these words ends over these journals.
fn status_of<R: Threads + Wait + Sync>(
    rt: &R,
    alloc: Global,
    outside: &Outside,
    faults: &Faults,
    journals: &mut MemJournals<'_>,
    words: &[String],
    held: &[MemFile<'_>],
    script: &[u8],
    sink: &mut Flaky<'_, MemSink<ROOM>>,
    doors: &mut Vec<MemDoors<'_>>,
) -> Status
    requires doors { DOORS ≤ length doors.old.items }
{
    let mut files = flaky(MemFiles::new(held), outside.piece, &faults.files);
    let mut source = flaky(MemSource::new(script), outside.piece, &faults.source);
    journals.ran_over(rt, alloc, words, &mut files, &mut source, sink, doors)
}

// Does a command over these journals, and puts its status and what it wrote at the end.
fn run_one<R: Threads + Wait + Sync>(
    rt: &R,
    alloc: Global,
    outside: &Outside,
    faults: &Faults,
    journals: &mut MemJournals<'_>,
    command: &Command,
    before: &[u8],
    out: &mut Vec<u8>,
) -> Result<(), AllocError> {
    let words = split_words(alloc, &command.words)?;
    let held = found(alloc, &outside.files)?;
    let mut sink = flaky(MemSink::<ROOM>::new(alloc)?, outside.piece, &faults.sink);
    let mut doors = doors_of(alloc, &command.inputs, outside.piece, faults)?;
    let script = match command.inputs.first() {
        Some(input) => input.as_slice(),
        None => b"",
    };
    let status = status_of(
        rt, alloc, outside, faults, journals, &words, &held, script, &mut sink, &mut doors,
    );
    push_outcome(out, alloc, status, sink.inner.bytes(), &doors, before)
}

// A disk of these bytes, which takes so many calls and fails these.
fn disk_of<'a>(
    alloc: Global,
    bytes: &[u8],
    calls: u32,
    failing: &'a [u64],
) -> Result<MemDisk<'a>, AllocError> {
    MemDisk::new(alloc, bytes, Limits { calls, ..LARGE }, failing)
}

// The journals on disks of these bytes, which fail so: one for each owner, or two.
fn journals_of<'a>(
    alloc: Global,
    disks: &Disks,
    faults: &'a Faults,
    mirrored: bool,
) -> Result<MemJournals<'a>, AllocError> {
    let first = disk_of(alloc, &disks.first, faults.calls, &faults.first)?;
    let second = disk_of(alloc, &disks.second, LARGE.calls, &faults.second)?;
    if !mirrored {
        return journals_on(alloc, first, second, &faults.bay);
    }
    let of_first = disk_of(
        alloc,
        &disks.first_mirror,
        faults.mirror_calls,
        &faults.mirror,
    )?;
    let of_second = disk_of(alloc, &disks.second_mirror, LARGE.calls, &[])?;
    mirrored_journals_on(alloc, (first, of_first), (second, of_second), &faults.bay)
}

// The bytes of a disk, or those that a stop leaves of it.
fn left_of(alloc: Global, disk: &MemDisk<'_>, torn: Option<Torn>) -> Result<Vec<u8>, AllocError> {
    match torn {
        Some(torn) => disk.after_stop(alloc, torn)?.bytes().to_vec(alloc),
        None => disk.bytes().to_vec(alloc),
    }
}

// The bytes that are left on an owner's disk and mirror. A mirror that the owner doesn't have is as it was.
fn left_at(
    alloc: Global,
    home: &Home<MemDisk<'_>>,
    torn: Option<Torn>,
    mirror_torn: Option<Torn>,
    mirror: &[u8],
) -> Result<(Vec<u8>, Vec<u8>), AllocError> {
    match home {
        Home::One(disk) => Ok((left_of(alloc, disk, torn)?, mirror.to_vec(alloc)?)),
        Home::Both(disk, other) => Ok((
            left_of(alloc, disk, torn)?,
            left_of(alloc, other, mirror_torn)?,
        )),
    }
}

// The bytes that are left on the disks of these journals.
fn left_on(
    alloc: Global,
    journals: MemJournals<'_>,
    faults: &Faults,
    before: &Disks,
) -> Result<Disks, AllocError> {
    let Some((home, other)) = journals.into_homes() else {
        return Err(AllocError);
    };
    let (torn, mirror_torn) = (faults.torn, faults.mirror_torn);
    let (first, first_mirror) = left_at(alloc, &home, torn, mirror_torn, &before.first_mirror)?;
    let (second, second_mirror) = left_at(alloc, &other, None, None, &before.second_mirror)?;
    Ok(Disks {
        first,
        second,
        first_mirror,
        second_mirror,
    })
}

// Whether the first of the commands wants two disks for each owner.
fn wants_mirrors(alloc: Global, commands: &[Command]) -> Result<bool, AllocError> {
    match commands.first() {
        Some(command) => Ok(is_mirrored(&split_words(alloc, &command.words)?)),
        None => Ok(false),
    }
}

// Does commands one after another over disks of these bytes, and leaves the bytes that are on them then.
fn run_on<R: Threads + Wait + Sync>(
    rt: &R,
    alloc: Global,
    outside: &Outside,
    faults: &Faults,
    disks: &Disks,
    commands: &[Command],
    before: &[u8],
    out: &mut Vec<u8>,
) -> Result<Disks, AllocError> {
    let mirrored = wants_mirrors(alloc, commands)?;
    let mut journals = journals_of(alloc, disks, faults, mirrored)?;
    for command in commands {
        run_one(
            rt,
            alloc,
            outside,
            faults,
            &mut journals,
            command,
            before,
            out,
        )?;
    }
    left_on(alloc, journals, faults, disks)
}

/// Does the first command with these faults, and the others without, and leaves the bytes that are on the disks then.
pub fn run_all<R: Threads + Wait + Sync>(
    rt: &R,
    alloc: Global,
    outside: &Outside,
    faults: &Faults,
    disks: &Disks,
    commands: &[Command],
    before: &[u8],
    out: &mut Vec<u8>,
) -> Result<Disks, AllocError> {
    let (first, others) = commands.split_at(commands.len().min(1));
    let left = run_on(rt, alloc, outside, faults, disks, first, before, out)?;
    if others.is_empty() {
        return Ok(left);
    }
    run_on(
        rt,
        alloc,
        outside,
        &Faults::new(alloc),
        &left,
        others,
        before,
        out,
    )
}
