//! The lines of a case file, which are done one after another. Each is printed as it stands; in place of what a command came to stands what
//! it comes to now. The first word says what a line is:
//!
//! - `file NAME TEXT`: a file, which the commands find from here on;
//! - `new`, `keep`, `back`: empty disks; keep the disks, and go back to them;
//! - `size BYTES`, `put PLACE TEXT`, `swap`: owner 0's disk is cut or filled up with zeros, gets a text over its bytes, or changes places with its
//!   mirror;
//! - `fail WHAT CALL ..`: which calls fail in the next command, from 0 on: of `0` or `1`, an owner's disk, `mirror`, owner 0's mirror, `bay`, `files`,
//!   `source`, `sink` or `link`; `fail from CALL`, `fail mirror_from CALL`: all of owner 0's disk or mirror from this one on;
//! - `piece BYTES`: how many bytes a call of source, sink, files or a connection passes;
//! - `$ WORD ..`: a command. `> TEXT` adds a line to its input, `>> TEXT` a text, and `--` begins a connection's input;
//! - `= STATUS` and `< LINE`: how the commands since the last one ended, and what they wrote;
//! - `? TEXT`: a row: the commands are done once more and leave the disks as they were. `@` in their input, and the file `row`, are the text;
//! - `each KIND LEFT FROM TO`: the commands are done once for each call of owner 0's disk of which the first command's fails (`fault`), or all from it
//!   on (`stop`), and so of its mirror (`mirror_fault`, `mirror_stop`); or each call of a connection (`link`), or each number of bytes that it takes (`room`). `at CALL` stands where they come to something
//!   else than before. A stop after the first command leaves what wasn't synced on that disk `old`, `new`, as `ones` or as `gates`; `kept` is no stop;
//! - `same` and `bytes`: whether the last commands left the disks as they were; what is on owner 0's disk;
//! - any other, as `# TEXT`: nothing.
//!
//! A command with the word `--mirror` finds two disks for each owner. Others find one, and leave mirrors as they are. Of those behind the first of
//! a group all want one, or all want two.

use crate::disks::{are_same, change, copied, empty, push_same, push_slots, swap};
use crate::escapes::bytes_of;
use crate::runs::{Command, Disks, Faults, Held, Outside, run_all};
use outside_disks::memory::Torn;
use std::alloc::{AllocError, Global};
use std::sync::Wait;
use std::thread::Threads;

/// What the lines so far have made.
#[derive(Drop)]
pub struct Case {
    outside: Outside,
    disks: Disks,
    // The disks of `keep`, to which `back` goes back.
    kept: Disks,
    // Whether the commands that were done last left the disks as they were.
    same: bool,
    faults: Faults,
    commands: Vec<Command>,
    // Whether the commands were done, as rows.
    done: bool,
}

// The number that a word is, or 0.
fn number(word: &str) -> u32 {
    word.parse().unwrap_or(0)
}

// Sets a file.
fn set_file(
    alloc: Global,
    files: &mut Vec<Held>,
    name: &str,
    text: &str,
) -> Result<(), AllocError> {
    let bytes = bytes_of(alloc, text)?;
    for file in files.iter_mut() {
        if file.name.as_str() == name {
            file.bytes = bytes;
            return Ok(());
        }
    }
    let name = String::from_str(alloc, name)?;
    files.push(Held { name, bytes })?;
    Ok(())
}

// Puts a text at the end of the last input of the last command, or begins an input with it.
fn add_input(
    alloc: Global,
    commands: &mut Vec<Command>,
    text: &[u8],
    begins: bool,
) -> Result<(), AllocError> {
    let Some(command) = commands.last_mut() else {
        return Ok(());
    };
    if begins || command.inputs.is_empty() {
        command.inputs.push(Vec::new(alloc))?;
    }
    match command.inputs.last_mut() {
        Some(input) => input.extend_from_slice(text),
        None => Ok(()),
    }
}

// Puts a line of a case and its end at the end of the last input.
fn add_line(
    alloc: Global,
    commands: &mut Vec<Command>,
    text: &str,
    end: &[u8],
) -> Result<(), AllocError> {
    add_input(alloc, commands, &bytes_of(alloc, text)?, false)?;
    add_input(alloc, commands, end, false)
}

// Lists the calls that are to fail, or says how many calls owner 0's disk or mirror takes.
fn set_failing(faults: &mut Faults, which: &str, calls: &str) -> Result<(), AllocError> {
    match which {
        "from" => faults.calls = number(calls),
        "mirror_from" => faults.mirror_calls = number(calls),
        _ => list_failing(faults, which, calls)?,
    }
    Ok(())
}

// Lists the calls that are to fail.
fn list_failing(faults: &mut Faults, which: &str, calls: &str) -> Result<(), AllocError> {
    let listed = match which {
        "0" => &mut faults.first,
        "mirror" => &mut faults.mirror,
        "1" => &mut faults.second,
        "bay" => &mut faults.bay,
        "files" => &mut faults.files,
        "source" => &mut faults.source,
        "link" => &mut faults.link,
        _ => &mut faults.sink,
    };
    for call in calls.split(' ') {
        listed.push(u64::from(number(call)))?;
    }
    Ok(())
}

fn torn_of(word: &str) -> Option<Torn> {
    match word {
        "old" => Some(Torn::Old),
        "new" => Some(Torn::New),
        "ones" => Some(Torn::Ones),
        "gates" => Some(Torn::Gates),
        _ => None,
    }
}

// The faults of a trial: this call of owner 0's disk or mirror fails, or at a stop all from it on; or this one of a connection, or a connection
// takes so many bytes. A stop after the command leaves that disk so.
fn faults_at(alloc: Global, kind: &str, torn: &str, call: u32) -> Result<Faults, AllocError> {
    let mut faults = Faults::new(alloc);
    match kind {
        "mirror_fault" | "mirror_stop" => faults.mirror_torn = torn_of(torn),
        _ => faults.torn = torn_of(torn),
    }
    match kind {
        "stop" => faults.calls = call,
        "mirror_stop" => faults.mirror_calls = call,
        "mirror_fault" => faults.mirror.push(u64::from(call))?,
        "room" => faults.room = call as usize,
        "link" => faults.link.push(u64::from(call))?,
        _ => faults.first.push(u64::from(call))?,
    }
    Ok(faults)
}

// The commands with a row in place of the `@` in their inputs.
fn with_row(alloc: Global, commands: &[Command], row: &[u8]) -> Result<Vec<Command>, AllocError> {
    let mut filled = Vec::new(alloc);
    for command in commands {
        let inputs = inputs_with(alloc, &command.inputs, row)?;
        let words = String::from_str(alloc, &command.words)?;
        filled.push(Command { words, inputs })?;
    }
    Ok(filled)
}

fn inputs_with(alloc: Global, inputs: &[Vec<u8>], row: &[u8]) -> Result<Vec<Vec<u8>>, AllocError> {
    let mut filled = Vec::new(alloc);
    for input in inputs {
        filled.push(filled_input(alloc, input, row)?)?;
    }
    Ok(filled)
}

fn filled_input(alloc: Global, input: &[u8], row: &[u8]) -> Result<Vec<u8>, AllocError> {
    let mut filled = Vec::new(alloc);
    for byte in input {
        if *byte == b'@' {
            filled.extend_from_slice(row)?;
        } else {
            filled.push(*byte)?;
        }
    }
    Ok(filled)
}

// Prints what a trial came to.
fn push_trial(out: &mut Vec<u8>, alloc: Global, call: u32, came: &[u8]) -> Result<(), AllocError> {
    let at = format!(in alloc; "at {call}\n")?;
    out.extend_from_slice(at.as_bytes())?;
    out.extend_from_slice(came)
}

impl Case {
    /// No files, and empty disks.
    pub fn new(alloc: Global) -> Case {
        Case {
            outside: Outside {
                files: Vec::new(alloc),
                piece: 65_536,
            },
            disks: empty(alloc),
            kept: empty(alloc),
            same: true,
            faults: Faults::new(alloc),
            commands: Vec::new(alloc),
            done: false,
        }
    }

    // Does the commands one after another, and leaves what is on the disks then.
    fn run<R: Threads + Wait + Sync>(
        &mut self,
        rt: &R,
        alloc: Global,
        out: &mut Vec<u8>,
    ) -> Result<(), AllocError> {
        let left = run_all(
            rt,
            alloc,
            &self.outside,
            &self.faults,
            &self.disks,
            &self.commands,
            b"\n< ",
            out,
        )?;
        self.same = are_same(&left, &self.disks);
        self.disks = left;
        self.commands.clear();
        self.faults = Faults::new(alloc);
        Ok(())
    }

    // Does the commands with a row, which is also the file `row`, and leaves the disks as they were.
    fn run_row<R: Threads + Wait + Sync>(
        &mut self,
        rt: &R,
        alloc: Global,
        text: &str,
        out: &mut Vec<u8>,
    ) -> Result<(), AllocError> {
        set_file(alloc, &mut self.outside.files, "row", text)?;
        let commands = with_row(alloc, &self.commands, &bytes_of(alloc, text)?)?;
        let none = Faults::new(alloc);
        let left = run_all(
            rt,
            alloc,
            &self.outside,
            &none,
            &self.disks,
            &commands,
            b" | ",
            out,
        )?;
        self.same = are_same(&left, &self.disks);
        self.done = true;
        Ok(())
    }

    // What the commands come to from these disks on, with this fault.
    fn trial<R: Threads + Wait + Sync>(
        &self,
        rt: &R,
        alloc: Global,
        kind: &str,
        torn: &str,
        call: u32,
    ) -> Result<Vec<u8>, AllocError> {
        let faults = faults_at(alloc, kind, torn, call)?;
        let mut came = Vec::new(alloc);
        run_all(
            rt,
            alloc,
            &self.outside,
            &faults,
            &self.disks,
            &self.commands,
            b" | ",
            &mut came,
        )?;
        Ok(came)
    }

    // Prints what the commands come to with a fault at one call after another, where it isn't what they came to at the call before.
    fn run_each<R: Threads + Wait + Sync>(
        &mut self,
        rt: &R,
        alloc: Global,
        words: &[&str],
        out: &mut Vec<u8>,
    ) -> Result<(), AllocError> {
        let &[kind, torn, from, to] = words else {
            return Ok(());
        };
        let mut last = Vec::new(alloc);
        for call in number(from)..=number(to) {
            let came = self.trial(rt, alloc, kind, torn, call)?;
            if came.as_slice() != last.as_slice() {
                push_trial(out, alloc, call, &came)?;
            }
            last = came;
        }
        self.commands.clear();
        Ok(())
    }

    // Begins a command.
    fn begin(&mut self, alloc: Global, words: &str) -> Result<(), AllocError> {
        if self.done {
            self.commands.clear();
            self.done = false;
        }
        self.commands.push(Command {
            words: String::from_str(alloc, words)?,
            inputs: Vec::new(alloc),
        })?;
        Ok(())
    }

    // Does what a line says of files, disks and faults.
    fn prepare(&mut self, alloc: Global, word: &str, rest: &str) -> Result<(), AllocError> {
        let (name, text) = rest.split_once(' ').unwrap_or((rest, ""));
        match word {
            "file" => set_file(alloc, &mut self.outside.files, name, text)?,
            "fail" => set_failing(&mut self.faults, name, text)?,
            "piece" => self.outside.piece = number(name) as usize,
            "new" => self.disks = empty(alloc),
            "keep" => self.kept = copied(alloc, &self.disks)?,
            "back" => self.disks = copied(alloc, &self.kept)?,
            "size" | "put" => change(alloc, &mut self.disks, word, name, text)?,
            "swap" => swap(&mut self.disks),
            _ => {}
        }
        Ok(())
    }

    /// Does what a line says, and prints it, or what stands in its place.
    pub fn do_line<R: Threads + Wait + Sync>(
        &mut self,
        rt: &R,
        alloc: Global,
        line: &str,
        out: &mut Vec<u8>,
    ) -> Result<(), AllocError> {
        let (word, rest) = line.split_once(' ').unwrap_or((line, ""));
        match word {
            "=" if !self.commands.is_empty() && !self.done => return self.run(rt, alloc, out),
            "=" | "<" | "at" | "@" => return Ok(()),
            "same" => return push_same(out, self.same),
            _ => {}
        }
        out.extend_from_slice(line.as_bytes())?;
        out.push(b'\n')?;
        match word {
            "$" => self.begin(alloc, rest),
            ">" => add_line(alloc, &mut self.commands, rest, b"\n"),
            ">>" => add_line(alloc, &mut self.commands, rest, b""),
            "--" => add_input(alloc, &mut self.commands, b"", true),
            "?" => self.run_row(rt, alloc, rest, out),
            "each" => {
                let words: Vec<&str> = rest.split(' ').collect(alloc)?;
                self.run_each(rt, alloc, &words, out)
            }
            "bytes" => push_slots(out, alloc, &self.disks.first),
            _ => self.prepare(alloc, word, rest),
        }
    }
}
