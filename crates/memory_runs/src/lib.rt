//! The top call over files, disks, source, sink and doors in memory, for the crates of tests.
#![tactic(auto)]

pub mod doors;
pub mod journals;

use crate::journals::empty_journals;
pub use command_words::is_mirrored;
use fz_outside::files::MemFile;
pub use query_server::Status;
use std::alloc::{AllocError, Global};
use std::sync::Wait;
use std::thread::Threads;

/// The most bytes that a run in memory writes.
pub const ROOM: usize = 65_536;

/// The catalog of the analysts ann and bob and the owner census, whose one table `people` is the file people.csv.
pub const CATALOG: &[u8] =
    b"{\"analysts\":[\"ann\",\"bob\"],\"owners\":[{\"name\":\"census\",\"budget\":10000000,\"capacity\":100,\"tables\":[\
    {\"name\":\"people\",\"file\":\"people.csv\",\"columns\":[{\"name\":\"age\",\"type\":\"num\"}]}],\"partitions\":[]}]}";

/// A table of three people.
pub const TABLE: &[u8] = b"age\n20\n30\n40\n";

pub const KEY: [u8; 32] = [0; 32];

/// A text, and how often it stands there.
pub type Piece<'a> = (&'a [u8], usize);

/// The pieces, one after another.
pub fn joined(alloc: Global, pieces: &[Piece<'_>]) -> Result<Vec<u8>, AllocError> {
    let mut text = Vec::new(alloc);
    for (piece, times) in pieces {
        for _ in 0..*times {
            text.extend_from_slice(piece)?;
        }
    }
    Ok(text)
}

/// The words of a command.
pub fn words_of(alloc: Global, texts: &[&str]) -> Result<Vec<String>, AllocError> {
    let mut words = Vec::new(alloc);
    for text in texts {
        words.push(String::from_str(alloc, text)?)?;
    }
    Ok(words)
}

/// A table's name, its file, and its columns, as JSON.
pub type TableText<'a> = (&'a str, &'a str, &'a str);

/// A column of numbers.
pub const AGE: &str = "{\"name\":\"age\",\"type\":\"num\"}";

// Puts the objects of some tables at the end.
fn push_tables(text: &mut String, tables: &[TableText<'_>]) -> Result<(), AllocError> {
    let mut comma = "";
    for (name, file, columns) in tables {
        write!(
            text,
            "{comma}{{\"name\":\"{name}\",\"file\":\"{file}\",\"columns\":[{columns}]}}"
        )?;
        comma = ",";
    }
    Ok(())
}

/// An owner of these tables, as JSON.
pub fn owner_text(
    alloc: Global,
    name: &str,
    budget: u64,
    capacity: u32,
    tables: &[TableText<'_>],
) -> Result<String, AllocError> {
    let mut text = format!(in alloc;
        "{{\"name\":\"{name}\",\"budget\":{budget},\"capacity\":{capacity},\"partitions\":[],\"tables\":["
    )?;
    push_tables(&mut text, tables)?;
    text.push_str("]}")?;
    Ok(text)
}

/// A catalog of the analysts ann and bob and the owner census, with these tables.
pub fn census_with(alloc: Global, tables: &[TableText<'_>]) -> Result<String, AllocError> {
    let owner = owner_text(alloc, "census", 10_000_000, 100, tables)?;
    format!(in alloc; "{{\"analysts\":[\"ann\",\"bob\"],\"owners\":[{owner}]}}")
}

/// A file.
pub fn file<'a>(name: &'a str, bytes: &'a [u8]) -> MemFile<'a> {
    MemFile { name, bytes }
}

/// Three files: the catalog, its table, and one of this name.
pub fn census_files<'a>(table: &'a [u8], name: &'a str, bytes: &'a [u8]) -> [MemFile<'a>; 3] {
    [
        file("cat.json", CATALOG),
        file("people.csv", table),
        file(name, bytes),
    ]
}

/// How the command of these words ends over these files and this source, and what it writes. A `run` finds journals that an
/// `init` has made.
pub fn ended<R: Threads + Wait + Sync>(
    rt: &R,
    alloc: Global,
    texts: &[&str],
    held: &[MemFile<'_>],
    script: &[u8],
) -> Result<(Status, Vec<u8>), AllocError> {
    let mut journals = empty_journals(alloc)?;
    if let ["run", catalog, key] = texts {
        journals.ran(rt, alloc, &["init", catalog, key], held, b"")?;
    }
    journals.ran(rt, alloc, texts, held, script)
}
