//! Cases: commands over files, journals and connections in memory. Each file that the words of the process name is printed as it stands,
//! with what its commands came to in place of what was wanted, so that it is printed unchanged where all came as wanted.
#![tactic(auto)]

mod disks;
mod escapes;
mod lines;
mod runs;

use crate::lines::Case;
use std::alloc::{AllocError, Global};
use std::io::Write;
use std::sync::Wait;
use std::thread::Threads;
use std::{env, fs, io};

// What is printed of a case file.
fn printed<R: Threads + Wait + Sync>(
    rt: &R,
    alloc: Global,
    text: &str,
) -> Result<Vec<u8>, AllocError> {
    let mut out = Vec::new(alloc);
    let mut case = Case::new(alloc);
    for line in text.lines() {
        case.do_line(rt, alloc, line, &mut out)?;
    }
    Ok(out)
}

fn main(rt: HostRuntime) -> io::Result<()> {
    let mut writer = io::writer(&rt);
    for name in env::args(&rt)?.skip(1) {
        let text = fs::read_to_string(&rt, name.as_str())?;
        writer.write_all(&printed(&rt, rt.alloc(), &text)?)?;
    }
    Ok(())
}
