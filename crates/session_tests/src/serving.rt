//! A house whose connections are served one after another.

ghost use Rattle.std.specs.Prelude.{◌≡◌, All};
ghost use Rattle.owner_lock.specs.Known.{whole_share};
ghost use Rattle.owner_house.specs.House.{house_of};
ghost use Rattle.session_core.specs.Code.{ArePasses};

use crate::abreast::{HoldStreams, told_two};
use answer_path::Desk;
use catalog_loading::{Opened, open_house};
use fz_outside::files::{MemFile, MemFiles};
use fz_outside::words::Streams;
use memory_runs::journals::{LARGE, SMALL, empty_journals, journals_on};
use memory_runs::{KEY, census_files};
use outside_disks::memory::MemDisk;
use outside_links::gate::FreeGate;
use outside_links::link::Link;
use owner_books::open_desks;
use session_core::passes::Passes;
use session_core::server::Server;
use session_serve::serve::{SessionEnd, serve};
use std::alloc::{AllocError, Global};
use std::sync::Wait;
use std::thread::Threads;
use word_streams::KeyStreams;

/// The house of census, its desk, over the book that was opened on its disk, and a worker's pass with the whole share.
#[derive(Drop)]
pub struct Serving<'a> {
    opened: Opened,
    desks: Vec<Desk<MemDisk<'a>>>,
    passes: Passes<MemDisk<'a>>,
    ghost here: { passes.locks ≡ desks.items },
    ghost of_the_house: { ArePasses (house_of opened.loading.register) passes.knows },
    ghost whole: { All (λ s. s ≡ whole_share) passes.shares },
}

/// The bytes of the journal of the first owner in these files, which an `init` has made.
pub fn made_of<R: Threads + Wait + Sync>(
    rt: &R,
    alloc: Global,
    held: &[MemFile<'_>],
) -> Result<Vec<u8>, AllocError> {
    let mut journals = empty_journals(alloc)?;
    journals.ran(rt, alloc, &["init", "cat.json", "key"], held, b"")?;
    match journals.into_disks() {
        Some((disk, _)) => disk.bytes().to_vec(alloc),
        None => Err(AllocError),
    }
}

/// The house of these files, over the journal on this disk.
pub fn served_of<'a>(
    alloc: Global,
    held: &[MemFile<'_>],
    disk: MemDisk<'a>,
) -> Result<Serving<'a>, AllocError> {
    let second = MemDisk::new(alloc, &[], SMALL, &[])?;
    let mut bay = journals_on(alloc, disk, second, &[])?.into_bay();
    let Ok(mut opened) = open_house(alloc, &mut MemFiles::new(held), "cat.json", "key") else {
        return Err(AllocError);
    };
    match open_desks(alloc, &mut bay, &mut opened) {
        Ok(opening) => Ok(Serving {
            opened,
            desks: opening.desks,
            passes: Passes::new(opening.passes),
        }),
        Err(_) => Err(AllocError),
    }
}

/// The house of census with this table, over a new journal.
pub fn served<R: Threads + Wait + Sync>(
    rt: &R,
    alloc: Global,
    table: &[u8],
) -> Result<Serving<'static>, AllocError> {
    let held = census_files(table, "key", &KEY);
    let disk = MemDisk::new(alloc, &made_of(rt, alloc, &held)?, LARGE, &[])?;
    served_of(alloc, &held, disk)
}

impl<'a> Serving<'a> {
    /// Serves a connection, with these draws.
    pub fn serve<R: Wait, L: Link, S: Streams>(
        &mut self,
        rt: &R,
        alloc: Global,
        link: &mut L,
        streams: &S,
    ) -> SessionEnd {
        let server = Server {
            rt,
            alloc,
            house: self.opened.house(),
            desks: &self.desks,
            streams,
            gate: &FreeGate,
        };
        serve(&server, link, &mut self.passes, 0)
    }

    /// Serves a connection under the house's key.
    pub fn serve_by_key<R: Wait, L: Link>(
        &mut self,
        rt: &R,
        alloc: Global,
        link: &mut L,
    ) -> SessionEnd {
        let streams = KeyStreams::new(KEY);
        self.serve(rt, alloc, link, &streams)
    }

    /// What is written to two connections of these bytes, which two workers serve at the same time.
    #[tactic(auto, using(crate::proofs::Halves::may_split, crate::proofs::Halves::passes_handed))]
    pub fn told_two<R: Threads + Wait + Sync>(
        self,
        rt: &R,
        alloc: Global,
        streams: &HoldStreams,
        input: &[u8],
    ) -> Result<(Vec<u8>, Vec<u8>), AllocError> {
        let desks = self.desks;
        let mut first = self.passes;
        let second = first.split(alloc, &desks)?;
        let opened = self.opened;
        let (one, other) = told_two(
            rt,
            alloc,
            opened.house(),
            &desks,
            streams,
            first,
            second,
            input,
        );
        Ok((one.1?, other.1?))
    }
}
