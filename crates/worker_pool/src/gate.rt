//! A gate, before which all workers wait until they hear whether to work.

ghost use Rattle.std.specs.Prelude.{◌≡◌, ℕ, MatchBool};
ghost use Rattle.worker_pool.specs.Gates.{Went};

use std::snapshot::Snapshot;
use std::sync::{OnceLock, OnceToken, Wait};
use std::thread::Promise;

/// What is said at a gate, once for all: whether to work.
pub(crate) type Gate = OnceLock<bool>;

/// Says it.
pub(crate) fn say<'a, R: Wait>(rt: &R, gate: &'a Gate, word: bool) -> OnceToken<'a, bool>
    ensures of { result.of ≡ gate.now.id }
    ensures word { result.value ≡ word }
{
    // Nobody else says anything at this gate, so that the first turn ends this.
    for _ in rt.forever() {
        if let Ok(said) = gate.set(rt, word) {
            return said;
        }
    }
    unreachable!()
}

// Waits for it.
fn hear<'a, R: Wait>(rt: &R, gate: &'a Gate) -> OnceToken<'a, bool>
    ensures { result.of ≡ gate.now.id }
{
    for _ in rt.forever() {
        gate.wait(rt);
        if let Some(heard) = gate.witness() {
            return heard;
        }
    }
    unreachable!()
}

/// What each worker does, by its place. A promise can name it, as it can't name a closure.
pub(crate) trait Work<T> {
    ghost can: { Self → ℕ → T → Type 0 };

    ghost does: { Self → ℕ → T → T → Type 0 };

    fn run(&self, place: usize, worker: &mut T)
        requires { can self.now place worker.old }
        ensures { does self.now place worker.old worker.new };
}

/// A worker that has come back from its thread, and what it heard at the gate.
#[derive(Drop)]
pub(crate) struct Back<'a, T: Drop> {
    pub(crate) worker: T,
    pub(crate) heard: OnceToken<'a, bool>,
}

/// What a thread is to come back with: its worker, as the work left it, or as it was where it heard that it isn't to work.
#[derive(Drop)]
pub(crate) struct Task<'a, T: Drop, W: Work<T>> {
    pub(crate) gate: &'a Gate,
    pub(crate) work: &'a W,
    pub(crate) place: usize,
    pub(crate) before: Snapshot<T>,
}

impl<'a, T: Drop, W: Work<T>> Promise<Back<'a, T>> for Task<'a, T, W> {
    ghost kept_by = { λ task back. (back.heard.of ≡ task.gate.now.id)
        × Went (W.does task.work.now task.place) back.heard.value task.before.value back.worker };
}

/// A worker waits at the gate, and works if it is told to.
pub(crate) fn attend<'a, R: Wait, T: Drop, W: Work<T>>(
    rt: &R,
    gate: &'a Gate,
    work: &W,
    place: usize,
    worker: T,
) -> Back<'a, T>
    requires { W.can work.now place worker }
    ensures { (result.heard.of ≡ gate.now.id) × Went (W.does work.now place) result.heard.value worker result.worker }
{
    let heard = hear(rt, gate);
    let mut worker = worker;
    if *gate.value(&heard) {
        work.run(place, &mut worker);
    }
    Back { worker, heard }
}
