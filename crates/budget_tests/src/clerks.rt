//! Clerks who note on one sheet, each in a thread of its own.

ghost use Rattle.std.specs.Prelude.{◌≡◌, ◌++◌, ◌∷◌, ◌+◌, ◌<◌, ◌≤◌, ◌^◌, [], true, IfNone, IfSome};
ghost use Rattle.std.specs.Thread.{IsSync};
ghost use Rattle.owner_lock.specs.Passes.{IsPassOf, IsSameLock, known};

use crate::sheets::{Note, Sheet};
use owner_lock::{Owned, Pass};
use std::hint;
use std::sync::Wait;
use std::thread::{Threads, join_mut};

/// How often each clerk notes.
pub const NOTES: u32 = 200;

/// Notes once, and keeps the sheet for some turns. The note is the pass's own, at the place that is told.
pub fn note<W: Wait>(
    rt: &W,
    lock: &Owned<Sheet>,
    pass: &mut Pass<Sheet>,
    note: Note,
    turns: u32,
) -> Option<u64>
    requires here { IsPassOf lock.now pass.old }
    ensures here { IsSameLock pass.old pass.new }
    ensures share { (known pass.new).share ≡ (known pass.old).share }
    ensures added { IfSome result (λ n. (known pass.new).own ≡ (known pass.old).own ++ (n, note) ∷ []) }
    ensures none { IfNone result ((known pass.new).own ≡ (known pass.old).own) }
{
    lock.with(rt, pass, move |sheet: &mut Sheet| sheet.add(note, turns))
}

/// Shuts the sheet.
pub fn shut<W: Wait>(rt: &W, lock: &Owned<Sheet>, pass: &mut Pass<Sheet>)
    requires here { IsPassOf lock.now pass.old }
    ensures here { IsSameLock pass.old pass.new }
    ensures share { (known pass.new).share ≡ (known pass.old).share }
    ensures own { (known pass.new).own ≡ (known pass.old).own }
    ensures shut { (known pass.new).shut ≡ true }
{
    lock.with(rt, pass, |sheet: &mut Sheet| sheet.close())
}

// Does something else for some turns.
fn rest(turns: u32) {
    for _ in 0..turns {
        hint::spin_loop();
    }
}

fn note_all<W: Wait>(rt: &W, lock: &Owned<Sheet>, pass: &mut Pass<Sheet>, clerk: u32, turns: u32)
    requires here { IsPassOf lock.now pass.old }
    ensures here { IsSameLock pass.old pass.new }
    ensures share { (known pass.new).share ≡ (known pass.old).share }
{
    for number in 0..NOTES {
        note(rt, lock, pass, Note { clerk, number }, turns);
        rest(turns);
    }
}

/// So many clerks, each in a thread of its own, of whom the first has this number. The pass is given out in halves, and taken in again.
pub fn by_many<R: Threads + Wait + Sync>(
    rt: &R,
    lock: &Owned<Sheet>,
    pass: &mut Pass<Sheet>,
    clerk: u32,
    count: u32,
    turns: u32,
)
    requires here { IsPassOf lock.now pass.old }
    requires share { count ≤ (known pass.old).share }
    requires clerks { clerk + count < 2 ^ 32 }
    ensures here { IsSameLock pass.old pass.new }
    ensures share { (known pass.new).share ≡ (known pass.old).share }
{
    if count < 2 {
        note_all(rt, lock, pass, clerk, turns);
        return;
    }
    let mut other = lock.split(pass);
    let given = count / 2;
    let kept = count - given;
    let next = clerk + kept;
    let half = &mut other;
    join_mut(
        rt,
        &mut ||
            requires { IsSync R.row × IsPassOf lock.now pass.now × (kept ≤ (known pass.now).share) × (clerk + kept < 2 ^ 32) }
            ensures here { IsSameLock pass.entry.now pass.exit.now }
            ensures share { (known pass.exit.now).share ≡ (known pass.entry.now).share }
        { by_many(rt, lock, pass, clerk, kept, turns) },
        &mut ||
            requires { IsSync R.row × IsPassOf lock.now half.now × (given ≤ (known half.now).share) × (next + given < 2 ^ 32) }
            ensures here { IsSameLock half.entry.now half.exit.now }
            ensures share { (known half.exit.now).share ≡ (known half.entry.now).share }
        { by_many(rt, lock, half, next, given, turns) },
    );
    lock.join(pass, other);
}
