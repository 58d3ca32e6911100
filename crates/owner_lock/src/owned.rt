//! The lock's calls.

ghost use Rattle.std.specs.Prelude.{◌≡◌, ◌≢◌, ◌<◌, ◌≤◌, ◌%◌, ◌/◌, ◌∷◌, [], true, false, length, if◌then◌else◌, IfErr, IfOk};
ghost use Rattle.std.specs.Fn.{FnOnceReturnsAtMut, FnOnceTakesAtMut};
ghost use mathlib.Core.List.{IsPrefix};
ghost use Rattle.owner_lock.specs.Entries.{Ascends};
ghost use Rattle.owner_lock.specs.Known.{given_half, joined, kept_half, known_first, whole_share};
ghost use Rattle.owner_lock.specs.Jobs.{ComesBack, Knows, Meets, Owes};
ghost use Rattle.owner_lock.specs.Views.{IsFreed, IsMarked, MayEnd, Rests};
ghost use Rattle.owner_lock.specs.History.{Took};
ghost use Rattle.owner_lock.specs.Passes.{IsPassOf, IsSameLock, known};
ghost use Rattle.owner_lock.specs.declared.owned.Waiter.TheVariants.{Fresh};

use crate::law::{Free, Halves, Look, Mark, Turn, Warn};
use crate::lock::{NoMemory, Owned};
use crate::pass::{Pass, Ticket};
use crate::stands::StandsFor;
use crate::view::View;
use atomic_table::{Refused, Seat, Table};
use std::alloc::{AllocFailed, Global};
use std::hint;
use std::snapshot::Snapshot;
use std::sync::Wait;
use std::time::Duration;

// How often a caller that waits tries before it sleeps, and how often it pauses behind each try.
const TRIES: u32 = 100;

const PAUSES: u32 = 4;

// How long the one that is awake naps at a time, in microseconds: at first, and at most.
const FIRST_NAP: u64 = 100;

const LONGEST_NAP: u64 = 800;

// How often it must find that nobody has the turn before it tries, and behind how many naps it tries without that.
const QUIET: u32 = 150;

const PATIENCE: u32 = 64;

// The low two bits of word 1 while a seat has the turn.
const TAKEN: u64 = 1;

// The bit of word 1 that says that one who slept is called, and hasn't come.
const CALLED: u64 = 4;

// The bit that says that one of those who wait is awake.
const AWAKE: u64 = 8;

// Word 1 counts by sixteens those who wait, from before they sleep until they take the turn.
const SLEEPER: u64 = 16;

// How a caller waits.
#[derive(Clone, Copy, PartialEq, Eq)]
enum Waiter {
    // It tries, and isn't counted.
    Fresh,
    // It is counted, and sleeps until it is called.
    Sleeper,
    // It is counted, and the one that is awake: it naps between its looks.
    Watcher,
}

// The low two bits of word 1 while no seat has the turn.
fn free_word(shut: bool) -> u64
    ensures { result ≡ if shut then 2 else 0 }
{
    if shut { 2 } else { 0 }
}

// What is added to word 1, modulo 2^64, where a turn ends.
fn to_free(shut: bool) -> u64
    ensures { result ≡ if shut then 1 else 18446744073709551615 }
{
    if shut { 1 } else { u64::MAX }
}

fn is_taken(word: u64) -> bool
    ensures taken { result ≡ true → word % 4 ≡ 1 }
    ensures free { result ≡ false → word % 4 ≢ 1 }
{
    word % 4 == TAKEN
}

// Some sleep, and none of them is called or awake.
fn is_owed(word: u64) -> bool
    ensures { result ≡ true → word % 16 < 4 }
{
    word >= SLEEPER && word % SLEEPER < CALLED
}

// One who slept is called, and hasn't come.
fn is_called(word: u64) -> bool {
    word % AWAKE >= CALLED
}

// Word 1 for a seat that takes the turn. One that was counted isn't any more, and has come; with the one that was awake nobody is.
fn taken_word(word: u64, waiter: Waiter) -> u64
    ensures taken { result % 4 ≡ 1 }
    ensures same { waiter ≡ Fresh → result / 4 ≡ word / 4 }
    ensures come { waiter ≢ Fresh → result % 8 < 4 }
{
    let others = (word / SLEEPER).saturating_sub(1) * SLEEPER;
    match waiter {
        Waiter::Fresh => word / 4 * 4 + TAKEN,
        Waiter::Sleeper => others + word % SLEEPER / AWAKE * AWAKE + TAKEN,
        Waiter::Watcher => others + TAKEN,
    }
}

// Word 1 for a seat that is to wait. Where one is called it has come: it is the one that is awake.
fn waiting_word(word: u64, waiter: Waiter) -> u64
    ensures { result % 4 ≡ word % 4 }
{
    let counted = if waiter == Waiter::Fresh {
        word.wrapping_add(SLEEPER)
    } else {
        word
    };
    if is_called(word) {
        counted.wrapping_add(AWAKE - CALLED)
    } else {
        counted
    }
}

// How long the one that is awake naps after a nap of so long.
fn longer(nap: u64) -> u64 {
    if nap < LONGEST_NAP {
        nap.saturating_mul(2)
    } else {
        nap
    }
}

// What a caller does behind a try that failed, so that the holder's word is asked for less often.
fn pause() {
    for _ in 0..PAUSES {
        hint::spin_loop();
    }
}

// The kernel compares 32 bits of a word, which are all that count fewer than 2^29 threads.
fn low_half(word: u64) -> u32 {
    (word % 4_294_967_296) as u32
}

impl<T: StandsFor> Owned<T> {
    /// Puts a state under a lock. The pass has the whole share.
    pub fn new(alloc: Global, state: T) -> Result<(Owned<T>, Pass<T>), NoMemory<T>>
        requires { T.legal (T.fixed state) (T.history state) }
        ensures pass { IfOk result (λ r. IsPassOf r.0 r.1 × (known r.1 ≡ known_first T.StandsFor state)) }
        ensures refused { IfErr result (λ r. r.state ≡ state) }
    {
        let count = state.entries();
        let word = free_word(state.is_shut());
        let about = Snapshot::of(&state);
        let mut slots = Vec::new(alloc);
        if let Err(failed) = slots.push(state) {
            slots.destroy_empty();
            let AllocFailed { value } = failed;
            return Err(NoMemory { state: value });
        }
        match Table::new(alloc, &[count, word], slots, &about) {
            Ok((table, seat)) => Ok((Owned { table }, Ticket { seat })),
            Err(Refused { mut slots }) => {
                let Some(state) = slots.pop() else {
                    unreachable!()
                };
                slots.destroy_empty();
                Err(NoMemory { state })
            }
        }
    }

    /// A pass for another thread, with half of the share.
    pub fn split(&self, pass: &mut Pass<T>) -> Pass<T>
        requires here { IsPassOf self.now pass.old }
        requires share { 2 ≤ (known pass.old).share }
        ensures here { IsSameLock pass.old pass.new × IsSameLock pass.old result }
        ensures halves { (known pass.new ≡ kept_half (known pass.old)) × (known result ≡ given_half (known pass.old)) }
    {
        let seat = self.table.shared.split_seat::<Halves>(&mut pass.seat);
        Ticket { seat }
    }

    /// Takes in what another pass knows.
    pub fn join(&self, pass: &mut Pass<T>, other: Pass<T>)
        requires here { IsPassOf self.now pass.old × IsPassOf self.now other }
        ensures here { IsSameLock pass.old pass.new }
        ensures joined { known pass.new ≡ joined (known pass.old) (known other) }
        // Of the two that were seen one begins the other, and no entry was both passes' own.
        ensures longer { IsPrefix (known pass.old).seen (known pass.new).seen × IsPrefix (known other).seen (known pass.new).seen }
        ensures apart { Ascends 0 (known pass.new).own }
    {
        let Ticket { seat } = other;
        self.table.shared.join_seat::<Halves>(&mut pass.seat, seat);
        self.table.shared.load::<Look<T>>(&mut pass.seat, 0);
    }

    /// Lends the state to a job, which adds at most one entry.
    pub fn with<W: Wait, R, J: FnOnce(&mut T) -> R>(&self, rt: &W, pass: &mut Pass<T>, job: J) -> R
        requires here { IsPassOf self.now pass.old }
        requires can { (x : T) → Meets T.StandsFor (known pass.old) x → FnOnceTakesAtMut J.FnOnce job x }
        requires owes { (x y : T) (r : R) → Meets T.StandsFor (known pass.old) x → FnOnceReturnsAtMut J.FnOnce job x r y
            → Owes T.StandsFor (known pass.old) x y }
        ensures here { IsSameLock pass.old pass.new }
        ensures ran { (x y : T) × Meets T.StandsFor (known pass.old) x × FnOnceReturnsAtMut J.FnOnce job x result y
            × Knows T.StandsFor (known pass.old) x y (known pass.new) }
    {
        self.turn(rt, &mut pass.seat);
        let state = pass.seat.slot_mut(&self.table.shared, 0);
        let before = state.entries();
        let result = job(state);
        self.finish(&mut pass.seat, before);
        result
    }

    // Waits for the turn. The seat then has the slot.
    fn turn<W: Wait>(&self, rt: &W, seat: &mut Seat<T, View<T::Entry, T::Fixed>>)
        requires here { seat.old.table_id ≡ self.now.table.shared.table_id }
        requires rests { Rests seat.old.me.0 × (seat.old.me.1 ≡ []) }
        ensures here { (seat.new.table_id ≡ seat.old.table_id) × (seat.new.id ≡ seat.old.id) }
        ensures took { Took T.StandsFor seat.old.me.0 seat.new.me }
    {
        let mut tries = 0u32;
        let mut nap = FIRST_NAP;
        let mut naps = 0u32;
        let mut waiter = Waiter::Fresh;
        for _ in rt.forever() {
            if self.may_try(waiter, naps) && self.try_turn(seat, waiter) {
                return;
            }
            if waiter == Waiter::Watcher {
                self.nap(rt, nap);
                nap = longer(nap);
                naps = naps.saturating_add(1);
            } else if tries < TRIES {
                tries += 1;
                pause();
            } else {
                waiter = self.wait(rt, seat, waiter);
            }
        }
        unreachable!()
    }

    // Whether a caller is to try. The one that is awake leaves the turn to those who take it again and again, since a hold that changes
    // processors takes far longer; but not for ever.
    fn may_try(&self, waiter: Waiter, naps: u32) -> bool {
        waiter != Waiter::Watcher || naps >= PATIENCE || self.is_quiet()
    }

    // Nobody was found with the turn, for longer than one who answers short programs leaves it free.
    fn is_quiet(&self) -> bool {
        for _ in 0..QUIET {
            if is_taken(self.table.shared.peek(1)) {
                return false;
            }
            pause();
        }
        true
    }

    // Takes the turn, if nobody has it.
    fn try_turn(&self, seat: &mut Seat<T, View<T::Entry, T::Fixed>>, waiter: Waiter) -> bool
        requires here { seat.old.table_id ≡ self.now.table.shared.table_id }
        requires rests { Rests seat.old.me.0 × (seat.old.me.1 ≡ []) }
        ensures here { (seat.new.table_id ≡ seat.old.table_id) × (seat.new.id ≡ seat.old.id) }
        ensures took { result ≡ true → Took T.StandsFor seat.old.me.0 seat.new.me }
        ensures not { result ≡ false → seat.new.me ≡ seat.old.me }
    {
        let word = self.table.shared.peek(1);
        if is_taken(word) {
            return false;
        }
        let taken = taken_word(word, waiter);
        self.table
            .shared
            .compare_exchange::<Turn<T>>(seat, 1, word, taken)
            == word
    }

    // Waits, if another still has the turn, and says how: as the one that is awake where one was called, or else asleep until it is called. A
    // seat is counted before, in the word that says that another has the turn, and the kernel puts to sleep only where the word is still the
    // same: so nobody is called then, and the end of that turn sees it.
    fn wait<W: Wait>(
        &self,
        rt: &W,
        seat: &mut Seat<T, View<T::Entry, T::Fixed>>,
        waiter: Waiter,
    ) -> Waiter
        requires here { seat.old.table_id ≡ self.now.table.shared.table_id }
        ensures here { (seat.new.table_id ≡ seat.old.table_id) × (seat.new.id ≡ seat.old.id) }
        ensures same { seat.new.me ≡ seat.old.me }
    {
        let word = self.table.shared.peek(1);
        if !is_taken(word) {
            return waiter;
        }
        let waiting = waiting_word(word, waiter);
        let found = self
            .table
            .shared
            .compare_exchange::<Warn<T>>(seat, 1, word, waiting);
        if found != word {
            return waiter;
        }
        if is_called(word) {
            return Waiter::Watcher;
        }
        self.table.shared.park(rt, 1, low_half(waiting));
        Waiter::Sleeper
    }

    // Naps for so many microseconds, or less where an entry is counted just then or a nudge comes.
    fn nap<W: Wait>(&self, rt: &W, nap: u64) {
        let count = self.table.shared.peek(0);
        let longest = Duration::from_micros(nap);
        self.table
            .shared
            .park_timeout(rt, 0, low_half(count), longest);
    }

    // Counts what was added to the state in the seat's slot, and ends the turn.
    fn finish(&self, seat: &mut Seat<T, View<T::Entry, T::Fixed>>, before: u64)
        requires here { seat.old.table_id ≡ self.now.table.shared.table_id }
        requires turn { seat.old.me.0.turn ≡ true }
        requires before { before ≡ length seat.old.me.0.seen }
        requires held { (y : T) × (seat.old.me.1 ≡ (0, y) ∷ []) × MayEnd T.StandsFor seat.old.me.0 y }
        ensures here { (seat.new.table_id ≡ seat.old.table_id) × (seat.new.id ≡ seat.old.id) }
        ensures freed { (y : T) → seat.old.me.1 ≡ (0, y) ∷ [] → IsFreed T.StandsFor seat.old.me.0 y seat.new.me.0 }
        ensures empty { seat.new.me.1 ≡ [] }
    {
        let state = seat.slot_mut(&self.table.shared, 0);
        let after = state.entries();
        let shut = state.is_shut();
        self.mark(seat, before, after);
        let added = to_free(shut);
        let word = self.table.shared.fetch_add::<Free<T>>(seat, 1, added);
        self.wake(seat, word.wrapping_add(added));
    }

    // Calls one of those who sleep, where the turn has ended and word 1 was this. Not where one is called or awake, nor where another seat has
    // taken the turn since: the end of its turn looks again.
    fn wake(&self, seat: &mut Seat<T, View<T::Entry, T::Fixed>>, word: u64)
        requires here { seat.old.table_id ≡ self.now.table.shared.table_id }
        ensures here { (seat.new.table_id ≡ seat.old.table_id) × (seat.new.id ≡ seat.old.id) }
        ensures same { seat.new.me ≡ seat.old.me }
    {
        if !is_owed(word) {
            return;
        }
        let found = self
            .table
            .shared
            .compare_exchange::<Warn<T>>(seat, 1, word, word + CALLED);
        if found == word {
            self.table.shared.wake_one(1);
        }
    }

    // Counts the entry that the state has more, if it has one.
    fn mark(&self, seat: &mut Seat<T, View<T::Entry, T::Fixed>>, before: u64, after: u64)
        requires here { seat.old.table_id ≡ self.now.table.shared.table_id }
        requires turn { seat.old.me.0.turn ≡ true }
        requires held { (y : T) × (seat.old.me.1 ≡ (0, y) ∷ []) × (before ≡ length seat.old.me.0.seen) × (after ≡ length (T.history y))
            × MayEnd T.StandsFor seat.old.me.0 y }
        ensures here { (seat.new.table_id ≡ seat.old.table_id) × (seat.new.id ≡ seat.old.id) }
        ensures same { seat.new.me.1 ≡ seat.old.me.1 }
        ensures marked { (y : T) → seat.old.me.1 ≡ (0, y) ∷ [] → IsMarked T.StandsFor seat.old.me.0 y seat.new.me.0 }
    {
        if before < after {
            self.table
                .shared
                .compare_exchange::<Mark<T>>(seat, 0, before, after);
        }
    }

    /// Ends the nap of the one of those who wait that naps: for a caller that won't come again, so that the turn isn't free for the rest of the
    /// nap. Where it comes before the nap it is lost.
    pub fn nudge(&self) {
        self.table.shared.wake_one(0);
    }

    /// The state, once all passes were joined into this one.
    pub fn close(self, pass: Pass<T>) -> T
        requires here { IsPassOf self pass }
        requires whole { (known pass).share ≡ whole_share }
        ensures { ComesBack T.StandsFor (known pass) result }
    {
        let Ticket { seat } = pass;
        let Owned { table } = self;
        let mut closed = table.close_with(seat);
        let state = closed.take(0);
        closed.free();
        state
    }
}
