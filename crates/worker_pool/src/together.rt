//! Workers that begin once all of them have threads.

ghost use Rattle.std.specs.Prelude.{◌≡◌, ◌+◌, ◌<◌, ◌≤◌, ℕ, [], true, false, length, take, slice_index_or, vec_capacity, map, IfErr, IfNone, IfOk, IfSome};
ghost use Rattle.std.specs.Fork.{AcceptsAt, AcceptsEach, ChangesAt, ChangesEach};
ghost use Rattle.worker_pool.specs.Gates.{AreOut, CanEach, WentFrom, errand};

use crate::gate::{Back, Gate, Task, Work, attend, say};
use std::alloc::Global;
use std::snapshot::Snapshot;
use std::sync::{OnceLock, OnceToken, Wait};
use std::thread::{self, PromisedHandle, Scope, Threads};

/// Not all threads could be started, so that nobody has worked: the crew, as it was.
#[derive(Drop)]
pub struct NotStarted<T: Drop> {
    pub crew: Vec<T>,
}

/// A worker's thread, which waits at the gate.
type Thread<'a, T, W> = PromisedHandle<Back<'a, T>, Task<'a, T, W>>;

// Starts a worker's thread, which waits at the gate. Where that can't be, all are told not to work, and the worker comes back.
fn start<'s, 'a: 's, E, R: Threads + Wait + Sync + 'a, T: Send + Drop + 'a, W: Work<T> + Sync + 'a>(
    rt: &'a R,
    scope: &'s Scope<'s, E>,
    gate: &'a Gate,
    work: &'a W,
    place: usize,
    worker: T,
) -> Result<Thread<'a, T, W>, Back<'a, T>>
    requires { W.can work.now place worker }
    ensures started { IfOk result (λ thread. errand thread.promise.gate.now.id thread.promise.work.now thread.promise.place thread.promise.before.value ≡ errand gate.now.id work.now place worker) }
    ensures refused { IfErr result (λ back. (back.heard.of ≡ gate.now.id) × (back.heard.value ≡ false) × (back.worker ≡ worker)) }
{
    let task = Task {
        gate,
        work,
        place,
        before: Snapshot::of(&worker),
    };
    match scope.spawn_with(task, move || attend(rt, gate, work, place, worker)) {
        Ok(thread) => Ok(thread),
        Err(refused) => {
            let said = say(rt, gate, false);
            let back = (refused.value)();
            back.heard.agrees(&said);
            Err(back)
        }
    }
}

// Starts the threads of a crew, the last worker's first. Where one can't be started, those without a thread stay in the crew, and all were
// told not to work.
fn start_all<
    's,
    'a: 's,
    E,
    R: Threads + Wait + Sync + 'a,
    T: Send + Drop + 'a,
    W: Work<T> + Sync + 'a,
>(
    rt: &'a R,
    scope: &'s Scope<'s, E>,
    gate: &'a Gate,
    work: &'a W,
    crew: &mut Vec<T>,
    threads: &mut Vec<Thread<'a, T, W>>,
) -> Option<OnceToken<'a, bool>>
    requires can { CanEach (W.can work.now) crew.old.items }
    requires room { (threads.old.items ≡ []) × (length crew.old.items ≤ vec_capacity threads.old) }
    ensures all { IfNone result (crew.new.items ≡ []) }
    ensures told { IfSome result (λ told. (told.of ≡ gate.now.id) × (told.value ≡ false)) }
    ensures rest { crew.new.items ≡ take (length crew.new.items) crew.old.items }
    ensures capacity { vec_capacity crew.new ≡ vec_capacity crew.old }
    ensures threads { AreOut gate.now.id work.now crew.old.items (map (λ t. errand t.promise.gate.now.id t.promise.work.now t.promise.place t.promise.before.value) threads.new.items) }
    ensures len { length crew.new.items + length threads.new.items ≡ length crew.old.items }
{
    while let Some(worker) = crew.pop() {
        match start(rt, scope, gate, work, crew.len(), worker) {
            Ok(thread) => threads.push_reserved(thread),
            Err(back) => {
                crew.push_reserved(back.worker);
                return Some(back.heard);
            }
        }
    }
    None
}

// Waits for all threads of a crew, whose last worker's was started first, and puts the workers after those that stayed.
fn bring_back<'a, R: Threads, T: Drop, W: Work<T>>(
    rt: &R,
    told: &OnceToken<'a, bool>,
    work: &W,
    before: &Snapshot<Vec<T>>,
    threads: Vec<Thread<'a, T, W>>,
    crew: &mut Vec<T>,
)
    requires threads { AreOut told.now.of work.now before.now.value.items (map (λ t. errand t.promise.gate.now.id t.promise.work.now t.promise.place t.promise.before.value) threads.items) }
    requires rest { crew.old.items ≡ take (length crew.old.items) before.now.value.items }
    requires len { length crew.old.items + length threads.items ≡ length before.now.value.items }
    requires room { length before.now.value.items ≤ vec_capacity crew.old }
    ensures len { length crew.new.items ≡ length before.now.value.items }
    ensures kept { take (length crew.old.items) crew.new.items ≡ crew.old.items }
    ensures went { WentFrom told.now.value (W.does work.now) (length crew.old.items) before.now.value.items crew.new.items }
{
    let mut threads = threads;
    while let Some(thread) = threads.pop() {
        let back = thread.join(rt);
        back.heard.agrees(told);
        crew.push_reserved(back.worker);
    }
}

// All work, or nobody does.
#[tactic(auto, using(crate::proofs::Backs::none_went))]
fn go<'s, 'a: 's, E, R: Threads + Wait + Sync + 'a, T: Send + Drop + 'a, W: Work<T> + Sync + 'a>(
    rt: &'a R,
    alloc: Global,
    scope: &'s Scope<'s, E>,
    gate: &'a Gate,
    work: &'a W,
    crew: Vec<T>,
) -> Result<Vec<T>, NotStarted<T>>
    requires { CanEach (W.can work.now) crew.items }
    ensures len { IfOk result (λ after. length after.items ≡ length crew.items) }
    ensures worked { IfOk result (λ after. WentFrom true (W.does work.now) 0 crew.items after.items) }
    ensures refused { IfErr result (λ refused. refused.crew.items ≡ crew.items) }
{
    let Ok(mut threads) = Vec::with_capacity(alloc, crew.len()) else {
        return Err(NotStarted { crew });
    };
    let before = Snapshot::of(&crew);
    let mut crew = crew;
    match start_all(rt, scope, gate, work, &mut crew, &mut threads) {
        None => {
            let told = say(rt, gate, true);
            bring_back(rt, &told, work, &before, threads, &mut crew);
            Ok(crew)
        }
        Some(told) => {
            bring_back(rt, &told, work, &before, threads, &mut crew);
            Err(NotStarted { crew })
        }
    }
}

// Work that a closure does.
#[derive(Drop)]
struct Calls<'a, F> {
    call: &'a F,
}

impl<'a, T, F: Fn(usize, &mut T)> Work<T> for Calls<'a, F> {
    ghost can = { λ work place x. AcceptsAt F.Fn work.call.now place x };

    ghost does = { λ work place x y. ChangesAt F.Fn work.call.now place x y };

    fn run(&self, place: usize, worker: &mut T) {
        (self.call)(place, worker);
    }
}

/// Each worker does its work once, by its place, in a thread of its own, once all of them have threads. Where one can't be started, or there is
/// no memory for the list of them, nobody works.
#[tactic(auto, using(crate::proofs::Backs::each_may))]
pub fn work_together<R: Threads + Wait + Sync, T: Send + Drop, F: Fn(usize, &mut T) + Sync>(
    rt: &R,
    alloc: Global,
    crew: Vec<T>,
    work: &F,
) -> Result<Vec<T>, NotStarted<T>>
    requires { AcceptsEach F.Fn work.now crew.items }
    ensures len { IfOk result (λ after. length after.items ≡ length crew.items) }
    ensures worked { IfOk result (λ after. ChangesEach F.Fn work.now crew.items after.items) }
    ensures refused { IfErr result (λ refused. refused.crew.items ≡ crew.items) }
{
    let gate = OnceLock::new();
    let shared = &gate;
    let calls = Calls { call: work };
    let all = &calls;
    thread::scope(
        thread::scope_env(),
        rt,
        |scope| -> Result<Vec<T>, NotStarted<T>>
            requires { AcceptsEach F.Fn all.now.call.now crew.items }
            ensures len { IfOk result (λ after. length after.items ≡ length crew.items) }
            ensures worked { IfOk result (λ after. ChangesEach F.Fn all.entry.now.call.now crew.items after.items) }
            ensures refused { IfErr result (λ refused. refused.crew.items ≡ crew.items) }
        { go(rt, alloc, scope, shared, all, crew) },
    )
}
