//! Workers that go on with the threads that there are.

ghost use Rattle.std.specs.Fork.{AcceptsEach, ChangesEach};
ghost use Rattle.worker_pool.specs.Each.{HaveWorked};

use std::thread::{Threads, for_each_mut, join_mut};

// All of them in threads of their own but one, which works in this one.
fn spread<R: Threads + Sync, T: Send, F: Fn(usize, &mut T) + Sync>(rt: &R, work: &F, crew: &mut [T])
    requires { AcceptsEach F.Fn work.now crew.old }
    ensures { HaveWorked F.Fn work.now crew.old crew.new }
{
    let threads = crew.len().max(1);
    for_each_mut(rt, crew, threads, work);
}

/// Each worker does its work once, by its place, in a thread of its own. Where no thread can be started, its work waits for another worker's
/// thread; where there is none at all, for the calling one.
pub fn work_each<R: Threads + Sync, T: Send, F: Fn(usize, &mut T) + Sync>(
    rt: &R,
    work: &F,
    crew: &mut [T],
)
    requires { AcceptsEach F.Fn work.now crew.old }
    ensures { ChangesEach F.Fn work.now crew.old crew.new }
{
    let mut all = ||
        requires { AcceptsEach F.Fn work.now crew.now }
        ensures { HaveWorked F.Fn work.entry.now crew.entry.now crew.exit.now }
    { spread(rt, work, crew) };
    let mut wait = || ();
    join_mut(rt, &mut all, &mut wait);
}
