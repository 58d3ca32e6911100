//! A door in memory. It tells its connections.

ghost use Rattle.std.specs.Prelude.{◌≡◌, ◌≤◌, ◌<◌, ◌+◌, ◌∷◌, ◌++◌, ◌||◌, ℕ, List, [], Some, None, take, map, vec_len, vec_capacity, length, nat_lt, is_err, IsErr, IfOk, OnOk, OnErr};
ghost use Rattle.std.specs.VecDeque.{deque_len};
ghost use Rattle.fz_outside.specs.Faults.{HasCause};
ghost use Rattle.fz_outside.specs.Schedule.{is_listed, began};
ghost use Rattle.outside_doors.specs.Doors.{HasCome, HasServed};
ghost use Rattle.outside_doors.specs.declared.memory.TheConstants.{ADDRESS};

use crate::door::Doors;
use fz_outside::Failed;
use fz_outside::flaky::Schedule;
use outside_links::fault;
use outside_links::memory::{MemLink, begin};
use std::alloc::{AllocError, Global};
use std::collections::VecDeque;

/// How many bytes an address may have at which a door in memory listens.
pub const ADDRESS: usize = 64;

/// A door in memory: the connections that are to come, and those that were handed back, for which room is reserved.
///
/// A call of `listen` or `next` fails where its number, from 0, is listed; a `listen` also where its address is too long; a `next` also
/// before the door listens, and where no connection is to come.
#[derive(Drop)]
pub struct MemDoors<'a> {
    coming: VecDeque<MemLink<'a>>,
    served: Vec<MemLink<'a>>,
    port: Option<u16>,
    // the address at which it listens, in the first so many bytes
    addr: [u8; ADDRESS],
    size: usize,
    schedule: Schedule<'a>,
    ghost reserved: { deque_len coming + vec_len served ≤ vec_capacity served },
    ghost short: { size ≤ ADDRESS },
}

impl<'a> MemDoors<'a> {
    ghost use Rattle.outside_doors.specs.Memory.{shown_by, schedule_of, port_of, address_of, served_by};

    /// A door to which these connections are to come, in their order.
    pub fn new(
        alloc: Global,
        coming: VecDeque<MemLink<'a>>,
        failing: &'a [u64],
    ) -> Result<Self, AllocError>
        ensures coming { IfOk result (λ doors. ⟦<MemDoors<'a> as Doors>⟧.coming doors ≡ Some (map shown_by coming.entry.items)) }
        ensures served { IfOk result (λ doors. served_by doors ≡ []) }
        ensures faults { IfOk result (λ doors. ⟦<MemDoors<'a> as Doors>⟧.faults doors ≡ 0) }
        ensures port { IfOk result (λ doors. port_of doors ≡ None) }
        ensures calls { IfOk result (λ doors. (schedule_of doors).calls ≡ 0) }
        ensures failing { IfOk result (λ doors. (schedule_of doors).failing.now ≡ failing.now) }
    {
        Ok(MemDoors {
            served: Vec::with_capacity(alloc, coming.len())?,
            coming,
            port: None,
            addr: [0; ADDRESS],
            size: 0,
            schedule: Schedule {
                failing,
                calls: 0,
                faults: 0,
            },
        })
    }

    /// The connections that were handed back, in order.
    pub fn served(&self) -> &[MemLink<'a>]
        ensures links { result.now ≡ served_by self.now }
        ensures shown { ⟦<MemDoors<'a> as Doors>⟧.served self.now ≡ Some (map shown_by result.now) }
    {
        self.served.as_slice()
    }

    /// The port at which it listens.
    pub fn port(&self) -> Option<u16>
        ensures { result ≡ port_of self.now }
    {
        self.port
    }

    /// The address at which it listens, or nothing.
    pub fn addr(&self) -> &[u8]
        ensures { result.now ≡ address_of self.now }
    {
        &self.addr[..self.size]
    }

    /// How many calls have failed.
    pub fn faults(&self) -> u64
        ensures { result ≡ ⟦<MemDoors<'a> as Doors>⟧.faults self.now }
    {
        self.schedule.faults
    }
}

// These bytes, and zeros behind them.
fn beginning_with(text: &[u8]) -> [u8; ADDRESS]
    requires { length text.now ≤ ADDRESS }
    ensures { take (length text.now) result ≡ text.now }
{
    let mut bytes = [0; ADDRESS];
    bytes[..text.len()].copy_from_slice(text);
    bytes
}

impl<'a> Doors for MemDoors<'a> {
    type L = MemLink<'a>;

    ghost use Rattle.outside_doors.specs.Memory.{shown_by, schedule_of, port_of, address_of, coming_to, served_by, is_deserted};

    ghost coming = { λ doors. Some (map shown_by doors.coming.items) };

    ghost served = { λ doors. Some (map shown_by doors.served.items) };

    ghost is_out = { λ doors. deque_len doors.coming + vec_len doors.served < vec_capacity doors.served };

    ghost listens = { λ doors addr port. (take doors.size doors.addr ≡ addr) × (doors.port ≡ Some port) };

    ghost faults = { λ doors. doors.schedule.faults };

    fn listen(&mut self, addr: &str, port: u16) -> Result<(), Failed>
        ensures began { length addr.now ≤ ADDRESS → schedule_of self.new ≡ began (schedule_of self.old) }
        ensures listed { is_err result ≡ (is_listed (schedule_of self.old) || nat_lt ADDRESS (length addr.now)) }
        ensures stays { OnErr result ((port_of self.new ≡ port_of self.old) × (address_of self.new ≡ address_of self.old)) }

        // As of any door.
        ensures there { OnOk result ((address_of self.new ≡ addr.now) × (port_of self.new ≡ Some port)) }
        ensures coming { Some (map shown_by (coming_to self.new)) ≡ Some (map shown_by (coming_to self.old)) }
        ensures served { Some (map shown_by (served_by self.new)) ≡ Some (map shown_by (served_by self.old)) }
        ensures out { deque_len self.old.coming + vec_len self.old.served < vec_capacity self.old.served
            → deque_len self.new.coming + vec_len self.new.served < vec_capacity self.new.served }
        ensures cause { HasCause (schedule_of self.old).faults (schedule_of self.new).faults (IsErr result) }
        ensures passed { OnOk result ((schedule_of self.new).faults ≡ (schedule_of self.old).faults) }
    {
        begin(&mut self.schedule)?;
        let text = addr.as_bytes();
        if text.len() > ADDRESS {
            return Err(fault(&mut self.schedule.faults));
        }
        self.addr = beginning_with(text);
        self.size = text.len();
        self.port = Some(port);
        Ok(())
    }

    fn next(&mut self) -> Result<MemLink<'a>, Failed>
        ensures deserted { is_err result ≡ is_deserted self.old }
        ensures calls { (schedule_of self.new).calls ≡ (began (schedule_of self.old)).calls }
        ensures failing { (schedule_of self.new).failing ≡ (schedule_of self.old).failing }
        ensures port { (port_of self.new ≡ port_of self.old) × (address_of self.new ≡ address_of self.old) }
        ensures first { IfOk result (λ link. coming_to self.old ≡ link ∷ coming_to self.new) }

        // As of any door.
        ensures come { IfOk result (λ link. HasCome (Some (map shown_by (coming_to self.old))) (shown_by link) (Some (map shown_by (coming_to self.new)))) }
        ensures given { OnOk result (deque_len self.new.coming + vec_len self.new.served < vec_capacity self.new.served) }
        ensures none { Some (map shown_by (coming_to self.old)) ≡ Some [] → IsErr result }
        ensures err { OnErr result (Some (map shown_by (coming_to self.new)) ≡ Some (map shown_by (coming_to self.old))) }
        ensures served { Some (map shown_by (served_by self.new)) ≡ Some (map shown_by (served_by self.old)) }
        ensures out { deque_len self.old.coming + vec_len self.old.served < vec_capacity self.old.served
            → deque_len self.new.coming + vec_len self.new.served < vec_capacity self.new.served }
        ensures there { (addr : List ℕ) (port : ℕ) → (address_of self.old ≡ addr) × (port_of self.old ≡ Some port)
            → (address_of self.new ≡ addr) × (port_of self.new ≡ Some port) }
        ensures cause { HasCause (schedule_of self.old).faults (schedule_of self.new).faults (IsErr result) }
        ensures passed { OnOk result ((schedule_of self.new).faults ≡ (schedule_of self.old).faults) }
    {
        begin(&mut self.schedule)?;
        if self.port.is_none() {
            return Err(fault(&mut self.schedule.faults));
        }
        match self.coming.pop_front() {
            Some(link) => Ok(link),
            None => Err(fault(&mut self.schedule.faults)),
        }
    }

    fn done(&mut self, link: MemLink<'a>)
        requires out { deque_len self.old.coming + vec_len self.old.served < vec_capacity self.old.served }

        ensures same { schedule_of self.new ≡ schedule_of self.old }
        ensures port { (port_of self.new ≡ port_of self.old) × (address_of self.new ≡ address_of self.old) }
        ensures last { served_by self.new ≡ served_by self.old ++ link.entry ∷ [] }

        // As of any door.
        ensures served { HasServed (Some (map shown_by (served_by self.old))) (shown_by link.entry) (Some (map shown_by (served_by self.new))) }
        ensures coming { Some (map shown_by (coming_to self.new)) ≡ Some (map shown_by (coming_to self.old)) }
        ensures there { (addr : List ℕ) (port : ℕ) → (address_of self.old ≡ addr) × (port_of self.old ≡ Some port)
            → (address_of self.new ≡ addr) × (port_of self.new ≡ Some port) }
        ensures passed { (schedule_of self.new).faults ≡ (schedule_of self.old).faults }
    {
        self.served.push_reserved(link);
    }
}
