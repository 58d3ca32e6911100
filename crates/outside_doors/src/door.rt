//! A door: connections that come one after another, and are handed back when they were served.

ghost use Rattle.std.specs.Prelude.{◌≡◌, ℕ, [], List, Option, Some, IsErr, IfOk, OnOk, OnErr};
ghost use Rattle.fz_outside.specs.Faults.{HasCause};
ghost use Rattle.outside_links.specs.Links.{Connection, shown};
ghost use Rattle.outside_doors.specs.Doors.{HasCome, HasServed};

use fz_outside::Failed;
use outside_links::link::Link;

/// A door at which one thread answers connections.
pub trait Doors {
    type L: Link + Drop;

    // The connections that are still to come, in order, each as it will show itself when it comes, where they are told.
    ghost coming: { Self → Option (List Connection) };

    // The connections that were handed back, in order, each as it showed itself then, where they are told.
    ghost served: { Self → Option (List Connection) };

    // Some connection that came wasn't handed back yet.
    ghost is_out: { Self → Type 0 };

    // It listens at this port of this address, where that is told.
    ghost listens: { Self → List ℕ → ℕ → Type 0 };

    // How many calls have failed.
    ghost faults: { Self → ℕ };

    /// From now on connections come by this port of this address.
    fn listen(&mut self, addr: &str, port: u16) -> Result<(), Failed>
        ensures there { OnOk result (listens self.new addr.now port) }
        ensures coming { coming self.new ≡ coming self.old }
        ensures served { served self.new ≡ served self.old }
        ensures out { is_out self.old → is_out self.new }

        ensures cause { HasCause (faults self.old) (faults self.new) (IsErr result) }
        ensures passed { OnOk result (faults self.new ≡ faults self.old) };

    /// The next connection that comes. Where none is to come that is a fault.
    fn next(&mut self) -> Result<Self::L, Failed>
        ensures come { IfOk result (λ link. HasCome (coming self.old) (shown (Self.L.left link) (Self.L.written link) (Self.L.faults link)) (coming self.new)) }
        ensures given { OnOk result (is_out self.new) }
        ensures none { coming self.old ≡ Some [] → IsErr result }
        ensures err { OnErr result (coming self.new ≡ coming self.old) }
        ensures served { served self.new ≡ served self.old }
        ensures out { is_out self.old → is_out self.new }
        ensures there { (addr : List ℕ) (port : ℕ) → listens self.old addr port → listens self.new addr port }

        ensures cause { HasCause (faults self.old) (faults self.new) (IsErr result) }
        ensures passed { OnOk result (faults self.new ≡ faults self.old) };

    /// Hands a connection back: it came by this door, and nothing more is said over it.
    fn done(&mut self, link: Self::L)
        requires out { is_out self.old }

        ensures served { HasServed (served self.old) (shown (Self.L.left link) (Self.L.written link) (Self.L.faults link)) (served self.new) }
        ensures coming { coming self.new ≡ coming self.old }
        ensures there { (addr : List ℕ) (port : ℕ) → listens self.old addr port → listens self.new addr port }
        ensures passed { faults self.new ≡ faults self.old };
}
