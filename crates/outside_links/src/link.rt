//! A connection: bytes that are read from front to back, and bytes that are written one after another.

ghost use Rattle.std.specs.Prelude.{◌≡◌, ℕ, List, Option, take, ◌<◌, ◌≤◌, length, IsErr, IfOk, OnOk, OnErr};
ghost use Rattle.std.specs.Io.KnownBytes.{IsAtEnd};
ghost use Rattle.fz_outside.specs.Faults.{HasCause};
ghost use Rattle.outside_links.specs.Links.{HasGiven, HasTaken};

use fz_outside::Failed;

/// A connection with a peer, which sends bytes and is sent bytes. Reads and writes have one count of faults.
pub trait Link {
    // The bytes that the peer has sent and that weren't read yet, where they are told.
    ghost left: { Self → Option (List ℕ) };

    // The bytes that were written so far, where they are told.
    ghost written: { Self → Option (List ℕ) };

    // How many calls have failed.
    ghost faults: { Self → ℕ };

    /// Reads some of the bytes that are left to the front of `buf`, and says how many.
    /// None at all for a buffer with room is the end.
    fn read(&mut self, buf: &mut [u8]) -> Result<usize, Failed>
        ensures bound { IfOk result (λ n. n ≤ length buf.old) }
        ensures bytes { IfOk result (λ n. HasGiven (left self.old) (take n buf.new) (left self.new)) }
        ensures end { IfOk result (λ n. n ≡ 0 → 0 < length buf.old → IsAtEnd (left self.new)) }
        ensures err { OnErr result (left self.new ≡ left self.old) }
        ensures apart { written self.new ≡ written self.old }

        ensures cause { HasCause (faults self.old) (faults self.new) (IsErr result) }
        ensures passed { OnOk result (faults self.new ≡ faults self.old) };

    /// Writes some of a piece, from its front, and says how many bytes.
    /// To take none of a piece that isn't empty is a fault.
    fn write(&mut self, piece: &[u8]) -> Result<usize, Failed>
        ensures bound { IfOk result (λ n. n ≤ length piece.now) }
        ensures some { IfOk result (λ n. 0 < length piece.now → 0 < n) }
        ensures bytes { IfOk result (λ n. HasTaken (written self.old) (take n piece.now) (written self.new)) }
        ensures err { OnErr result (written self.new ≡ written self.old) }
        ensures apart { left self.new ≡ left self.old }

        ensures cause { HasCause (faults self.old) (faults self.new) (IsErr result) }
        ensures passed { OnOk result (faults self.new ≡ faults self.old) };
}

/// Writes a whole piece, in as many calls as that takes.
pub fn send<L: Link>(link: &mut L, bytes: &[u8]) -> Result<(), Failed>
    ensures ok { OnOk result (HasTaken (L.written link.old) bytes.now (L.written link.new)) }
    ensures err { OnErr result ((n : ℕ) × (n < length bytes.now) × HasTaken (L.written link.old) (take n bytes.now) (L.written link.new)) }
    ensures apart { L.left link.new ≡ L.left link.old }

    ensures cause { HasCause (L.faults link.old) (L.faults link.new) (IsErr result) }
    ensures passed { OnOk result (L.faults link.new ≡ L.faults link.old) }
{
    let mut done = 0usize;
    while done < bytes.len() {
        done += link.write(&bytes[done..])?;
    }
    Ok(())
}
