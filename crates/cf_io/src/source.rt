ghost use Rattle.std.specs.Prelude.{◌≡◌, ◌+◌, ◌<◌, ◌≤◌, List, ℕ, Option, length, take, IfOk, OnErr};
ghost use Rattle.std.specs.Io.KnownBytes.{Consumes, IsAtEnd, Keeps};
ghost use Rattle.cf_io.specs.Count.{Rises};

use crate::Failed;

/// Where bytes come from.
pub trait Source {
    /// The bytes that are left, where the source tells them. Once told, they stay told.
    ghost left: { Self → Option (List ℕ) };

    /// How many faults there have been. The count never falls, and stands still at `u64::MAX`.
    ghost faults: { Self → ℕ };

    /// How many reads there have been, for a source that counts them; one that doesn't stays at 0.
    ghost calls: { Self → ℕ } = { λ _. 0 };

    /// Reads bytes into the front of `into`, and tells how many. What stands behind them is left
    /// open, and after an error all of `into` is. A read of 0 bytes into a place that isn't empty
    /// is the end of the source.
    ///
    /// # Errors
    ///
    /// `Failed` where the source had a fault. No byte is taken from it then.
    fn read(&mut self, into: &mut [u8]) -> Result<usize, Failed>
        ensures within { IfOk result (λ n. n ≤ length into.new) }
        ensures given { IfOk result (λ n. Consumes (left self.old) (left self.new)
            (take n into.new)) }
        ensures end { IfOk result (λ n. n ≡ 0 → 0 < length into.new → IsAtEnd (left self.new)) }

        ensures kept { OnErr result (Keeps (left self.old) (left self.new)) }
        ensures cause { OnErr result (Rises (faults self.old) (faults self.new)) }

        // The counts.
        ensures faults { faults self.old ≤ faults self.new }
        ensures calls { calls self.new ≤ calls self.old + 1 };
}
