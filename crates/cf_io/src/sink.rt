ghost use Rattle.std.specs.Prelude.{◌+◌, ◌<◌, ◌≤◌, List, ℕ, Option, length, take, IfOk, OnErr};
ghost use Rattle.std.specs.Io.KnownBytes.{Appends, Keeps};
ghost use Rattle.cf_io.specs.Count.{Rises};

use crate::Failed;

/// Where bytes go.
pub trait Sink {
    /// The bytes that are held, where the sink tells them. Once told, they stay told.
    ghost held: { Self → Option (List ℕ) };

    /// How many faults there have been. The count never falls, and stands still at `u64::MAX`.
    ghost faults: { Self → ℕ };

    /// How many writes there have been, for a sink that counts them; one that doesn't stays at 0.
    ghost calls: { Self → ℕ } = { λ _. 0 };

    /// Takes bytes from the front of `from`, and tells how many: at least one where there is one.
    ///
    /// # Errors
    ///
    /// `Failed` where the sink had a fault, or took none of the bytes. It holds what it held then.
    fn write(&mut self, from: &[u8]) -> Result<usize, Failed>
        ensures within { IfOk result (λ n. n ≤ length from.now) }
        ensures taken { IfOk result
            (λ n. Appends (held self.old) (held self.new) (take n from.now)) }
        ensures some { IfOk result (λ n. 0 < length from.now → 0 < n) }

        ensures kept { OnErr result (Keeps (held self.old) (held self.new)) }
        ensures cause { OnErr result (Rises (faults self.old) (faults self.new)) }

        // The counts.
        ensures faults { faults self.old ≤ faults self.new }
        ensures calls { calls self.new ≤ calls self.old + 1 };
}
