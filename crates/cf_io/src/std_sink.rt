ghost use Rattle.std.specs.Prelude.{◌≡◌, ◌<◌, ◌≤◌, length, take, IfOk, OnOk, OnErr};
ghost use Rattle.std.specs.Io.KnownBytes.{Appends, Keeps};
ghost use Rattle.cf_io.specs.Count.{one_more};

use crate::counting::counted;
use crate::{Failed, Sink};
use std::io::Write;

/// A sink over std's `Write`. It tells the bytes that its writer tells: over a terminal or a file
/// none, and what becomes of them there is trusted.
#[derive(Drop)]
pub struct StdSink<W> {
    /// The writer.
    pub inner: W,

    /// How many writes answered an error, or took none of the bytes that they were given. The count
    /// stands still at `u64::MAX`.
    pub faults: u64,
}

impl<W: Write> Sink for StdSink<W> {
    ghost held = { λ sink. W.contents sink.inner };

    ghost faults = { λ sink. sink.faults };

    fn write(&mut self, from: &[u8]) -> Result<usize, Failed>
        ensures within { IfOk result (λ n. n ≤ length from.now) }
        ensures taken { IfOk result (λ n. Appends (W.contents self.old.inner)
            (W.contents self.new.inner) (take n from.now)) }
        ensures some { IfOk result (λ n. 0 < length from.now → 0 < n) }
        ensures kept { OnErr result
            (Keeps (W.contents self.old.inner) (W.contents self.new.inner)) }

        // Each error counts, and nothing else does.
        ensures ok { OnOk result (self.new.faults ≡ self.old.faults) }
        ensures err { OnErr result (self.new.faults ≡ one_more self.old.faults) }
        ensures faults { self.old.faults ≤ self.new.faults }
    {
        match self.inner.write(from) {
            Ok(count) if count > 0 || from.is_empty() => Ok(count),
            _ => {
                self.faults = counted(self.faults);
                Err(Failed)
            }
        }
    }
}
