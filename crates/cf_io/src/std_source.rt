ghost use Rattle.std.specs.Prelude.{◌≡◌, ◌<◌, ◌≤◌, length, take, IfOk, OnOk, OnErr};
ghost use Rattle.std.specs.Io.KnownBytes.{Consumes, IsAtEnd, Keeps};
ghost use Rattle.cf_io.specs.Count.{one_more};

use crate::counting::counted;
use crate::{Failed, Source};
use std::io::Read;

/// A source over std's `Read`. It tells the bytes that its reader tells: over a terminal or a file
/// none, and what such a reader gives is trusted.
#[derive(Drop)]
pub struct StdSource<R> {
    /// The reader.
    pub inner: R,

    /// How many reads answered an error. The count stands still at `u64::MAX`.
    pub faults: u64,
}

impl<R: Read> Source for StdSource<R> {
    ghost left = { λ source. R.remaining source.inner };

    ghost faults = { λ source. source.faults };

    fn read(&mut self, into: &mut [u8]) -> Result<usize, Failed>
        ensures within { IfOk result (λ n. n ≤ length into.new) }
        ensures given { IfOk result (λ n. Consumes (R.remaining self.old.inner)
            (R.remaining self.new.inner) (take n into.new)) }
        ensures end { IfOk result (λ n. n ≡ 0 → 0 < length into.new
            → IsAtEnd (R.remaining self.new.inner)) }
        ensures kept { OnErr result (Keeps (R.remaining self.old.inner)
            (R.remaining self.new.inner)) }

        // Each error counts, and nothing else does.
        ensures ok { OnOk result (self.new.faults ≡ self.old.faults) }
        ensures err { OnErr result (self.new.faults ≡ one_more self.old.faults) }
        ensures faults { self.old.faults ≤ self.new.faults }
    {
        match self.inner.read(into) {
            Ok(count) => Ok(count),
            Err(_) => {
                self.faults = counted(self.faults);
                Err(Failed)
            }
        }
    }
}
