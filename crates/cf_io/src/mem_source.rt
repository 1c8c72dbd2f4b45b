ghost use Rattle.std.specs.Prelude.{◌≡◌, ◌+◌, ◌≤◌, ◌↔◌, ◌++◌, Some, length, min, take, drop, IfOk, OnErr, IsErr};
ghost use Rattle.cf_io.specs.MemSource.{left_of};
ghost use Rattle.cf_io.specs.Count.{IsListed, one_more};

use crate::counting::{counted, is_listed};
use crate::{Failed, Source};

/// A source in memory. It fails exactly the calls whose numbers, from 1, stand in `fails`.
#[derive(Drop)]
pub struct MemSource {
    /// All the bytes, those that were read among them.
    pub bytes: Vec<u8>,

    /// How many of the bytes were read.
    pub taken: usize,

    /// How many calls of `read` there have been. The count stands still at `u64::MAX`.
    pub calls: u64,

    /// The numbers of the calls that fail.
    pub fails: Vec<u64>,

    /// How many calls failed. The count stands still at `u64::MAX`.
    pub faults: u64,
}

impl Source for MemSource {
    ghost left = { λ source. Some (left_of source) };

    ghost faults = { λ source. source.faults };

    ghost calls = { λ source. source.calls };

    /// Gives as many bytes as there are and fit, and leaves what stands behind them in `into` as it
    /// was.
    ///
    /// # Errors
    ///
    /// `Failed` exactly where the call is listed.
    fn read(&mut self, into: &mut [u8]) -> Result<usize, Failed>
        // Which calls fail.
        ensures fails { IsErr result ↔ IsListed self.old.fails.items self.old.calls }

        // What an Ok gives, and what stays.
        ensures count { IfOk result (λ n. n ≡ min (length (left_of self.old)) (length into.old)) }
        ensures bytes { IfOk result (λ n. into.new ≡ take n (left_of self.old) ++ drop n into.old) }
        ensures ok { IfOk result (λ n. self.new ≡ record self.old
            { taken = self.old.taken + n; calls = one_more self.old.calls }) }
        ensures given { IfOk result (λ n. left_of self.old ≡ take n into.new ++ left_of self.new) }

        // An error counts a fault, and takes and gives nothing.
        ensures err { OnErr result (self.new ≡ record self.old
            { calls = one_more self.old.calls; faults = one_more self.old.faults }) }
        ensures into { OnErr result (into.new ≡ into.old) }
        ensures faults { self.old.faults ≤ self.new.faults }
    {
        let listed = is_listed(&self.fails, self.calls);
        self.calls = counted(self.calls);
        if listed {
            self.faults = counted(self.faults);
            return Err(Failed);
        }
        let count = self.bytes.len().saturating_sub(self.taken).min(into.len());
        if count > 0 {
            let piece = &self.bytes[self.taken..self.taken + count];
            into[..count].copy_from_slice(piece);
            self.taken += count;
        }
        Ok(count)
    }
}
