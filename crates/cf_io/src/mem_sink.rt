ghost use Rattle.std.specs.Prelude.{◌≡◌, ◌-◌, ◌<◌, ◌≤◌, ◌↔◌, ◌⊎◌, ◌++◌, [], Some, length, min, take, vec_len, vec_capacity, IfOk, OnOk, OnErr, IsErr};
ghost use Rattle.cf_io.specs.Count.{IsListed, one_more};

use crate::counting::{counted, is_listed};
use crate::{Failed, NoMemory, Sink};
use std::alloc::Global;

/// A sink in memory. It fails exactly the calls whose numbers, from 1, stand in `fails`, and where
/// its room is used up.
#[derive(Drop)]
pub struct MemSink {
    /// The bytes that were written.
    pub bytes: Vec<u8>,

    /// How many bytes the sink can hold. Their memory was taken when it was made.
    pub room: usize,

    /// How many bytes one call takes at most.
    pub piece: usize,

    /// How many calls of `write` there have been. The count stands still at `u64::MAX`.
    pub calls: u64,

    /// The numbers of the calls that fail.
    pub fails: Vec<u64>,

    /// How many calls failed. The count stands still at `u64::MAX`.
    pub faults: u64,

    ghost within: { vec_len bytes ≤ room },
    ghost reserved: { room ≤ vec_capacity bytes },
    ghost some_piece: { 0 < piece },
}

impl MemSink {
    /// A sink that holds nothing yet, with memory for `room` bytes. One call takes at most `piece`
    /// bytes.
    ///
    /// # Errors
    ///
    /// `NoMemory` where there is no memory for `room` bytes.
    pub fn new(
        alloc: Global,
        room: usize,
        piece: usize,
        fails: Vec<u64>,
    ) -> Result<MemSink, NoMemory>
        requires { 0 < piece }
        ensures empty { IfOk result (λ sink. sink.bytes.items ≡ []) }
        ensures form { IfOk result (λ sink. (sink.room ≡ room) × (sink.piece ≡ piece)
            × (sink.fails ≡ fails)) }
        ensures counts { IfOk result (λ sink. (sink.calls ≡ 0) × (sink.faults ≡ 0)) }
    {
        Ok(MemSink {
            bytes: Vec::with_capacity(alloc, room)?,
            room,
            piece,
            calls: 0,
            fails,
            faults: 0,
        })
    }
}

impl Sink for MemSink {
    ghost held = { λ sink. Some sink.bytes.items };

    ghost faults = { λ sink. sink.faults };

    ghost calls = { λ sink. sink.calls };

    /// Takes as many bytes as are given, fit into the room that is left, and may come in one call.
    /// It takes no memory.
    ///
    /// # Errors
    ///
    /// `Failed` exactly where the call is listed, or bytes are given and the room is used up.
    fn write(&mut self, from: &[u8]) -> Result<usize, Failed>
        // Which calls fail.
        ensures fails { IsErr result ↔ (IsListed self.old.fails.items self.old.calls
            ⊎ ((0 < length from.now) × (vec_len self.old.bytes ≡ self.old.room))) }

        // What an Ok takes.
        ensures count { IfOk result (λ n. n ≡ min (length from.now)
            (min self.old.piece (self.old.room - vec_len self.old.bytes))) }
        ensures bytes { IfOk result (λ n. self.new.bytes.items ≡ self.old.bytes.items
            ++ take n from.now) }
        ensures some { IfOk result (λ n. 0 < length from.now → 0 < n) }
        ensures ok { OnOk result ((self.new.calls ≡ one_more self.old.calls)
            × (self.new.faults ≡ self.old.faults)) }

        // An error counts a fault, and takes nothing.
        ensures err { OnErr result (self.new ≡ record self.old
            { calls = one_more self.old.calls; faults = one_more self.old.faults }) }
        ensures faults { self.old.faults ≤ self.new.faults }

        ensures form { (self.new.room ≡ self.old.room) × (self.new.piece ≡ self.old.piece)
            × (self.new.fails ≡ self.old.fails) }
    {
        let listed = is_listed(&self.fails, self.calls);
        self.calls = counted(self.calls);
        let room = self.room - self.bytes.len();
        if listed || (room == 0 && !from.is_empty()) {
            self.faults = counted(self.faults);
            return Err(Failed);
        }
        let count = from.len().min(self.piece.min(room));
        self.bytes.extend_from_slice(&from[..count]).unwrap();
        Ok(count)
    }
}
