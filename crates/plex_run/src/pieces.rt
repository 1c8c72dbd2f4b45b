//! A text that goes out to a sink in pieces, each of many lines.
ghost use Rattle.std.specs.Prelude.{◌≡◌, ◌≤◌, ◌++◌, [], OnOk, OnErr, IfOk};
ghost use Rattle.std.specs.Vec.{vec_len, vec_capacity};
ghost use Rattle.plex_run.specs.declared.writing.Unwritten.TheVariants as reason;
ghost use Rattle.plex_run.specs.declared.pieces.TheConstants.{PIECE};
ghost use Rattle.plex_run.specs.Written.{output, HasFailed, Writes, WritesFront};
ghost use Rattle.plex_run.specs.Pieces.{PassesOn};

use crate::writing::{Unwritten, write_text};
use plex_agent::sources::Sink;
use plex_load::types::NoMemory;
use std::alloc::Global;

/// How many bytes a piece has room for.
const PIECE: usize = 32_768;

/// The front of what is to be written next. Its memory was taken when it was made.
#[derive(Drop)]
pub(crate) struct Piece {
    pub(crate) bytes: Vec<u8>,

    ghost within: { vec_len bytes ≤ PIECE },
    ghost reserved: { PIECE ≤ vec_capacity bytes },
}

impl Piece {
    /// A piece with nothing in it.
    pub(crate) fn new(alloc: Global) -> Result<Piece, NoMemory>
        ensures { IfOk result (λ piece. piece.bytes.items ≡ []) }
    {
        Ok(Piece {
            bytes: Vec::with_capacity(alloc, PIECE)?,
        })
    }

    /// Writes what stands in the piece.
    pub(crate) fn flush<K: Sink>(&mut self, sink: &mut K) -> Result<(), Unwritten>
        ensures whole { OnOk result (Writes (output K.held K.faults sink.old sink.new)
            self.old.bytes.items) }
        ensures empty { OnOk result (self.new.bytes.items ≡ []) }
        ensures front { OnErr result (WritesFront (output K.held K.faults sink.old sink.new)
            self.old.bytes.items) }
        ensures cause { OnErr result (HasFailed (output K.held K.faults sink.old sink.new)) }
        ensures faults { K.faults sink.old ≤ K.faults sink.new }
    {
        write_text(sink, &self.bytes)?;
        self.bytes.clear();
        Ok(())
    }

    /// Writes what stands in the piece, where there is no memory for what belongs behind it. Tells
    /// why the rest isn't written.
    pub(crate) fn break_off<K: Sink>(&mut self, cause: NoMemory, sink: &mut K) -> Unwritten
        ensures front { WritesFront (output K.held K.faults sink.old sink.new)
            self.old.bytes.items }
        ensures cause { result ≡ reason.Failed
            → HasFailed (output K.held K.faults sink.old sink.new) }
        ensures faults { K.faults sink.old ≤ K.faults sink.new }
    {
        match self.flush(sink) {
            Ok(()) => Unwritten::NoMemory(cause),
            Err(unwritten) => unwritten,
        }
    }

    // Begins a piece with a text, or writes the text where no piece has room for it.
    fn begin<K: Sink>(&mut self, sink: &mut K, text: &[u8]) -> Result<(), Unwritten>
        requires { self.old.bytes.items ≡ [] }
        ensures passed { OnOk result (PassesOn (K.held sink.old) (K.held sink.new)
            [] self.new.bytes.items text.now) }
        ensures front { OnErr result
            (WritesFront (output K.held K.faults sink.old sink.new) text.now) }
        ensures cause { OnErr result (HasFailed (output K.held K.faults sink.old sink.new)) }
        ensures faults { K.faults sink.old ≤ K.faults sink.new }
    {
        if text.len() > PIECE {
            return write_text(sink, text);
        }
        self.bytes.extend_from_slice(text).unwrap();
        Ok(())
    }

    /// Puts a text behind what stands in the piece; where there is no room for both, that is
    /// written first. It takes no memory.
    pub(crate) fn put<K: Sink>(&mut self, sink: &mut K, text: &[u8]) -> Result<(), Unwritten>
        ensures passed { OnOk result (PassesOn (K.held sink.old) (K.held sink.new)
            self.old.bytes.items self.new.bytes.items text.now) }
        ensures front { OnErr result (WritesFront (output K.held K.faults sink.old sink.new)
            (self.old.bytes.items ++ text.now)) }
        ensures cause { OnErr result (HasFailed (output K.held K.faults sink.old sink.new)) }
        ensures faults { K.faults sink.old ≤ K.faults sink.new }
    {
        if text.len() <= PIECE - self.bytes.len() {
            self.bytes.extend_from_slice(text).unwrap();
            return Ok(());
        }
        self.flush(sink)?;
        self.begin(sink, text)
    }
}
