//! What the lock of a structure's box keeps.
use crate::any_note::AnyNote;
use struct_cell::turns::Keeps;

/// The fact that the lock of a box keeps: the note in it is one of its structure, as the first was.
pub(crate) struct NoteBox;

impl Keeps for NoteBox {
    ghost use Rattle.plex_board.specs.Passes.{note_shown};
    ghost use Rattle.plex_board.specs.Stations.{IsOfSame};

    type Value = AnyNote;

    type Key = AnyNote;

    ghost key_of = { λ note. note };

    ghost stands = { λ first note. IsOfSame (note_shown first) (note_shown note) };
}
