//! Notes that lie open, one for each structure.
use crate::any_note::AnyNote;
use std::marker::Model;

/// For each structure of a board the note that was put in last, if there is one, without a lock.
#[derive(Drop)]
pub struct Tray {
    pub(crate) slots: Vec<Option<AnyNote>>,
}

impl Model for Tray {
    ghost use Rattle.std.specs.Prelude.{List, Option, map, option_map};
    ghost use Rattle.plex_board.specs.Passes.{NoteShown, note_shown};

    ghost Value = { List (Option NoteShown) };

    ghost view = { λ tray. map (option_map note_shown) tray.slots.items };
}
