//! What is spelled by words of a line: commands and replies.

ghost use Rattle.std.specs.Prelude.{◌≡◌, ℕ, List, ◌++◌, OnOk};
ghost use Rattle.plex_script.specs.PlexSpell.Words.{tail_of};
ghost use Rattle.plex_script.specs.declared.scripts.Script.{Script};

use plex_script::Script;
use plex_script::types::NoMemory;

/// A command or a reply, and its words in a script's report.
pub(crate) trait Spelled {
    ghost words: { Script → Self → List (List ℕ) };

    /// Puts the words to a line, with a blank before each.
    fn put(&self, line: &mut Vec<u8>, script: &Script) -> Result<(), NoMemory>
        ensures { OnOk result (line.new.items ≡ line.old.items
            ++ tail_of (words script.now self.now)) };
}
