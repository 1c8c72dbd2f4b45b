ghost use Rattle.plex_script.specs.Laws.{SaysOne, IsDecided, HasOneFault, IsExclusive, IsReadBack, KeepLimits};
ghost use Rattle.plex_script.specs.Scripts.{IsScript};
ghost use Rattle.plex_script.specs.WellFormed.{IsWellFormed};

use crate::scripts::Script;

/// A text says one script.
pub fn one_script()
    ensures { SaysOne }
{}

/// Each text is a script, or has a first line that is wrong, with a cause.
pub fn script_or_fault()
    ensures { IsDecided }
{}

/// A text has one first line that is wrong, with one cause.
pub fn one_fault()
    ensures { HasOneFault }
{}

/// No script has a line that is wrong.
pub fn never_both()
    ensures { IsExclusive }
{}

/// Each script is well formed.
pub fn well_formed(text: &[u8], script: &Script)
    requires { IsScript text.now script.now }
    ensures { IsWellFormed script.now }
{}

/// The printed text of a script that keeps the forms, the ranges and the limits of the language
/// says the script again, with its lines numbered as they stand in the text.
pub fn read_back()
    ensures { IsReadBack }
{}

/// Each script of a text keeps the forms, the ranges and the limits of the language.
pub fn keeps_limits()
    ensures { KeepLimits }
{}
