ghost use Rattle.reply_rows.specs.Laws.{AreReadBack, PrintAlike, PrintReports};

/// Replies of each kind of structure are read from the words that they print, and nothing else is
/// read; where two print alike, the one on the side that is tried first, which is the command's.
pub fn are_read_back()
    ensures { AreReadBack }
{}

/// Of the replies on the content, and of those on what stands around it, only OK, and OK with a
/// number, print like one to a common command. A cache's OK alone prints on both sides, and of
/// lists EMPTY, NOTEMPTY, and OK with a number.
pub fn print_alike()
    ensures { PrintAlike }
{}

/// The rows print what a report prints.
pub fn print_reports()
    ensures { PrintReports }
{}
