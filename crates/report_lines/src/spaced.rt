ghost use Rattle.std.specs.Prelude.{◌≡◌};
ghost use Rattle.report_lines.specs.Spaced.{is_spaced};

/// Whether a line has one blank between each two words, none at its ends, and no tab.
pub(crate) fn is_spaced(line: &[u8]) -> bool
    ensures { result ≡ is_spaced line.now }
{
    let mut fresh = !line.is_empty();
    let mut rest = line;
    while let [first, more @ ..] = rest {
        if *first == b' ' {
            if fresh {
                return false;
            }
            fresh = true;
        } else if *first == b'\t' {
            return false;
        } else {
            fresh = false;
        }
        rest = more;
    }
    !fresh
}
