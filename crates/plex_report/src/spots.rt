//! Where lines stand in sections that follow each other.

ghost use Rattle.std.specs.Prelude.{◌≡◌, ℕ, ◌<◌, length};
ghost use Rattle.plex_report.specs.Report.{IsSpot};
ghost use Rattle.plex_report.specs.Lines.{any_length};

use plex_script::types::StrForm;
use plex_script::{AnyHistory, Transcript};

/// A heading, and lines for so many items behind it.
pub(crate) trait Section {
    ghost size: { Self → ℕ };

    /// The number of items.
    fn size(&self) -> usize
        ensures { result ≡ size self.now };
}

impl Section for StrForm {
    ghost size = { λ form. length form.prefs };

    fn size(&self) -> usize {
        self.prefs.items().len()
    }
}

impl Section for AnyHistory {
    ghost size = { any_length };

    fn size(&self) -> usize {
        match self {
            AnyHistory::Cache(history) => history.entries().len(),
            AnyHistory::List(history) => history.entries().len(),
            AnyHistory::Lock(history) => history.entries().len(),
        }
    }
}

impl Section for Transcript {
    ghost size = { λ transcript. length transcript.items };

    fn size(&self) -> usize {
        self.items.items().len()
    }
}

/// Where a line stands.
#[derive(Clone, Copy)]
pub(crate) enum Spot {
    /// The line of the section, from 0, its heading.
    Within { section: usize, line: usize },
    /// So many lines behind all sections, from 0.
    Past { lines: usize },
}

/// Where the k-th line stands.
pub(crate) fn spot_of<S: Section>(sections: &[S], k: usize) -> Spot
    ensures { IsSpot S.size sections.now k result }
{
    let mut left = k;
    for (section, each) in sections.iter().enumerate() {
        let size = each.size();
        if left <= size {
            return Spot::Within {
                section,
                line: left,
            };
        }
        left = left - size - 1;
    }
    Spot::Past { lines: left }
}
