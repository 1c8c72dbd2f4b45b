ghost use Rattle.std.specs.Prelude.{◌≡◌};
ghost use Rattle.plex_shell.specs.Losses.{reply_as};

use cf_types::{CfId, ShellReply};

/// What becomes of a structure that loses the instance in a facility.
#[derive(Clone, Copy)]
pub enum LostAs {
    /// One of two instances was lost: the facility of the other.
    Simplex { cf: CfId },
    /// The new instance of this rebuild was lost.
    Stopped { number: u32 },
    /// The only instance was lost.
    FailedNow,
}

impl LostAs {
    /// As a journal tells it.
    pub fn reply(self) -> ShellReply
        ensures { result ≡ reply_as self }
    {
        match self {
            LostAs::Simplex { cf } => ShellReply::Simplex { cf },
            LostAs::Stopped { number } => ShellReply::Stopped { number },
            LostAs::FailedNow => ShellReply::FailedNow,
        }
    }
}
