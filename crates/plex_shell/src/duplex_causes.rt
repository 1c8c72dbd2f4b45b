//! Why DUPLEX START is refused, and what a failure and a second instance hold up.
ghost use Rattle.std.specs.Prelude.{◌≡◌, ◌∷◌, []};
ghost use Rattle.std.specs.Result.{result_err};
ghost use Rattle.cf_types.specs.Forms.{IsCaller};
ghost use Rattle.engine_api.specs.Instances.{units_of};
ghost use Rattle.engine_api.specs.Meaning.{first_refusal};
ghost use Rattle.engine_api.specs.Shell.{if_lost, if_failed, if_duplexed, unless_allocated, if_rebuilding, if_no_place, candidates};

use crate::shell::Shell;
use crate::verdicts::Judged;
use cf_types::{ConnId, Refusal};

impl Shell {
    /// Why DUPLEX START is refused, if it is.
    pub(crate) fn judge_duplex(&self, by: ConnId) -> Judged
        requires { IsCaller by }
        ensures { let shell = self.now.shell in
            result_err result ≡ first_refusal (if_failed shell ∷ if_rebuilding shell.rebuild
            ∷ if_duplexed shell ∷ unless_allocated shell
            ∷ if_no_place (units_of shell.caps) (candidates self.now.form shell by) ∷ []) }
    {
        self.if_failed()?;
        self.if_rebuilding()?;
        self.if_duplexed()?;
        self.unless_allocated()?;
        self.if_no_place(by, self.caps)
    }

    /// The structure failed, and no call has come since.
    pub(crate) fn if_lost(&self) -> Judged
        ensures { result_err result ≡ if_lost self.now.shell }
    {
        match self.lost {
            Some(cf) => Err(Refusal::LostFacility { cf }),
            None => Ok(()),
        }
    }

    /// The structure has failed.
    pub(crate) fn if_failed(&self) -> Judged
        ensures { result_err result ≡ if_failed self.now.shell }
    {
        if self.failed {
            Err(Refusal::StructureFailed)
        } else {
            Ok(())
        }
    }

    /// Two instances stand already.
    pub(crate) fn if_duplexed(&self) -> Judged
        ensures { result_err result ≡ if_duplexed self.now.shell }
    {
        if self.secondary.is_some() {
            Err(Refusal::AlreadyDuplexed)
        } else {
            Ok(())
        }
    }

    // No instance stands.
    fn unless_allocated(&self) -> Judged
        ensures { result_err result ≡ unless_allocated self.now.shell }
    {
        if self.primary.is_none() {
            Err(Refusal::NotAllocated)
        } else {
            Ok(())
        }
    }
}
