//! DELETE_NAME of IXLCACHE: the row of a name and the registrations for it go.
ghost use Rattle.std.specs.Prelude.{◌≡◌, ◌≤◌, None, length};
ghost use Rattle.std.specs.Result.{result_err};
ghost use Rattle.cf_types.specs.Gains.{Gains};
ghost use Rattle.engine_api.specs.Meaning.{first_refusal};
ghost use Rattle.cache_model.specs.CacheRegs.Registrations.{stands};
ghost use Rattle.cache_model.specs.Commands.Delete as delete;

use crate::refusals::{Judged, entry_refusal, held_by_other_refusal};
use cache_model::registrations::Regs;
use cache_rows::Rows;
use cf_types::{ConnId, Effects, Name16};

/// Why the command is refused.
pub(crate) fn refusal(rows: &Rows, by: ConnId, name: &Name16) -> Judged
    ensures { result_err result ≡ first_refusal (delete.causes rows.now.rows by name.now) }
{
    entry_refusal(rows, name)?;
    held_by_other_refusal(rows, by, name)
}

/// Does the command.
#[tactic(auto, using(crate::proofs::FrontLaws::fewer))]
pub(crate) fn act(rows: &mut Rows, regs: &mut Regs, name: &Name16, out: &mut Effects)
    requires { length regs.old.regs ≤ out.old.bits.room }
    ensures content { record { rows = rows.new.rows; regs = regs.new.regs }
        ≡ delete.after (record { rows = rows.old.rows; regs = regs.old.regs }) name.now }
    ensures bits { Gains (stands regs.old.regs) (stands regs.new.regs) out.old.bits.items
        out.new.bits.items }
    ensures mail { out.new.mail ≡ out.old.mail }
    ensures len { regs.new.len ≡ regs.old.len }
    ensures entries { rows.new.entries ≡ rows.old.entries }
    ensures elements { rows.new.elements ≡ rows.old.elements }
{
    rows.remove(name);
    let _ = regs.drop_name(name, None, out);
}
