//! CROSS_INVAL of IXLCACHE: ends the registrations of all others for a name.
ghost use Rattle.std.specs.Prelude.{◌≡◌, ◌≤◌, Some, length};
ghost use Rattle.std.specs.Result.{result_err};
ghost use Rattle.cf_types.specs.Gains.{Gains};
ghost use Rattle.engine_api.specs.Meaning.{first_refusal};
ghost use Rattle.cache_model.specs.CacheRegs.Registrations.{stands, regs_without_name};
ghost use Rattle.cache_model.specs.Commands.CrossInval as cross_inval;

use crate::refusals::{Judged, entry_refusal};
use cache_model::registrations::Regs;
use cache_rows::Rows;
use cf_types::{CacheReply, ConnId, Effects, Name16};

/// Why the command is refused.
pub(crate) fn refusal(rows: &Rows, name: &Name16) -> Judged
    ensures { result_err result ≡ first_refusal (cross_inval.causes rows.now.rows name.now) }
{
    entry_refusal(rows, name)
}

/// The reply where the command isn't refused.
pub(crate) fn reply(regs: &Regs, by: ConnId, name: &Name16) -> CacheReply
    ensures { result ≡ cross_inval.reply regs.now.regs by name.now }
{
    CacheReply::OkCount {
        n: regs.count(name, Some(by)),
    }
}

/// Does the command.
#[tactic(auto, using(crate::proofs::FrontLaws::fewer))]
pub(crate) fn act(regs: &mut Regs, by: ConnId, name: &Name16, out: &mut Effects)
    requires { length regs.old.regs ≤ out.old.bits.room }
    ensures regs { regs.new.regs ≡ regs_without_name name.now (Some by) regs.old.regs }
    ensures bits { Gains (stands regs.old.regs) (stands regs.new.regs) out.old.bits.items
        out.new.bits.items }
    ensures mail { out.new.mail ≡ out.old.mail }
    ensures len { regs.new.len ≡ regs.old.len }
{
    let _ = regs.drop_name(name, Some(by), out);
}
