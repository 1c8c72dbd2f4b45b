//! The commands of a cache structure, a file each: why one is refused, its reply, and what it does.
ghost use Rattle.std.specs.Prelude.{◌≡◌, ◌+◌, ◌≤◌, length};
ghost use Rattle.cf_types.specs.Gains.{Gains};
ghost use Rattle.cache_model.specs.CacheRegs.Registrations.{stands};
ghost use Rattle.cache_model.specs.Contents.{regs_spared};

pub(crate) mod castout;
pub(crate) mod co_class;
pub(crate) mod co_stats;
pub(crate) mod cross_inval;
pub(crate) mod delete;
pub(crate) mod dir_info;
pub(crate) mod read;
pub(crate) mod reg_list;
pub(crate) mod stg_stats;
pub(crate) mod unlock;
pub(crate) mod write;

use cache_model::registrations::Regs;
use cf_types::{Effects, Name16};

// The registrations for these names end.
fn end_regs(regs: &mut Regs, names: &[Name16], out: &mut Effects)
    requires { length regs.old.regs ≤ out.old.bits.room }
    ensures regs { regs.new.regs ≡ regs_spared names.now regs.old.regs }
    ensures bits { Gains (stands regs.old.regs) (stands regs.new.regs) out.old.bits.items
        out.new.bits.items }
    ensures room { out.old.bits.room + length regs.new.regs
        ≡ out.new.bits.room + length regs.old.regs }
    ensures mail { out.new.mail ≡ out.old.mail }
    ensures place { regs.old.room ≤ regs.new.room }
    ensures len { regs.new.len ≡ regs.old.len }
{
    for name in names {
        let _ = regs.drop_name(name, None, out);
    }
}
