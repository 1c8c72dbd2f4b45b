//! The caller's registrations, which is this project's own command.
ghost use Rattle.std.specs.Prelude.{◌≡◌, IfOk};
ghost use Rattle.cache_model.specs.Commands.RegList as reg_list;

use cache_model::registrations::Regs;
use cf_types::{CacheReply, ConnId, Listing, NoMemory};
use std::alloc::Global;

/// The reply.
pub(crate) fn reply(alloc: Global, regs: &Regs, by: ConnId) -> Result<CacheReply, NoMemory>
    ensures { IfOk result (λ reply. reply ≡ reg_list.reply regs.now.regs by) }
{
    let list = regs.of(alloc, by)?;
    Ok(CacheReply::Regs(Listing::from_vec(list)))
}
