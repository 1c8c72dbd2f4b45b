//! The cache structure that the members share.
ghost use Rattle.std.specs.Prelude.{◌≡◌, IfOk, OnErr, OnOk, IsTrue};
ghost use Rattle.cache_core.specs.CacheModel.Meaning.{cache_meaning};
ghost use Rattle.struct_machine.specs.EngineApi.Asking.{MayAsk};
ghost use Rattle.struct_machine.specs.EngineApi.Machine.{step};
ghost use Rattle.struct_machine.specs.Changes.{Names};
ghost use Rattle.struct_machine.specs.StructureView.{stands_at};
ghost use Rattle.one_thread.specs.Pools.{IsPoolForm};

use cache_core::CacheEngine;
use std::alloc::Global;
use struct_machine::api::{Ask, Reply};
use struct_machine::links::{Links, Steady};
use struct_machine::types::{
    CacheCmd, CacheReply, Caps, CfId, ConnId, Kind, Listing, Name16, NoMemory, Pref, StrForm,
};
use struct_machine::{Changed, Machine};

/// A cache structure on one thread, over links that are never down.
pub type Pool = Machine<CacheEngine, Steady>;

/// The structure: 8 entries and 8 elements, which take 16 of the 40 units set aside in CF1, for 4
/// connections with 64 bits in each vector.
fn form(alloc: Global) -> Result<StrForm, NoMemory>
    ensures { IfOk result IsPoolForm }
{
    let pref = Pref {
        cf: CfId(1),
        units: 40,
    };
    let prefs = Vec::from_slice(alloc, &[pref])?;
    Ok(StrForm {
        name: Name16(*b"GBP             "),
        kind: Kind::Cache,
        caps: Caps {
            entries: 8,
            elements: 8,
        },
        conns: 4,
        vector: 64,
        keep: false,
        prefs: Listing::from_vec(prefs),
    })
}

/// The structure without calls yet.
pub fn start_pool(alloc: Global) -> Result<Pool, NoMemory> {
    let links = Links {
        one: Steady,
        two: Steady,
        three: Steady,
        four: Steady,
    };
    match Machine::start(alloc, form(alloc)?, 2, links) {
        Ok(pool) => Ok(pool),
        Err((_, cause)) => Err(cause),
    }
}

/// A call, answered at once: reply and structure are those of the machine's next step, and unless any
/// bit may have changed exactly those that did are told. Want of memory changes nothing.
pub fn ask_pool(
    alloc: Global,
    pool: &mut Pool,
    by: ConnId,
    ask: &Ask<CacheCmd>,
    changed: &mut Changed,
) -> Result<Reply<CacheReply>, NoMemory>
    requires { MayAsk by ask.now }
    ensures step { IfOk result (λ reply. record { reply = reply; machine = pool.new.machine }
        ≡ step cache_meaning pool.old.form pool.old.machine by ask.now) }
    ensures bits { OnOk result (Names changed.new (stands_at cache_meaning pool.old.machine)
        (stands_at cache_meaning pool.new.machine)) }
    ensures err { OnErr result (pool.new ≡ pool.old) }
{
    pool.answer(alloc, by, ask, changed)
}
