ghost use Rattle.std.specs.Prelude.{◌≡◌, ℕ, IsTrue};
ghost use Rattle.cf_types.specs.declared.alter_commands.AlterCmd.{AlterCmd};
ghost use Rattle.cf_types.specs.declared.cache_commands.CacheCmd.{CacheCmd};
ghost use Rattle.cf_types.specs.declared.refusals.Refusal.TheVariants.{TooSmall};
ghost use Rattle.cf_types.specs.Forms.{is_cache};
ghost use Rattle.engine_api.specs.declared.asks.Reply.TheVariants.{Refused};
ghost use Rattle.run_laws.specs.Alters.{IsAskedAt, IsLetThrough, IsTooSmall};
ghost use Rattle.run_laws.specs.CacheHistories.{CacheEntry, CacheHistory, IsLegalCache};

pub use cf_alter::{alters_nothing_else, fits_its_limits};
use cf_types::{AlterCmd, AlterReply, CacheCmd, CacheReply, StrForm};
use engine_api::History;

/// In a legal history a command on a cache is refused as too small exactly where it is a START or a
/// STEP, and what there is needs more than the target, or than the limits that the step comes to.
/// The refusal carries both numbers, of entries, or where these suffice of elements: how many are
/// needed, and the limit. Only what the shell refuses, and a START that asks for more units than
/// the capacity has, is refused for that before.
pub fn too_small(form: &StrForm, history: &History<AlterCmd<CacheCmd>, AlterReply<CacheReply>>)
    requires kind { IsTrue (is_cache form.now.kind) }
    requires legal { IsLegalCache form.now history.now }
    ensures tells { (before : CacheHistory) (entry : CacheEntry) (cmd : AlterCmd CacheCmd)
        (needed there : ℕ) → IsAskedAt history.now before entry cmd
        → entry.reply ≡ Refused (TooSmall needed there)
        → IsTooSmall form.now before cmd needed there }
    ensures comes { (before : CacheHistory) (entry : CacheEntry) (cmd : AlterCmd CacheCmd)
        (needed there : ℕ) → IsAskedAt history.now before entry cmd
        → IsLetThrough form.now before entry.by cmd
        → IsTooSmall form.now before cmd needed there
        → entry.reply ≡ Refused (TooSmall needed there) }
{}
