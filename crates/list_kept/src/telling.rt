//! Monitors where a header comes to have records, or has none any more.
ghost use Rattle.std.specs.Prelude.{◌≡◌, ◌+◌, ◌≤◌, length};
ghost use Rattle.cf_types.specs.Gains.{Gains};
ghost use Rattle.list_watch.specs.Monitors.{AreMonitors};
ghost use Rattle.list_watch.specs.Rows.{monitors_of, bit_of, rows_turned};
ghost use Rattle.list_kept.specs.Told.{AreToldOf};

use cf_types::Effects;
use list_watch::Watch;

/// Tells the connectors that monitor a header whether it has records. Where it had some before just
/// as it has now, they were told so, and no monitor is looked at.
#[tactic(auto, using(crate::proofs::ToldLaws::none_turned))]
pub(crate) fn tell(watch: &mut Watch, header: u32, had: bool, full: bool, out: &mut Effects)
    requires known { had ≡ full → AreToldOf header full watch.old.rows }
    requires room { length watch.old.rows ≤ out.old.bits.room }
    ensures rows { watch.new.rows ≡ rows_turned header full watch.old.rows }
    ensures len { watch.new.len ≡ watch.old.len }
    ensures bits { Gains (bit_of watch.old.rows) (bit_of watch.new.rows) out.old.bits.items
        out.new.bits.items }
    ensures mail { out.new.mail ≡ out.old.mail }
    ensures room { out.old.bits.room ≤ out.new.bits.room + length watch.old.rows }
    ensures monitors { AreMonitors (monitors_of watch.old.rows) }
{
    let _ = watch.items();
    if had == full {
        return;
    }
    watch.turned(header, full, out);
}

/// The same, where the bits are nobody's yet: nothing is told.
#[tactic(auto, using(crate::proofs::ToldLaws::none_turned))]
pub(crate) fn settle(watch: &mut Watch, header: u32, had: bool, full: bool)
    requires known { had ≡ full → AreToldOf header full watch.old.rows }
    ensures rows { watch.new.rows ≡ rows_turned header full watch.old.rows }
    ensures len { watch.new.len ≡ watch.old.len }
{
    if had == full {
        return;
    }
    watch.settle(header, full);
}
