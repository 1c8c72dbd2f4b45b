ghost use Rattle.std.specs.Prelude.{◌≡◌, ◌↔◌};
ghost use Rattle.cf_types.specs.declared.numbers.ConnId.{ConnId};
ghost use Rattle.cf_types.specs.declared.refusals.Refusal.{Refusal};
ghost use Rattle.engine_api.specs.declared.asks.Ask.{Ask};
ghost use Rattle.engine_api.specs.declared.asks.Reply.TheVariants as reply;
ghost use Rattle.engine_api.specs.History.{next_reply, IsLegal, OnlyEnters};
ghost use Rattle.engine_api.specs.Points.{IsByPoints};

use crate::engine::Engine;
use crate::histories::History;
use cf_types::StrForm;

/// A refused call changes the journal and nothing else: behind it instances, connections, mail and
/// content are those before it, and a call has come behind whatever was lost.
pub fn refused_changes_nothing<E: Engine>(form: &StrForm, history: &History<E::Cmd, E::Reply>)
    ensures { (by : ConnId) (asked : Ask E.Cmd) (refusal : Refusal)
        → next_reply E.meaning form.now history.now by asked ≡ reply.Refused refusal
        → OnlyEnters E.meaning form.now history.now by asked }
{}

/// A history that some calls and some answers of links make, turn by turn, is one that is right
/// point by point: numbered from 1 without a gap, each call behind marks that it may have, no mark
/// at the end, and each reply that of the machine at the entries before it.
pub fn legal_by_points<E: Engine>(form: &StrForm, history: &History<E::Cmd, E::Reply>)
    ensures { IsLegal E.meaning form.now history.now ↔ IsByPoints E.meaning form.now history.now }
{
    let _ = form;
    let _ = history;
}
