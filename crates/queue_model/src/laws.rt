ghost use Rattle.std.specs.Prelude.{◌≡◌, ◌++◌, ◌∷◌, [], List};
ghost use Rattle.engine_api.specs.History.{IsLegal};
ghost use Rattle.list_model.specs.Meaning.{list_meaning};
ghost use Rattle.queue_model.specs.declared.subs.Sub.{Sub};
ghost use Rattle.queue_model.specs.ListQueues.{filled_in, queued_lists, state_after};
ghost use Rattle.cf_types.specs.declared.numbers.ConnId.{ConnId};
ghost use Rattle.queue_model.specs.Orders.{IsLater, queue_of};
ghost use Rattle.queue_model.specs.Queues.{IsQueued};
ghost use Rattle.queue_model.specs.Renewals.{QueueEntry, IsRenewed, Takes};

use cf_types::{QueueCmd, QueueReply, StrForm};
use engine_api::History;

/// After whatever calls and marks a connector's queue has each sublist that it monitors once at
/// most, and only sublists that have records.
pub fn queues_hold(form: &StrForm, history: &History<QueueCmd, QueueReply>)
    ensures { let state = state_after form.now history.now in
        IsQueued (filled_in state.inner) state.more }
{}

/// Between two DEQs of one connector that answer the same sublist there is an entry behind which the
/// sublist has records and before which it had none, or a MONSUB of it by the connector behind its
/// UNMONSUB, the connector's departure or the structure's end.
pub fn delivered_anew(form: &StrForm, history: &History<QueueCmd, QueueReply>)
    requires { IsLegal queued_lists form.now history.now }
    ensures { (sub : Sub) (before since after : List QueueEntry) (one other : QueueEntry)
        → history.now ≡ before ++ one ∷ (since ++ other ∷ after) → Takes one sub → Takes other sub
        → IsRenewed filled_in list_meaning form.now (before ++ one ∷ []) since sub }
{}

/// Each entry keeps the order of every connector's queue: some of its events stay as they stand, and
/// those that come stand behind them.
pub fn kept_in_order(form: &StrForm)
    ensures { (conn : ConnId) (history : List QueueEntry) (entry : QueueEntry)
        → IsLater (queue_of conn (state_after form.now history).more)
        (queue_of conn (state_after form.now (history ++ entry ∷ [])).more) }
{}

/// A DEQ that answers a sublist took the first of its connector's queue, and left the others.
pub fn takes_first(form: &StrForm, history: &History<QueueCmd, QueueReply>)
    requires { IsLegal queued_lists form.now history.now }
    ensures { (sub : Sub) (before after : List QueueEntry) (entry : QueueEntry)
        → history.now ≡ before ++ entry ∷ after → Takes entry sub
        → queue_of sub.conn (state_after form.now before).more
        ≡ sub ∷ queue_of sub.conn (state_after form.now (before ++ entry ∷ [])).more }
{}
