ghost use Rattle.std.specs.Prelude.{◌≡◌, ◌↔◌, ◌++◌, ◌∷◌, [], List, length, true};
ghost use Rattle.cf_types.specs.declared.numbers.CfId.{CfId};
ghost use Rattle.engine_api.specs.declared.asks.Ask.{Ask};
ghost use Rattle.engine_api.specs.declared.asks.What.TheVariants as what;
ghost use Rattle.engine_api.specs.declared.histories.Entry.{Entry};
ghost use Rattle.cf_types.specs.declared.numbers.ConnId.{ConnId};
ghost use Rattle.engine_api.specs.History.{IsLegal, calls, replay};
ghost use Rattle.engine_api.specs.LinkAsks.{links_asked};
ghost use Rattle.engine_api.specs.Machine.{Machine, loss_step};
ghost use Rattle.engine_api.specs.Points.{AreMarksOf};
ghost use Rattle.engine_api.specs.Shell.{stands_at};
ghost use Rattle.block_laws.specs.Steps.{AreNext};

use cf_types::StrForm;
use engine_api::{Engine, History};

/// Marks and a call behind a legal history make it a longer legal one exactly where they are the
/// machine's next entries.
pub fn block_judged<E: Engine>(form: &StrForm, history: &History<E::Cmd, E::Reply>)
    requires { IsLegal E.meaning form.now history.now }
    ensures { (marks : List (Entry E.Cmd E.Reply)) (entry : Entry E.Cmd E.Reply)
        (ask : Ask E.Cmd) → calls marks ≡ [] → entry.what ≡ what.Call ask
        → IsLegal E.meaning form.now (history.now ++ (marks ++ entry ∷ []))
        ↔ AreNext E.meaning form.now (replay E.meaning form.now history.now)
        (length history.now) marks entry ask }
{
    let _ = form;
    let _ = history;
}

/// Marks alone make no legal history longer.
pub fn marks_are_no_block<E: Engine>(form: &StrForm, history: &History<E::Cmd, E::Reply>)
    requires { IsLegal E.meaning form.now history.now }
    ensures { (marks : List (Entry E.Cmd E.Reply)) → calls marks ≡ []
        → IsLegal E.meaning form.now (history.now ++ marks) → marks ≡ [] }
{
    let _ = form;
    let _ = history;
}

/// What a call may mark stands: the first, and the other one behind the first's loss. There are no
/// more than two.
pub fn marks_stand<E: Engine>(form: &StrForm)
    ensures first { (machine : Machine E.State) (by : ConnId) (ask : Ask E.Cmd) (cf : CfId)
        (more : List CfId) → AreMarksOf (links_asked E.meaning form.now machine by ask) (cf ∷ more)
        → stands_at machine.shell cf ≡ true }
    ensures other { (machine : Machine E.State) (by : ConnId) (ask : Ask E.Cmd) (cf other : CfId)
        (more : List CfId)
        → AreMarksOf (links_asked E.meaning form.now machine by ask) (cf ∷ other ∷ more)
        → stands_at (loss_step E.meaning form.now machine cf).machine.shell other ≡ true }
    ensures two { (machine : Machine E.State) (by : ConnId) (ask : Ask E.Cmd)
        (cf other third : CfId) (more : List CfId) → AreMarksOf
        (links_asked E.meaning form.now machine by ask) (cf ∷ other ∷ third ∷ more) → ⊥ }
{
    let _ = form;
}
