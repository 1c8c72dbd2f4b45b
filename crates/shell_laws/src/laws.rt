ghost use Rattle.std.specs.Prelude.{◌≡◌, ◌≢◌, ◌⊎◌, ℕ, Bool, IsTrue, true, None, Some};
ghost use Rattle.cf_types.specs.declared.numbers.CfId.{CfId};
ghost use Rattle.cf_types.specs.declared.numbers.ConnId.{ConnId};
ghost use Rattle.cf_types.specs.declared.shell_commands.ShellCmd.TheVariants as cmd;
ghost use Rattle.cf_types.specs.declared.shell_commands.ShellReply.TheVariants as shown;
ghost use Rattle.engine_api.specs.declared.asks.Ask.{Ask};
ghost use Rattle.engine_api.specs.declared.asks.Ask.TheVariants as ask;
ghost use Rattle.engine_api.specs.declared.asks.Reply.TheVariants as reply;
ghost use Rattle.shell_laws.specs.Readings.{rebuild_told};
ghost use Rattle.engine_api.specs.RebuildCore.declared.rebuild.Rebuild.{Rebuild};
ghost use Rattle.engine_api.specs.Rebuilds.{is_held_up};
ghost use Rattle.engine_api.specs.Shell.{content_cause};
ghost use Rattle.shell_laws.specs.Members.{HasMembers};
ghost use Rattle.shell_laws.specs.Capacities.{IsHeld};
ghost use Rattle.shell_laws.specs.Filling.{IsFilled};
ghost use Rattle.engine_api.specs.Machine.{Machine, loss_step, step};
ghost use Rattle.engine_api.specs.History.{replay, IsLegal};
ghost use Rattle.shell_laws.specs.History.{actives_after};
ghost use Rattle.shell_laws.specs.Stops.{KeepsTheOld};

use cf_types::StrForm;
use engine_api::{Engine, History};

/// After every legal history the rebuild that the machine keeps is the one that the history tells
/// of: its number, its stage, its members, who of them owes what the stage waits for,
/// its capacity, and where the new instance is.
pub fn keeps_what_is_told<E: Engine>(form: &StrForm, history: &History<E::Cmd, E::Reply>)
    requires legal { IsLegal E.meaning form.now history.now }
    ensures told { (replay E.meaning form.now history.now).shell.rebuild
        ≡ rebuild_told (actives_after E.meaning form.now) history.now }
{}

/// After whatever calls and marks the members of a rebuild are just the connectors that are active,
/// and there are some.
pub fn members_are_active<E: Engine>(form: &StrForm, history: &History<E::Cmd, E::Reply>)
    ensures members { HasMembers (replay E.meaning form.now history.now).shell.rebuild
        (actives_after E.meaning form.now history.now) }
{}

/// In CONNECT, COPY and CLEANUP no command on the content is accepted, of whatever caller. So what
/// is copied stays as it is, but for what departures, the forcing of connections, and the failure of
/// the structure do.
pub fn content_waits<E: Engine>(form: &StrForm, history: &History<E::Cmd, E::Reply>)
    ensures waits { let shell = (replay E.meaning form.now history.now).shell in
        (rebuild : Rebuild) (by : ConnId) → shell.rebuild ≡ Some rebuild
        → is_held_up rebuild.stage true ≡ true → content_cause shell by ≢ None }
{}

/// After whatever calls and marks a new instance has items in COPY alone, where it stands, and no
/// more than the content has.
pub fn fills_in_copy_alone<E: Engine>(form: &StrForm, history: &History<E::Cmd, E::Reply>)
    ensures filled { IsFilled E.meaning form.now (replay E.meaning form.now history.now) }
{}

/// After whatever calls and marks, one more call, or one more mark, leaves no item in the new
/// instance, or leaves the content as it was. So what is in the new instance are always the first
/// items that the content has.
pub fn copies_a_front<E: Engine>(form: &StrForm, history: &History<E::Cmd, E::Reply>)
    ensures front { let before = replay E.meaning form.now history.now in
        (by : ConnId) (asked : Ask E.Cmd)
        → let after = (step E.meaning form.now before by asked).machine in
        (after.copied ≡ 0) ⊎ (after.content ≡ before.content) }
    ensures mark { let before = replay E.meaning form.now history.now in
        (cf : CfId) → let after = (loss_step E.meaning form.now before cf).machine in
        (after.copied ≡ 0) ⊎ (after.content ≡ before.content) }
{}

/// After whatever calls and marks the content is one at the capacity of the instances, and a
/// rebuild's new instance has room for it, where it stands.
pub fn holds_at_its_capacity<E: Engine>(form: &StrForm, history: &History<E::Cmd, E::Reply>)
    requires kind { IsTrue (E.is_kind form.now.kind) }
    ensures held { IsHeld E.meaning E.is_content form.now (replay E.meaning form.now history.now) }
{}

/// Where a rebuild's new instance is lost, so that a mark or a VARY is answered `Stopped`, the
/// content is left as it was, the primary where it stood, and no new instance.
pub fn loss_of_the_new_keeps_the_content<E: Engine>(form: &StrForm)
    ensures mark { (machine : Machine E.State) (cf : CfId) (number : ℕ)
        → (loss_step E.meaning form.now machine cf).reply ≡ reply.Shell (shown.Stopped number)
        → KeepsTheOld machine (loss_step E.meaning form.now machine cf).machine }
    ensures vary { (machine : Machine E.State) (by : ConnId) (cf : CfId) (off : Bool) (number : ℕ)
        → let varied = step E.meaning form.now machine by (ask.Shell (cmd.Vary cf off)) in
        varied.reply ≡ reply.Shell (shown.Stopped number) → KeepsTheOld machine varied.machine }
{}

/// A REBUILD STOP that is accepted leaves the content as it was, the primary where it stood, and no
/// new instance.
pub fn stop_keeps_the_content<E: Engine>(form: &StrForm)
    ensures stop { (machine : Machine E.State) (by : ConnId)
        → (step E.meaning form.now machine by (ask.Shell cmd.RebuildStop)).reply
        ≡ reply.Shell shown.Ok
        → KeepsTheOld machine (step E.meaning form.now machine by (ask.Shell cmd.RebuildStop)).machine }
{}
