//! What links tell before a call is done.
ghost use Rattle.std.specs.Prelude.{◌≡◌, ◌≤◌, ◌+◌, ◌||◌, IfOk, IfSome, OnErr, false, true, length};
ghost use Rattle.cf_types.specs.declared.effects.Effects.{Effects};
ghost use Rattle.cf_types.specs.declared.numbers.CfId.{CfId};
ghost use Rattle.cf_types.specs.Forms.{IsFacility};
ghost use Rattle.duplex_pair.specs.Pairs.{content_of, AreReady};
ghost use Rattle.engine_api.specs.declared.asks.Reply.TheVariants as replies;
ghost use Rattle.engine_api.specs.LinkAsks.{listed};
ghost use Rattle.engine_api.specs.Machine.{loss_step};
ghost use Rattle.engine_api.specs.Meaning.{Wish};
ghost use Rattle.engine_api.specs.Shell.{mark_outcome, stands_at};
ghost use Rattle.plex_shell.specs.Losses.{reply_as};
ghost use Rattle.struct_machine.specs.Changes.{any_failure};
ghost use Rattle.struct_machine.specs.Marks.{is_failure};
ghost use Rattle.struct_machine.specs.Content.{kept_of};
ghost use Rattle.struct_machine.specs.Kept.{AreOf, answered, machine_of};
ghost use Rattle.struct_machine.specs.Turns.{TellMore, behind_marks, lost_at};
ghost use Rattle.struct_machine.specs.Losses.{IsEnding, kept_without};
ghost use Rattle.struct_machine.specs.declared.marks.TheConstants.{MARKS};

use crate::content::Content;
use crate::departing::READY_LETTERS;
use crate::marks::{Marks, is_failure};
use cf_types::{CfId, NoMemory};
use duplex_pair::links::Link;
use engine_api::Engine;
use plex_shell::{ACT_LETTERS, LostAs, Shell};

/// What stands in a facility is lost, where one is named: it is marked, and the instance ends. Room
/// for the letters was taken. Whether the structure failed is told.
pub(crate) fn mark<E: Engine, L: Link>(
    shell: &mut Shell,
    content: &mut Content<E, L>,
    marks: &mut Marks,
    lost: Option<CfId>,
) -> bool
    requires of_form { AreOf E.meaning shell.old (kept_of E.held content.old) }
    requires facility { IfSome lost IsFacility }
    requires there { IfSome lost (λ cf. stands_at shell.old.shell cf ≡ true) }
    requires letters { ACT_LETTERS ≤ shell.old.room }
    requires room { length marks.old + length (listed lost) ≤ MARKS }
    ensures form { shell.new.form ≡ shell.old.form }
    ensures machine { machine_of E.meaning shell.new (kept_of E.held content.new)
        ≡ behind_marks E.meaning shell.old.form
        (machine_of E.meaning shell.old (kept_of E.held content.old)) (listed lost) }
    ensures told { TellMore E.meaning shell.old.form
        (machine_of E.meaning shell.old (kept_of E.held content.old)) marks.old (listed lost)
        marks.new }
    ensures failed { any_failure marks.new ≡ any_failure marks.old || result }
    ensures count { length marks.new ≡ length marks.old + length (listed lost) }
    ensures of_form { AreOf E.meaning shell.new (kept_of E.held content.new) }
    ensures links { content.new.pair.links ≡ content.old.pair.links }
    ensures letters { shell.old.room ≤ shell.new.room + ACT_LETTERS }
    ensures ready { (wish : Wish E.Cmd) (out : Effects)
        → AreReady E.is_ready content.old.pair wish out
        → AreReady E.is_ready content.new.pair wish out }
    ensures same { result ≡ false
        → content_of E.held content.new.pair ≡ content_of E.held content.old.pair }
{
    match lost {
        Some(cf) => {
            let told = lose(shell, content, cf);
            marks.push(cf, told);
            is_failure(told)
        }
        None => false,
    }
}

/// What stands in a facility is lost, as a mark tells it. Room is taken for the letters first.
pub(crate) fn lose_marked<E: Engine, L: Link>(
    shell: &mut Shell,
    content: &mut Content<E, L>,
    cf: CfId,
) -> Result<LostAs, NoMemory>
    requires of_form { AreOf E.meaning shell.old (kept_of E.held content.old) }
    requires facility { IsFacility cf }
    requires there { stands_at shell.old.shell cf ≡ true }
    ensures form { shell.new.form ≡ shell.old.form }
    ensures lost { IfOk result (λ lost. answered (replies.Shell (reply_as lost))
        (machine_of E.meaning shell.new (kept_of E.held content.new))
        ≡ loss_step E.meaning shell.old.form
        (machine_of E.meaning shell.old (kept_of E.held content.old)) cf) }
    ensures of_form { AreOf E.meaning shell.new (kept_of E.held content.new) }
    ensures links { content.new.pair.links ≡ content.old.pair.links }
    ensures err { OnErr result (machine_of E.meaning shell.new (kept_of E.held content.new)
        ≡ machine_of E.meaning shell.old (kept_of E.held content.old)) }
{
    shell.ready(READY_LETTERS)?;
    Ok(lose(shell, content, cf))
}

/// A link has told that what stands in a facility is lost. Of two instances the other one is left;
/// a rebuild that loses its new instance stops; and without any instance the structure fails.
#[tactic(auto, using(crate::proofs::LossLaws::lost_same, crate::proofs::LossLaws::held_lost))]
pub(crate) fn lose<E: Engine, L: Link>(
    shell: &mut Shell,
    content: &mut Content<E, L>,
    cf: CfId,
) -> LostAs
    requires of_form { AreOf E.meaning shell.old (kept_of E.held content.old) }
    requires facility { IsFacility cf }
    requires there { stands_at shell.old.shell cf ≡ true }
    requires letters { ACT_LETTERS ≤ shell.old.room }
    ensures form { shell.new.form ≡ shell.old.form }
    ensures machine { machine_of E.meaning shell.new (kept_of E.held content.new)
        ≡ lost_at E.meaning shell.old.form
        (machine_of E.meaning shell.old (kept_of E.held content.old)) cf }
    ensures told { reply_as result ≡ (mark_outcome shell.old.form cf shell.old.shell).reply }
    ensures of_form { AreOf E.meaning shell.new (kept_of E.held content.new) }
    ensures links { content.new.pair.links ≡ content.old.pair.links }
    ensures letters { shell.old.room ≤ shell.new.room + ACT_LETTERS }
    ensures ready { (wish : Wish E.Cmd) (out : Effects)
        → AreReady E.is_ready content.old.pair wish out
        → AreReady E.is_ready content.new.pair wish out }
    ensures same { is_failure result ≡ false
        → content_of E.held content.new.pair ≡ content_of E.held content.old.pair }
{
    let told = shell.lost(cf);
    end_lost(content, cf, told);
    told
}

// What becomes of the instances.
fn end_lost<E: Engine, L: Link>(content: &mut Content<E, L>, cf: CfId, told: LostAs)
    requires ending { IsEnding told cf (kept_of E.held content.old) }
    ensures kept { kept_of E.held content.new ≡ kept_without told cf (kept_of E.held content.old) }
    ensures links { content.new.pair.links ≡ content.old.pair.links }
    ensures ready { (wish : Wish E.Cmd) (out : Effects)
        → AreReady E.is_ready content.old.pair wish out
        → AreReady E.is_ready content.new.pair wish out }
{
    match told {
        LostAs::Simplex { .. } => content.drop_at(cf),
        LostAs::Stopped { .. } => content.drop_fresh(),
        LostAs::FailedNow => content.drop_all(),
    }
}
