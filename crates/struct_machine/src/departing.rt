//! What comes before a command: a departure from the content.
ghost use Rattle.std.specs.Prelude.{◌≡◌, ◌≤◌, ◌+◌, [], is_some, true, OnOk, OnErr, length, option_map};
ghost use Rattle.cf_types.specs.Forms.{IsCaller};
ghost use Rattle.cf_types.specs.Gains.{Gains};
ghost use Rattle.duplex_pair.specs.Pairs.{instances_of, content_of, bits_of, letters_on_leave};
ghost use Rattle.engine_api.specs.Asking.{MayCommand};
ghost use Rattle.engine_api.specs.Meaning.{with_departure};
ghost use Rattle.engine_api.specs.Shell.{leaver, with_posted};
ghost use Rattle.rebuild_copy.specs.Filling.{emptied};
ghost use Rattle.struct_machine.specs.Content.{kept_of};
ghost use Rattle.struct_machine.specs.Deeds.{fresh_left};
ghost use Rattle.struct_machine.specs.Kept.{AreOf, bits_in, gone_by, left_in};

use crate::content::Content;
use cf_types::{ConnId, Effects, Letter, NoMemory, ShellCmd};
use duplex_pair::fresh_mail;
use duplex_pair::links::Link;
use engine_api::Engine;
use plex_shell::{ACT_LETTERS, Shell};
use std::alloc::Global;

/// Room for the letters of a command, and for those of another one: a call that may post leaves
/// room for `ACT_LETTERS` to each connector behind.
pub(crate) const READY_LETTERS: usize = 2 * ACT_LETTERS;

// Who departs leaves the content first, where an instance stands; room for the command's own
// letters is taken in any case. The effects name the bits that the departure changed.
pub(crate) fn depart_first<E: Engine, L: Link>(
    alloc: Global,
    shell: &mut Shell,
    content: &mut Content<E, L>,
    out: &mut Effects,
    by: ConnId,
    cmd: &ShellCmd,
) -> Result<(), NoMemory>
    requires may { MayCommand by cmd.now }
    requires unnamed { out.old.bits.items ≡ [] }
    requires of_form { AreOf E.meaning shell.old (kept_of E.held content.old) }
    ensures form { shell.new.form ≡ shell.old.form }
    ensures places { instances_of content.new.pair ≡ instances_of content.old.pair }
    ensures links { content.new.pair.links ≡ content.old.pair.links }
    ensures ok_held { OnOk result (content_of E.held content.new.pair ≡ left_in
        (gone_by E.meaning shell.old (kept_of E.held content.old) by cmd.now).state
        (content_of E.held content.old.pair)) }
    ensures ok_shell { OnOk result (shell.new.shell ≡ with_posted
        (gone_by E.meaning shell.old (kept_of E.held content.old) by cmd.now).letters
        shell.old.shell) }
    ensures ok_fresh { OnOk result (content.new.fresh
        ≡ fresh_left shell.old.shell (leaver shell.old.shell by cmd.now) content.old.fresh) }
    ensures room { OnOk result (ACT_LETTERS ≤ shell.new.room) }
    ensures bits { OnOk result (Gains
        (bits_in E.meaning shell.old.form (content_of E.held content.old.pair))
        (bits_in E.meaning shell.old.form (content_of E.held content.new.pair))
        [] out.new.bits.items) }
    ensures err_shell { OnErr result (shell.new.shell ≡ shell.old.shell) }
    ensures err_held { OnErr result
        (content_of E.held content.new.pair ≡ content_of E.held content.old.pair) }
    ensures err_fresh { OnErr result (content.new.fresh ≡ content.old.fresh) }
{
    let (primary, _, _) = shell.instances();
    match shell.leaving(by, cmd) {
        Some((conn, keep)) if primary.is_some() => {
            leave_content(alloc, shell, content, out, conn, keep)
        }
        _ => shell.ready(letters_for(cmd)),
    }
}

// Room for the letters of a command. One that may post leaves as much room behind, so that NEXT,
// which posts nothing, finds it and takes none.
fn letters_for(cmd: &ShellCmd) -> usize
    ensures { ACT_LETTERS ≤ result }
{
    match cmd {
        ShellCmd::Next => ACT_LETTERS,
        _ => READY_LETTERS,
    }
}

// A connector departs from the content, and the letters that this brings are posted. The effects
// name the bits that it changed. Room for the letters of the command itself is left.
fn leave_content<E: Engine, L: Link>(
    alloc: Global,
    shell: &mut Shell,
    content: &mut Content<E, L>,
    out: &mut Effects,
    conn: ConnId,
    keep: bool,
) -> Result<(), NoMemory>
    requires caller { IsCaller conn }
    requires stands { is_some (content_of E.held content.old.pair) ≡ true }
    requires unnamed { out.old.bits.items ≡ [] }
    ensures form { shell.new.form ≡ shell.old.form }
    ensures places { instances_of content.new.pair ≡ instances_of content.old.pair }
    ensures links { content.new.pair.links ≡ content.old.pair.links }
    ensures ok_held { OnOk result (content_of E.held content.new.pair
        ≡ option_map (λ held. with_departure E.meaning held conn keep)
        (content_of E.held content.old.pair)) }
    ensures ok_fresh { OnOk result (content.new.fresh ≡ emptied content.old.fresh) }
    ensures ok_shell { OnOk result (shell.new.shell ≡ with_posted
        (letters_on_leave E.meaning conn keep (content_of E.held content.old.pair))
        shell.old.shell) }
    ensures room { OnOk result (ACT_LETTERS ≤ shell.new.room) }
    ensures bits { OnOk result (Gains (bits_of E.meaning (content_of E.held content.old.pair))
        (bits_of E.meaning (content_of E.held content.new.pair)) [] out.new.bits.items) }
    ensures err_held { OnErr result
        (content_of E.held content.new.pair ≡ content_of E.held content.old.pair) }
    ensures err_fresh { OnErr result (content.new.fresh ≡ content.old.fresh) }
    ensures err_shell { OnErr result (shell.new.shell ≡ shell.old.shell) }
{
    fresh_mail(alloc, out);
    content.renew(alloc);
    content.leave_ready(conn, out)?;
    let Some(letters) = out.mail.room().checked_add(READY_LETTERS) else {
        return Err(NoMemory::beyond_counts());
    };
    shell.ready(letters)?;
    content.leave(conn, keep, out);
    post_all(shell, out.mail.items());
    Ok(())
}

// Posts letters in their order.
pub(crate) fn post_all(shell: &mut Shell, letters: &[Letter])
    requires { length letters.now ≤ shell.old.room }
    ensures form { shell.new.form ≡ shell.old.form }
    ensures shell { shell.new.shell ≡ with_posted letters.now shell.old.shell }
    ensures room { shell.old.room ≤ shell.new.room + length letters.now }
{
    for letter in letters {
        shell.post(*letter);
    }
}
