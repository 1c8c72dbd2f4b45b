//! What a call does to a shell and to a structure's instances.
ghost use Rattle.std.specs.Prelude.{◌≡◌, ◌≤◌, ◌+◌, ◌++◌, ◌||◌, [], is_some, true, false, IfSome, IfOk, OnOk, OnErr, IsTrue, None, Some};
ghost use Rattle.duplex_pair.specs.CfLink.Links.{AreAsked};
ghost use Rattle.cf_types.specs.Forms.{IsConnector, IsFacility};
ghost use Rattle.cf_types.specs.declared.effects.Effects.{Effects};
ghost use Rattle.cf_types.specs.Gains.{Gains};
ghost use Rattle.duplex_pair.specs.Pairs.{content_of, AreReady};
ghost use Rattle.engine_api.specs.Asking.{MayAsk, MayCommand};
ghost use Rattle.engine_api.specs.declared.asks.Ask.TheVariants as asks;
ghost use Rattle.engine_api.specs.LinkAsks.{answers_to, has, marks_of};
ghost use Rattle.engine_api.specs.Machine.{content_done, content_reply, command_done};
ghost use Rattle.engine_api.specs.Meaning.{Wish};
ghost use Rattle.engine_api.specs.Meaning.Wish.{ForCmd};
ghost use Rattle.engine_api.specs.Rebuilds.{fresh_of};
ghost use Rattle.engine_api.specs.Shell.{call_cause, shell_cause, shell_done, content_cause};
ghost use Rattle.struct_machine.specs.Changes.{Names, any_failure, deeds_by, may_be_any, may_change_bits};
ghost use Rattle.struct_machine.specs.Content.{kept_of};
ghost use Rattle.struct_machine.specs.Kept.{AreOf, answered, machine_of, bits_in, judged, command_looks, copy_reply, is_copying, items_named, looks_at_need, room_in, room_seen};
ghost use Rattle.struct_machine.specs.Turns.{IsMarked, IsTurn, IsJudgedCall, content_asks_of, copy_asks_of, marks_in, structure_of};

use crate::asking::{Asked, ask_links};
use crate::changed::Changed;
use crate::content::Content;
use crate::deeds::{do_deeds, make_engines};
use crate::departing::{READY_LETTERS, depart_first, post_all};
use crate::losing::mark;
use crate::marks::Marks;
use cf_types::{Caps, ConnId, Effects, NoMemory, Refusal, ShellCmd};
use duplex_pair::links::Link;
use duplex_pair::{Lost, fresh_mail};
use engine_api::{Ask, Engine, Reply, Room};
use plex_shell::{ACT_LETTERS, Shell, Verdict};
use std::alloc::Global;

// The most letters that two marks post to one mailbox. Room for them is taken with that for a
// command's own, or for those that an engine sends, and with the room that stays behind.
const MARK_LETTERS: usize = 2 * ACT_LETTERS;

const COPY_LETTERS: usize = MARK_LETTERS + READY_LETTERS;

const CONTENT_LETTERS: usize = MARK_LETTERS + ACT_LETTERS;

// What commands on the content are judged by.
const NO_ROOM: Room = Room {
    need: Caps {
        entries: 0,
        elements: 0,
    },
    left: 0,
};

// A common command: who gives it, in which ask, and what the instances know where it is judged.
#[derive(Drop)]
struct CommonCall<'a, C> {
    by: ConnId,
    ask: &'a Ask<C>,
    cmd: &'a ShellCmd,
    room: Room,
}

// A command on the content: who gives it, and in which ask.
#[derive(Drop)]
struct ContentCall<'a, C> {
    by: ConnId,
    ask: &'a Ask<C>,
    cmd: &'a C,
}

// A call is judged, its links are asked, it is done where the shell doesn't refuse it behind what
// they tell, and has come then. What bits may have changed is told.
pub(crate) fn answer<E: Engine, L: Link>(
    alloc: Global,
    shell: &mut Shell,
    content: &mut Content<E, L>,
    changed: &mut Changed,
    by: ConnId,
    ask: &Ask<E::Cmd>,
) -> Result<Reply<E::Reply>, NoMemory>
    requires kind { IsTrue (E.is_kind shell.old.form.kind) }
    requires may { MayAsk by ask.now }
    requires unnamed { changed.old.bits ≡ [] }
    requires unmarked { changed.old.marks ≡ [] }
    requires quiet { changed.old.all ≡ false }
    requires of_form { AreOf E.meaning shell.old (kept_of E.held content.old) }
    ensures form { shell.new.form ≡ shell.old.form }
    ensures turn { IfOk result (λ reply. IsTurn L.calls L.downs L.faults E.meaning
        (structure_of E.meaning E.held shell.old content.old)
        (structure_of E.meaning E.held shell.new content.new)
        by ask.now changed.new.marks reply) }
    ensures bits { OnOk result (Names changed.new
        (bits_in E.meaning shell.old.form (content_of E.held content.old.pair))
        (bits_in E.meaning shell.old.form (content_of E.held content.new.pair))) }
    ensures all { OnOk result (changed.new.all ≡ may_be_any E.meaning shell.old.form
        (machine_of E.meaning shell.old (kept_of E.held content.old)) by ask.now
        changed.new.marks) }
    ensures of_form { AreOf E.meaning shell.new (kept_of E.held content.new) }
    ensures err { OnErr result (machine_of E.meaning shell.new (kept_of E.held content.new)
        ≡ machine_of E.meaning shell.old (kept_of E.held content.old)) }
    ensures err_links { OnErr result (content.new.pair.links ≡ content.old.pair.links) }
{
    let reply = answer_judged(alloc, shell, content, changed, by, ask)?;
    shell.entered();
    Ok(reply)
}

// A call is judged, its links are asked, and it is done where the shell doesn't refuse it behind
// what they tell.
#[tactic(auto, using(crate::proofs::TurnLaws::turn_quiet, crate::proofs::TurnLaws::refused_asks, crate::proofs::TurnLaws::refused_done, crate::proofs::ChangeLaws::refused_all))]
fn answer_judged<E: Engine, L: Link>(
    alloc: Global,
    shell: &mut Shell,
    content: &mut Content<E, L>,
    changed: &mut Changed,
    by: ConnId,
    ask: &Ask<E::Cmd>,
) -> Result<Reply<E::Reply>, NoMemory>
    requires kind { IsTrue (E.is_kind shell.old.form.kind) }
    requires may { MayAsk by ask.now }
    requires unnamed { changed.old.bits ≡ [] }
    requires unmarked { changed.old.marks ≡ [] }
    requires quiet { changed.old.all ≡ false }
    requires of_form { AreOf E.meaning shell.old (kept_of E.held content.old) }
    ensures form { shell.new.form ≡ shell.old.form }
    ensures turn { IfOk result (λ reply. IsJudgedCall L.calls L.downs L.faults E.meaning
        (structure_of E.meaning E.held shell.old content.old)
        (structure_of E.meaning E.held shell.new content.new)
        by ask.now changed.new.marks reply) }
    ensures bits { OnOk result (Names changed.new
        (bits_in E.meaning shell.old.form (content_of E.held content.old.pair))
        (bits_in E.meaning shell.old.form (content_of E.held content.new.pair))) }
    ensures all { OnOk result (changed.new.all ≡ may_be_any E.meaning shell.old.form
        (machine_of E.meaning shell.old (kept_of E.held content.old)) by ask.now
        changed.new.marks) }
    ensures of_form { AreOf E.meaning shell.new (kept_of E.held content.new) }
    ensures err { OnErr result (machine_of E.meaning shell.new (kept_of E.held content.new)
        ≡ machine_of E.meaning shell.old (kept_of E.held content.old)) }
    ensures err_links { OnErr result (content.new.pair.links ≡ content.old.pair.links) }
{
    let (room, cause) = judge(shell, content, by, ask);
    if let Some(refusal) = cause {
        return Ok(Reply::Refused(refusal));
    }
    match ask {
        Ask::Shell(cmd) => {
            let call = CommonCall { by, ask, cmd, room };
            if is_copying(cmd) {
                do_copy(alloc, shell, content, changed, &call)
            } else {
                do_command(alloc, shell, content, changed, &call)
            }
        }
        Ask::Content(cmd) => {
            let call = ContentCall { by, ask, cmd };
            do_content(alloc, shell, content, changed, &call)
        }
    }
}

// Whether a common command asks links.
pub(crate) fn is_copying(cmd: &ShellCmd) -> bool
    ensures { result ≡ is_copying cmd.now }
{
    match cmd {
        ShellCmd::Copy { .. } => true,
        _ => false,
    }
}

// Whether the content's need is among what a call is judged by.
fn looks_at_need<C>(ask: &Ask<C>) -> bool
    ensures { result ≡ looks_at_need ask.now }
{
    match ask {
        Ask::Shell(cmd) => command_looks(cmd),
        Ask::Content(_) => false,
    }
}

// The same of a common command.
fn command_looks(cmd: &ShellCmd) -> bool
    ensures { result ≡ command_looks cmd.now }
{
    match cmd {
        ShellCmd::RebuildConnect => true,
        _ => false,
    }
}

// What the instances know. The need, for which the whole content is gone through, is found only
// where it is looked at.
fn room_of<E: Engine, L: Link>(shell: &Shell, content: &Content<E, L>, looks: bool) -> Room
    requires { AreOf E.meaning shell.now (kept_of E.held content.now) }
    ensures { result ≡ room_seen looks
        (room_in E.meaning shell.now (kept_of E.held content.now)) }
{
    let (primary, _, _) = shell.instances();
    let need = if looks && primary.is_some() {
        content.need()
    } else {
        Caps {
            entries: 0,
            elements: 0,
        }
    };
    let left = content.left();
    Room { need, left }
}

// Why the shell refuses a call, if it does.
#[tactic(auto, using(crate::proofs::RefusalLaws::refused_call))]
fn refusal_of<C>(shell: &Shell, by: ConnId, ask: &Ask<C>, room: &Room) -> Option<Refusal>
    requires may { MayAsk by ask.now }
    ensures { result ≡ call_cause shell.now.form room.now shell.now.shell by ask.now }
{
    match shell.judge(by, ask, room) {
        Verdict::Refuse(refusal) => Some(refusal),
        Verdict::Act | Verdict::Content | Verdict::Copy => None,
    }
}

// What the instances know that a call is judged by, and why the shell refuses the call by all that
// they know, if it does.
pub(crate) fn judge<E: Engine, L: Link>(
    shell: &Shell,
    content: &Content<E, L>,
    by: ConnId,
    ask: &Ask<E::Cmd>,
) -> (Room, Option<Refusal>)
    requires may { MayAsk by ask.now }
    requires of_form { AreOf E.meaning shell.now (kept_of E.held content.now) }
    ensures room { result.0 ≡ room_seen (looks_at_need ask.now)
        (room_in E.meaning shell.now (kept_of E.held content.now)) }
    ensures cause { result.1 ≡ call_cause shell.now.form
        (room_in E.meaning shell.now (kept_of E.held content.now)) shell.now.shell by ask.now }
{
    let room = room_of(shell, content, looks_at_need(ask));
    let cause = refusal_of(shell, by, ask, &room);
    (room, cause)
}

// A command on the content that the shell doesn't refuse: all memory is taken, and then its links
// are asked. The bits that changed are named.
fn do_content<E: Engine, L: Link>(
    alloc: Global,
    shell: &mut Shell,
    content: &mut Content<E, L>,
    changed: &mut Changed,
    call: &ContentCall<'_, E::Cmd>,
) -> Result<Reply<E::Reply>, NoMemory>
    requires caller { IsConnector call.now.by }
    requires asked { call.now.ask.now ≡ asks.Content call.now.cmd.now }
    requires accepted { content_cause shell.old.shell call.now.by ≡ None }
    requires unnamed { changed.old.bits ≡ [] }
    requires unmarked { changed.old.marks ≡ [] }
    requires of_form { AreOf E.meaning shell.old (kept_of E.held content.old) }
    ensures form { shell.new.form ≡ shell.old.form }
    ensures turn { IfOk result (λ reply. IsJudgedCall L.calls L.downs L.faults E.meaning
        (structure_of E.meaning E.held shell.old content.old)
        (structure_of E.meaning E.held shell.new content.new)
        call.now.by call.now.ask.now changed.new.marks reply) }
    ensures bits { OnOk result (Names changed.new
        (bits_in E.meaning shell.old.form (content_of E.held content.old.pair))
        (bits_in E.meaning shell.old.form (content_of E.held content.new.pair))) }
    ensures failed { OnOk result (changed.new.all ≡ any_failure changed.new.marks) }
    ensures of_form { AreOf E.meaning shell.new (kept_of E.held content.new) }
    ensures err { OnErr result (machine_of E.meaning shell.new (kept_of E.held content.new)
        ≡ machine_of E.meaning shell.old (kept_of E.held content.old)) }
    ensures err_links { OnErr result (content.new.pair.links ≡ content.old.pair.links) }
{
    let out = &mut changed.effects;
    fresh_mail(alloc, out);
    content.renew(alloc);
    content.ready(call.by, call.cmd, out)?;
    ready_letters(shell, out)?;
    let marks = &mut changed.marks;
    let (reply, failed) = ask_and_apply(shell, content, out, marks, call);
    changed.all = failed;
    Ok(reply)
}

// Takes room for the letters that an engine may send, and for those of two marks; room for those of
// a command stays behind.
fn ready_letters(shell: &mut Shell, out: &Effects) -> Result<(), NoMemory>
    ensures form { shell.new.form ≡ shell.old.form }
    ensures shell { shell.new.shell ≡ shell.old.shell }
    ensures room { OnOk result (out.now.mail.room + MARK_LETTERS ≤ shell.new.room) }
{
    let Some(letters) = out.mail.room().checked_add(CONTENT_LETTERS) else {
        return Err(NoMemory::beyond_counts());
    };
    shell.ready(letters)
}

// The links of a command on the content are asked, and it is judged again behind what they tell,
// and done by the instances that are left. Whether the structure failed is told too.
#[tactic(auto, using(crate::proofs::TurnLaws::turn_behind))]
fn ask_and_apply<E: Engine, L: Link>(
    shell: &mut Shell,
    content: &mut Content<E, L>,
    out: &mut Effects,
    marks: &mut Marks,
    call: &ContentCall<'_, E::Cmd>,
) -> (Reply<E::Reply>, bool)
    requires caller { IsConnector call.now.by }
    requires asked { call.now.ask.now ≡ asks.Content call.now.cmd.now }
    requires accepted { content_cause shell.old.shell call.now.by ≡ None }
    requires unmarked { marks.old ≡ [] }
    requires unnamed { out.old.bits.items ≡ [] }
    requires unsent { out.old.mail.items ≡ [] }
    requires ready { AreReady E.is_ready content.old.pair
        (ForCmd call.now.by call.now.cmd.now) out.old }
    requires room { out.old.mail.room + MARK_LETTERS ≤ shell.old.room }
    requires of_form { AreOf E.meaning shell.old (kept_of E.held content.old) }
    ensures form { shell.new.form ≡ shell.old.form }
    ensures turn { IsJudgedCall L.calls L.downs L.faults E.meaning
        (structure_of E.meaning E.held shell.old content.old)
        (structure_of E.meaning E.held shell.new content.new)
        call.now.by call.now.ask.now marks.new result.0 }
    ensures failed { result.1 ≡ any_failure marks.new }
    ensures bits { result.1 ≡ false → Gains
        (bits_in E.meaning shell.old.form (content_of E.held content.old.pair))
        (bits_in E.meaning shell.old.form (content_of E.held content.new.pair))
        [] out.new.bits.items }
    ensures of_form { AreOf E.meaning shell.new (kept_of E.held content.new) }
{
    let failed = ask_and_mark(shell, content, marks);
    let reply = apply_judged(shell, content, out, call);
    (reply, failed)
}

// The links of a command on the content are asked, and what they tell to be lost is marked. Whether
// the structure failed is told.
fn ask_and_mark<E: Engine, L: Link>(
    shell: &mut Shell,
    content: &mut Content<E, L>,
    marks: &mut Marks,
) -> bool
    requires unmarked { marks.old ≡ [] }
    requires room { MARK_LETTERS ≤ shell.old.room }
    requires of_form { AreOf E.meaning shell.old (kept_of E.held content.old) }
    ensures form { shell.new.form ≡ shell.old.form }
    ensures marked { IsMarked L.calls L.downs L.faults E.meaning
        (structure_of E.meaning E.held shell.old content.old)
        (structure_of E.meaning E.held shell.new content.new)
        (content_asks_of shell.old.shell) marks.new }
    ensures failed { result ≡ any_failure marks.new }
    ensures same { result ≡ false
        → content_of E.held content.new.pair ≡ content_of E.held content.old.pair }
    ensures ready { (wish : Wish E.Cmd) (out : Effects)
        → AreReady E.is_ready content.old.pair wish out
        → AreReady E.is_ready content.new.pair wish out }
    ensures room { shell.old.room ≤ shell.new.room + MARK_LETTERS }
    ensures of_form { AreOf E.meaning shell.new (kept_of E.held content.new) }
{
    let (first, second) = content.places();
    let lost = ask_links(content, Asked::both(first, second, false));
    let alone = mark(shell, content, marks, lost.first);
    let both = mark(shell, content, marks, lost.second);
    is_either(alone, both)
}

// Whether one of two is so.
fn is_either(one: bool, other: bool) -> bool
    ensures { result ≡ one || other }
{
    one || other
}

// A command on the content is judged, and done where the shell doesn't refuse it.
fn apply_judged<E: Engine, L: Link>(
    shell: &mut Shell,
    content: &mut Content<E, L>,
    out: &mut Effects,
    call: &ContentCall<'_, E::Cmd>,
) -> Reply<E::Reply>
    requires caller { IsConnector call.now.by }
    requires asked { call.now.ask.now ≡ asks.Content call.now.cmd.now }
    requires unnamed { out.old.bits.items ≡ [] }
    requires unsent { out.old.mail.items ≡ [] }
    requires ready { AreReady E.is_ready content.old.pair
        (ForCmd call.now.by call.now.cmd.now) out.old }
    requires room { out.old.mail.room ≤ shell.old.room }
    requires of_form { AreOf E.meaning shell.old (kept_of E.held content.old) }
    ensures form { shell.new.form ≡ shell.old.form }
    ensures done { record {
      reply = result;
      machine = machine_of E.meaning shell.new (kept_of E.held content.new);
    } ≡ judged E.meaning shell.old.form
        (machine_of E.meaning shell.old (kept_of E.held content.old)) call.now.by
        call.now.ask.now }
    ensures bits { Gains
        (bits_in E.meaning shell.old.form (content_of E.held content.old.pair))
        (bits_in E.meaning shell.old.form (content_of E.held content.new.pair))
        [] out.new.bits.items }
    ensures of_form { AreOf E.meaning shell.new (kept_of E.held content.new) }
    ensures links { content.new.pair.links ≡ content.old.pair.links }
{
    match refusal_of(shell, call.by, call.ask, &NO_ROOM) {
        Some(refusal) => Reply::Refused(refusal),
        None => apply(shell, content, out, call.by, call.cmd),
    }
}

// A command on the content that the shell doesn't refuse is done.
fn apply<E: Engine, L: Link>(
    shell: &mut Shell,
    content: &mut Content<E, L>,
    out: &mut Effects,
    by: ConnId,
    cmd: &E::Cmd,
) -> Reply<E::Reply>
    requires caller { IsConnector by }
    requires accepted { content_cause shell.old.shell by ≡ None }
    requires unnamed { out.old.bits.items ≡ [] }
    requires unsent { out.old.mail.items ≡ [] }
    requires ready { AreReady E.is_ready content.old.pair (ForCmd by cmd.now) out.old }
    requires room { out.old.mail.room ≤ shell.old.room }
    requires of_form { AreOf E.meaning shell.old (kept_of E.held content.old) }
    ensures form { shell.new.form ≡ shell.old.form }
    ensures done { record {
      reply = result;
      machine = machine_of E.meaning shell.new (kept_of E.held content.new);
    } ≡ content_done E.meaning shell.old.form
        (machine_of E.meaning shell.old (kept_of E.held content.old)) by cmd.now }
    ensures bits { Gains
        (bits_in E.meaning shell.old.form (content_of E.held content.old.pair))
        (bits_in E.meaning shell.old.form (content_of E.held content.new.pair))
        [] out.new.bits.items }
    ensures of_form { AreOf E.meaning shell.new (kept_of E.held content.new) }
    ensures links { content.new.pair.links ≡ content.old.pair.links }
{
    let answer = content.apply(by, cmd, out);
    post_all(shell, out.mail.items());
    content_reply(answer)
}

// COPY that the shell doesn't refuse: its items are copied, and then its links are asked. Where one
// is down it is refused behind the mark, and the copy has ended with its instance.
fn do_copy<E: Engine, L: Link>(
    alloc: Global,
    shell: &mut Shell,
    content: &mut Content<E, L>,
    changed: &mut Changed,
    call: &CommonCall<'_, E::Cmd>,
) -> Result<Reply<E::Reply>, NoMemory>
    requires may { MayCommand call.now.by call.now.cmd.now }
    requires asked { call.now.ask.now ≡ asks.Shell call.now.cmd.now }
    requires copying { is_copying call.now.cmd.now ≡ true }
    requires room { call.now.room ≡ room_seen (command_looks call.now.cmd.now)
        (room_in E.meaning shell.old (kept_of E.held content.old)) }
    requires accepted { shell_cause shell.old.form
        (room_in E.meaning shell.old (kept_of E.held content.old)) shell.old.shell call.now.by
        call.now.cmd.now ≡ None }
    requires unnamed { changed.old.bits ≡ [] }
    requires unmarked { changed.old.marks ≡ [] }
    requires of_form { AreOf E.meaning shell.old (kept_of E.held content.old) }
    ensures form { shell.new.form ≡ shell.old.form }
    ensures turn { IfOk result (λ reply. IsJudgedCall L.calls L.downs L.faults E.meaning
        (structure_of E.meaning E.held shell.old content.old)
        (structure_of E.meaning E.held shell.new content.new)
        call.now.by call.now.ask.now changed.new.marks reply) }
    ensures bits { OnOk result (Names changed.new
        (bits_in E.meaning shell.old.form (content_of E.held content.old.pair))
        (bits_in E.meaning shell.old.form (content_of E.held content.new.pair))) }
    ensures failed { OnOk result (changed.new.all ≡ any_failure changed.new.marks) }
    ensures of_form { AreOf E.meaning shell.new (kept_of E.held content.new) }
    ensures err { OnErr result (machine_of E.meaning shell.new (kept_of E.held content.new)
        ≡ machine_of E.meaning shell.old (kept_of E.held content.old)) }
    ensures err_links { OnErr result (content.new.pair.links ≡ content.old.pair.links) }
{
    shell.ready(COPY_LETTERS)?;
    content.copy(alloc, items_of(call.cmd))?;
    let lost = ask_copy(shell, content);
    let alone = mark(shell, content, &mut changed.marks, lost.first);
    let both = mark(shell, content, &mut changed.marks, lost.second);
    changed.all = alone || both;
    Ok(copy_judged(shell, call))
}

// How many items COPY names.
fn items_of(cmd: &ShellCmd) -> u32
    ensures { result ≡ items_named cmd.now }
{
    match cmd {
        ShellCmd::Copy { n } => *n,
        _ => 0,
    }
}

// COPY's links are asked: that of the old instance, and that of the new one, unless the first is
// down.
fn ask_copy<E: Engine, L: Link>(shell: &Shell, content: &mut Content<E, L>) -> Lost
    requires of_form { AreOf E.meaning shell.now (kept_of E.held content.old) }
    ensures marks { marks_in result
        ≡ marks_of (has (marks_in result)) (copy_asks_of shell.now.shell) }
    ensures asked { AreAsked L.calls L.downs L.faults
        (answers_to (has (marks_in result)) (copy_asks_of shell.now.shell))
        content.old.pair.links content.new.pair.links }
    ensures first { IfSome result.first
        (λ cf. shell.now.shell.instances.primary ≡ Some cf) }
    ensures first_at { IfSome result.first IsFacility }
    ensures second { IfSome result.second (λ cf. fresh_of shell.now.shell.rebuild ≡ Some cf) }
    ensures second_at { IfSome result.second IsFacility }
    ensures stopped { is_some result.first ≡ true → result.second ≡ None }
    ensures same { content.new ≡ record content.old {
      pair = record content.old.pair { links = content.new.pair.links };
    } }
{
    let (first, _) = content.places();
    let (_, _, fresh) = shell.instances();
    ask_links(content, Asked::both(first, fresh, true))
}

// COPY is judged, and told where nothing refuses it.
fn copy_judged<R: Drop, C>(shell: &mut Shell, call: &CommonCall<'_, C>) -> Reply<R>
    requires may { MayCommand call.now.by call.now.cmd.now }
    requires asked { call.now.ask.now ≡ asks.Shell call.now.cmd.now }
    requires copying { is_copying call.now.cmd.now ≡ true }
    requires room { ACT_LETTERS ≤ shell.old.room }
    ensures form { shell.new.form ≡ shell.old.form }
    ensures shell { shell.new.shell ≡ shell.old.shell }
    ensures reply { result ≡ copy_reply
        (shell_cause shell.old.form call.now.room shell.old.shell call.now.by call.now.cmd.now)
        (shell_done shell.old.form call.now.room shell.old.shell call.now.by
        call.now.cmd.now).reply }
{
    match refusal_of(shell, call.by, call.ask, &call.room) {
        Some(refusal) => Reply::Refused(refusal),
        None => {
            let (reply, _) = shell.act(call.by, call.cmd, &call.room);
            Reply::Shell(reply)
        }
    }
}

// A common command that the shell doesn't refuse. What bits it may have changed is told.
#[tactic(auto, using(crate::proofs::RefusalLaws::cause_seen, crate::proofs::RefusalLaws::done_seen, crate::proofs::RefusalLaws::accepted_posted, crate::proofs::RefusalLaws::letters_none))]
fn do_command<E: Engine, L: Link>(
    alloc: Global,
    shell: &mut Shell,
    content: &mut Content<E, L>,
    changed: &mut Changed,
    call: &CommonCall<'_, E::Cmd>,
) -> Result<Reply<E::Reply>, NoMemory>
    requires kind { IsTrue (E.is_kind shell.old.form.kind) }
    requires may { MayCommand call.now.by call.now.cmd.now }
    requires other { is_copying call.now.cmd.now ≡ false }
    requires room { call.now.room ≡ room_seen (command_looks call.now.cmd.now)
        (room_in E.meaning shell.old (kept_of E.held content.old)) }
    requires accepted { shell_cause shell.old.form
        (room_in E.meaning shell.old (kept_of E.held content.old)) shell.old.shell call.now.by
        call.now.cmd.now ≡ None }
    requires unnamed { changed.old.bits ≡ [] }
    requires of_form { AreOf E.meaning shell.old (kept_of E.held content.old) }
    ensures form { shell.new.form ≡ shell.old.form }
    ensures ok { IfOk result (λ reply. answered reply
        (machine_of E.meaning shell.new (kept_of E.held content.new))
        ≡ command_done E.meaning shell.old.form
        (machine_of E.meaning shell.old (kept_of E.held content.old)) call.now.by
        call.now.cmd.now) }
    ensures bits { OnOk result (Names changed.new
        (bits_in E.meaning shell.old.form (content_of E.held content.old.pair))
        (bits_in E.meaning shell.old.form (content_of E.held content.new.pair))) }
    ensures all { OnOk result (changed.new.all
        ≡ may_change_bits (deeds_by E.meaning shell.old.form
        (machine_of E.meaning shell.old (kept_of E.held content.old)) call.now.by
        call.now.cmd.now)) }
    ensures of_form { AreOf E.meaning shell.new (kept_of E.held content.new) }
    ensures links { content.new.pair.links ≡ content.old.pair.links }
    ensures marks { changed.new.marks ≡ changed.old.marks }
    ensures err { OnErr result (machine_of E.meaning shell.new (kept_of E.held content.new)
        ≡ machine_of E.meaning shell.old (kept_of E.held content.old)) }
{
    let made = make_engines(alloc, shell, content, call.cmd)?;
    let out = &mut changed.effects;
    depart_first(alloc, shell, content, out, call.by, call.cmd)?;
    let rebuilding = shell.is_rebuilding();
    let (_, _, fresh) = shell.instances();
    let (reply, deeds) = shell.act(call.by, call.cmd, &call.room);
    changed.note(deeds);
    do_deeds(content, made, deeds, rebuilding, fresh);
    Ok(Reply::Shell(reply))
}

// The reply to a command on the content.
fn content_reply<R: Drop>(answer: Result<R, Refusal>) -> Reply<R>
    ensures { result ≡ content_reply answer }
{
    match answer {
        Ok(reply) => Reply::Content(reply),
        Err(refusal) => Reply::Refused(refusal),
    }
}
