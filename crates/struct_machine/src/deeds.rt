//! What deeds do to a structure's instances.
ghost use Rattle.std.specs.Prelude.{◌≡◌, ◌&&◌, ◌||◌, IfSome, IfOk, IsTrue, None, Some, is_some, true, false, not, option_map, if◌then◌else◌};
ghost use Rattle.cf_types.specs.Forms.{IsCaller, IsCapacity};
ghost use Rattle.duplex_pair.specs.Pairs.{instances_of, content_of};
ghost use Rattle.struct_machine.specs.Content.{kept_of};
ghost use Rattle.struct_machine.specs.Deeds.{Spares, AreSpares, AreAdmitted, MayMake, MayAdd, MayDrop, MaySwitch, HasNone, kept_past, held_back, held_made, held_switched, at_made, at_second, at_dropped, at_switched, fresh_made, fresh_ended, makes_empty, makes_second};
ghost use Rattle.engine_api.specs.Meaning.{new_held};
ghost use Rattle.engine_api.specs.Shapes.{shape_of};
ghost use Rattle.engine_api.specs.Shell.{caps_made};

use crate::content::Content;
use cf_types::{CfId, ConnId, NoMemory, ShellCmd};
use duplex_pair::links::Link;
use engine_api::{Deeds, Engine};
use plex_shell::Shell;
use std::alloc::Global;
use std::marker::Model;

/// The engines that a command needs: an empty one, or a second one with the primary's content.
#[derive(Drop)]
pub(crate) struct Made<E> {
    empty: Option<E>,
    second: Option<E>,
}

/// Makes the engines that a command needs, before it acts.
pub(crate) fn make_engines<E: Engine, L: Link>(
    alloc: Global,
    shell: &Shell,
    content: &Content<E, L>,
    cmd: &ShellCmd,
) -> Result<Made<E>, NoMemory>
    requires kind { IsTrue (E.is_kind shell.now.form.kind) }
    requires stands { makes_second cmd.now ≡ true
        → is_some (content_of E.held content.now.pair) ≡ true }
    ensures kind { IfOk result (λ made. IfSome made.empty
        (λ engine. IsTrue (E.is_kind (E.held engine).shape.kind))) }
    ensures spares { IfOk result (λ made. AreSpares E.meaning shell.now.form shell.now.shell cmd.now
        (content_of E.held content.now.pair)
        (record { empty = option_map E.held made.empty; second = option_map E.held made.second })) }
{
    let empty = make_empty(alloc, shell, cmd)?;
    let second = make_second(alloc, content, cmd)?;
    Ok(Made { empty, second })
}

// An empty engine, where the command may make an instance.
fn make_empty<E: Engine>(
    alloc: Global,
    shell: &Shell,
    cmd: &ShellCmd,
) -> Result<Option<E>, NoMemory>
    requires { IsTrue (E.is_kind shell.now.form.kind) }
    ensures kind { IfOk result (λ made. IfSome made
        (λ engine. IsTrue (E.is_kind (E.held engine).shape.kind))) }
    ensures empty { IfOk result (λ made. makes_empty shell.now.shell cmd.now ≡ true
        → option_map E.held made
        ≡ Some (new_held E.meaning (shape_of shell.now.form) (caps_made shell.now.shell))) }
{
    if makes_empty(shell, cmd) {
        let engine = E::empty(alloc, shell.form(), shell.caps())?;
        Ok(Some(engine))
    } else {
        Ok(None)
    }
}

// Whether the command makes an empty instance.
fn makes_empty(shell: &Shell, cmd: &ShellCmd) -> bool
    ensures { result ≡ makes_empty shell.now.shell cmd.now }
{
    let (primary, _, fresh) = shell.instances();
    match cmd {
        ShellCmd::Connect { .. } => !primary.is_some(),
        ShellCmd::RebuildConnect => !fresh.is_some(),
        _ => false,
    }
}

// An engine with the primary's content, where the command makes a second instance.
fn make_second<E: Engine, L: Link>(
    alloc: Global,
    content: &Content<E, L>,
    cmd: &ShellCmd,
) -> Result<Option<E>, NoMemory>
    requires stands { makes_second cmd.now ≡ true
        → is_some (content_of E.held content.now.pair) ≡ true }
    ensures { IfOk result (λ made. makes_second cmd.now ≡ true
        → option_map E.held made ≡ content_of E.held content.now.pair) }
{
    match cmd {
        ShellCmd::DuplexStart => {
            let engine = content.copy_primary(alloc)?;
            Ok(Some(engine))
        }
        _ => Ok(None),
    }
}

/// What a command does to the instances, in the order of the deeds. A rebuild's new instance stands
/// in the facility `fresh`.
pub(crate) fn do_deeds<E: Engine, L: Link>(
    content: &mut Content<E, L>,
    made: Made<E>,
    deeds: Deeds,
    rebuilding: bool,
    fresh: Option<CfId>,
)
    requires kind { IfSome made.empty (λ engine. IsTrue (E.is_kind (E.held engine).shape.kind)) }
    requires admitted { AreAdmitted E.meaning rebuilding deeds fresh
        (record { empty = option_map E.held made.empty; second = option_map E.held made.second })
        (kept_of E.held content.old) }
    ensures kept { kept_of E.held content.new ≡ kept_past E.meaning rebuilding deeds fresh
        (record { empty = option_map E.held made.empty; second = option_map E.held made.second })
        (kept_of E.held content.old) }
    ensures links { content.new.pair.links ≡ content.old.pair.links }
{
    if deeds.drop_all {
        content.drop_all();
        return;
    }
    let Made { empty, second } = made;
    take_back(content, deeds.back);
    make_instance(content, empty, deeds.make, rebuilding);
    change_pair(content, second, deeds.second, deeds.drop_at);
    end_fresh(content, deeds, fresh);
}

// A failed connection is taken up again.
fn take_back<E: Engine, L: Link>(content: &mut Content<E, L>, back: Option<ConnId>)
    requires { IfSome back (λ conn. IsCaller conn × (content.old.fresh ≡ None)) }
    ensures held { content_of E.held content.new.pair
        ≡ held_back E.meaning back (content_of E.held content.old.pair) }
    ensures places { instances_of content.new.pair ≡ instances_of content.old.pair }
    ensures fresh { content.new.fresh ≡ content.old.fresh }
    ensures links { content.new.pair.links ≡ content.old.pair.links }
{
    if let Some(conn) = back {
        content.back(conn);
    }
}

// An empty instance is made: a rebuild's new one, or the primary.
fn make_instance<E: Engine, L: Link>(
    content: &mut Content<E, L>,
    empty: Option<E>,
    make: Option<CfId>,
    rebuilding: bool,
)
    requires kind { IfSome empty (λ engine. IsTrue (E.is_kind (E.held engine).shape.kind)) }
    requires may { IfSome make (MayMake E.meaning rebuilding (kept_of E.held content.old)
        (option_map E.held empty)) }
    ensures held { content_of E.held content.new.pair ≡ held_made rebuilding make
        (option_map E.held empty) (content_of E.held content.old.pair) }
    ensures places { instances_of content.new.pair
        ≡ at_made rebuilding make (instances_of content.old.pair) }
    ensures fresh { content.new.fresh
        ≡ fresh_made rebuilding make (option_map E.held empty) content.old.fresh }
    ensures links { content.new.pair.links ≡ content.old.pair.links }
{
    if let Some(at) = make {
        match empty {
            Some(engine) if rebuilding => content.make(engine),
            Some(engine) => content.place(engine, at),
            None => unreachable!(),
        }
    }
}

// A second instance is made, or one of two is dropped.
fn change_pair<E: Engine, L: Link>(
    content: &mut Content<E, L>,
    second: Option<E>,
    make: Option<CfId>,
    drop_at: Option<CfId>,
)
    requires add { IfSome make (MayAdd (kept_of E.held content.old) (option_map E.held second)) }
    requires drop { IfSome drop_at
        (λ cf. MayDrop (kept_of E.held content.old) cf × HasNone make) }
    ensures held { content_of E.held content.new.pair ≡ content_of E.held content.old.pair }
    ensures places { instances_of content.new.pair
        ≡ at_dropped drop_at (at_second make (instances_of content.old.pair)) }
    ensures fresh { content.new.fresh ≡ content.old.fresh }
    ensures links { content.new.pair.links ≡ content.old.pair.links }
{
    match make {
        Some(at) => match second {
            Some(engine) => content.add(engine, at),
            None => unreachable!(),
        },
        None => drop_one(content, drop_at),
    }
}

// One of two instances is dropped.
fn drop_one<E: Engine, L: Link>(content: &mut Content<E, L>, drop_at: Option<CfId>)
    requires { IfSome drop_at (MayDrop (kept_of E.held content.old)) }
    ensures held { content_of E.held content.new.pair ≡ content_of E.held content.old.pair }
    ensures places { instances_of content.new.pair
        ≡ at_dropped drop_at (instances_of content.old.pair) }
    ensures fresh { content.new.fresh ≡ content.old.fresh }
    ensures links { content.new.pair.links ≡ content.old.pair.links }
{
    if let Some(cf) = drop_at {
        content.drop_at(cf);
    }
}

// The new instance is emptied, takes the primary's place, or is dropped.
fn end_fresh<E: Engine, L: Link>(content: &mut Content<E, L>, deeds: Deeds, fresh: Option<CfId>)
    requires switch { deeds.switch ≡ true → MaySwitch E.meaning fresh (kept_of E.held content.old) }
    requires whole { deeds.switch ≡ true → deeds.restart ≡ false }
    ensures held { content_of E.held content.new.pair ≡ held_switched E.meaning deeds.switch
        content.old.fresh (content_of E.held content.old.pair) }
    ensures places { instances_of content.new.pair
        ≡ at_switched deeds.switch fresh (instances_of content.old.pair) }
    ensures fresh { content.new.fresh ≡ fresh_ended deeds content.old.fresh }
    ensures links { content.new.pair.links ≡ content.old.pair.links }
{
    if deeds.switch {
        switch_to(content, fresh);
        return;
    }
    if deeds.restart {
        content.restart();
    }
    if deeds.drop_fresh {
        content.drop_fresh();
    }
}

// The new instance takes the primary's place.
fn switch_to<E: Engine, L: Link>(content: &mut Content<E, L>, fresh: Option<CfId>)
    requires { MaySwitch E.meaning fresh (kept_of E.held content.old) }
    ensures held { content_of E.held content.new.pair ≡ held_switched E.meaning true
        content.old.fresh (content_of E.held content.old.pair) }
    ensures places { instances_of content.new.pair
        ≡ at_switched true fresh (instances_of content.old.pair) }
    ensures fresh { content.new.fresh ≡ None }
    ensures links { content.new.pair.links ≡ content.old.pair.links }
{
    match fresh {
        Some(at) => content.switch(at),
        None => unreachable!(),
    }
}
