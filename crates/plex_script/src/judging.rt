ghost use Rattle.std.specs.Prelude.{◌≡◌};
ghost use Rattle.std.specs.Option.{is_some};
ghost use Rattle.plex_plain.specs.PlexSpell.declared.rigour.Rigour.TheVariants.{Form, Limits, Names};
ghost use Rattle.plex_plain.specs.PlexSpell.Places.{Reads, names_of};
ghost use Rattle.plex_plain.specs.PlexSpell.Words.{words_of};
ghost use Rattle.plex_script.specs.Causes.{declared_in};
ghost use Rattle.plex_script.specs.LineReading.{act_at};
ghost use Rattle.plex_script.specs.PolicyReading.{declaration_at};
ghost use Rattle.plex_script.specs.Reading.{script_of, unread_why, IsFaultOf, Judged};

use crate::act_reader::act;
use crate::declarations::Declaration;
use crate::draft::Draft;
use crate::faults::Why;
use crate::line_faults::LineFault;
use crate::policy_reader::declaration;
use crate::scripts::Act;
use cf_types::{ConnId, Kind};
use plex_plain::spell::{Judge, Miss, Rigour, Words};
use std::alloc::Global;

// What words are judged by behind what is read already.
fn judge(draft: &Draft, rigour: Rigour) -> Judge<'_>
    ensures rigour { result.rigour ≡ rigour }
    ensures declared { names_of result ≡ declared_in (script_of draft.now) }
{
    Judge {
        rigour,
        facilities: draft.facilities.as_slice(),
        structures: draft.structures.as_slice(),
        connectors: draft.connectors.as_slice(),
    }
}

fn declaration_by(
    alloc: Global,
    draft: &Draft,
    rigour: Rigour,
    line: &[u8],
) -> Result<Declaration, Miss>
    ensures { Reads result (declaration_at rigour (declared_in (script_of draft.now))
        (words_of line.now)) }
{
    declaration(alloc, &judge(draft, rigour), Words::of(line))
}

// Why a line declares nothing; `excess` is whether the line, or what it declares, is too much.
fn undeclared(alloc: Global, draft: &Draft, excess: bool, line: &[u8]) -> LineFault
    ensures { let declared = declared_in (script_of draft.now) in
        IsFaultOf result (unread_why (is_some (declaration_at Form declared (words_of line.now)))
        excess (is_some (declaration_at Limits declared (words_of line.now)))) }
{
    match declaration_by(alloc, draft, Rigour::Form, line) {
        Err(Miss::NoMemory(cause)) => return LineFault::NoMemory(cause),
        Err(Miss::NoForm) => return LineFault::Wrong(Why::Syntax),
        Ok(_) => {}
    }
    if excess {
        return LineFault::Wrong(Why::Limit);
    }
    match declaration_by(alloc, draft, Rigour::Limits, line) {
        Err(Miss::NoMemory(cause)) => LineFault::NoMemory(cause),
        Err(Miss::NoForm) => LineFault::Wrong(Why::Limit),
        Ok(_) => LineFault::Wrong(Why::Unknown),
    }
}

/// What a line declares, behind what is read already; `excess` is whether the line, or what it
/// declares, is too much.
pub(crate) fn judged_declaration(
    alloc: Global,
    draft: &Draft,
    excess: bool,
    line: &[u8],
) -> Result<Declaration, LineFault>
    ensures { let declared = declared_in (script_of draft.now) in
        Judged result excess (declaration_at Form declared (words_of line.now))
        (declaration_at Limits declared (words_of line.now))
        (declaration_at Names declared (words_of line.now)) }
{
    if excess {
        return Err(undeclared(alloc, draft, excess, line));
    }
    match declaration_by(alloc, draft, Rigour::Names, line) {
        Ok(declaration) => Ok(declaration),
        Err(Miss::NoMemory(cause)) => Err(LineFault::NoMemory(cause)),
        Err(Miss::NoForm) => Err(undeclared(alloc, draft, excess, line)),
    }
}

fn act_by(
    alloc: Global,
    draft: &Draft,
    rigour: Rigour,
    by: ConnId,
    kind: Kind,
    words: &Words,
) -> Result<(Act, u32), Miss>
    ensures { Reads result (act_at rigour (declared_in (script_of draft.now)) by kind words.now) }
{
    act(alloc, &judge(draft, rigour), by, kind, words.again())
}

// Why a caller's words do nothing.
fn undone(
    alloc: Global,
    draft: &Draft,
    long: bool,
    by: ConnId,
    kind: Kind,
    words: &Words,
) -> LineFault
    ensures { let declared = declared_in (script_of draft.now) in
        IsFaultOf result (unread_why (is_some (act_at Form declared by kind words.now)) long
        (is_some (act_at Limits declared by kind words.now))) }
{
    match act_by(alloc, draft, Rigour::Form, by, kind, words) {
        Err(Miss::NoMemory(cause)) => return LineFault::NoMemory(cause),
        Err(Miss::NoForm) => return LineFault::Wrong(Why::Syntax),
        Ok(_) => {}
    }
    if long {
        return LineFault::Wrong(Why::Limit);
    }
    match act_by(alloc, draft, Rigour::Limits, by, kind, words) {
        Err(Miss::NoMemory(cause)) => LineFault::NoMemory(cause),
        Err(Miss::NoForm) => LineFault::Wrong(Why::Limit),
        Ok(_) => LineFault::Wrong(Why::Unknown),
    }
}

/// What a caller's words do, behind what is read already; `long` is whether the line is too long.
pub(crate) fn judged_act(
    alloc: Global,
    draft: &Draft,
    long: bool,
    by: ConnId,
    kind: Kind,
    words: &Words,
) -> Result<(Act, u32), LineFault>
    ensures { let declared = declared_in (script_of draft.now) in
        Judged result long (act_at Form declared by kind words.now)
        (act_at Limits declared by kind words.now) (act_at Names declared by kind words.now) }
{
    if long {
        return Err(undone(alloc, draft, long, by, kind, words));
    }
    match act_by(alloc, draft, Rigour::Names, by, kind, words) {
        Ok(told) => Ok(told),
        Err(Miss::NoMemory(cause)) => Err(LineFault::NoMemory(cause)),
        Err(Miss::NoForm) => Err(undone(alloc, draft, long, by, kind, words)),
    }
}
