ghost use Rattle.std.specs.Prelude.{◌≡◌, ◌||◌, ◌<◌, ◌∷◌, List, ℕ, IsTrue, not, OnOk, IfErr, length, true, false, nat_lt};
ghost use Rattle.cf_types.specs.NoMemory.Wants.{want};
ghost use Rattle.plex_plain.specs.PlexSpell.Words.{words_of};
ghost use Rattle.plex_script.specs.Causes.{has_lines, is_full, PolicyCause, StrangeCause, CallerCause, EmptyCause, LineCause, strange_why};
ghost use Rattle.plex_script.specs.Scripts.{with_pref, with_declaration, AddsDeclaration, AddsLine, AddsOfCaller, AddsWords, Adds};
ghost use Rattle.plex_script.specs.Reading.{script_of, IsFaultBy, HasRoom};

use crate::checks::{
    caller, is_comment, is_full, is_long, is_long_name, is_policy_word, is_too_much, is_twice,
    kind_of,
};
use crate::declarations::Declaration;
use crate::draft::Draft;
use crate::faults::Why;
use crate::judging::{judged_act, judged_declaration};
use crate::line_faults::LineFault;
use crate::scripts::Line;
use cf_types::{ConnId, Listing, Pref, StrForm, StrNo};
use plex_plain::spell::{Words, is_name, structure_number};
use std::alloc::Global;
use std::mem;

// Sets units aside for a structure, behind those set aside before.
fn add_pref(
    alloc: Global,
    structures: &mut Vec<StrForm>,
    on: StrNo,
    pref: Pref,
) -> Result<(), LineFault>
    ensures ok { OnOk result (structures.new.items ≡ with_pref structures.old.items on pref) }
    ensures len { length structures.new.items ≡ length structures.old.items }
    ensures err { IfErr result (λ fault. fault ≡ LineFault.NoMemory want) }
{
    let place = on.0 as usize;
    if place < structures.len() {
        let form = &mut structures[place];
        let empty = Listing::from_vec(Vec::new(alloc));
        let mut prefs = mem::replace(&mut form.prefs, empty).into_vec();
        prefs.push(pref)?;
        form.prefs = Listing::from_vec(prefs);
    }
    Ok(())
}

// Adds what is declared to what is read.
fn add_declaration(
    alloc: Global,
    draft: &mut Draft,
    declaration: Declaration,
) -> Result<(), LineFault>
    requires { HasRoom (script_of draft.old) declaration }
    ensures ok { OnOk result (script_of draft.new ≡ with_declaration
        (script_of draft.old) declaration) }
    ensures err { IfErr result (λ fault. fault ≡ LineFault.NoMemory want) }
{
    match declaration {
        Declaration::Facility(pref) => draft.facilities.push(pref)?,
        Declaration::Structure(form) => draft.structures.push(form)?,
        Declaration::Pref { on, pref } => add_pref(alloc, &mut draft.structures, on, pref)?,
        Declaration::Connector(name) => draft.connectors.push(name)?,
    }
    Ok(())
}

// Whether the policy has ended.
fn has_lines(draft: &Draft) -> bool
    ensures { result ≡ has_lines (script_of draft.now) }
{
    !draft.lines.is_empty()
}

// Whether a line is too long, or declares one too many.
fn is_excess(draft: &Draft, long: bool, first: &[u8]) -> bool
    ensures { result ≡ (long || is_full (script_of draft.now) first.now) }
{
    long || is_full(draft, first)
}

// Adds a line of the policy.
fn declare(
    alloc: Global,
    draft: &mut Draft,
    long: bool,
    first: &[u8],
    line: &[u8],
) -> Result<(), LineFault>
    requires { (rest : List (List ℕ)) × (words_of line.now ≡ first.now ∷ rest) }
    ensures ok { OnOk result (IsTrue (not long)
        × AddsDeclaration (script_of draft.old) first.now (words_of line.now)
        (script_of draft.new)) }
    ensures wrong { IfErr result (IsFaultBy (PolicyCause (script_of draft.old) long first.now
        (words_of line.now))) }
{
    if has_lines(draft) {
        return Err(LineFault::Wrong(Why::Late));
    }
    let excess = is_excess(draft, long, first);
    let declaration = judged_declaration(alloc, draft, excess, line)?;
    if is_twice(draft, &declaration) {
        return Err(LineFault::Wrong(Why::Twice));
    }
    if is_too_much(draft, &declaration) {
        return Err(LineFault::Wrong(Why::Space));
    }
    add_declaration(alloc, draft, declaration)
}

// Why a word that nothing is declared for is wrong.
fn strange(unformed: bool, long: bool) -> LineFault
    ensures { result ≡ LineFault.Wrong (strange_why unformed long) }
{
    if unformed {
        return LineFault::Wrong(Why::Syntax);
    }
    if long {
        return LineFault::Wrong(Why::Limit);
    }
    LineFault::Wrong(Why::Unknown)
}

// Adds what a caller does.
fn perform(
    alloc: Global,
    draft: &mut Draft,
    at: u32,
    long: bool,
    by: ConnId,
    mut words: Words,
) -> Result<(), LineFault>
    ensures ok { OnOk result (IsTrue (not long) × AddsOfCaller
        (script_of draft.old) at by words.entry (script_of draft.new)) }
    ensures wrong { IfErr result (IsFaultBy (CallerCause
        (script_of draft.old) long by words.entry)) }
{
    let Some(second) = words.next() else {
        return Err(LineFault::Wrong(Why::Syntax));
    };
    let Some(on) = structure_number(draft.structures.as_slice(), second) else {
        return Err(strange(!is_name(second), long || is_long_name(second)));
    };
    let kind = kind_of(draft.structures.as_slice(), on);
    let (act, retry) = judged_act(alloc, draft, long, by, kind, &words)?;
    draft.lines.push(Line {
        at,
        by,
        on,
        act,
        retry,
    })?;
    Ok(())
}

// Whether fewer than two words are left.
fn are_few(words: &Words) -> bool
    ensures { result ≡ nat_lt (length words.now) 2 }
{
    let mut ahead = words.again();
    ahead.next().is_none() || ahead.next().is_none()
}

// Judges a line of no words, or a comment.
fn skip(long: bool) -> Result<(), LineFault>
    ensures ok { OnOk result (IsTrue (not long)) }
    ensures wrong { IfErr result (IsFaultBy (EmptyCause long)) }
{
    if long {
        Err(LineFault::Wrong(Why::Limit))
    } else {
        Ok(())
    }
}

/// Adds a line, which has this number, to what is read before it. A line that is not added leaves
/// what is read in part.
pub(crate) fn add_line(
    alloc: Global,
    draft: &mut Draft,
    at: u32,
    line: &[u8],
) -> Result<(), LineFault>
    ensures ok { OnOk result (Adds (script_of draft.old) at line.now (script_of draft.new)) }
    ensures wrong { IfErr result (IsFaultBy (LineCause (script_of draft.old) line.now)) }
{
    let long = is_long(line);
    let mut words = Words::of(line);
    let Some(first) = words.next() else {
        return skip(long);
    };
    if is_comment(first) {
        return skip(long);
    }
    if is_policy_word(first) {
        return declare(alloc, draft, long, first, line);
    }
    match caller(draft, first) {
        Some(by) => perform(alloc, draft, at, long, by, words),
        None => {
            let unformed = !is_name(first) || are_few(&words) || draft.lines.is_empty();
            Err(strange(unformed, long || is_long_name(first)))
        }
    }
}
