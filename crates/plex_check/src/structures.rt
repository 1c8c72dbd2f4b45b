//! The histories of all structures, and the tests of all callers with them.
ghost use Rattle.std.specs.Prelude.{◌<◌, ◌≤◌, ◌+◌, IfOk, All, length};
ghost use Rattle.cf_types.specs.declared.limits.TheConstants.{CONNECTORS};
ghost use Rattle.cf_types.specs.Forms.{IsForm};
ghost use Rattle.check_model.specs.Printings.{IsPrintedOf};
ghost use Rattle.check_model.specs.RunShown.Kinds.{IsOfKind, MayAskAny};
ghost use Rattle.check_model.specs.RunShown.PlexScript.Heard.{any_calls};
ghost use Rattle.check_model.specs.RunShown.PlexScript.WellFormed.{IsWellFormed};
ghost use Rattle.plex_check.specs.Checks.{AreJudged, AreShownOf, IsStructureJudged, IsTableWhere};

use crate::judging::judge_any;
use crate::queues::caller_queues;
use cf_types::{NoMemory, StrForm, StrNo};
use check_model::Printed;
use check_model::shown::scripts::{AnyHistory, Script};
use history_check::Judged;
use std::alloc::Global;
use vector_waits::Queue;

/// What the histories of all structures are found to be.
#[derive(Drop)]
pub(crate) enum AllJudged {
    /// All are legal. The tests of all callers, a table for each structure.
    Tables(Vec<Vec<Queue>>),
    /// This structure's isn't, and those before it are. Its first bad block begins at this place,
    /// from 1.
    Bad { on: StrNo, place: usize },
}

// A history, and the tests of its structure.
fn judge_asked(
    alloc: Global,
    form: &StrForm,
    on: StrNo,
    entries: &AnyHistory,
    printed: &Printed,
) -> Result<(Judged, Vec<Queue>), NoMemory>
    requires formed { IsForm form.now }
    requires kind { IsOfKind form.now.kind entries.now }
    requires askable { All (λ call. MayAskAny call.by call.ask) (any_calls entries.now) }
    requires callers { length printed.now.transcripts ≤ CONNECTORS + 1 }
    requires places { AreShownOf printed.now }
    ensures { IfOk result (λ found.
        IsTableWhere printed.now on form.now entries.now found.1.items found.0) }
{
    let mut queues = caller_queues(alloc, form.vector, on, printed)?;
    let judged = judge_any(alloc, form, entries, queues.as_mut_slice())?;
    Ok((judged, queues))
}

// The structure with this number.
fn judge_structure(
    alloc: Global,
    script: &Script,
    printed: &Printed,
    on: StrNo,
) -> Result<(Judged, Vec<Queue>), NoMemory>
    requires formed { IsWellFormed script.now }
    requires printed { IsPrintedOf script.now printed.now }
    requires within { on.0 < length script.now.structures }
    ensures { IfOk result (λ found.
        IsStructureJudged script.now printed.now on found.1.items found.0) }
{
    let place = usize::from(on.0);
    let form = &script.structures.items()[place];
    let entries = &printed.histories.items()[place];
    judge_asked(alloc, form, on, entries, printed)
}

/// Judges all histories, one structure after another.
pub(crate) fn judge_all(
    alloc: Global,
    script: &Script,
    printed: &Printed,
) -> Result<AllJudged, NoMemory>
    requires formed { IsWellFormed script.now }
    requires printed { IsPrintedOf script.now printed.now }
    ensures { IfOk result (AreJudged script.now printed.now) }
{
    let mut tables = Vec::new(alloc);
    let many = script.structures.items().len() as u8;
    for number in 0..many {
        let on = StrNo(number);
        let (judged, table) = judge_structure(alloc, script, printed, on)?;
        match judged {
            Judged::Legal => tables.push(table)?,
            Judged::Bad { place } => return Ok(AllJudged::Bad { on, place }),
        }
    }
    Ok(AllJudged::Tables(tables))
}
