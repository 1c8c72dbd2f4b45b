ghost use Rattle.std.specs.Prelude.{◌≡◌};
ghost use Rattle.plex_spell.specs.QueueReading.{queue_at, record_forms, sublist_places, monitor_of, unmonitor_of};
ghost use Rattle.plex_spell.specs.Patterns.{values_at};
ghost use Rattle.plex_spell.specs.Forms.{command_at};
ghost use Rattle.plex_spell.specs.Places.{Gives, names_of};

use crate::fields::{behind_key, number};
use crate::judge::Judge;
use crate::list_reader::list;
use crate::misses::Miss;
use crate::words::Words;
use cf_types::QueueCmd;
use std::alloc::Global;

// What stands behind MONSUB.
fn monitor(judge: &Judge, words: &mut Words) -> Result<QueueCmd, Miss>
    ensures { Gives result words.new (values_at judge.now.rigour
        (names_of judge.now) sublist_places monitor_of words.old) }
{
    let header = number(judge.rigour, words)?;
    let key = behind_key(judge.rigour, words)?;
    Ok(QueueCmd::MonSub { header, key })
}

// What stands behind UNMONSUB.
fn unmonitor(judge: &Judge, words: &mut Words) -> Result<QueueCmd, Miss>
    ensures { Gives result words.new (values_at judge.now.rigour
        (names_of judge.now) sublist_places unmonitor_of words.old) }
{
    let header = number(judge.rigour, words)?;
    let key = behind_key(judge.rigour, words)?;
    Ok(QueueCmd::UnmonSub { header, key })
}

// A command of the list itself.
#[tactic(auto, using(crate::proofs::FormLaws::command_made))]
fn on_records(alloc: Global, judge: &Judge, words: &mut Words) -> Result<QueueCmd, Miss>
    ensures { Gives result words.new (command_at judge.now.rigour
        (names_of judge.now) record_forms words.old) }
{
    let cmd = list(alloc, judge, words)?;
    Ok(QueueCmd::List(cmd))
}

/// Takes a command of a list structure with event queues.
pub fn queue(alloc: Global, judge: &Judge, words: &mut Words) -> Result<QueueCmd, Miss>
    ensures { Gives result words.new (queue_at judge.now.rigour (names_of judge.now) words.old) }
{
    if words.skip(b"MONSUB") {
        return monitor(judge, words);
    }
    if words.skip(b"UNMONSUB") {
        return unmonitor(judge, words);
    }
    if words.skip(b"DEQ") {
        return Ok(QueueCmd::Deq);
    }
    on_records(alloc, judge, words)
}
