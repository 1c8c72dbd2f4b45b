//! The words of the commands and the replies of a cache structure.

ghost use Rattle.std.specs.Prelude.{◌≡◌, ◌∷◌, ◌++◌, [], codes, OnOk};
ghost use Rattle.std.specs.Fmt.{decimal};
ghost use Rattle.plex_script.specs.PlexSpell.Words.{tail_of};
ghost use Rattle.plex_script.specs.PlexPlain.PlainWords.{told_words, text_words};
ghost use Rattle.plex_report.specs.CommandWords.{alter_words};
ghost use Rattle.plex_report.specs.ReplyWords.{cache_reply_words, changed_word, class_words, alter_reply_words, done_word};
ghost use Rattle.plex_report.specs.RefusalWords.{holder_word};

use crate::items::put_counted;
use crate::line_text::put_holder;
use crate::spelled::Spelled;
use plex_script::Script;
use plex_script::plain::{put_alter, put_numbers, put_of, put_option, put_word};
use plex_script::types::{
    Adjunct, AlterCmd, AlterReply, Body, CacheCmd, CacheReply, Caps, ConnId, NoMemory,
};

impl Spelled for AlterCmd<CacheCmd> {
    ghost words = { alter_words };

    fn put(&self, line: &mut Vec<u8>, _: &Script) -> Result<(), NoMemory> {
        put_alter(line, self)
    }
}

// What a castout class says.
fn changed_text(changed: bool) -> &'static [u8]
    ensures { result.now ≡ changed_word changed }
{
    if changed { b"CHANGED" } else { b"UNCHANGED" }
}

// The castout class that the directory tells.
fn put_told_class(line: &mut Vec<u8>, class: Option<u32>) -> Result<(), NoMemory>
    ensures { OnOk result (line.new.items ≡ line.old.items ++ tail_of (class_words class)) }
{
    match class {
        None => put_word(line, b"UNCHANGED NONE"),
        Some(class) => put_of(line, b"CHANGED", class),
    }
}

// The storage class, the holder and the number of registrations that the directory tells.
fn put_directory(
    line: &mut Vec<u8>,
    script: &Script,
    stg: u32,
    holder: Option<ConnId>,
    regs: u32,
) -> Result<(), NoMemory>
    ensures { OnOk result (line.new.items ≡ line.old.items
        ++ tail_of (codes "STG" ∷ decimal stg ∷ codes "LOCK" ∷ holder_word script.now holder
        ∷ codes "REGS" ∷ decimal regs ∷ [])) }
{
    put_of(line, b"STG", stg)?;
    put_word(line, b"LOCK")?;
    put_holder(line, script, holder)?;
    put_of(line, b"REGS", regs)
}

// Data and adjunct of an entry.
fn put_entry(line: &mut Vec<u8>, body: &Body, adj: &Option<Adjunct>) -> Result<(), NoMemory>
    ensures { OnOk result (line.new.items ≡ line.old.items
        ++ tail_of (codes "DATA" ∷ body.now ∷ told_words (codes "ADJ") text_words adj.now)) }
{
    put_word(line, b"DATA")?;
    put_word(line, body.bytes())?;
    put_option(line, b"ADJ", adj)
}

impl Spelled for CacheReply {
    ghost words = { cache_reply_words };

    fn put(&self, line: &mut Vec<u8>, script: &Script) -> Result<(), NoMemory> {
        match self {
            CacheReply::Data { body, adj, changed } => {
                put_entry(line, body, adj)?;
                put_word(line, changed_text(*changed))
            }
            CacheReply::NoData => put_word(line, b"NODATA"),
            CacheReply::Ok => put_word(line, b"OK"),
            CacheReply::OkCount { n } => put_of(line, b"OK", *n),
            CacheReply::Regs(regs) => put_counted(line, b"REGS", regs.items()),
            CacheReply::CastData { body, adj } => put_entry(line, body, adj),
            CacheReply::Unlocked { changed } => {
                put_word(line, b"OK")?;
                put_word(line, changed_text(*changed))
            }
            CacheReply::Names(names) => put_counted(line, b"NAMES", names.items()),
            CacheReply::Stats(counts) => put_counted(line, b"STATS", counts.items()),
            CacheReply::Dir {
                class,
                stg,
                holder,
                regs,
            } => {
                put_word(line, b"DIR")?;
                put_told_class(line, *class)?;
                put_directory(line, script, *stg, *holder, *regs)
            }
            CacheReply::Stg { rows, changed } => {
                put_word(line, b"STG")?;
                put_numbers(line, *rows, *changed)
            }
        }
    }
}

// Whether a capacity that is altered has reached its target.
fn done_text(done: bool) -> &'static [u8]
    ensures { result.now ≡ done_word done }
{
    if done { b"DONE" } else { b"MORE" }
}

// The capacity to which a step went.
fn put_altered(line: &mut Vec<u8>, caps: Caps, done: bool) -> Result<(), NoMemory>
    ensures { OnOk result (line.new.items ≡ line.old.items
        ++ tail_of (codes "ALTERED" ∷ decimal caps.entries ∷ decimal caps.elements
        ∷ done_word done ∷ [])) }
{
    put_word(line, b"ALTERED")?;
    put_numbers(line, caps.entries, caps.elements)?;
    put_word(line, done_text(done))
}

impl Spelled for AlterReply<CacheReply> {
    ghost words = { alter_reply_words };

    fn put(&self, line: &mut Vec<u8>, script: &Script) -> Result<(), NoMemory> {
        match self {
            AlterReply::Inner(answer) => answer.put(line, script),
            AlterReply::Ok => put_word(line, b"OK"),
            AlterReply::Altered { caps, done } => put_altered(line, *caps, *done),
        }
    }
}
