ghost use Rattle.std.specs.Prelude.{◌≡◌};
ghost use Rattle.reply_rows.specs.Sides.{cache_side, list_side, asked_side};

use cf_types::{AlterCmd, CacheCmd, QueueCmd};
use engine_api::Ask;
use plex_script::AnyAsk;

/// The replies that a command's row names. Where two replies print alike, the one on the command's
/// side is meant.
#[derive(Clone, Copy)]
pub enum Side {
    /// Those to common commands, and those of marks.
    Common,
    /// Those to commands on the content.
    Content,
    /// Those to commands on what stands around the content: a cache's capacity, a list's event
    /// queues.
    Around,
}

// The side of a command of a cache structure.
fn cache_side(cmd: &AlterCmd<CacheCmd>) -> Side
    ensures { result ≡ cache_side cmd.now }
{
    match cmd {
        AlterCmd::Inner(_) => Side::Content,
        _ => Side::Around,
    }
}

// The side of a command of a list structure.
fn list_side(cmd: &QueueCmd) -> Side
    ensures { result ≡ list_side cmd.now }
{
    match cmd {
        QueueCmd::List(_) => Side::Content,
        _ => Side::Around,
    }
}

/// The side of a command.
pub fn asked_side(asked: &AnyAsk) -> Side
    ensures { result ≡ asked_side asked.now }
{
    match asked {
        AnyAsk::Cache(Ask::Content(cmd)) => cache_side(cmd),
        AnyAsk::List(Ask::Content(cmd)) => list_side(cmd),
        AnyAsk::Lock(Ask::Content(_)) => Side::Content,
        _ => Side::Common,
    }
}
