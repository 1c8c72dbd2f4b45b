//! Commands that structures of every kind share, as asks of one kind.
ghost use Rattle.std.specs.Prelude.{◌≡◌};
ghost use Rattle.plex_board.specs.Types.{type_of_ask, type_of_kind};
ghost use Rattle.plex_seat.specs.Answers.{common_ask, is_same_type};

use plex_board::api::Ask;
use plex_board::scripts::AnyAsk;
use plex_board::types::{Kind, ShellCmd};

/// A common command, as it is asked of a structure of this kind.
pub(crate) fn common_ask(kind: Kind, cmd: ShellCmd) -> AnyAsk
    ensures { result ≡ common_ask (type_of_kind kind) cmd }
{
    match kind {
        Kind::Cache => AnyAsk::Cache(Ask::Shell(cmd)),
        Kind::List { .. } => AnyAsk::List(Ask::Shell(cmd)),
        Kind::Lock => AnyAsk::Lock(Ask::Shell(cmd)),
    }
}

/// Whether an ask is one of a structure of this kind.
pub(crate) fn is_of_kind(ask: &AnyAsk, kind: Kind) -> bool
    ensures { result ≡ is_same_type (type_of_kind kind) (type_of_ask ask.now) }
{
    match (kind, ask) {
        (Kind::Cache, AnyAsk::Cache(_)) => true,
        (Kind::List { .. }, AnyAsk::List(_)) => true,
        (Kind::Lock, AnyAsk::Lock(_)) => true,
        _ => false,
    }
}
