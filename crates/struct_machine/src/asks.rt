//! The links that a call would ask.
ghost use Rattle.std.specs.Prelude.{◌≡◌, All, None};
ghost use Rattle.cf_types.specs.Forms.{IsFacility};
ghost use Rattle.engine_api.specs.Asking.{MayAsk};
ghost use Rattle.engine_api.specs.LinkAsks.{asked_unless, asks_of, links_asked};
ghost use Rattle.struct_machine.specs.Content.{kept_of};
ghost use Rattle.struct_machine.specs.Kept.{AreOf, machine_of};
ghost use Rattle.struct_machine.specs.Turns.{asks_in};

use crate::asking::Asked;
use crate::content::Content;
use crate::doing::{is_copying, judge};
use cf_types::ConnId;
use duplex_pair::links::Link;
use engine_api::{Ask, Engine};
use plex_shell::Shell;

/// The links that a call would ask: none where it is refused.
pub(crate) fn asks<E: Engine, L: Link>(
    shell: &Shell,
    content: &Content<E, L>,
    by: ConnId,
    ask: &Ask<E::Cmd>,
) -> Asked
    requires may { MayAsk by ask.now }
    requires of_form { AreOf E.meaning shell.now (kept_of E.held content.now) }
    ensures asks { asks_in result ≡ links_asked E.meaning shell.now.form
        (machine_of E.meaning shell.now (kept_of E.held content.now)) by ask.now }
    ensures places { All IsFacility (asks_in result).links }
{
    match judge(shell, content, by, ask) {
        (_, Some(_)) => Asked::both(None, None, false),
        (_, None) => asks_accepted(shell, content, ask),
    }
}

// Those that a call would ask that isn't refused.
fn asks_accepted<E: Engine, L: Link>(
    shell: &Shell,
    content: &Content<E, L>,
    ask: &Ask<E::Cmd>,
) -> Asked
    requires of_form { AreOf E.meaning shell.now (kept_of E.held content.now) }
    ensures asks { asks_in result ≡ asked_unless None (asks_of shell.now.shell ask.now) }
    ensures places { All IsFacility (asks_in result).links }
{
    let (first, second) = content.places();
    match ask {
        Ask::Shell(cmd) => {
            if is_copying(cmd) {
                let (_, _, fresh) = shell.instances();
                Asked::both(first, fresh, true)
            } else {
                Asked::both(None, None, false)
            }
        }
        Ask::Content(_) => Asked::both(first, second, false),
    }
}
