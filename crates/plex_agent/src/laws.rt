ghost use Rattle.std.specs.Prelude.{ℕ, List};
ghost use Rattle.plex_board.specs.PlexScript.declared.asks.AnyHistory.{AnyHistory};
ghost use Rattle.plex_board.specs.PlexScript.declared.scripts.Line.{Line};
ghost use Rattle.plex_board.specs.PlexScript.declared.scripts.Script.{Script};
ghost use Rattle.plex_board.specs.Boards.{BoardShown};
ghost use Rattle.plex_board.specs.Callers as alone;
ghost use Rattle.plex_board.specs.Turns.{AtWork};
ghost use Rattle.plex_agent.specs.Chains.{Serves};
ghost use Rattle.plex_agent.specs.Ends.{ShowsWhoServed};

use plex_board::links::Link;

/// However a caller's work ended, and whatever the others did: what it was shown are the caller's
/// calls, each once and in their order, as far as its work came, and tests that tell what stood.
/// Where it ended for want of memory, these are the items of its lines and departures up to a next
/// one. A caller that has a thread to itself works so, and hears of nobody.
pub fn serve_right<L: Link>()
    ensures shows { (limit : ℕ) (script : Script) (board : BoardShown L)
        (histories : List AnyHistory) (workers : List AtWork)
        → ShowsWhoServed limit script board histories workers }
    ensures alone { (board : BoardShown L) (lines : List Line) (before after : AtWork)
        → alone.Serves board lines before after → Serves board lines before after }
{}
