ghost use Rattle.std.specs.Prelude.{ℕ, List};
ghost use Rattle.plex_script.specs.declared.asks.AnyHistory.{AnyHistory};
ghost use Rattle.plex_script.specs.declared.scripts.Script.{Script};
ghost use Rattle.plex_script.specs.declared.transcripts.Transcript.{Transcript};
ghost use Rattle.run_shown.specs.Headline.{ShowsHistories};
ghost use Rattle.run_laws.specs.Bounds.{IsWithinScript};

/// Whatever histories and transcripts a run shows, the history of each structure has at most as many
/// calls as the script's lines on it, with what they ask again and their event rounds, and the
/// closings of its connectors make, and three entries for each: a call, and the marks of two links
/// that it found down. So a journal gets full only where these can fill it.
pub fn within_script()
    ensures { (limit : ℕ) (script : Script) (histories : List AnyHistory)
        (transcripts : List Transcript) → ShowsHistories limit script histories transcripts
        → IsWithinScript script histories }
{}
