ghost use Rattle.std.specs.Prelude.{ℕ, List};
ghost use Rattle.plex_script.specs.declared.asks.AnyHistory.{AnyHistory};
ghost use Rattle.plex_script.specs.declared.scripts.Script.{Script};
ghost use Rattle.plex_script.specs.declared.transcripts.Transcript.{Transcript};
ghost use Rattle.run_shown.specs.Headline.{ShowsHistories};
ghost use Rattle.run_laws.specs.Valid.{ShowsFresh};

/// Whatever histories and transcripts a run shows, each test of a cache that tells VALID tells a
/// fresh copy: at the point that it tells, what the connector's last read or write at this index
/// gave it is what the page has.
pub fn valid_is_fresh()
    ensures { (limit : ℕ) (script : Script) (histories : List AnyHistory)
        (transcripts : List Transcript) → ShowsHistories limit script histories transcripts
        → ShowsFresh script histories transcripts }
{}
