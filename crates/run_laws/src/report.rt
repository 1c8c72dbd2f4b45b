ghost use Rattle.run_laws.specs.Readings.{IsOnlyReading};

/// A report can be read in one way: no two histories and transcripts that a script can have come to
/// the same text.
pub fn only_reading()
    ensures { IsOnlyReading }
{}
