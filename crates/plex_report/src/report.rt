//! The report, line by line and whole.

ghost use Rattle.std.specs.Prelude.{◌≡◌, ℕ, ◌∷◌, ◌++◌, [], ◌==◌, codes, map, option_map, slice_get, IfOk, OnOk};
ghost use Rattle.plex_script.specs.PlexSpell.Words.{line_text};
ghost use Rattle.plex_script.specs.PlexPlain.PolicyLines.{connector_line, structure_lines};
ghost use Rattle.plex_report.specs.Lines.{entry_lines, history_lines, transcript_lines};
ghost use Rattle.plex_report.specs.Report.{with_number, by_number, structures_lines, histories_lines, transcripts_lines, lines_behind, report_lines, report};

use crate::lines::{
    connector_line, entry_line, facility_line, form_line, history_heading, pref_line, shown_line,
    transcript_heading,
};
use crate::spelled::Spelled;
use crate::spots::{Spot, spot_of};
use plex_script::api::Entry;
use plex_script::types::{NoMemory, Pref, StrForm};
use plex_script::{AnyHistory, Script, Transcript};
use std::alloc::Global;
use std::marker::Model;

// Puts the facilities with this number behind others.
fn put_numbered(sorted: &mut Vec<Pref>, facilities: &[Pref], number: u8) -> Result<(), NoMemory>
    ensures { OnOk result (sorted.new.items ≡ sorted.old.items
        ++ with_number number facilities.now) }
{
    for facility in facilities {
        if facility.cf.0 == number {
            sorted.push(*facility)?;
        }
    }
    Ok(())
}

// The facilities CF1 to CF4 by number.
fn by_number(alloc: Global, facilities: &[Pref]) -> Result<Vec<Pref>, NoMemory>
    ensures { IfOk result (λ sorted. sorted.items ≡ by_number facilities.now) }
{
    let mut sorted = Vec::new(alloc);
    put_numbered(&mut sorted, facilities, 1)?;
    put_numbered(&mut sorted, facilities, 2)?;
    put_numbered(&mut sorted, facilities, 3)?;
    put_numbered(&mut sorted, facilities, 4)?;
    Ok(sorted)
}

// The k-th line of a structure: its own, and then those of its facilities.
#[tactic(auto, using(crate::proofs::LinesAt::get_item))]
fn structure_line(alloc: Global, form: &StrForm, k: usize) -> Result<Option<Vec<u8>>, NoMemory>
    ensures { IfOk result (λ line. option_map (λ v. v.items) line
        ≡ slice_get (structure_lines form.now) k) }
{
    if k == 0 {
        return Ok(Some(form_line(alloc, form)?));
    }
    let prefs = form.prefs.items();
    if k > prefs.len() {
        return Ok(None);
    }
    Ok(Some(pref_line(alloc, form, &prefs[k - 1])?))
}

// The k-th line of entries under their heading.
#[tactic(auto, using(crate::proofs::LinesAt::get_read))]
fn told_line<C: Spelled, R: Spelled>(
    alloc: Global,
    script: &Script,
    number: usize,
    entries: &[Entry<C, R>],
    k: usize,
) -> Result<Option<Vec<u8>>, NoMemory>
    ensures { IfOk result (λ line. option_map (λ v. v.items) line
        ≡ slice_get (entry_lines C.words R.words script.now number entries.now) k) }
{
    if k == 0 {
        return Ok(Some(history_heading(alloc, script, number, entries.len())?));
    }
    if k > entries.len() {
        return Ok(None);
    }
    Ok(Some(entry_line(alloc, script, &entries[k - 1])?))
}

/// The k-th line of the history of the structure with this number, without its line feed: its
/// heading, and then its entries. `None` exactly past the last.
///
/// # Errors
///
/// `NoMemory` where there is no memory for the line.
pub fn history_line(
    alloc: Global,
    script: &Script,
    number: usize,
    history: &AnyHistory,
    k: usize,
) -> Result<Option<Vec<u8>>, NoMemory>
    ensures { IfOk result (λ line. option_map (λ v. v.items) line
        ≡ slice_get (history_lines script.now number history.now) k) }
{
    match history {
        AnyHistory::Cache(history) => told_line(alloc, script, number, history.entries(), k),
        AnyHistory::List(history) => told_line(alloc, script, number, history.entries(), k),
        AnyHistory::Lock(history) => told_line(alloc, script, number, history.entries(), k),
    }
}

/// The k-th line of the transcript of the caller with this number, without its line feed: its
/// heading, and then its items. `None` exactly past the last.
///
/// # Errors
///
/// `NoMemory` where there is no memory for the line.
#[tactic(auto, using(crate::proofs::LinesAt::get_item))]
pub fn transcript_line(
    alloc: Global,
    script: &Script,
    number: usize,
    transcript: &Transcript,
    k: usize,
) -> Result<Option<Vec<u8>>, NoMemory>
    ensures { IfOk result (λ line. option_map (λ v. v.items) line
        ≡ slice_get (transcript_lines script.now number transcript.now) k) }
{
    let items = transcript.items.items();
    if k == 0 {
        return Ok(Some(transcript_heading(alloc, script, number, items.len())?));
    }
    if k > items.len() {
        return Ok(None);
    }
    Ok(Some(shown_line(alloc, script, &items[k - 1])?))
}

// The k-th line from the transcripts on.
fn told_to_callers(
    alloc: Global,
    script: &Script,
    transcripts: &[Transcript],
    k: usize,
) -> Result<Option<Vec<u8>>, NoMemory>
    ensures { IfOk result (λ line. option_map (λ v. v.items) line
        ≡ slice_get (transcripts_lines script.now transcripts.now ++ codes "END" ∷ []) k) }
{
    match spot_of(transcripts, k) {
        Spot::Within { section, line } => {
            transcript_line(alloc, script, section, &transcripts[section], line)
        }
        Spot::Past { lines } => {
            if lines > 0 {
                return Ok(None);
            }
            let line = Vec::from_slice(alloc, b"END")?;
            Ok(Some(line))
        }
    }
}

// The k-th line from the histories on.
#[tactic(auto, using(crate::proofs::Sections::history_spot, crate::proofs::Sections::histories_after))]
fn told_of_structures(
    alloc: Global,
    script: &Script,
    histories: &[AnyHistory],
    transcripts: &[Transcript],
    k: usize,
) -> Result<Option<Vec<u8>>, NoMemory>
    ensures { IfOk result (λ line. option_map (λ v. v.items) line
        ≡ slice_get (histories_lines script.now histories.now
        ++ (transcripts_lines script.now transcripts.now ++ codes "END" ∷ [])) k) }
{
    match spot_of(histories, k) {
        Spot::Within { section, line } => {
            history_line(alloc, script, section, &histories[section], line)
        }
        Spot::Past { lines } => told_to_callers(alloc, script, transcripts, lines),
    }
}

// The k-th line from the connectors on.
fn behind_structures(
    alloc: Global,
    script: &Script,
    histories: &[AnyHistory],
    transcripts: &[Transcript],
    k: usize,
) -> Result<Option<Vec<u8>>, NoMemory>
    ensures { IfOk result (λ line. option_map (λ v. v.items) line
        ≡ slice_get (map connector_line script.now.connectors
        ++ (histories_lines script.now histories.now
        ++ (transcripts_lines script.now transcripts.now ++ codes "END" ∷ []))) k) }
{
    let names = script.connectors.items();
    if k < names.len() {
        return Ok(Some(connector_line(alloc, &names[k])?));
    }
    told_of_structures(alloc, script, histories, transcripts, k - names.len())
}

// The k-th line from the structures on.
fn behind_facilities(
    alloc: Global,
    script: &Script,
    histories: &[AnyHistory],
    transcripts: &[Transcript],
    k: usize,
) -> Result<Option<Vec<u8>>, NoMemory>
    ensures { IfOk result (λ line. option_map (λ v. v.items) line
        ≡ slice_get (lines_behind script.now histories.now transcripts.now) k) }
{
    let forms = script.structures.items();
    match spot_of(forms, k) {
        Spot::Within { section, line } => structure_line(alloc, &forms[section], line),
        Spot::Past { lines } => behind_structures(alloc, script, histories, transcripts, lines),
    }
}

// The k-th line of the report, from 0, without its line feed. The facilities are those of the
// script, by number.
fn bare_line(
    alloc: Global,
    script: &Script,
    facilities: &[Pref],
    histories: &[AnyHistory],
    transcripts: &[Transcript],
    k: usize,
) -> Result<Option<Vec<u8>>, NoMemory>
    requires { facilities.now ≡ by_number script.now.facilities }
    ensures { IfOk result (λ line. option_map (λ v. v.items) line
        ≡ slice_get (report_lines script.now histories.now transcripts.now) k) }
{
    if k < facilities.len() {
        return Ok(Some(facility_line(alloc, &facilities[k])?));
    }
    behind_facilities(alloc, script, histories, transcripts, k - facilities.len())
}

// The k-th line of the report, from 0, with its line feed. The facilities are those of the script,
// by number.
fn ended_line(
    alloc: Global,
    script: &Script,
    facilities: &[Pref],
    histories: &[AnyHistory],
    transcripts: &[Transcript],
    k: usize,
) -> Result<Option<Vec<u8>>, NoMemory>
    requires { facilities.now ≡ by_number script.now.facilities }
    ensures { IfOk result (λ line. option_map (λ v. v.items) line
        ≡ slice_get (map line_text (report_lines script.now histories.now transcripts.now)) k) }
{
    match bare_line(alloc, script, facilities, histories, transcripts, k)? {
        None => Ok(None),
        Some(mut line) => {
            line.push(b'\n')?;
            Ok(Some(line))
        }
    }
}

/// A run's report, of which each line is made when it is asked for. Contracts see it as the list of
/// its lines, each with its line feed.
#[derive(Drop)]
pub struct Report<'a> {
    script: &'a Script,

    // The script's facilities by number.
    facilities: Vec<Pref>,

    histories: &'a [AnyHistory],

    transcripts: &'a [Transcript],
}

impl<'a> Model for Report<'a> {
    ghost use Rattle.std.specs.Prelude.{◌≡◌, ℕ, List, map};
    ghost use Rattle.plex_script.specs.PlexSpell.Words.{line_text};
    ghost use Rattle.plex_report.specs.Report.{by_number, report_lines};

    ghost Value = { List (List ℕ) };

    ghost view = { λ report.
        map line_text (report_lines report.script.now report.histories.now report.transcripts.now) };

    ghost invariant = { λ report.
        report.facilities.items ≡ by_number report.script.now.facilities };
}

impl<'a> Report<'a> {
    /// The report of a script's run that left these histories and transcripts. It takes memory for
    /// the facilities.
    ///
    /// # Errors
    ///
    /// `NoMemory` where there is no memory for the facilities.
    pub fn new(
        alloc: Global,
        script: &'a Script,
        histories: &'a [AnyHistory],
        transcripts: &'a [Transcript],
    ) -> Result<Report<'a>, NoMemory>
        ensures { IfOk result (λ report. report
            ≡ map line_text (report_lines script.now histories.now transcripts.now)) }
    {
        Ok(Report {
            script,
            facilities: by_number(alloc, script.facilities.items())?,
            histories,
            transcripts,
        })
    }

    /// The k-th line, from 0, with its line feed; `None` exactly past the last. It walks over
    /// structures, histories and transcripts, and not over what they hold, and takes memory for
    /// this line alone.
    ///
    /// # Errors
    ///
    /// `NoMemory` where there is no memory for the line.
    pub fn line(&self, alloc: Global, k: usize) -> Result<Option<Vec<u8>>, NoMemory>
        ensures { IfOk result (λ line. option_map (λ v. v.items) line ≡ slice_get self.now k) }
    {
        ended_line(
            alloc,
            self.script,
            &self.facilities,
            self.histories,
            self.transcripts,
            k,
        )
    }
}

/// The k-th line of the report, from 0, with its line feed; `None` exactly past the last. It walks
/// over structures, histories and transcripts, and not over what they hold, and takes memory for
/// the facilities and for this line alone. Whoever wants several lines makes a [`Report`] first.
///
/// # Errors
///
/// `NoMemory` where there is no memory for the line.
pub fn line(
    alloc: Global,
    script: &Script,
    histories: &[AnyHistory],
    transcripts: &[Transcript],
    k: u32,
) -> Result<Option<Vec<u8>>, NoMemory>
    ensures { IfOk result (λ line. option_map (λ v. v.items) line
        ≡ slice_get (map line_text (report_lines script.now histories.now transcripts.now)) k) }
{
    let report = Report::new(alloc, script, histories, transcripts)?;
    report.line(alloc, k as usize)
}

/// The whole report.
///
/// # Errors
///
/// `NoMemory` where there is no memory for the text, or the report has more lines than memory could
/// hold.
#[tactic(auto, using(crate::proofs::LinesAt::text_more))]
pub fn render(
    alloc: Global,
    script: &Script,
    histories: &[AnyHistory],
    transcripts: &[Transcript],
) -> Result<Vec<u8>, NoMemory>
    ensures { IfOk result (λ text. text.items
        ≡ report script.now histories.now transcripts.now) }
{
    let report = Report::new(alloc, script, histories, transcripts)?;
    let mut text = Vec::new(alloc);
    for k in 0..usize::MAX {
        let Some(line) = report.line(alloc, k)? else {
            return Ok(text);
        };
        text.extend_from_slice(line.as_slice())?;
    }
    // No memory holds a report of so many lines.
    Err(NoMemory::beyond_counts())
}
