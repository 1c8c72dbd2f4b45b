//! Runs scripts, each given by its name, and tells of each whether what is written is what stands beside
//! it: NAME.plex is the script, and NAME.report the report. They are run by the word `serial`, or NAME.locks
//! by the word `locks`. NAME.links is run by the word `serial` over links that are down at the calls which the
//! file of that name lists. Script and report are then given to the word `check`, but for those of locks, and
//! its answer is told, which has to be YES.
//!
//! NAME.checked is a script, a line REPORT and a report in one file, and NAME.answer what the word `check` has
//! to write of them.
//!
//! With `show WORD NAME` it prints what is written of NAME.plex by that word, over the links that NAME.links
//! lists, and ends with the status of that run; or with 1 where a file isn't there, or memory lacks before it.
#![tactic(auto)]

mod listed;

ghost use Rattle.std.specs.Prelude.{◌≡◌, IfOk, length};
ghost use Rattle.example_runs.specs.declared.listed.TheConstants.{LINKS};

use listed::listed;
use plex_run::agents::OpenGate;
use plex_run::links::ListLink;
use plex_run::run;
use plex_run::sources::{MemSink, MemSource};
use std::alloc::Global;
use std::io::Write;
use std::process::ExitCode;
use std::rt::{Env, Files};
use std::sync::Wait;
use std::thread::Threads;
use std::{env, fs, io};

/// The greatest length of a report, in bytes.
const REPORT_ROOM: usize = 1_048_576;

// What the program writes of a script by this word, over these links, with its status.
fn report_of(
    rt: &(impl Threads + Wait + Sync),
    alloc: Global,
    word: &str,
    script: Vec<u8>,
    mut links: Vec<ListLink>,
) -> io::Result<(u8, Vec<u8>)>
    requires { length links.items ≡ LINKS }
{
    let mut source = MemSource {
        bytes: script,
        taken: 0,
        calls: 0,
        fails: Vec::new(alloc),
        faults: 0,
    };
    let mut sink = MemSink::new(alloc, REPORT_ROOM, REPORT_ROOM, Vec::new(alloc)).map_err(
        |_| io::ErrorKind::OutOfMemory,
    )?;
    let mut words = Vec::new(alloc);
    words.push(String::from_str(alloc, word)?)?;
    let status = run(
        rt,
        alloc,
        &words,
        &mut source,
        &mut sink,
        &mut links,
        &OpenGate,
    );
    Ok((status, sink.bytes))
}

// The links over which a story is run: those that its file lists, where it has one.
fn links_of(rt: &(impl Files + AllocGlobal), name: &str, way: &str) -> io::Result<Vec<ListLink>>
    ensures { IfOk result (λ links. length links.items ≡ LINKS) }
{
    if way == "links" {
        let text = fs::read_to_string(rt, format!(in rt.alloc(); "{name}.links")?)?;
        listed(rt.alloc(), text.as_str())
    } else {
        listed(rt.alloc(), "")
    }
}

// The word by which a story is run.
fn word_of(way: &str) -> &str {
    if way == "locks" { way } else { "serial" }
}

// The script of a story.
fn script_of(rt: &(impl Files + AllocGlobal), name: &str) -> io::Result<Vec<u8>> {
    fs::read(rt, format!(in rt.alloc(); "{name}.plex")?)
}

// The report beside it.
fn wanted_of(rt: &(impl Files + AllocGlobal), name: &str) -> io::Result<Vec<u8>> {
    fs::read(rt, format!(in rt.alloc(); "{name}.report")?)
}

// Whether the script of a story has the report beside it.
fn has_its_report(
    rt: &(impl Threads + Wait + Sync + Files + AllocGlobal),
    name: &str,
    way: &str,
) -> io::Result<bool> {
    let script = script_of(rt, name)?;
    let wanted = wanted_of(rt, name)?;
    let links = links_of(rt, name, way)?;
    let (status, wrote) = report_of(rt, rt.alloc(), word_of(way), script, links)?;
    Ok(status == 0 && wrote == wanted)
}

// What the word `check` writes of a text, with its status.
fn answer_to(
    rt: &(impl Threads + Wait + Sync),
    alloc: Global,
    text: Vec<u8>,
) -> io::Result<(u8, Vec<u8>)> {
    let links = listed(alloc, "")?;
    report_of(rt, alloc, "check", text, links)
}

// What it writes of a story's script, a line REPORT and the report beside it, with its status.
fn judged(
    rt: &(impl Threads + Wait + Sync + Files + AllocGlobal),
    name: &str,
) -> io::Result<(u8, Vec<u8>)> {
    let mut text = script_of(rt, name)?;
    if !text.is_empty() && !text.ends_with(b"\n") {
        text.push(b'\n')?;
    }
    text.extend_from_slice(b"REPORT\n")?;
    text.extend_from_slice(&wanted_of(rt, name)?)?;
    answer_to(rt, rt.alloc(), text)
}

// Whether it writes of a story what stands beside it, with the status that this has.
fn has_its_answer(
    rt: &(impl Threads + Wait + Sync + Files + AllocGlobal),
    name: &str,
) -> io::Result<bool> {
    let text = fs::read(rt, format!(in rt.alloc(); "{name}.checked")?)?;
    let wanted = fs::read(rt, format!(in rt.alloc(); "{name}.answer")?)?;
    let due = if wanted.starts_with(b"YES ") { 0 } else { 9 };
    let (status, wrote) = answer_to(rt, rt.alloc(), text)?;
    Ok(status == due && wrote == wanted)
}

// The text of an answer, without the end of its line.
fn line_of(alloc: Global, answer: Vec<u8>) -> io::Result<String> {
    let text = String::from_utf8(answer).map_err(|_| io::ErrorKind::InvalidData)?;
    Ok(String::from_str(alloc, text.trim_end())?)
}

// Whether a story is as it should be, and what is told of it.
fn told_of(
    rt: &(impl Threads + Wait + Sync + Files + AllocGlobal),
    story: &str,
) -> io::Result<(bool, String)> {
    let alloc = rt.alloc();
    let (name, way) = story.split_once('.').unwrap_or((story, ""));
    if way == "checked" {
        let right = has_its_answer(rt, name)?;
        let told = if right {
            "as its answer"
        } else {
            "another answer"
        };
        return Ok((right, String::from_str(alloc, told)?));
    }
    if !has_its_report(rt, name, way)? {
        return Ok((false, String::from_str(alloc, "another report")?));
    }
    if way == "locks" {
        return Ok((true, String::from_str(alloc, "as its report")?));
    }
    let (status, answer) = judged(rt, name)?;
    let answer = line_of(alloc, answer)?;
    Ok((status == 0, format!(in alloc; "as its report, {answer}")?))
}

// Tells of each story what became of it; whether all are as they should be.
fn are_as_told(
    rt: &(impl Threads + Wait + Sync + Files + Print + AllocGlobal),
    stories: &[String],
) -> io::Result<bool> {
    let mut all = true;
    for story in stories {
        let (right, told) = told_of(rt, story.as_str())?;
        println!(rt; "{story}: {told}")?;
        all = all && right;
    }
    Ok(all)
}

// What the program writes of a script by this word, over the links that its file lists, with its status.
fn report_over_its_links(
    rt: &(impl Threads + Wait + Sync + Files + AllocGlobal),
    word: &str,
    name: &str,
) -> io::Result<(u8, Vec<u8>)> {
    let script = script_of(rt, name)?;
    let links = links_of(rt, name, "links")?;
    report_of(rt, rt.alloc(), word, script, links)
}

// The word and the name behind `show`.
fn shown(words: &[String]) -> Option<(&str, &str)> {
    match words {
        [first, word, name] if first.as_str() == "show" => Some((word.as_str(), name.as_str())),
        _ => None,
    }
}

// The words behind the program's name.
fn program_words(rt: &(impl Env + AllocGlobal)) -> io::Result<Vec<String>> {
    let mut words = Vec::new(rt.alloc());
    for word in env::args(rt)?.skip(1) {
        words.push(word)?;
    }
    Ok(words)
}

fn main(rt: HostRuntime) -> io::Result<ExitCode> {
    let words = program_words(&rt)?;
    if let Some((word, name)) = shown(&words) {
        let (status, wrote) = report_over_its_links(&rt, word, name)?;
        rt.stdout().write_all(&wrote)?;
        return Ok(ExitCode::from(status));
    }
    if are_as_told(&rt, &words)? {
        Ok(ExitCode::SUCCESS)
    } else {
        Ok(ExitCode::FAILURE)
    }
}
