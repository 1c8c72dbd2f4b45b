//! The program plexrun: it runs the script on standard input, and prints the report.
#![tactic(auto)]

use plex_run::agents::OpenGate;
use plex_run::links::Steady;
use plex_run::run;
use plex_run::sources::{Sink, StdSink, StdSource, write_all};
use std::process::ExitCode;
use std::rt::Env;
use std::{env, io};

/// How many links there are to the facilities: four for each of 16 structures.
const LINKS: usize = 64;

// The words behind the program's name.
fn program_words(rt: &(impl Env + AllocGlobal)) -> io::Result<Vec<String>> {
    let mut words = Vec::new(rt.alloc());
    for word in env::args(rt)?.skip(1) {
        words.push(word)?;
    }
    Ok(words)
}

// Tells that there was no memory for the words or the links.
fn say_no_memory<K: Sink>(sink: &mut K) -> ExitCode {
    let _ = write_all(sink, b"NOMEMORY\n");
    ExitCode::from(6)
}

fn main(rt: HostRuntime) -> ExitCode {
    let mut source = StdSource {
        inner: rt.stdin(),
        faults: 0,
    };
    let mut sink = StdSink {
        inner: rt.stdout(),
        faults: 0,
    };
    let words = match program_words(&rt) {
        Ok(words) => words,
        Err(error) if error.kind() == io::ErrorKind::OutOfMemory => {
            return say_no_memory(&mut sink);
        }
        // Words that are no text are none of the program's: they are taken as no words.
        Err(_) => Vec::new(rt.alloc()),
    };
    let Ok(mut links) = vec![in rt.alloc(); Steady; LINKS] else {
        return say_no_memory(&mut sink);
    };
    ExitCode::from(run(
        &rt,
        rt.alloc(),
        &words,
        &mut source,
        &mut sink,
        &mut links,
        &OpenGate,
    ))
}
