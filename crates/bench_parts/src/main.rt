#![tactic(auto)]
//! Measurements of calls through a board and of what lies below it: of the engine and the vector
//! words alone, of commands on an engine with few rows and with many, of turns at a lock and of locks
//! of one word. It prints how many there were; with the word `calls`, `commands`, `waits` or `locks`
//! it prints how long those take.
mod below;
mod boards;
mod calls;
mod commands;
mod faults;
mod locks;
mod pages;
mod rounds;
mod row_pages;
mod runs;
mod turns;
mod vectors;
mod waits;
mod works;

use std::{env, io};

fn main(rt: HostRuntime) -> io::Result<()> {
    if is_asked(&rt, "calls")? {
        return calls::print_times(&rt, rt.alloc());
    }
    if is_asked(&rt, "commands")? {
        return time_commands(&rt);
    }
    if is_asked(&rt, "waits")? {
        return waits::print_times(&rt, rt.alloc());
    }
    if is_asked(&rt, "locks")? {
        return locks::print_times(&rt, rt.alloc());
    }
    calls::print_counts(&rt, rt.alloc())?;
    commands::print_counts(&rt, rt.alloc(), 64)?;
    waits::print_counts(&rt, rt.alloc())?;
    locks::print_counts(&rt, rt.alloc())
}

fn is_asked(rt: &HostRuntime, name: &str) -> io::Result<bool> {
    for word in env::args(rt)? {
        if word.as_str() == name {
            return Ok(true);
        }
    }
    Ok(false)
}

fn time_commands(rt: &HostRuntime) -> io::Result<()> {
    commands::print_times(rt, rt.alloc(), 16)?;
    commands::print_times(rt, rt.alloc(), 256)?;
    commands::print_times(rt, rt.alloc(), 4096)
}
