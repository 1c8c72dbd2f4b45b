//! Four members of a group lock pages of one table by words, each on a thread of its own, with no
//! request to anybody: what a lock manager does as long as nobody contends. Then one of them wants
//! the table alone.
#![tactic(auto)]

mod crew;
mod fault;
mod member;

use crew::{Crew, alone, work};
use fault::Fault;
use lock_words::EXCL;

fn main(rt: HostRuntime) -> Result<(), Fault> {
    let (locks, crew) = Crew::meet(rt.alloc())?;
    let (crew, done) = work(&rt, &locks, crew);
    println!(rt;
        "A {}, B {}, C {}, D {} units of work",
        done.a, done.b, done.c, done.d
    )?;
    let (crew, refused, granted) = alone(&locks, crew);
    println!(rt;
        "A wants the table alone, while B shares it: {}",
        answer(!refused)
    )?;
    println!(rt;
        "A wants the table alone, once B has released it: {}",
        answer(granted)
    )?;
    let words = crew.part(rt.alloc(), locks)?;
    for (number, word) in words.iter().enumerate() {
        if *word == EXCL {
            println!(rt; "at the end word {number} is held EXCL")?;
        }
    }
    Ok(())
}

// How an attempt is told.
fn answer(is_granted: bool) -> &'static str {
    if is_granted { "granted" } else { "contended" }
}
