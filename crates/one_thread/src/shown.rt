//! What is printed of a call.
use std::io;
use std::str::from_utf8;
use struct_machine::Changed;
use struct_machine::api::Reply;
use struct_machine::types::{
    BitChange, Body, CacheReply, CfId, ConnId, Name16, NoMemory, Refusal, ShellReply,
};
use thiserror::Error;

/// Why the program ends early.
#[derive(Debug, Drop, Error)]
pub enum Fault {
    /// There was no memory.
    #[error("out of memory")]
    NoMemory,

    /// Standard output took no more.
    #[error(transparent)]
    Output(#[from] io::Error),
}

impl From<NoMemory> for Fault {
    fn from(_: NoMemory) -> Self {
        Fault::NoMemory
    }
}

// A member's name.
fn name(conn: ConnId) -> &'static str {
    if conn.0 == 1 { "A" } else { "B" }
}

/// Prints who called, and the reply.
pub fn print_reply(rt: &impl Print, by: ConnId, reply: &Reply<CacheReply>) -> Result<(), Fault> {
    let who = name(by);
    match reply {
        Reply::Shell(answer) => print_connected(rt, who, answer),
        Reply::Content(answer) => print_answer(rt, who, answer),
        Reply::Refused(refusal) => print_refusal(rt, who, *refusal),
    }
}

// The reply to a CONNECT.
fn print_connected(rt: &impl Print, who: &str, answer: &ShellReply) -> Result<(), Fault> {
    match answer {
        ShellReply::OkNew { cf } => println!(rt; "{who}: OK NEW CF{}", cf.0)?,
        _ => println!(rt; "{who}: OK")?,
    }
    Ok(())
}

// The reply to a READ or a WRITE.
fn print_answer(rt: &impl Print, who: &str, answer: &CacheReply) -> Result<(), Fault> {
    match answer {
        CacheReply::Data { body, .. } => println!(rt; "{who}: DATA {}", text(body.bytes()))?,
        CacheReply::NoData => println!(rt; "{who}: NODATA")?,
        _ => println!(rt; "{who}: OK")?,
    }
    Ok(())
}

// Why a READ was refused.
fn print_refusal(rt: &impl Print, who: &str, refusal: Refusal) -> Result<(), Fault> {
    match refusal {
        Refusal::IndexInUse { name } => println!(rt;
            "{who}: REFUSED 2 INDEXINUSE {}",
            text(&name.0)
        )?,
        _ => println!(rt; "{who}: REFUSED")?,
    }
    Ok(())
}

// Data or a name, without blanks behind it.
fn text(bytes: &[u8]) -> &str {
    match from_utf8(bytes) {
        Ok(text) => text.trim_end(),
        Err(_) => "?",
    }
}

/// Prints the vector bits that a call changed.
pub fn print_bits(rt: &impl Print, changed: &Changed) -> Result<(), Fault> {
    if changed.is_all() {
        println!(rt; "any bit may have changed")?;
    }
    for BitChange { conn, index, bit } in changed.bits() {
        let word = if *bit { "VALID" } else { "INVALID" };
        println!(rt; "bit {index} of {} is {word}", name(*conn))?;
    }
    Ok(())
}
