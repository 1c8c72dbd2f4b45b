use engine_api::types::{
    AlterCmd, AlterReply, CacheCmd, CacheReply, ConnId, Listing, Name16, NoMemory, StrNo,
    parse_name,
};
use engine_api::{Ask, Entry, History, Reply, What};
use plex_load::scripts::{AgentEnd, AnyHistory, Script, Shown, Transcript, read};
use plex_report::{line, render};
use std::alloc::{AllocError, Global};
use std::test::Fail;

const POLICY: &[u8] = b"FACILITY CF1 100
STRUCTURE GBP CACHE 8 8 4 64 DELETE
PREF GBP CF1 40
CONNECTOR A
";

// What is read of a page that nobody has written.
fn entry(name: Name16) -> Entry<AlterCmd<CacheCmd>, AlterReply<CacheReply>> {
    let cmd = CacheCmd::Read {
        name,
        index: 0,
        old: None,
        stg: 1,
    };
    Entry {
        no: 1,
        by: ConnId(1),
        what: What::Call(Ask::Content(AlterCmd::Inner(cmd))),
        reply: Reply::Content(AlterReply::Inner(CacheReply::NoData)),
    }
}

fn histories(alloc: Global, name: Name16) -> Result<Vec<AnyHistory>, AllocError> {
    let entries = vec![in alloc; entry(name)]?;
    let history = AnyHistory::Cache(History::from_vec(entries));
    Ok(vec![in alloc; history]?)
}

fn transcripts(alloc: Global) -> Result<Vec<Transcript>, AllocError> {
    let shown = Shown::Word {
        on: StrNo(0),
        word: 1,
        bits: 6,
        at: 1,
    };
    let transcript = Transcript {
        items: Listing::from_vec(vec![in alloc; shown]?),
        end: AgentEnd::Done,
    };
    Ok(vec![in alloc; transcript]?)
}

const TEXT: &[u8] = b"FACILITY CF1 100
STRUCTURE GBP CACHE 8 8 4 64 DELETE
PREF GBP CF1 40
CONNECTOR A
HISTORY GBP 1
1 A READ P1 0 -> NODATA
TRANSCRIPT OP 1
GBP TESTWORD 1 01100000000000000000000000000000 1
END
";

// Whether a report has this text, and its line with the entry alone is the same.
fn is_printed(
    alloc: Global,
    script: &Script,
    histories: &[AnyHistory],
    transcripts: &[Transcript],
) -> Result<bool, NoMemory> {
    let text = render(alloc, script, histories, transcripts)?;
    let entry = line(alloc, script, histories, transcripts, 5)?;
    Ok(
        text.as_slice() == TEXT
            && matches!(&entry, Some(entry) if entry.as_slice() == b"1 A READ P1 0 -> NODATA\n".as_slice()),
    )
}

#[test]
fn a_report_is_printed(rt: HostRuntime) -> Result<(), Fail> {
    let script = read(rt.alloc(), POLICY)?;
    let histories = histories(rt.alloc(), parse_name(b"P1")?)?;
    let transcripts = transcripts(rt.alloc())?;
    assert!(rt; is_printed(rt.alloc(), &script, &histories, &transcripts)?);
    Ok(())
}
