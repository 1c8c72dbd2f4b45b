//! The words of refusals.

ghost use Rattle.std.specs.Prelude.{◌≡◌, ◌∷◌, ◌++◌, [], OnOk};
ghost use Rattle.plex_script.specs.PlexSpell.Words.{tail_of};
ghost use Rattle.plex_report.specs.RefusalWords.{connection_word, stage_word, refusal_number, refusal_word, refusal_fields, refusal_words};

use crate::line_text::{put_caller, put_holder};
use plex_script::Script;
use plex_script::plain::{
    put_facility, put_name, put_number, put_numbers, put_record, put_word, refs_text, state_text,
};
use plex_script::types::{NoMemory, Refusal, Stage, StateWord};

// The word for the state of a connection.
fn connection_text(state: StateWord) -> &'static [u8]
    ensures { result.now ≡ connection_word state }
{
    match state {
        StateWord::Active => b"ACTIVE",
        StateWord::Leaving => b"LEAVING",
        StateWord::Gone => b"GONE",
    }
}

// The word for the stage of a rebuild.
fn stage_text(stage: Stage) -> &'static [u8]
    ensures { result.now ≡ stage_word stage }
{
    match stage {
        Stage::Quiesce => b"QUIESCE",
        Stage::Connect => b"CONNECT",
        Stage::Copy => b"COPY",
        Stage::Cleanup => b"CLEANUP",
        Stage::Stopping => b"STOPPING",
    }
}

/// The number of a refusal.
fn refusal_number(refusal: &Refusal) -> u8
    ensures { result ≡ refusal_number refusal.now }
{
    match refusal {
        Refusal::NotRegistered => 1,
        Refusal::IndexInUse { .. } => 2,
        Refusal::BadIndex { .. } => 3,
        Refusal::IsChanged => 4,
        Refusal::NotChanged => 5,
        Refusal::CastoutHeld { .. } => 6,
        Refusal::NotHeld => 7,
        Refusal::NoEntry => 8,
        Refusal::DirectoryFull { .. } => 9,
        Refusal::NoElements { .. } => 10,
        Refusal::BadClass { .. } => 11,
        Refusal::BeyondUnits { .. } => 12,
        Refusal::NoAlter => 13,
        Refusal::NoRecordThere => 20,
        Refusal::NameTaken { .. } => 21,
        Refusal::BadHeader { .. } => 22,
        Refusal::ListFull { .. } => 23,
        Refusal::EntriesFull { .. } => 24,
        Refusal::NoListElements { .. } => 25,
        Refusal::LockHeld { .. } => 26,
        Refusal::LockNotHeldBy { .. } => 27,
        Refusal::WrongReference { .. } => 28,
        Refusal::HeaderInUse { .. } => 29,
        Refusal::BadLock { .. } => 30,
        Refusal::VersionDiffers { .. } => 31,
        Refusal::NoQueued => 32,
        Refusal::AlreadyInterested { .. } => 40,
        Refusal::NotInterested => 41,
        Refusal::RecordsFull { .. } => 42,
        Refusal::NotManager { .. } => 43,
        Refusal::NoWaiter => 44,
        Refusal::NoRecord => 45,
        Refusal::StillPending => 46,
        Refusal::NotConnected => 60,
        Refusal::NameActive { .. } => 61,
        Refusal::TooManyConns { .. } => 62,
        Refusal::NotFailed { .. } => 63,
        Refusal::HasConnections { .. } => 64,
        Refusal::NoSpace { .. } => 65,
        Refusal::NothingOwed => 66,
        Refusal::RebuildInProgress { .. } => 67,
        Refusal::NoRebuild => 68,
        Refusal::WrongStage { .. } => 69,
        Refusal::ItemsLeft { .. } => 70,
        Refusal::TooSmall { .. } => 71,
        Refusal::Quiesced { .. } => 72,
        Refusal::LostConn { .. } => 73,
        Refusal::LostFacility { .. } => 74,
        Refusal::StructureFailed => 75,
        Refusal::NoFacility => 76,
        Refusal::AlreadyDuplexed => 77,
        Refusal::NoEvent => 78,
        Refusal::NotAllocated => 79,
    }
}

/// The word of a refusal.
fn refusal_text(refusal: &Refusal) -> &'static [u8]
    ensures { result.now ≡ refusal_word refusal.now }
{
    match refusal {
        Refusal::NotRegistered => b"NOTREGISTERED",
        Refusal::IndexInUse { .. } => b"INDEXINUSE",
        Refusal::BadIndex { .. } => b"BADINDEX",
        Refusal::IsChanged => b"ISCHANGED",
        Refusal::NotChanged => b"NOTCHANGED",
        Refusal::CastoutHeld { .. } => b"CASTOUTHELD",
        Refusal::NotHeld => b"NOTHELD",
        Refusal::NoEntry => b"NOENTRY",
        Refusal::DirectoryFull { .. } => b"DIRECTORYFULL",
        Refusal::NoElements { .. } => b"NOELEMENTS",
        Refusal::BadClass { .. } => b"BADCLASS",
        Refusal::BeyondUnits { .. } => b"BEYONDUNITS",
        Refusal::NoAlter => b"NOALTER",
        Refusal::NoRecordThere => b"NOENTRY",
        Refusal::NameTaken { .. } => b"NAMETAKEN",
        Refusal::BadHeader { .. } => b"BADHEADER",
        Refusal::ListFull { .. } => b"LISTFULL",
        Refusal::EntriesFull { .. } => b"ENTRIESFULL",
        Refusal::NoListElements { .. } => b"NOELEMENTS",
        Refusal::LockHeld { .. } => b"LOCKHELD",
        Refusal::LockNotHeldBy { .. } => b"LOCKNOTHELDBY",
        Refusal::WrongReference { .. } => b"WRONGREFERENCE",
        Refusal::HeaderInUse { .. } => b"INDEXINUSE",
        Refusal::BadLock { .. } => b"BADLOCK",
        Refusal::VersionDiffers { .. } => b"VERSIONDIFFERS",
        Refusal::NoQueued => b"NOQUEUED",
        Refusal::AlreadyInterested { .. } => b"ALREADYINTERESTED",
        Refusal::NotInterested => b"NOTINTERESTED",
        Refusal::RecordsFull { .. } => b"RECORDSFULL",
        Refusal::NotManager { .. } => b"NOTMANAGER",
        Refusal::NoWaiter => b"NOWAITER",
        Refusal::NoRecord => b"NORECORD",
        Refusal::StillPending => b"STILLPENDING",
        Refusal::NotConnected => b"NOTCONNECTED",
        Refusal::NameActive { .. } => b"NAMEACTIVE",
        Refusal::TooManyConns { .. } => b"TOOMANYCONNS",
        Refusal::NotFailed { .. } => b"NOTFAILED",
        Refusal::HasConnections { .. } => b"HASCONNECTIONS",
        Refusal::NoSpace { .. } => b"NOSPACE",
        Refusal::NothingOwed => b"NOTHINGOWED",
        Refusal::RebuildInProgress { .. } => b"REBUILDINPROGRESS",
        Refusal::NoRebuild => b"NOREBUILD",
        Refusal::WrongStage { .. } => b"WRONGSTAGE",
        Refusal::ItemsLeft { .. } => b"ITEMSLEFT",
        Refusal::TooSmall { .. } => b"TOOSMALL",
        Refusal::Quiesced { .. } => b"QUIESCED",
        Refusal::LostConn { .. } => b"LOSTCONN",
        Refusal::LostFacility { .. } => b"LOSTFACILITY",
        Refusal::StructureFailed => b"STRUCTUREFAILED",
        Refusal::NoFacility => b"NOFACILITY",
        Refusal::AlreadyDuplexed => b"ALREADYDUPLEXED",
        Refusal::NoEvent => b"NOEVENT",
        Refusal::NotAllocated => b"NOTALLOCATED",
    }
}

/// Puts the fields of a refusal to a line.
fn put_refusal_fields(
    line: &mut Vec<u8>,
    script: &Script,
    refusal: &Refusal,
) -> Result<(), NoMemory>
    ensures { OnOk result (line.new.items ≡ line.old.items
        ++ tail_of (refusal_fields script.now refusal.now)) }
{
    match refusal {
        Refusal::NotRegistered => Ok(()),
        Refusal::IndexInUse { name } => put_name(line, name),
        Refusal::BadIndex { index, len } => put_numbers(line, *index, *len),
        Refusal::IsChanged => Ok(()),
        Refusal::NotChanged => Ok(()),
        Refusal::CastoutHeld { by } => put_caller(line, script, *by),
        Refusal::NotHeld => Ok(()),
        Refusal::NoEntry => Ok(()),
        Refusal::DirectoryFull { entries } => put_number(line, u64::from(*entries)),
        Refusal::NoElements { need, free } => put_numbers(line, *need, *free),
        Refusal::BadClass { class } => put_number(line, u64::from(*class)),
        Refusal::BeyondUnits { asked, units } => put_numbers(line, *asked, *units),
        Refusal::NoAlter => Ok(()),
        Refusal::NoRecordThere => Ok(()),
        Refusal::NameTaken { id } => put_record(line, *id),
        Refusal::BadHeader { header, headers } => put_numbers(line, *header, *headers),
        Refusal::ListFull { limit } => put_number(line, u64::from(*limit)),
        Refusal::EntriesFull { entries } => put_number(line, u64::from(*entries)),
        Refusal::NoListElements { need, free } => put_numbers(line, *need, *free),
        Refusal::LockHeld { by } => put_caller(line, script, *by),
        Refusal::LockNotHeldBy { holder } => put_holder(line, script, *holder),
        Refusal::WrongReference { refs } => put_word(line, refs_text(*refs)),
        Refusal::HeaderInUse { header } => put_number(line, u64::from(*header)),
        Refusal::BadLock { lock, locks } => put_numbers(line, *lock, *locks),
        Refusal::VersionDiffers { found } => put_number(line, u64::from(*found)),
        Refusal::NoQueued => Ok(()),
        Refusal::AlreadyInterested { excl } => put_word(line, state_text(*excl)),
        Refusal::NotInterested => Ok(()),
        Refusal::RecordsFull { limit } => put_number(line, u64::from(*limit)),
        Refusal::NotManager { manager } => put_holder(line, script, *manager),
        Refusal::NoWaiter => Ok(()),
        Refusal::NoRecord => Ok(()),
        Refusal::StillPending => Ok(()),
        Refusal::NotConnected => Ok(()),
        Refusal::NameActive { state } => put_word(line, connection_text(*state)),
        Refusal::TooManyConns { limit } => put_number(line, u64::from(*limit)),
        Refusal::NotFailed { state } => put_word(line, connection_text(*state)),
        Refusal::HasConnections { n } => put_number(line, u64::from(*n)),
        Refusal::NoSpace { asked, free } => put_numbers(line, *asked, *free),
        Refusal::NothingOwed => Ok(()),
        Refusal::RebuildInProgress { number } => put_number(line, u64::from(*number)),
        Refusal::NoRebuild => Ok(()),
        Refusal::WrongStage { stage } => put_word(line, stage_text(*stage)),
        Refusal::ItemsLeft { left } => put_number(line, u64::from(*left)),
        Refusal::TooSmall { need, have } => put_numbers(line, *need, *have),
        Refusal::Quiesced { number } => put_number(line, u64::from(*number)),
        Refusal::LostConn { cf } => put_facility(line, *cf),
        Refusal::LostFacility { cf } => put_facility(line, *cf),
        Refusal::StructureFailed => Ok(()),
        Refusal::NoFacility => Ok(()),
        Refusal::AlreadyDuplexed => Ok(()),
        Refusal::NoEvent => Ok(()),
        Refusal::NotAllocated => Ok(()),
    }
}

/// Puts a refusal to a line: its number, its word and its fields.
pub(crate) fn put_refusal(
    line: &mut Vec<u8>,
    script: &Script,
    refusal: &Refusal,
) -> Result<(), NoMemory>
    ensures { OnOk result (line.new.items ≡ line.old.items
        ++ tail_of (refusal_words script.now refusal.now)) }
{
    put_number(line, u64::from(refusal_number(refusal)))?;
    put_word(line, refusal_text(refusal))?;
    put_refusal_fields(line, script, refusal)
}
