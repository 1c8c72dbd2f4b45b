ghost use Rattle.std.specs.Prelude.{◌≡◌, ◌≤◌, length, codes};
ghost use Rattle.cf_types.specs.declared.limits.TheConstants.{CONNECTORS};
ghost use Rattle.line_rows.specs.Rows.{first_of, led};
ghost use Rattle.reply_rows.specs.Refusals.{refusal_row, refusal_forms, cache_refusals, list_refusals, lock_refusals, rebuild_refusals, place_refusals};

use crate::one_word::OneWord;
use crate::rows::{one, plain, with_one, with_two};
use cf_types::{CfId, ConnId, EntryId, Name16, Refs, Refusal, Stage, StateWord};
use plex_spell::Words;

// Those of cache structures, and of an alteration: 1 to 13.
fn cache_refusal(connectors: &[Name16], number: u32, words: &Words) -> Option<Refusal>
    requires { length connectors.now ≤ CONNECTORS }
    ensures { result ≡ first_of (cache_refusals connectors.now number) words.now }
{
    if number == 1 && plain(words, b"NOTREGISTERED").is_some() {
        return Some(Refusal::NotRegistered);
    }
    if number == 2 {
        if let Some(name) = with_one::<Name16>(connectors, words, b"INDEXINUSE") {
            return Some(Refusal::IndexInUse { name });
        }
    }
    if number == 3 {
        if let Some((index, len)) = with_two::<u32, u32>(connectors, words, b"BADINDEX") {
            return Some(Refusal::BadIndex { index, len });
        }
    }
    if number == 4 && plain(words, b"ISCHANGED").is_some() {
        return Some(Refusal::IsChanged);
    }
    if number == 5 && plain(words, b"NOTCHANGED").is_some() {
        return Some(Refusal::NotChanged);
    }
    if number == 6 {
        if let Some(by) = with_one::<ConnId>(connectors, words, b"CASTOUTHELD") {
            return Some(Refusal::CastoutHeld { by });
        }
    }
    if number == 7 && plain(words, b"NOTHELD").is_some() {
        return Some(Refusal::NotHeld);
    }
    if number == 8 && plain(words, b"NOENTRY").is_some() {
        return Some(Refusal::NoEntry);
    }
    if number == 9 {
        if let Some(entries) = with_one::<u32>(connectors, words, b"DIRECTORYFULL") {
            return Some(Refusal::DirectoryFull { entries });
        }
    }
    if number == 10 {
        if let Some((need, free)) = with_two::<u32, u32>(connectors, words, b"NOELEMENTS") {
            return Some(Refusal::NoElements { need, free });
        }
    }
    if number == 11 {
        if let Some(class) = with_one::<u32>(connectors, words, b"BADCLASS") {
            return Some(Refusal::BadClass { class });
        }
    }
    if number == 12 {
        if let Some((asked, units)) = with_two::<u32, u32>(connectors, words, b"BEYONDUNITS") {
            return Some(Refusal::BeyondUnits { asked, units });
        }
    }
    if number == 13 && plain(words, b"NOALTER").is_some() {
        return Some(Refusal::NoAlter);
    }
    None
}

// Those of list structures: 20 to 32.
fn list_refusal(connectors: &[Name16], number: u32, words: &Words) -> Option<Refusal>
    requires { length connectors.now ≤ CONNECTORS }
    ensures { result ≡ first_of (list_refusals connectors.now number) words.now }
{
    if number == 20 && plain(words, b"NOENTRY").is_some() {
        return Some(Refusal::NoRecordThere);
    }
    if number == 21 {
        if let Some(id) = with_one::<EntryId>(connectors, words, b"NAMETAKEN") {
            return Some(Refusal::NameTaken { id });
        }
    }
    if number == 22 {
        if let Some((header, headers)) = with_two::<u32, u32>(connectors, words, b"BADHEADER") {
            return Some(Refusal::BadHeader { header, headers });
        }
    }
    if number == 23 {
        if let Some(limit) = with_one::<u32>(connectors, words, b"LISTFULL") {
            return Some(Refusal::ListFull { limit });
        }
    }
    if number == 24 {
        if let Some(entries) = with_one::<u32>(connectors, words, b"ENTRIESFULL") {
            return Some(Refusal::EntriesFull { entries });
        }
    }
    if number == 25 {
        if let Some((need, free)) = with_two::<u32, u32>(connectors, words, b"NOELEMENTS") {
            return Some(Refusal::NoListElements { need, free });
        }
    }
    if number == 26 {
        if let Some(by) = with_one::<ConnId>(connectors, words, b"LOCKHELD") {
            return Some(Refusal::LockHeld { by });
        }
    }
    if number == 27 {
        if let Some(holder) = with_one::<Option<ConnId>>(connectors, words, b"LOCKNOTHELDBY") {
            return Some(Refusal::LockNotHeldBy { holder });
        }
    }
    if number == 28 {
        if let Some(refs) = with_one::<Refs>(connectors, words, b"WRONGREFERENCE") {
            return Some(Refusal::WrongReference { refs });
        }
    }
    if number == 29 {
        if let Some(header) = with_one::<u32>(connectors, words, b"INDEXINUSE") {
            return Some(Refusal::HeaderInUse { header });
        }
    }
    if number == 30 {
        if let Some((lock, locks)) = with_two::<u32, u32>(connectors, words, b"BADLOCK") {
            return Some(Refusal::BadLock { lock, locks });
        }
    }
    if number == 31 {
        if let Some(found) = with_one::<u32>(connectors, words, b"VERSIONDIFFERS") {
            return Some(Refusal::VersionDiffers { found });
        }
    }
    if number == 32 && plain(words, b"NOQUEUED").is_some() {
        return Some(Refusal::NoQueued);
    }
    None
}

// Those of lock structures: 40 to 46.
fn lock_refusal(connectors: &[Name16], number: u32, words: &Words) -> Option<Refusal>
    requires { length connectors.now ≤ CONNECTORS }
    ensures { result ≡ first_of (lock_refusals connectors.now number) words.now }
{
    if number == 40 {
        if let Some(excl) = with_one::<bool>(connectors, words, b"ALREADYINTERESTED") {
            return Some(Refusal::AlreadyInterested { excl });
        }
    }
    if number == 41 && plain(words, b"NOTINTERESTED").is_some() {
        return Some(Refusal::NotInterested);
    }
    if number == 42 {
        if let Some(limit) = with_one::<u32>(connectors, words, b"RECORDSFULL") {
            return Some(Refusal::RecordsFull { limit });
        }
    }
    if number == 43 {
        if let Some(manager) = with_one::<Option<ConnId>>(connectors, words, b"NOTMANAGER") {
            return Some(Refusal::NotManager { manager });
        }
    }
    if number == 44 && plain(words, b"NOWAITER").is_some() {
        return Some(Refusal::NoWaiter);
    }
    if number == 45 && plain(words, b"NORECORD").is_some() {
        return Some(Refusal::NoRecord);
    }
    if number == 46 && plain(words, b"STILLPENDING").is_some() {
        return Some(Refusal::StillPending);
    }
    None
}

// Those of connections and rebuilds: 60 to 69.
fn rebuild_refusal(connectors: &[Name16], number: u32, words: &Words) -> Option<Refusal>
    requires { length connectors.now ≤ CONNECTORS }
    ensures { result ≡ first_of (rebuild_refusals connectors.now number) words.now }
{
    if number == 60 && plain(words, b"NOTCONNECTED").is_some() {
        return Some(Refusal::NotConnected);
    }
    if number == 61 {
        if let Some(state) = with_one::<StateWord>(connectors, words, b"NAMEACTIVE") {
            return Some(Refusal::NameActive { state });
        }
    }
    if number == 62 {
        if let Some(limit) = with_one::<u8>(connectors, words, b"TOOMANYCONNS") {
            return Some(Refusal::TooManyConns { limit });
        }
    }
    if number == 63 {
        if let Some(state) = with_one::<StateWord>(connectors, words, b"NOTFAILED") {
            return Some(Refusal::NotFailed { state });
        }
    }
    if number == 64 {
        if let Some(n) = with_one::<u32>(connectors, words, b"HASCONNECTIONS") {
            return Some(Refusal::HasConnections { n });
        }
    }
    if number == 65 {
        if let Some((asked, free)) = with_two::<u32, u32>(connectors, words, b"NOSPACE") {
            return Some(Refusal::NoSpace { asked, free });
        }
    }
    if number == 66 && plain(words, b"NOTHINGOWED").is_some() {
        return Some(Refusal::NothingOwed);
    }
    if number == 67 {
        if let Some(number) = with_one::<u32>(connectors, words, b"REBUILDINPROGRESS") {
            return Some(Refusal::RebuildInProgress { number });
        }
    }
    if number == 68 && plain(words, b"NOREBUILD").is_some() {
        return Some(Refusal::NoRebuild);
    }
    if number == 69 {
        if let Some(stage) = with_one::<Stage>(connectors, words, b"WRONGSTAGE") {
            return Some(Refusal::WrongStage { stage });
        }
    }
    None
}

// Those of copies, links and instances: 70 to 79.
fn place_refusal(connectors: &[Name16], number: u32, words: &Words) -> Option<Refusal>
    requires { length connectors.now ≤ CONNECTORS }
    ensures { result ≡ first_of (place_refusals connectors.now number) words.now }
{
    if number == 70 {
        if let Some(left) = with_one::<u32>(connectors, words, b"ITEMSLEFT") {
            return Some(Refusal::ItemsLeft { left });
        }
    }
    if number == 71 {
        if let Some((need, have)) = with_two::<u32, u32>(connectors, words, b"TOOSMALL") {
            return Some(Refusal::TooSmall { need, have });
        }
    }
    if number == 72 {
        if let Some(number) = with_one::<u32>(connectors, words, b"QUIESCED") {
            return Some(Refusal::Quiesced { number });
        }
    }
    if number == 73 {
        if let Some(cf) = with_one::<CfId>(connectors, words, b"LOSTCONN") {
            return Some(Refusal::LostConn { cf });
        }
    }
    if number == 74 {
        if let Some(cf) = with_one::<CfId>(connectors, words, b"LOSTFACILITY") {
            return Some(Refusal::LostFacility { cf });
        }
    }
    if number == 75 && plain(words, b"STRUCTUREFAILED").is_some() {
        return Some(Refusal::StructureFailed);
    }
    if number == 76 && plain(words, b"NOFACILITY").is_some() {
        return Some(Refusal::NoFacility);
    }
    if number == 77 && plain(words, b"ALREADYDUPLEXED").is_some() {
        return Some(Refusal::AlreadyDuplexed);
    }
    if number == 78 && plain(words, b"NOEVENT").is_some() {
        return Some(Refusal::NoEvent);
    }
    if number == 79 && plain(words, b"NOTALLOCATED").is_some() {
        return Some(Refusal::NotAllocated);
    }
    None
}

// The refusal with this number, behind it.
fn numbered(connectors: &[Name16], number: u32, words: &Words) -> Option<Refusal>
    requires { length connectors.now ≤ CONNECTORS }
    ensures { result ≡ first_of (refusal_forms connectors.now number) words.now }
{
    if let Some(refusal) = cache_refusal(connectors, number, words) {
        return Some(refusal);
    }
    if let Some(refusal) = list_refusal(connectors, number, words) {
        return Some(refusal);
    }
    if let Some(refusal) = lock_refusal(connectors, number, words) {
        return Some(refusal);
    }
    if let Some(refusal) = rebuild_refusal(connectors, number, words) {
        return Some(refusal);
    }
    place_refusal(connectors, number, words)
}

/// Reads a refusal behind its first word.
pub fn refused(connectors: &[Name16], line: &Words) -> Option<Refusal>
    requires { length connectors.now ≤ CONNECTORS }
    ensures { result ≡ (led (codes "REFUSED") (refusal_row connectors.now)).values line.now }
{
    let mut words = line.again();
    if !words.skip(b"REFUSED") {
        return None;
    }
    let number: u32 = one(connectors, &mut words)?;
    numbered(connectors, number, &words)
}
