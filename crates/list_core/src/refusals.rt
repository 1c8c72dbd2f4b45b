//! Causes of refusals that commands share.
ghost use Rattle.std.specs.Prelude.{◌≡◌, ◌<◌, ◌^◌, find};
ghost use Rattle.std.specs.Result.{result_err};
ghost use Rattle.list_model.specs.ListStore.Lists.{all_records, records_without};
ghost use Rattle.list_model.specs.Records.{elements_in, has_name, is_reference};
ghost use Rattle.list_model.specs.Lists.{record_at};
ghost use Rattle.list_model.specs.Contents.{refs_of, is_held_by};
ghost use Rattle.list_model.specs.Refusals.{lock_refusal, held_refusal, not_held_refusal, cond_lock_refusal, cond_refusal, header_refusal, reference_refusal, has_names, has_keys, new_key_refusal, ref_header_refusal, ref_form_refusal, record_refusal, version_refusal, taken_refusal, name_refusal, full_refusal, entries_refusal, elements_refusal, index_refusal, other_refusal, in_use_refusal};

use cf_types::{At, Caps, Cond, ConnId, EntryId, Key16, Kind, Name16, Refs, Refusal};
use list_kept::{Kept, count, elements_of_others, headers_of, record_at};

/// What judging a command comes to: why it is refused, if it is.
pub(crate) type Judged = Result<(), Refusal>;

/// What the records of a structure are known by.
pub(crate) fn refs_of(kind: Kind) -> Refs
    ensures { result ≡ refs_of kind }
{
    match kind {
        Kind::List { refs, .. } => refs,
        Kind::Cache => Refs::Nothing,
        Kind::Lock => Refs::Nothing,
    }
}

/// The lock isn't below the number of list locks.
pub(crate) fn lock_refusal(locks: u32, lock: u32) -> Judged
    ensures { result_err result ≡ lock_refusal locks lock }
{
    if locks <= lock {
        Err(Refusal::BadLock { lock, locks })
    } else {
        Ok(())
    }
}

/// The lock is held by anyone.
pub(crate) fn held_refusal(holder: Option<ConnId>) -> Judged
    ensures { result_err result ≡ held_refusal holder }
{
    match holder {
        Some(by) => Err(Refusal::LockHeld { by }),
        None => Ok(()),
    }
}

// Whether a connector holds a list lock.
fn is_held_by(conn: ConnId, holder: Option<ConnId>) -> bool
    ensures { result ≡ is_held_by conn holder }
{
    match holder {
        Some(holder) => holder == conn,
        None => false,
    }
}

/// The lock isn't held by the caller.
pub(crate) fn not_held_refusal(by: ConnId, holder: Option<ConnId>) -> Judged
    ensures { result_err result ≡ not_held_refusal by holder }
{
    if is_held_by(by, holder) {
        Ok(())
    } else {
        Err(Refusal::LockNotHeldBy { holder })
    }
}

/// The condition's lock isn't there.
pub(crate) fn cond_lock_refusal(locks: u32, cond: Option<Cond>) -> Judged
    ensures { result_err result ≡ cond_lock_refusal locks cond }
{
    match cond {
        None => Ok(()),
        Some(Cond::NotHeld(lock)) => lock_refusal(locks, lock),
        Some(Cond::HeldBy(lock)) => lock_refusal(locks, lock),
    }
}

/// The condition doesn't hold.
pub(crate) fn cond_refusal(kept: &Kept, by: ConnId, cond: Option<Cond>) -> Judged
    ensures { result_err result ≡ cond_refusal kept.now.content.locks by cond }
{
    match cond {
        None => Ok(()),
        Some(Cond::NotHeld(lock)) => held_refusal(kept.holder(lock)),
        Some(Cond::HeldBy(lock)) => not_held_refusal(by, kept.holder(lock)),
    }
}

/// The header isn't below the number of headers.
pub(crate) fn header_refusal(headers: u32, header: u32) -> Judged
    ensures { result_err result ≡ header_refusal headers header }
{
    if headers <= header {
        Err(Refusal::BadHeader { header, headers })
    } else {
        Ok(())
    }
}

// Whether records that are known so have this name and this key.
fn is_reference(refs: Refs, name: Option<Name16>, key: Option<Key16>) -> bool
    ensures { result ≡ is_reference refs name key }
{
    match refs {
        Refs::Names => name.is_some() && key.is_none(),
        Refs::Keys => name.is_none() && key.is_some(),
        Refs::Nothing => name.is_none() && key.is_none(),
    }
}

/// A new record has another name or key than the structure's records.
pub(crate) fn reference_refusal(refs: Refs, name: Option<Name16>, key: Option<Key16>) -> Judged
    ensures { result_err result ≡ reference_refusal refs name key }
{
    if is_reference(refs, name, key) {
        Ok(())
    } else {
        Err(Refusal::WrongReference { refs })
    }
}

// Whether records are known by names.
fn has_names(refs: Refs) -> bool
    ensures { result ≡ has_names refs }
{
    match refs {
        Refs::Names => true,
        Refs::Keys => false,
        Refs::Nothing => false,
    }
}

// Whether records are known by keys.
fn has_keys(refs: Refs) -> bool
    ensures { result ≡ has_keys refs }
{
    match refs {
        Refs::Names => false,
        Refs::Keys => true,
        Refs::Nothing => false,
    }
}

/// A new key is given where records have none.
pub(crate) fn new_key_refusal(refs: Refs, key: Option<Key16>) -> Judged
    ensures { result_err result ≡ new_key_refusal refs key }
{
    if key.is_none() || has_keys(refs) {
        Ok(())
    } else {
        Err(Refusal::WrongReference { refs })
    }
}

/// The header of a reference isn't there.
pub(crate) fn ref_header_refusal(headers: u32, at: At) -> Judged
    ensures { result_err result ≡ ref_header_refusal headers at }
{
    match at {
        At::Id(_) => Ok(()),
        At::Name(_) => Ok(()),
        At::Head(header) => header_refusal(headers, header),
        At::Tail(header) => header_refusal(headers, header),
        At::Key(header, _) => header_refusal(headers, header),
    }
}

// Records aren't known in a way.
fn form_refusal(known: bool, refs: Refs) -> Judged
    ensures { result_err result ≡ (if known then None else Some (WrongReference refs)) }
{
    if known {
        Ok(())
    } else {
        Err(Refusal::WrongReference { refs })
    }
}

ghost use Rattle.std.specs.Prelude.{if◌then◌else◌, Some, None};
ghost use Rattle.cf_types.specs.declared.refusals.Refusal.TheVariants.{WrongReference};

/// Records aren't known in the way of a reference.
pub(crate) fn ref_form_refusal(refs: Refs, at: At) -> Judged
    ensures { result_err result ≡ ref_form_refusal refs at }
{
    match at {
        At::Id(_) => Ok(()),
        At::Name(_) => form_refusal(has_names(refs), refs),
        At::Head(_) => Ok(()),
        At::Tail(_) => Ok(()),
        At::Key(_, _) => form_refusal(has_keys(refs), refs),
    }
}

/// The header of a sublist isn't there, or records have no keys.
pub(crate) fn sublist_refusal(kind: Kind, header: u32, key: Key16) -> Judged
    ensures { result_err result ≡ first_refusal (ref_header_refusal (headers_of kind) (at.Key header
        key) ∷ ref_form_refusal (refs_of kind) (at.Key header key) ∷ []) }
{
    let at = At::Key(header, key);
    ref_header_refusal(headers_of(kind), at)?;
    ref_form_refusal(refs_of(kind), at)
}

ghost use Rattle.std.specs.Prelude.{◌∷◌, []};
ghost use Rattle.cf_types.specs.declared.list_commands.At.TheVariants as at;
ghost use Rattle.engine_api.specs.Meaning.{first_refusal};
ghost use Rattle.list_model.specs.Contents.{headers_of};

/// No record is named so.
pub(crate) fn record_refusal(kept: &Kept, at: At) -> Judged
    ensures { result_err result ≡ record_refusal (record_at kept.now.content.lists at) }
{
    match record_at(kept, at) {
        Some(_) => Ok(()),
        None => Err(Refusal::NoRecordThere),
    }
}

// The version of the record that is named; 0 where none is.
fn version_at(kept: &Kept, at: At) -> u32
    ensures { result ≡ (the_record kept.now.content.lists at).version }
{
    match record_at(kept, at) {
        Some(rec) => rec.version,
        None => 0,
    }
}

// A version is given, and another is found.
fn other_version(version: Option<u32>, found: u32) -> Judged
    ensures { result_err result ≡ version_refusal version found }
{
    match version {
        Some(version) => {
            if version == found {
                Ok(())
            } else {
                Err(Refusal::VersionDiffers { found })
            }
        }
        None => Ok(()),
    }
}

/// The record that is named has another version than the one given.
pub(crate) fn version_refusal(kept: &Kept, at: At, version: Option<u32>) -> Judged
    ensures { result_err result
        ≡ version_refusal version (the_record kept.now.content.lists at).version }
{
    other_version(version, version_at(kept, at))
}

ghost use Rattle.list_model.specs.Lists.{the_record};

// A record has a name.
fn taken_refusal(kept: &Kept, name: &Name16) -> Judged
    ensures { result_err result ≡ taken_refusal (find (has_name name.now)
        (all_records kept.now.content.lists)) }
{
    match kept.named(name) {
        Some(rec) => Err(Refusal::NameTaken { id: rec.id }),
        None => Ok(()),
    }
}

/// A record has the name.
pub(crate) fn name_refusal(kept: &Kept, name: Option<Name16>) -> Judged
    ensures { result_err result ≡ name_refusal (all_records kept.now.content.lists) name }
{
    match name {
        Some(name) => taken_refusal(kept, &name),
        None => Ok(()),
    }
}

/// The header has as many records as its limit, or more.
pub(crate) fn full_refusal(kept: &Kept, header: u32) -> Judged
    ensures { result_err result ≡ full_refusal kept.now.content header }
{
    let limit = kept.limit(header);
    if limit <= kept.len(header) {
        Err(Refusal::ListFull { limit })
    } else {
        Ok(())
    }
}

/// The structure has as many records as entries.
pub(crate) fn entries_refusal(caps: Caps, kept: &Kept) -> Judged
    requires { count_of kept.now.content.lists < 2 ^ 32 }
    ensures { result_err result ≡ entries_refusal caps (all_records kept.now.content.lists) }
{
    if caps.entries <= count(kept) {
        Err(Refusal::EntriesFull {
            entries: caps.entries,
        })
    } else {
        Ok(())
    }
}

ghost use Rattle.list_model.specs.ListStore.Lists.{count_of};

/// The data need more elements than records leave free, but for the record with an id.
pub(crate) fn elements_refusal(caps: Caps, need: u32, kept: &Kept, id: EntryId) -> Judged
    requires { elements_in (all_records kept.now.content.lists) < 2 ^ 32 }
    ensures { result_err result ≡ elements_refusal caps need
        (records_without id (all_records kept.now.content.lists)) }
{
    let free = caps.elements.saturating_sub(elements_of_others(kept, id));
    if need <= free {
        Ok(())
    } else {
        Err(Refusal::NoListElements { need, free })
    }
}

/// The index isn't below the length of the vector.
pub(crate) fn index_refusal(vector: u32, index: u32) -> Judged
    ensures { result_err result ≡ index_refusal vector index }
{
    if vector <= index {
        Err(Refusal::BadIndex { index, len: vector })
    } else {
        Ok(())
    }
}

// Another header is monitored.
fn other_refusal(monitored: Option<u32>, header: u32) -> Judged
    ensures { result_err result ≡ other_refusal monitored header }
{
    match monitored {
        Some(other) => {
            if other == header {
                Ok(())
            } else {
                Err(Refusal::HeaderInUse { header: other })
            }
        }
        None => Ok(()),
    }
}

/// The index monitors another header.
pub(crate) fn in_use_refusal(kept: &Kept, by: ConnId, index: u32, header: u32) -> Judged
    ensures { result_err result ≡ in_use_refusal kept.now.content.monitors by index header }
{
    other_refusal(kept.monitored(by, index), header)
}
