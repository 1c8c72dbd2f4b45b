//! Records that come to their places in a store, or are taken out, and their names.
ghost use Rattle.std.specs.Prelude.{◌≡◌, ◌+◌, ◌<◌, ◌≤◌, ◌++◌, ◌∷◌, [], false, true, IsTrue, IfSome, OnOk, OnErr, None, Some, length, nat_lt, not, if◌then◌else◌};
ghost use Rattle.std.specs.List.{list_any, list_all, prefix_len};
ghost use Rattle.cf_lists.specs.Pairwise.{pairwise};
ghost use Rattle.list_keys.specs.Names.{id_of};
ghost use Rattle.list_store.specs.Lists.{all_records, records_of, with_records, is_id, record_of, lists_without, lists_replaced, ids_apart};
ghost use Rattle.list_store.specs.Records.{record_in, HasChain, chains_less};
ghost use Rattle.list_model.specs.Keys.{key_up_to};
ghost use Rattle.list_model.specs.Records.{may_precede, elements_in, elements_of};
ghost use Rattle.list_model.specs.Lists.{with_record};
ghost use Rattle.list_model.specs.Contents.{has_records};
ghost use Rattle.list_kept.specs.ContentView.{comes_behind, put_back};
ghost use Rattle.list_kept.specs.Data.{AreUsed, blank, with_data, renewed};
ghost use Rattle.list_kept.specs.Named.{WritesIts};

use crate::bare::Bare;
use crate::data::{give, new_data, put_data, record, try_data};
use cf_types::{Body, EntryId, Key16, Name16, NoMemory};
use list_keys::Keys;
use list_store::{Rec, Store};

// Whether a record with a key, or none, stands before one that comes.
fn stands_before(head: bool, key: Option<Key16>, other: Option<Key16>) -> bool
    ensures { result ≡ (if head then not (key_up_to key other) else key_up_to other key) }
{
    if head {
        !up_to(key, other)
    } else {
        up_to(other, key)
    }
}

// Whether a key isn't behind another.
fn up_to(key: Option<Key16>, other: Option<Key16>) -> bool
    ensures { result ≡ key_up_to key other }
{
    match key {
        None => true,
        Some(key) => match other {
            None => false,
            Some(other) => !other.cmp(&key).is_lt(),
        },
    }
}

// Whether the record at a place of a header, in which those that stand before one that comes are
// the first ones, is one of those.
#[tactic(auto, using(list_store::proofs::TiedLaws::none_within, list_store::proofs::StoreLaws::none_shown, cf_lists::proofs::RecordPrefixLaws::passes_first, crate::proofs::PlaceLaws::ordered_first))]
fn stands_at(store: &Store, header: u32, place: u32, head: bool, key: Option<Key16>) -> bool
    requires header { header < length store.now.lists }
    requires place { place < length (records_of store.now.lists header) }
    requires ordered { IsTrue (pairwise may_precede (records_of store.now.lists header)) }
    ensures { result ≡ nat_lt place (prefix_len (comes_behind head key)
        (records_of store.now.lists header)) }
{
    match store.at(header, place) {
        Some(other) => stands_before(head, key, other.key),
        None => unreachable!(),
    }
}

/// Where a record comes to stand in a header whose records are in order by key: a binary search.
#[tactic(auto, using(crate::proofs::NamedLaws::fewer))]
pub(crate) fn place_of(store: &Store, header: u32, head: bool, key: Option<Key16>) -> u32
    requires header { header < length store.now.lists }
    requires ordered { IsTrue (pairwise may_precede (records_of store.now.lists header)) }
    ensures place { result ≡ prefix_len (comes_behind head key)
        (records_of store.now.lists header) }
    ensures bound { result ≤ length (records_of store.now.lists header) }
{
    let mut low = 0;
    let mut high = store.len(header);
    while low < high {
        let middle = low + (high - low) / 2;
        if stands_at(store, header, middle, head, key) {
            low = middle + 1;
        } else {
            high = middle;
        }
    }
    low
}

/// Whether a header has records.
pub(crate) fn has_records(store: &Store, header: u32) -> bool
    ensures { result ≡ has_records store.now.lists header }
{
    header < store.headers() && store.len(header) > 0
}

/// Takes out the record with an id, which is there; no record has its chain then.
#[tactic(auto, using(crate::proofs::NamedLaws::kept_told, cf_lists::proofs::FilterLaws::any_is_found))]
pub(crate) fn take(store: &mut Store, id: EntryId) -> Rec
    requires { list_any (is_id id) (all_records store.old.lists) ≡ true }
    ensures record { record_of id store.old.lists ≡ Some (record_in store.old.chains result) }
    ensures chain { HasChain store.new.loose result.body }
    ensures was { store.old.loose ≡ chains_less result.body store.new.loose }
    ensures lists { store.new.lists ≡ lists_without id store.old.lists }
    ensures chains { store.new.chains ≡ store.old.chains }
    ensures apart { IsTrue (pairwise ids_apart (all_records store.old.lists)) }
    ensures room { store.old.room ≤ store.new.room }
{
    match store.take(id) {
        Some(rec) => rec,
        None => unreachable!(),
    }
}

/// Puts in the name of a record that comes, if it has one.
pub(crate) fn add_name(names: &mut Keys, name: Option<Name16>, id: EntryId)
    requires room { 1 ≤ names.old.room }
    requires new { IfSome name (λ n. id_of n names.old.names ≡ None) }
    ensures { WritesIts names.old.names name (Some id) names.new.names }
{
    if let Some(name) = name {
        names.add_name(name, id);
    }
}

/// Takes out the name of a record that goes, if it has one.
pub(crate) fn drop_name(names: &mut Keys, name: Option<Name16>)
    ensures { WritesIts names.old.names name None names.new.names }
{
    if let Some(name) = name {
        names.remove_name(&name);
    }
}

// Puts in a record, at its place in a header. No record has its chain.
fn put_record(store: &mut Store, header: u32, head: bool, rec: Rec)
    requires room { 1 ≤ store.old.room }
    requires header { header < length store.old.lists }
    requires alone { list_any (is_id rec.id) (all_records store.old.lists) ≡ false }
    requires ordered { IsTrue (list_all (pairwise may_precede) store.old.lists) }
    requires chain { HasChain store.old.loose rec.body }
    ensures lists { store.new.lists
        ≡ with_record head header (record_in store.old.chains rec) store.old.lists }
    ensures loose { store.new.loose ≡ chains_less rec.body store.old.loose }
    ensures chains { store.new.chains ≡ store.old.chains }
{
    let place = place_of(store, header, head, rec.key);
    store.add(header, place, rec);
}

/// Puts in a record with its data, for which there are elements, at its place in a header.
pub(crate) fn put(store: &mut Store, header: u32, head: bool, bare: Bare, body: &Option<Body>)
    requires room { 1 ≤ store.old.room }
    requires header { header < length store.old.lists }
    requires alone { list_any (is_id bare.id) (all_records store.old.lists) ≡ false }
    requires ordered { IsTrue (list_all (pairwise may_precede) store.old.lists) }
    requires used { AreUsed store.old.loose }
    requires elements { elements_in (all_records store.old.lists) + elements_of body.now
        ≤ length store.old.chains }
    ensures lists { store.new.lists
        ≡ with_record head header (with_data bare body.now) store.old.lists }
    ensures loose { store.new.loose ≡ store.old.loose }
    ensures size { length store.new.chains ≡ length store.old.chains }
{
    let chain = put_data(store, body);
    put_record(store, header, head, record(bare, chain));
}

/// Puts a record behind the others of a header, where there is memory and there are elements for
/// its data; else changes nothing.
pub(crate) fn push(
    store: &mut Store,
    header: u32,
    bare: Bare,
    body: &Option<Body>,
) -> Result<(), NoMemory>
    requires header { header < length store.old.lists }
    requires alone { list_any (is_id bare.id) (all_records store.old.lists) ≡ false }
    ensures ok { OnOk result (store.new.lists ≡ with_records store.old.lists header
        (records_of store.old.lists header ++ with_data bare body.now ∷ [])) }
    ensures err { OnErr result (store.new.lists ≡ store.old.lists) }
    ensures loose { store.new.loose ≡ store.old.loose }
    ensures size { length store.new.chains ≡ length store.old.chains }
{
    store.room()?;
    match try_data(store, body) {
        Ok(chain) => {
            let place = store.len(header);
            store.add(header, place, record(bare, chain));
            Ok(())
        }
        Err(_) => Err(NoMemory::beyond_counts()),
    }
}

// What has an id and nothing else.
fn blank(id: EntryId) -> Bare
    ensures { result ≡ blank id }
{
    Bare {
        id,
        version: 0,
        name: None,
        key: None,
        adj: None,
    }
}

/// Puts a record in place of the one with its id, which is there: with the data that are given, for
/// which there are elements once the old data are gone, or else with those that it has.
pub(crate) fn renew(store: &mut Store, bare: Bare, body: &Option<Body>)
    requires there { list_any (is_id bare.id) (all_records store.old.lists) ≡ true }
    requires used { AreUsed store.old.loose }
    requires elements { elements_in (all_records (lists_replaced
        (renewed bare body.now (record_of bare.id store.old.lists)) store.old.lists))
        ≤ length store.old.chains }
    ensures lists { store.new.lists ≡ lists_replaced
        (renewed bare body.now (record_of bare.id store.old.lists)) store.old.lists }
    ensures loose { store.new.loose ≡ store.old.loose }
    ensures size { length store.new.chains ≡ length store.old.chains }
    ensures apart { IsTrue (pairwise ids_apart (all_records store.old.lists)) }
{
    let id = bare.id;
    let old = store.set(id, record(blank(id), None));
    let Rec { body: own, .. } = old;
    let chain = new_data(store, own, body);
    let gone = store.set(id, record(bare, chain));
    let Rec { body: none, .. } = gone;
    give(store, none);
}

/// Takes out the record with an id, and puts it in a header, with a new key if one is given.
#[tactic(auto, using(list_model::proofs::ContentLaws::ordered_without))]
pub(crate) fn put_again(store: &mut Store, id: EntryId, header: u32, head: bool, key: Option<Key16>)
    requires room { 1 ≤ store.old.room }
    requires header { header < length store.old.lists }
    requires there { list_any (is_id id) (all_records store.old.lists) ≡ true }
    requires ordered { IsTrue (list_all (pairwise may_precede) store.old.lists) }
    ensures lists { store.new.lists
        ≡ put_back head header key (record_of id store.old.lists)
        (lists_without id store.old.lists) }
    ensures loose { store.new.loose ≡ store.old.loose }
    ensures chains { store.new.chains ≡ store.old.chains }
{
    let rec = take(store, id);
    let Rec {
        id,
        version,
        name,
        key: old,
        body,
        adj,
    } = rec;
    let key = key.or(old);
    let rec = Rec {
        id,
        version,
        name,
        key,
        body,
        adj,
    };
    put_record(store, header, head, rec);
}
