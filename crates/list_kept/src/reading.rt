//! Records that are named, and how much there is.
ghost use Rattle.std.specs.Prelude.{◌≡◌, ◌<◌, ◌^◌, option_map, find, IfSome};
ghost use Rattle.list_store.specs.Lists.{all_records, records_of, records_without, count_of};
ghost use Rattle.list_store.specs.Records.{record_in, HasChain};
ghost use Rattle.list_model.specs.Records.{has_key, elements_in};
ghost use Rattle.list_model.specs.Lists.{last_record, record_at, the_record};
ghost use Rattle.list_model.specs.Sublists.{sublist, sublist_of};

use crate::keeping::Kept;
use cf_types::{At, EntryId, Key16};
use list_model::Sublist;
use list_store::Rec;

/// How many elements of 256 bytes the data of all records take, but for the record with an id.
#[tactic(auto, using(crate::proofs::NamedLaws::elements_absent))]
pub fn elements_of_others(kept: &Kept, id: EntryId) -> u32
    ensures { result ≡ elements_in (records_without id (all_records kept.now.content.lists)) }
{
    match kept.get(id) {
        Some(rec) => kept.elements() - kept.need(&rec.body),
        None => kept.elements(),
    }
}

/// How many records there are, in all headers: fewer than 2^32.
#[tactic(auto, using(crate::proofs::ReadLaws::count_more))]
pub fn count(kept: &Kept) -> u32
    requires { count_of kept.now.content.lists < 2 ^ 32 }
    ensures { result ≡ count_of kept.now.content.lists }
{
    let mut total = 0;
    for header in 0..kept.headers() {
        total += kept.len(header);
    }
    total
}

// Whether a record has a key.
fn has_key(kept: &Kept, rec: &Rec, key: &Key16) -> bool
    ensures { result ≡ has_key key.now (record_in kept.now.chains rec.now) }
{
    match rec.key {
        Some(other) => other == *key,
        None => false,
    }
}

// The first record of a header with a key: by the order of the keys.
#[tactic(auto, using(crate::proofs::KeyedLaws::find_keyed, crate::proofs::KeyedLaws::keyed))]
fn keyed_in<'a>(kept: &'a Kept, header: u32, key: &Key16) -> Option<&'a Rec>
    ensures record { option_map (λ rec. record_in kept.now.chains rec.now) result
        ≡ find (has_key key.now) (records_of kept.now.content.lists header) }
    ensures chain { IfSome result (λ rec. HasChain kept.now.chains rec.now.body) }
{
    match kept.at(header, kept.place_of(header, true, *key)) {
        Some(rec) => {
            if has_key(kept, rec, key) {
                Some(rec)
            } else {
                None
            }
        }
        None => None,
    }
}

// The last record of a header.
fn last(kept: &Kept, header: u32) -> Option<&Rec>
    ensures record { option_map (λ rec. record_in kept.now.chains rec.now) result
        ≡ last_record (records_of kept.now.content.lists header) }
    ensures chain { IfSome result (λ rec. HasChain kept.now.chains rec.now.body) }
{
    let len = kept.len(header);
    if len == 0 {
        None
    } else {
        kept.at(header, len - 1)
    }
}

/// The record that a command names: by its id or name, as the first or the last one of a header, or
/// as the first one of a header with a key. None where there is no such record.
pub fn record_at(kept: &Kept, at: At) -> Option<&Rec>
    ensures record { option_map (λ rec. record_in kept.now.chains rec.now) result
        ≡ record_at kept.now.content.lists at }
    ensures chain { IfSome result (λ rec. HasChain kept.now.chains rec.now.body) }
{
    match at {
        At::Id(id) => kept.get(id),
        At::Name(name) => kept.named(&name),
        At::Head(header) => kept.at(header, 0),
        At::Tail(header) => last(kept, header),
        At::Key(header, key) => keyed_in(kept, header, &key),
    }
}

/// The id of the record that a command names; 0 where there is no such record.
pub fn id_at(kept: &Kept, at: At) -> EntryId
    ensures { result ≡ (the_record kept.now.content.lists at).id }
{
    match record_at(kept, at) {
        Some(rec) => rec.id,
        None => EntryId(0),
    }
}

/// How many records of a header have a key: by two binary searches. 0 where there is no such
/// header.
pub fn sublist(kept: &Kept, header: u32, key: &Key16) -> u32
    ensures { result ≡ sublist kept.now.content.lists header key.now }
{
    kept.place_of(header, false, *key) - kept.place_of(header, true, *key)
}

/// The sublist of the record that a command names; none where there is no such record, or where it
/// has no key.
pub fn sublist_of(kept: &Kept, at: At) -> Option<Sublist>
    ensures { result ≡ sublist_of kept.now.content.lists at }
{
    match record_at(kept, at) {
        Some(rec) => match rec.key {
            Some(key) => Some(Sublist {
                header: kept.header_of(rec.id),
                key,
            }),
            None => None,
        },
        None => None,
    }
}
