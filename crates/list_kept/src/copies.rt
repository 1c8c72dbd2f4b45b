//! Copies of records and of their data, in a pool of their own.
ghost use Rattle.std.specs.Prelude.{◌≡◌, ◌+◌, ◌<◌, ◌++◌, ◌∷◌, [], None, Some, IfOk, OnOk, false, length};
ghost use Rattle.std.specs.List.{list_any};
ghost use Rattle.cf_lists.specs.Fronts.{front};
ghost use Rattle.list_store.specs.Lists.{all_records, records_of, with_records, is_id};
ghost use Rattle.list_store.specs.Records.{record_in, HasChain};
ghost use Rattle.list_kept.specs.Data.{AreUsed};

use crate::bare::Bare;
use crate::data::read_data;
use crate::placing::push;
use cf_types::NoMemory;
use list_store::{Rec, Store};
use std::alloc::Global;

// A record but for its data.
fn bare_of(rec: &Rec) -> Bare
    ensures { result ≡ record {
      id = rec.now.id;
      version = rec.now.version;
      name = rec.now.name;
      key = rec.now.key;
      adj = rec.now.adj;
    } }
{
    Bare {
        id: rec.id,
        version: rec.version,
        name: rec.name,
        key: rec.key,
        adj: rec.adj,
    }
}

// A copy of one record more, behind the others of a header.
fn push_copy(
    alloc: Global,
    store: &Store,
    header: u32,
    rec: &Rec,
    copy: &mut Store,
) -> Result<(), NoMemory>
    requires chain { HasChain store.now.chains rec.now.body }
    requires header { header < length copy.old.lists }
    requires alone { list_any (is_id rec.now.id) (all_records copy.old.lists) ≡ false }
    ensures lists { OnOk result (copy.new.lists ≡ with_records copy.old.lists header
        (records_of copy.old.lists header ++ record_in store.now.chains rec.now ∷ [])) }
    ensures loose { copy.new.loose ≡ copy.old.loose }
    ensures size { length copy.new.chains ≡ length copy.old.chains }
{
    let body = read_data(alloc, store, &rec.body)?;
    push(copy, header, bare_of(rec), &body)
}

// Copies of a header's records, where those of the headers before are there.
#[tactic(auto, using(cf_lists::proofs::FrontLaws::front_long, list_store::proofs::TiedLaws::none_within, list_store::proofs::StoreLaws::none_shown, cf_lists::proofs::FrontLaws::front_whole))]
fn copy_header(alloc: Global, store: &Store, header: u32, copy: &mut Store) -> Result<(), NoMemory>
    requires header { header < length store.now.lists }
    requires before { copy.old.lists ≡ front header 0 store.now.lists }
    ensures lists { OnOk result (copy.new.lists ≡ front (header + 1) 0 store.now.lists) }
    ensures loose { copy.new.loose ≡ copy.old.loose }
    ensures size { length copy.new.chains ≡ length copy.old.chains }
{
    for place in 0..store.len(header) {
        match store.at(header, place) {
            Some(rec) => push_copy(alloc, store, header, rec, copy)?,
            None => unreachable!(),
        }
    }
    Ok(())
}

/// The same records once more, in a pool of so many elements.
pub(crate) fn copy_records(alloc: Global, store: &Store, elements: u32) -> Result<Store, NoMemory>
    ensures lists { IfOk result (λ copy. copy.lists ≡ store.now.lists) }
    ensures used { IfOk result (λ copy. AreUsed copy.loose) }
    ensures size { IfOk result (λ copy. length copy.chains ≡ elements) }
{
    let mut copy = Store::new(alloc, 0, elements, store.headers())?;
    for header in 0..store.headers() {
        copy_header(alloc, store, header, &mut copy)?;
    }
    Ok(copy)
}
