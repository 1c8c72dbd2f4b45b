//! Records' data in chains of the pool.
ghost use Rattle.std.specs.Prelude.{◌≡◌, ◌+◌, ◌<◌, ◌≤◌, ◌↔◌, None, Some, IfOk, OnErr, IsErr, length};
ghost use Rattle.std.specs.Option.{option_or};
ghost use Rattle.list_store.specs.Lists.{all_records};
ghost use Rattle.list_store.specs.Records.{HasChain, body_in, chains_less};
ghost use Rattle.list_model.specs.Records.{elements_in, elements_of};
ghost use Rattle.list_kept.specs.Data.{AreUsed};

use crate::bare::Bare;
use cf_types::{Body, NoMemory};
use list_store::{Chain, NoElements, Rec, Store};
use std::alloc::Global;

/// A record whose data lie in a chain.
pub(crate) fn record(bare: Bare, chain: Option<Chain>) -> Rec
    ensures { result ≡ record {
      id = bare.id;
      version = bare.version;
      name = bare.name;
      key = bare.key;
      body = chain;
      adj = bare.adj;
    } }
{
    Rec {
        id: bare.id,
        version: bare.version,
        name: bare.name,
        key: bare.key,
        body: chain,
        adj: bare.adj,
    }
}

// Puts data, where there are any, into a new chain, where there are elements.
#[tactic(auto, using(list_store::proofs::HeldLaws::set_twice, cf_lists::proofs::TableLaws::set_same))]
pub(crate) fn try_data(store: &mut Store, body: &Option<Body>) -> Result<Option<Chain>, NoElements>
    ensures refused { IsErr result ↔ store.old.free < elements_of body.now }
    ensures chain { IfOk result (λ chain. HasChain store.new.loose chain) }
    ensures bytes { IfOk result (λ chain. body_in store.new.chains chain ≡ body.now) }
    ensures was { IfOk result (λ chain. chains_less chain store.new.loose ≡ store.old.loose) }
    ensures lists { store.new.lists ≡ store.old.lists }
    ensures room { store.new.room ≡ store.old.room }
    ensures size { length store.new.chains ≡ length store.old.chains }
    ensures same { OnErr result (store.new ≡ store.old) }
{
    match body {
        None => Ok(None),
        Some(body) => match store.put_body(body.bytes()) {
            Ok(chain) => Ok(Some(chain)),
            Err(wanting) => Err(wanting),
        },
    }
}

/// Puts data, where there are any, into a new chain, for which there are elements.
pub(crate) fn put_data(store: &mut Store, body: &Option<Body>) -> Option<Chain>
    requires used { AreUsed store.old.loose }
    requires elements { elements_in (all_records store.old.lists) + elements_of body.now
        ≤ length store.old.chains }
    ensures chain { HasChain store.new.loose result }
    ensures bytes { body_in store.new.chains result ≡ body.now }
    ensures was { chains_less result store.new.loose ≡ store.old.loose }
    ensures lists { store.new.lists ≡ store.old.lists }
    ensures room { store.new.room ≡ store.old.room }
    ensures size { length store.new.chains ≡ length store.old.chains }
{
    match try_data(store, body) {
        Ok(chain) => chain,
        Err(_) => {
            let _ = store.free();
            unreachable!()
        }
    }
}

/// Gives a chain back, if there is one, which no record has.
pub(crate) fn give(store: &mut Store, chain: Option<Chain>)
    requires { HasChain store.old.loose chain }
    ensures lists { store.new.lists ≡ store.old.lists }
    ensures loose { store.new.loose ≡ chains_less chain store.old.loose }
    ensures room { store.new.room ≡ store.old.room }
    ensures size { length store.new.chains ≡ length store.old.chains }
{
    match chain {
        Some(chain) => store.give_body(chain),
        None => {}
    }
}

/// Puts data, where there are any, in place of those of a chain, which no record has; else they
/// stay.
pub(crate) fn new_data(store: &mut Store, own: Option<Chain>, body: &Option<Body>) -> Option<Chain>
    requires chain { HasChain store.old.loose own }
    requires used { AreUsed (chains_less own store.old.loose) }
    requires elements { elements_in (all_records store.old.lists) + elements_of body.now
        ≤ length store.old.chains }
    ensures chain { HasChain store.new.loose result }
    ensures bytes { body_in store.new.chains result
        ≡ option_or body.now (body_in store.old.chains own) }
    ensures was { chains_less result store.new.loose ≡ chains_less own store.old.loose }
    ensures lists { store.new.lists ≡ store.old.lists }
    ensures room { store.new.room ≡ store.old.room }
    ensures size { length store.new.chains ≡ length store.old.chains }
{
    match body {
        None => own,
        Some(_) => {
            give(store, own);
            put_data(store, body)
        }
    }
}

/// How many elements a record's data take.
pub(crate) fn need(store: &Store, chain: &Option<Chain>) -> u32
    requires { HasChain store.now.chains chain.now }
    ensures { result ≡ elements_of (body_in store.now.chains chain.now) }
{
    match chain {
        Some(chain) => store.need(chain),
        None => 0,
    }
}

/// A record's data, where it has any.
pub(crate) fn read_data(
    alloc: Global,
    store: &Store,
    chain: &Option<Chain>,
) -> Result<Option<Body>, NoMemory>
    requires { HasChain store.now.chains chain.now }
    ensures { IfOk result (λ body. body ≡ body_in store.now.chains chain.now) }
{
    match chain {
        Some(chain) => {
            let bytes = store.read_body(alloc, chain)?;
            Ok(Some(Body::from_vec(bytes)))
        }
        None => Ok(None),
    }
}
