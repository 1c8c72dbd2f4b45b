ghost use Rattle.std.specs.Prelude.{◌≡◌, ◌<◌, []};

use engine_api::types::{ConnId, Effects, EntryId, Key16, Name16, NoMemory};
use list_core::keyed::Keys;
use list_core::watches::Watch;
use std::alloc::Global;
use std::test::Fail;

const NAME: Name16 = Name16([65; 16]);

// Gives a record the name, which none has.
fn add(keys: &mut Keys) -> Result<(), NoMemory>
    requires { keys.old.names ≡ [] }
{
    keys.room()?;
    keys.add_name(NAME, EntryId(7));
    Ok(())
}

// Whether a copy has the record's name.
fn has_a_copy(alloc: Global, keys: &Keys) -> Result<bool, NoMemory> {
    let copy = keys.copy(alloc)?;
    Ok(copy.by_name(&NAME) == Some(EntryId(7)) && copy.place(&[], &Key16([66; 16]), true) == 0)
}

// Whether a name is found in a copy.
fn finds_a_copy(alloc: Global, keys: &mut Keys) -> Result<bool, NoMemory>
    requires { keys.old.names ≡ [] }
{
    add(keys)?;
    has_a_copy(alloc, keys)
}

#[test]
fn names_are_found(rt: HostRuntime) -> Result<(), Fail> {
    let mut keys = Keys::new(rt.alloc())?;
    assert!(rt; finds_a_copy(rt.alloc(), &mut keys)?);
    Ok(())
}

// Has a header monitored. Whether that sets one bit.
fn sets_a_bit(watch: &mut Watch, out: &mut Effects) -> Result<bool, NoMemory>
    requires index { 3 < watch.old.len }
    requires none { watch.old.rows ≡ [] }
{
    watch.room(out)?;
    watch.set(ConnId(1), 3, 0, true, out);
    Ok(out.bits.items().len() == 1)
}

// Whether a copy has the monitor.
fn is_watched_in_a_copy(alloc: Global, watch: &Watch) -> Result<bool, NoMemory> {
    let copy = watch.copy(alloc)?;
    Ok(copy.at(ConnId(1), 3) == Some(0))
}

// Whether a monitor sets one bit, and a copy has it.
fn watches_one(alloc: Global, watch: &mut Watch) -> Result<bool, NoMemory>
    requires index { 3 < watch.old.len }
    requires none { watch.old.rows ≡ [] }
{
    let set = sets_a_bit(watch, &mut Effects::new(alloc))?;
    Ok(set && is_watched_in_a_copy(alloc, watch)?)
}

#[test]
fn headers_are_watched(rt: HostRuntime) -> Result<(), Fail> {
    let mut watch = Watch::new(rt.alloc(), 2, 8)?;
    assert!(rt; watches_one(rt.alloc(), &mut watch)?);
    Ok(())
}
