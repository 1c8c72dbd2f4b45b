ghost use Rattle.std.specs.Prelude.{◌≡◌, ◌≤◌, ◌<◌, ◌+◌, [], None, length};
ghost use Rattle.cache_core.specs.CacheDir.RowMap.{row_at};

use cache_core::classes::Classes;
use cache_core::dirs::{Dir, DirRow, Holder};
use cache_core::reclaims::Order;
use cache_core::registrations::Regs;
use engine_api::types::{ConnId, Effects, Name16, NoMemory};
use std::alloc::Global;
use std::test::Fail;

const FIRST: Name16 = Name16([65; 16]);

const SECOND: Name16 = Name16([66; 16]);

// Registers a name. Whether that sets one bit.
fn sets_a_bit(regs: &mut Regs, out: &mut Effects) -> Result<bool, NoMemory>
    requires index { 3 < regs.old.len }
    requires none { regs.old.regs ≡ [] }
{
    regs.room(out)?;
    regs.set(ConnId(1), 3, FIRST, out);
    Ok(out.bits.items().len() == 1)
}

// Whether a copy has the name.
fn has_a_copy(alloc: Global, regs: &Regs) -> Result<bool, NoMemory> {
    let copy = regs.copy(alloc)?;
    Ok(copy.at(ConnId(1), 3) == Some(FIRST))
}

// Whether a registration sets one bit, and a copy has it.
fn registers_one(alloc: Global, regs: &mut Regs) -> Result<bool, NoMemory>
    requires index { 3 < regs.old.len }
    requires none { regs.old.regs ≡ [] }
{
    let set = sets_a_bit(regs, &mut Effects::new(alloc))?;
    Ok(set && has_a_copy(alloc, regs)?)
}

#[test]
fn registers(rt: HostRuntime) -> Result<(), Fail> {
    let mut regs = Regs::new(rt.alloc(), 2, 8)?;
    assert!(rt; registers_one(rt.alloc(), &mut regs)?);
    Ok(())
}

// Gives a name its class, where no more than one has one.
#[tactic(auto, using(crate::proofs::ClassLaws::one_more))]
fn classify(classes: &mut Classes, name: Name16) -> Result<(), NoMemory>
    requires few { length classes.old.names ≤ 1 }
    ensures more { length classes.new.names ≤ length classes.old.names + 1 }
{
    classes.room()?;
    classes.set(name, Some(3));
    Ok(())
}

// Whether a copy has both names, in order.
fn names_both(alloc: Global, classes: &Classes) -> Result<bool, NoMemory> {
    let copy = classes.copy(alloc)?;
    let names = copy.names(alloc, 3)?;
    Ok(names.as_slice() == [FIRST, SECOND].as_slice())
}

// Whether one name is left without the second.
fn leaves_one(classes: &mut Classes) -> bool {
    classes.set(SECOND, None);
    classes.count(3) == 1
}

// Whether names stand in order, whichever came first, and go alone.
fn keeps_in_order(alloc: Global, classes: &mut Classes) -> Result<bool, NoMemory>
    requires none { classes.old.names ≡ [] }
{
    classify(classes, SECOND)?;
    classify(classes, FIRST)?;
    let named = names_both(alloc, classes)?;
    Ok(named && leaves_one(classes))
}

#[test]
fn names_stand_in_order(rt: HostRuntime) -> Result<(), Fail> {
    let mut classes = Classes::new(rt.alloc())?;
    assert!(rt; keeps_in_order(rt.alloc(), &mut classes)?);
    Ok(())
}

// Uses both names, and the first one again.
fn touch_both(order: &mut Order) -> Result<(), NoMemory>
    requires { (order.old.order ≡ []) × (order.old.entries ≡ 2) }
{
    order.room()?;
    order.touch(FIRST, 1);
    order.room()?;
    order.touch(SECOND, 2);
    order.room()?;
    order.touch(FIRST, 1);
    Ok(())
}

// Whether a copy gives up the second name first, unless the first is of the class that asks; and the
// first alone once the second is gone.
fn gives_up_in_order(alloc: Global, order: &Order) -> Result<bool, NoMemory> {
    let mut copy = order.copy(alloc)?;
    let first = copy.victim(3, 0) == Some(SECOND) && copy.victim(1, 0) == Some(FIRST);
    copy.remove(&SECOND);
    Ok(first && copy.victim(1, 1).is_none())
}

// Whether names are given up so once both were used.
fn reclaims(alloc: Global, order: &mut Order) -> Result<bool, NoMemory>
    requires { (order.old.order ≡ []) × (order.old.entries ≡ 2) }
{
    touch_both(order)?;
    gives_up_in_order(alloc, order)
}

#[test]
fn reclaims_the_least_recently_used(rt: HostRuntime) -> Result<(), Fail> {
    let mut order = Order::new(rt.alloc(), 2)?;
    assert!(rt; reclaims(rt.alloc(), &mut order)?);
    Ok(())
}

// A row without data, which nobody holds.
fn row(name: Name16, stg: u32) -> DirRow
    ensures { result ≡ record {
      name = name;
      stored = None;
      adj = None;
      class = None;
      holder = None;
      stg = stg;
    } }
{
    DirRow {
        name,
        stored: None,
        adj: None,
        class: None,
        holder: None,
        stg,
    }
}

// Whether a row takes the place of the one that was put in before.
fn replaces(dir: &mut Dir) -> bool
    requires none { row_at dir.old.entries FIRST ≡ None }
    requires room { 1 ≤ dir.old.room }
{
    dir.put(row(FIRST, 1));
    let old = dir.set(row(FIRST, 2));
    old.stg == 1 && dir.len() == 1 && matches!(dir.find(&FIRST), Some(new) if new.stg == 2)
}

#[test]
fn a_row_takes_the_place_of_another(rt: HostRuntime) -> Result<(), Fail> {
    let mut dir = Dir::new(rt.alloc(), 1)?;
    assert!(rt; replaces(&mut dir));
    Ok(())
}

// A row without data, which a connector holds for castout.
fn held(name: Name16, conn: ConnId) -> DirRow
    ensures { result.name ≡ name }
{
    let mut held = row(name, 1);
    held.holder = Some(Holder {
        conn,
        rewritten: false,
    });
    held
}

// Whether the first row is held.
fn is_held(dir: &Dir) -> bool {
    match dir.find(&FIRST) {
        Some(row) => row.holder.is_some(),
        None => false,
    }
}

// Whether a lock on the first row goes with its connector alone.
fn releases(dir: &mut Dir) -> bool {
    if dir.find(&FIRST).is_none() {
        return false;
    }
    let _ = dir.set(held(FIRST, ConnId(2)));
    dir.release(ConnId(1));
    let stays = is_held(dir);
    dir.release(ConnId(2));
    stays && !is_held(dir)
}

// The same in a copy.
fn releases_in_a_copy(alloc: Global, dir: &mut Dir) -> Result<bool, NoMemory>
    requires none { row_at dir.old.entries FIRST ≡ None }
    requires room { 1 ≤ dir.old.room }
{
    dir.put(row(FIRST, 1));
    let mut copy = dir.copy(alloc)?;
    Ok(releases(&mut copy))
}

// A copy takes memory for the locks that are held, and here none are.
#[test]
fn a_lock_without_room_goes_with_its_connector(rt: HostRuntime) -> Result<(), Fail> {
    let mut dir = Dir::new(rt.alloc(), 1)?;
    assert!(rt; releases_in_a_copy(rt.alloc(), &mut dir)?);
    Ok(())
}
