ghost use Rattle.std.specs.Prelude.{IfSome};
ghost use Rattle.cache_core.specs.CfPool.Pools.{IsChain};

use cache_core::pools::{Chain, NoElements, NoMemory, Pool};
use std::alloc::Global;
use std::test::Fail;

const SHORT: [u8; 3] = [1, 2, 3];

const LONG: [u8; 257] = [7; 257];

// Whether bytes of two elements come back.
fn come_back(alloc: Global, pool: &mut Pool) -> Result<bool, NoMemory> {
    let Ok(chain) = pool.put(LONG.as_slice()) else {
        return Ok(false);
    };
    let bytes = pool.read(alloc, &chain)?;
    Ok(pool.free() == 2 && bytes.as_slice() == LONG.as_slice())
}

#[test]
fn data_come_back(rt: HostRuntime) -> Result<(), Fail> {
    let mut pool = Pool::new(rt.alloc(), 4)?;
    assert!(rt; come_back(rt.alloc(), &mut pool)?);
    Ok(())
}

// Puts bytes of two elements, and then others of one element in their place.
fn put_twice(pool: &mut Pool) -> Option<Chain>
    ensures { IfSome result (λ chain. IsChain pool.new.chains chain.head) }
{
    let Ok(chain) = pool.put(LONG.as_slice()) else {
        return None;
    };
    match pool.replace(chain, SHORT.as_slice()) {
        Ok(chain) => Some(chain),
        Err(_) => None,
    }
}

// Whether the others come back, and one element is free again.
fn come_back_replaced(alloc: Global, pool: &mut Pool) -> Result<bool, NoMemory> {
    let Some(chain) = put_twice(pool) else {
        return Ok(false);
    };
    let bytes = pool.read(alloc, &chain)?;
    Ok(pool.free() == 1 && bytes.as_slice() == SHORT.as_slice())
}

#[test]
fn counts_the_old_chain_as_free(rt: HostRuntime) -> Result<(), Fail> {
    let mut pool = Pool::new(rt.alloc(), 2)?;
    assert!(rt; come_back_replaced(rt.alloc(), &mut pool)?);
    Ok(())
}

// Whether an element that is given back is free.
fn gives_back(pool: &mut Pool) -> bool {
    let Ok(chain) = pool.put(SHORT.as_slice()) else {
        return false;
    };
    let taken = pool.free() == 1;
    pool.give_back(chain);
    taken && pool.free() == 2
}

// What is told once two elements are taken.
fn told_when_full(pool: &mut Pool) -> Option<NoElements> {
    let _ = pool.put(LONG.as_slice()).ok()?;
    pool.put(SHORT.as_slice()).err()
}

#[test]
fn elements_run_out(rt: HostRuntime) -> Result<(), Fail> {
    let mut pool = Pool::new(rt.alloc(), 2)?;
    let back = gives_back(&mut pool);
    let told = told_when_full(&mut pool);
    assert!(rt; back && told == Some(NoElements { need: 1, free: 0 }));
    Ok(())
}
