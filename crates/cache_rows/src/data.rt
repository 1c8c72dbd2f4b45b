//! Data of rows in a pool of elements.
ghost use Rattle.std.specs.Prelude.{◌≡◌, ◌+◌, ◌≤◌, None, Some, IfOk, slice_get};
ghost use Rattle.cache_model.specs.CfPool.Pools.{with_chain};
ghost use Rattle.cf_types.specs.Stored.{elements_of};
ghost use Rattle.cache_rows.specs.Stored.{body_in, chain_of, chains_without, HasBytes, HasData};

use cache_model::dirs::DirRow;
use cache_model::pools::{Chain, Pool};
use cf_types::{Body, NoMemory};
use std::alloc::Global;

/// Puts data into the pool, where as many elements as they need are free. It takes no memory.
pub(crate) fn store(pool: &mut Pool, body: &Body) -> Chain
    requires { elements_of (Some body.now) ≤ pool.old.free }
    ensures fresh { slice_get pool.old.chains result.head ≡ Some None }
    ensures put { pool.new ≡ with_chain pool.old result.head body.now }
    ensures stored { HasBytes pool.new.chains result body.now }
{
    match pool.put(body.bytes()) {
        Ok(chain) => chain,
        Err(_) => unreachable!(),
    }
}

/// Gives the elements of data back. It takes no memory.
pub(crate) fn give_back(pool: &mut Pool, stored: Option<Chain>)
    requires { HasData pool.old.chains stored }
    ensures chains { pool.new.chains ≡ chains_without stored pool.old.chains }
    ensures free { pool.new.free ≡ pool.old.free + elements_of (body_in pool.old.chains stored) }
{
    match stored {
        Some(chain) => pool.give_back(chain),
        None => {}
    }
}

// A copy of the data of a chain.
fn read_chain(alloc: Global, pool: &Pool, chain: &Chain) -> Result<Body, NoMemory>
    requires { HasData pool.now.chains (Some chain.now) }
    ensures { IfOk result (λ body. Some body ≡ body_in pool.now.chains (Some chain.now)) }
{
    let bytes = pool.read(alloc, chain)?;
    Ok(Body::from_vec(bytes))
}

/// A copy of data, where there are some.
pub(crate) fn read(
    alloc: Global,
    pool: &Pool,
    stored: &Option<Chain>,
) -> Result<Option<Body>, NoMemory>
    requires { HasData pool.now.chains stored.now }
    ensures { IfOk result (λ body. body ≡ body_in pool.now.chains stored.now) }
{
    match stored {
        Some(chain) => Ok(Some(read_chain(alloc, pool, chain)?)),
        None => Ok(None),
    }
}

/// How many elements data take.
pub(crate) fn elements_at(pool: &Pool, stored: &Option<Chain>) -> u32
    requires { HasData pool.now.chains stored.now }
    ensures elements { result ≡ elements_of (body_in pool.now.chains stored.now) }
    ensures few { result ≤ 16 }
{
    match stored {
        Some(chain) => pool.need(chain),
        None => 0,
    }
}

/// The data of a row that was taken out of the directory.
pub(crate) fn data_of(row: Option<DirRow>) -> Option<Chain>
    ensures { result ≡ chain_of row }
{
    match row {
        Some(row) => row.stored,
        None => None,
    }
}
