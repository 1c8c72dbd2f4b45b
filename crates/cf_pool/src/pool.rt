ghost use Rattle.std.specs.Prelude.{◌≡◌, ◌+◌, ◌<◌, ◌≤◌, None, Some, replicate, length, slice_get, IfOk, IfErr, OnErr, IsErr, ◌↔◌, sum_by};
ghost use Rattle.cf_pool.specs.Chains.{need_of};
ghost use Rattle.cf_pool.specs.Pools.{need_at, need_in, IsChain, with_chain, without_chain};

use crate::chain::Chain;
use crate::chains::{fill, len_at, unlink};
use crate::elements::{SIZE, are_whole, blank, gather, linked, need_of, unused};
use crate::no_elements::NoElements;
use no_memory::NoMemory;
use std::alloc::Global;
use std::marker::Model;

/// Elements of 256 bytes in which data lie in chains. Contracts see, at each element, the bytes of
/// the chain that begins there, and how many elements are free.
///
/// Each element has the number of the next one of its chain, or of the free ones, and the length of
/// the chain that begins there, 0 where none does.
#[derive(Drop)]
pub struct Pool {
    cells: Vec<[u8; SIZE]>,
    next: Vec<u32>,
    lens: Vec<u32>,
    head: u32,
    free: u32,
}

impl Model for Pool {
    ghost use Rattle.cf_pool.specs.Pools.{Chains, chains_of, IsPool};

    ghost Value = { Chains };

    ghost view = { chains_of };

    ghost invariant = { IsPool };
}

impl Pool {
    /// A pool of so many elements, all free.
    pub fn new(alloc: Global, elements: u32) -> Result<Pool, NoMemory>
        ensures chains { IfOk result (λ pool. pool.chains ≡ replicate elements None) }
        ensures free { IfOk result (λ pool. pool.free ≡ elements) }
    {
        let cells = blank(alloc, elements as usize)?;
        let lens = unused(alloc, elements as usize)?;
        let next = linked(alloc, elements)?;
        are_whole(&cells);
        Ok(Pool {
            cells,
            next,
            lens,
            head: 0,
            free: elements,
        })
    }

    /// The same chains once more, in a region of their own. Only want of memory is refused.
    pub fn copy(&self, alloc: Global) -> Result<Pool, NoMemory>
        ensures { IfOk result (λ copy. copy ≡ self.now) }
    {
        let cells = Vec::from_slice(alloc, self.cells.as_slice())?;
        let next = Vec::from_slice(alloc, self.next.as_slice())?;
        let lens = Vec::from_slice(alloc, self.lens.as_slice())?;
        Ok(Pool {
            cells,
            next,
            lens,
            head: self.head,
            free: self.free,
        })
    }

    /// How many elements are free.
    pub fn free(&self) -> u32
        ensures free { result ≡ self.now.free }
        ensures all { sum_by need_at self.now.chains + self.now.free ≡ length self.now.chains }
    {
        self.free
    }

    /// Puts bytes into a new chain. It takes no memory.
    pub fn put(&mut self, bytes: &[u8]) -> Result<Chain, NoElements>
        requires some { 1 ≤ length bytes.now }
        requires few { length bytes.now ≤ 4096 }
        ensures refused { IsErr result ↔ self.old.free < need_of (length bytes.now) }
        ensures err { IfErr result (λ e. e
            ≡ record { need = need_of (length bytes.now); free = self.old.free }) }
        ensures same { OnErr result (self.new ≡ self.old) }
        ensures fresh { IfOk result (λ chain. slice_get self.old.chains chain.head ≡ Some None) }
        ensures put { IfOk result (λ chain. self.new ≡ with_chain self.old chain.head bytes.now) }
        ensures stored { IfOk result (λ chain. slice_get self.new.chains chain.head
            ≡ Some (Some bytes.now)) }
    {
        let need = need_of(bytes.len());
        if need > self.free {
            return Err(NoElements {
                need,
                free: self.free,
            });
        }
        let head = self.head;
        self.head = fill(
            &mut self.cells,
            &self.next,
            &mut self.lens,
            head,
            self.free,
            bytes,
        );
        self.free -= need;
        Ok(Chain { head })
    }

    /// Gives the elements of a chain back. It takes no memory.
    pub fn give_back(&mut self, chain: Chain)
        requires { IsChain self.old.chains chain.head }
        ensures { self.new ≡ without_chain self.old chain.head }
    {
        let Chain { head } = chain;
        let need = unlink(
            &self.cells,
            &mut self.next,
            &mut self.lens,
            self.head,
            self.free,
            head,
        );
        self.head = head;
        self.free += need;
    }

    /// How many elements a chain has.
    pub fn need(&self, chain: &Chain) -> u32
        requires { IsChain self.now.chains chain.now.head }
        ensures need { result ≡ need_in self.now.chains chain.now.head }
        ensures few { result ≤ 16 }
    {
        let len = len_at(
            &self.cells,
            &self.next,
            &self.lens,
            self.head,
            self.free,
            chain.head,
        );
        need_of(len as usize)
    }

    /// The bytes of a chain.
    pub fn read(&self, alloc: Global, chain: &Chain) -> Result<Vec<u8>, NoMemory>
        requires { IsChain self.now.chains chain.now.head }
        ensures { IfOk result (λ bytes. slice_get self.now.chains chain.now.head
            ≡ Some (Some bytes.items)) }
    {
        let len = len_at(
            &self.cells,
            &self.next,
            &self.lens,
            self.head,
            self.free,
            chain.head,
        );
        let bytes = gather(
            alloc,
            &self.cells,
            &self.next,
            need_of(len as usize),
            chain.head,
            len as usize,
        )?;
        Ok(bytes)
    }

    /// Puts bytes into a chain in place of its own. It takes no memory.
    pub fn replace(&mut self, chain: Chain, bytes: &[u8]) -> Result<Chain, (Chain, NoElements)>
        requires chain { IsChain self.old.chains chain.head }
        requires some { 1 ≤ length bytes.now }
        requires few { length bytes.now ≤ 4096 }
        ensures refused { IsErr result
            ↔ self.old.free + need_in self.old.chains chain.head < need_of (length bytes.now) }
        ensures err { IfErr result (λ e. e ≡ (
          chain,
          record {
            need = need_of (length bytes.now);
            free = self.old.free + need_in self.old.chains chain.head;
          },
        )) }
        ensures same { OnErr result (self.new ≡ self.old) }
        ensures put { IfOk result (λ new. self.new
            ≡ with_chain (without_chain self.old chain.head) new.head bytes.now) }
        ensures fresh { IfOk result (λ new. slice_get (without_chain self.old chain.head).chains
            new.head ≡ Some None) }
        ensures stored { IfOk result (λ new. slice_get self.new.chains new.head
            ≡ Some (Some bytes.now)) }
    {
        let need = need_of(bytes.len());
        let len = len_at(
            &self.cells,
            &self.next,
            &self.lens,
            self.head,
            self.free,
            chain.head,
        );
        let free = self.free + need_of(len as usize);
        if need > free {
            return Err((chain, NoElements { need, free }));
        }
        self.give_back(chain);
        match self.put(bytes) {
            Ok(new) => Ok(new),
            Err(_) => unreachable!(),
        }
    }
}
