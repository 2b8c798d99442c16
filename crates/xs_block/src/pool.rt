//! The pool of free blocks, from which chains take theirs.

ghost use Rattle.std.specs.Prelude.{◌≡◌, ℕ, ◌+◌, ◌-◌, ◌^◌, ◌<◌, ◌≤◌, min, [], ◌∷◌, ◌++◌};
ghost use Rattle.std.specs.Prelude.{length, take, OnOk, OnErr};
ghost use Rattle.xs_block.specs.Chain.{blocks_of, items_of, spare_of, cut, most_blocks, with_free};
ghost use Rattle.xs_block.specs.Chain.{unsealed, sealed};

use crate::blocks::{BLOCK, Blocks, MOST_BLOCKS};
use crate::chain::Chain;
use std::alloc::{AllocError, Global};
use std::marker::Model;

/// Free blocks. Contracts see how many.
#[derive(Drop)]
pub struct Pool<T> {
    free: Blocks<T>,
}

impl<T> Model for Pool<T> {
    ghost use Rattle.std.specs.Prelude.{◌≡◌, ℕ, [], length};
    ghost use Rattle.xs_block.specs.Chain.{unsealed};
    ghost use Rattle.std.specs.List.{All};

    ghost Value = { ℕ };

    ghost view = { λ p. length p.free };

    ghost invariant = { λ p. All (λ block. block ≡ unsealed []) p.free };
}

impl<T: Drop> Pool<T> {
    /// A pool without blocks. It takes no memory.
    pub fn new(alloc: Global) -> Pool<T>
        ensures empty { result ≡ 0 }
    {
        Pool {
            free: Blocks::new(alloc),
        }
    }

    /// The number of free blocks.
    pub fn free_blocks(&self) -> usize
        ensures free { result ≡ self.now }
        ensures most { result ≤ most_blocks }
    {
        self.free.len()
    }

    /// How many items can be pushed on a chain without more memory; 2^64 - 1 where it is more.
    pub fn spare(&self, chain: &Chain<T>) -> u64
        ensures spare { result ≡ min (spare_of self.now chain.now) (2 ^ 64 - 1) }
    {
        let blocks = self.blocks_for(chain) as u64;
        let slots = chain.slots() as u64;
        blocks.saturating_mul(BLOCK as u64).saturating_add(slots)
    }

    /// How many of the free blocks a chain can take.
    fn blocks_for(&self, chain: &Chain<T>) -> usize
        ensures blocks { result ≡ min self.now (most_blocks - length chain.now) }
    {
        let room = MOST_BLOCKS - chain.blocks();
        self.free.len().min(room)
    }

    /// Makes room for `n` more items on a chain, with no more new blocks than that takes.
    /// Out of memory, the blocks that were made until then are free.
    #[inline(always)]
    pub fn reserve(&mut self, chain: &Chain<T>, n: u64) -> Result<(), AllocError>
        ensures ok { OnOk result (n ≤ spare_of self.new chain.now) }
        ensures refused { OnErr result (spare_of self.new chain.now < n) }
        ensures kept { self.old ≤ self.new }
        ensures fewest { self.old < self.new → spare_of (self.new - 1) chain.now < n }
    {
        if n <= chain.slots() as u64 {
            return Ok(());
        }
        while self.spare(chain) < n {
            if self.free_blocks() >= MOST_BLOCKS - chain.blocks() {
                return Err(AllocError);
            }
            self.add()?;
        }
        Ok(())
    }

    /// One more free block.
    #[inline(never)]
    fn add(&mut self) -> Result<(), AllocError>
        ensures ok { OnOk result (self.new ≡ self.old + 1) }
        ensures err { OnErr result (self.new ≡ self.old) }
    {
        self.free.add()
    }

    /// Takes a block.
    fn take(&mut self) -> Blocks<T>
        requires some { 0 < self.old }
        ensures free { result ≡ unsealed [] ∷ [] }
        ensures rest { self.new + 1 ≡ self.old }
    {
        self.free.take_first()
    }

    /// Appends an item to a chain. It takes no memory.
    #[inline(always)]
    pub fn push(&mut self, chain: &mut Chain<T>, item: T)
        requires spare { 0 < spare_of self.old chain.old }
        ensures items { items_of chain.new ≡ items_of chain.old ++ item ∷ [] }
        ensures earlier { take (length chain.old - 1) chain.new
            ≡ take (length chain.old - 1) chain.old }
        ensures spare { spare_of self.new chain.new + 1 ≡ spare_of self.old chain.old }
        ensures blocks { self.new + blocks_of chain.new ≡ self.old + blocks_of chain.old }
    {
        if chain.slots() == 0 {
            let block = self.take();
            chain.push_block(block, item);
        } else {
            chain.push(item);
        }
    }

    /// Keeps the first `n` items of a chain. The blocks after theirs are free.
    pub fn truncate(&mut self, chain: &mut Chain<T>, n: u64)
        ensures kept { chain.new ≡ cut n chain.old }
        ensures items { items_of chain.new ≡ take n (items_of chain.old) }
        ensures free { self.new ≡ with_free self.old (blocks_of chain.old - blocks_of chain.new) }
    {
        let rest = chain.cut(n);
        self.free(rest);
    }

    /// Takes the blocks of a chain back: all of them are free.
    pub fn give_back(&mut self, chain: Chain<T>)
        ensures free { self.new ≡ with_free self.old (blocks_of chain) }
    {
        self.free(chain.into_blocks());
    }

    /// Seals a chain: the items of its last block, if that has free slots, move to room for them
    /// alone, and the block is free. Out of memory all is as it was.
    pub fn seal(&mut self, chain: &mut Chain<T>) -> Result<(), AllocError>
        ensures sealed { OnOk result (chain.new ≡ sealed chain.old) }
        ensures refused { OnErr result (chain.new ≡ chain.old) }
        ensures items { items_of chain.new ≡ items_of chain.old }
        ensures blocks { self.new + blocks_of chain.new ≡ self.old + blocks_of chain.old }
    {
        if self.free.len() == MOST_BLOCKS {
            return Err(AllocError);
        }
        self.free.append(chain.seal()?);
        Ok(())
    }

    /// Some blocks are free, except sealed ones; their items are dropped.
    fn free(&mut self, mut blocks: Blocks<T>)
        ensures free { self.new ≡ with_free self.old (blocks_of blocks) }
    {
        while blocks.len() > 0 {
            let mut block = blocks.take_first();
            if !block.is_sealed() {
                let _left = block.trim(0);
                self.gain(block);
            }
        }
    }

    /// A block is free, if there is a number for one more.
    fn gain(&mut self, block: Blocks<T>)
        requires free { block ≡ unsealed [] ∷ [] }
        ensures free { self.new ≡ with_free self.old 1 }
    {
        if self.free.len() < MOST_BLOCKS {
            self.free.append(block);
        }
    }
}
