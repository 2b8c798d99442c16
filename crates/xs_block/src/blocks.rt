//! Lists of blocks, from which and to which blocks go without memory.

ghost use Rattle.std.specs.Prelude.{◌≡◌, ℕ, ◌+◌, ◌-◌, ◌<◌, ◌≤◌, List, [], ◌∷◌, ◌++◌};
ghost use Rattle.std.specs.Prelude.{length, map, take, drop, if◌then◌else◌, ◌↔◌};
ghost use Rattle.std.specs.Prelude.{IfOk, OnOk, OnErr, IsSome};
ghost use Rattle.std.specs.List.{All};
ghost use Rattle.std.specs.Option.{option_to_list};
ghost use Rattle.std.specs.Vec.{vec_items, vec_len, vec_capacity};
ghost use Rattle.xs_block.specs.Chain.{blocks_of, items_of, slots_of, cut, front, most_blocks};
ghost use Rattle.xs_block.specs.Chain.{block_slots, unsealed, sealed, sealed_block};
ghost use Rattle.xs_block.specs.steps.Blocks.{block_of, with_last};

use std::alloc::{AllocError, Global};
use std::collections::LinkedList;
use std::marker::Model;
use std::mem::replace;

/// The items that a block of a pool has room for.
pub(crate) const BLOCK: usize = 64;

/// The most blocks of a list.
pub(crate) const MOST_BLOCKS: usize = 0x7fff_ffff_ffff_ffff;

/// Blocks, each a vector with room for 64 items; one with other room is sealed. Contracts see the
/// items of each, and whether it is sealed.
#[derive(Drop)]
pub(crate) struct Blocks<T> {
    pub(crate) list: LinkedList<Vec<T>>,
    alloc: Global,
}

impl<T> Model for Blocks<T> {
    ghost use Rattle.std.specs.Prelude.{List, map};
    ghost use Rattle.xs_block.specs.Chain.{Block};
    ghost use Rattle.xs_block.specs.steps.Blocks.{block_of};

    ghost Value = { List (Block T) };

    ghost view = { λ b. map block_of b.list };
}

impl<T: Drop> Blocks<T> {
    /// No blocks, without memory.
    pub(crate) fn new(alloc: Global) -> Blocks<T>
        ensures { result ≡ [] }
    {
        Blocks {
            list: LinkedList::new(alloc),
            alloc,
        }
    }

    /// How many there are.
    pub(crate) fn len(&self) -> usize
        ensures len { result ≡ length self.now }
        ensures most { result ≤ most_blocks }
    {
        self.list.len()
    }

    /// The free slots of the last one.
    #[inline(always)]
    pub(crate) fn slots(&self) -> usize
        ensures slots { result ≡ slots_of self.now }
    {
        match self.list.back() {
            Some(block) => free_slots(block),
            None => 0,
        }
    }

    /// Whether the only one is sealed.
    pub(crate) fn is_sealed(&self) -> bool
        requires one { length self.now ≡ 1 }
        ensures sealed { blocks_of self.now ≡ (if result then 0 else 1) }
    {
        match self.list.front() {
            Some(block) => block.capacity() != BLOCK,
            None => unreachable!(),
        }
    }

    /// One more, without items, at the end.
    pub(crate) fn add(&mut self) -> Result<(), AllocError>
        ensures ok { OnOk result (self.new ≡ self.old ++ unsealed [] ∷ []) }
        ensures err { OnErr result (self.new ≡ self.old) }
    {
        let block = Vec::with_capacity(self.alloc, BLOCK)?;
        self.list.push_back(block)?;
        Ok(())
    }

    /// One more item in the last block.
    #[inline(always)]
    pub(crate) fn push(&mut self, item: T)
        requires slots { 0 < slots_of self.old }
        ensures pushed { self.new ≡ with_last item self.old }
    {
        let Some(block) = self.list.back_mut() else {
            unreachable!();
        };
        block.push_reserved(item);
    }

    /// Keeps the first `n` items of the only block, and returns how many of `n` are left over.
    pub(crate) fn trim(&mut self, n: u64) -> u64
        requires one { length self.old ≡ 1 }
        ensures kept { self.new ≡ map (front n) self.old }
        ensures left { result ≡ n - length (items_of self.old) }
    {
        match self.list.front_mut() {
            Some(block) => trim_block(block, n),
            None => unreachable!(),
        }
    }

    /// Takes the first block off.
    #[inline(never)]
    pub(crate) fn take_first(&mut self) -> Blocks<T>
        requires some { 0 < length self.old }
        ensures first { result ≡ take 1 self.old }
        ensures rest { self.new ≡ drop 1 self.old }
    {
        let list = match self.list.split_off(1) {
            Ok(rest) => replace(&mut self.list, rest),
            Err(_) => unreachable!(),
        };
        Blocks {
            list,
            alloc: self.alloc,
        }
    }

    /// Takes the first block out of the list, if there is one; the list's memory for it is freed.
    pub(crate) fn pop_first(&mut self) -> Option<Vec<T>>
        ensures popped { self.old ≡ map block_of (option_to_list result) ++ self.new }
        ensures variant { IsSome result ↔ (0 < length self.old) }
    {
        self.list.pop_front()
    }

    /// The allocator of the list.
    pub(crate) fn allocator(&self) -> Global {
        self.alloc
    }

    /// Moves other blocks to the end.
    pub(crate) fn append(&mut self, mut other: Blocks<T>)
        requires fits { length self.old + length other ≤ most_blocks }
        ensures joined { self.new ≡ self.old ++ other }
    {
        let _joined = self.list.append(&mut other.list);
    }

    /// Moves the items of the last block, if it has free slots, to one in room for them alone, and
    /// hands out the block that they were in. Out of memory all is as it was.
    pub(crate) fn seal(&mut self) -> Result<Blocks<T>, AllocError>
        ensures sealed { OnOk result (self.new ≡ sealed self.old) }
        ensures emptied { IfOk result (λ free. All (λ block. block ≡ unsealed []) free) }
        ensures blocks { IfOk result (λ free.
            length free + blocks_of self.new ≡ blocks_of self.old) }
        ensures few { IfOk result (λ free. length free ≤ 1) }
        ensures refused { OnErr result (self.new ≡ self.old) }
    {
        if self.slots() == 0 {
            return Ok(Blocks::new(self.alloc));
        }
        let mut free = LinkedList::new(self.alloc);
        let place = free.push_back_mut(Vec::new(self.alloc))?;
        let Some(block) = self.list.back_mut() else {
            unreachable!();
        };
        let emptied = seal_block(self.alloc, block)?;
        *place = emptied;
        Ok(Blocks {
            list: free,
            alloc: self.alloc,
        })
    }

    /// Keeps the blocks of the first `n` items, and hands out the others.
    #[tactic(auto, using(crate::proofs::CutLemmas::cut_some, crate::proofs::CutLemmas::cut_nil))]
    pub(crate) fn cut(&mut self, n: u64) -> Blocks<T>
        ensures kept { self.new ≡ cut n self.old }
        ensures rest { blocks_of result + blocks_of self.new ≡ blocks_of self.old }
    {
        let blocks = self.len();
        let mut kept = Blocks::new(self.alloc);
        let mut left = n;
        while left > 0 && kept.len() < blocks {
            let mut block = self.take_first();
            left = block.trim(left);
            kept.append(block);
        }
        replace(self, kept)
    }
}

/// Keeps the first `n` items of a block, and returns how many of `n` are left over.
fn trim_block<T: Drop>(block: &mut Vec<T>, n: u64) -> u64
    ensures kept { block.new.items ≡ take n block.old.items }
    ensures room { vec_capacity block.new ≡ vec_capacity block.old }
    ensures left { result ≡ n - vec_len block.old }
{
    let len = block.len() as u64;
    if n < len {
        block.truncate(n as usize);
        return 0;
    }
    n - len
}

/// The free slots of a block: none, where it is sealed.
fn free_slots<T>(block: &Vec<T>) -> usize
    ensures slots { result ≡ slots_of (block_of block.now ∷ []) }
{
    if block.capacity() != BLOCK {
        return 0;
    }
    BLOCK - block.len()
}

/// Moves the items of a block with free slots to room for them alone, and returns the block without
/// them. Out of memory it is as it was.
fn seal_block<T: Drop>(alloc: Global, block: &mut Vec<T>) -> Result<Vec<T>, AllocError>
    requires slots { 0 < block_slots (block_of block.old) }
    ensures sealed { OnOk result (block_of block.new ≡ sealed_block (block_of block.old)) }
    ensures emptied { IfOk result (λ emptied. block_of emptied ≡ unsealed []) }
    ensures refused { OnErr result (block_of block.new ≡ block_of block.old) }
{
    let mut exact = Vec::with_capacity(alloc, block.len())?;
    exact.append(block)?;
    let emptied = replace(block, exact);
    // With more room than was asked for it may be a block of 64 slots again.
    if block.capacity() == BLOCK {
        return Err(AllocError);
    }
    Ok(emptied)
}
