//! A chain: a list of items in blocks of 64.

ghost use Rattle.std.specs.Prelude.{◌≡◌, ℕ, ◌+◌, ◌<◌, ◌≤◌, ◌↔◌, List, [], ◌∷◌, ◌++◌};
ghost use Rattle.std.specs.Prelude.{length, IfOk, IsTrue, OnErr, OnOk};
ghost use Rattle.std.specs.List.{All};
ghost use Rattle.xs_block.specs.Chain.{blocks_of, items_of, slots_of, cut, most_blocks};
ghost use Rattle.xs_block.specs.Chain.{unsealed, sealed};
ghost use Rattle.xs_block.specs.steps.Blocks.{with_last};

use crate::blocks::{Blocks, MOST_BLOCKS};
use crate::items::{IntoItems, Items};
use std::alloc::{AllocError, Global};
use std::marker::Model;

/// A list of items in blocks. Contracts see the list of its blocks: the items of each, and whether
/// it is sealed.
#[derive(Drop)]
pub struct Chain<T> {
    blocks: Blocks<T>,
}

impl<T> Model for Chain<T> {
    ghost use Rattle.std.specs.Prelude.{List, ℕ, ◌<◌, length};
    ghost use Rattle.std.specs.List.{All};
    ghost use Rattle.xs_block.specs.Chain.{Block};

    ghost Value = { List (Block T) };

    ghost view = { λ c. c.blocks };

    ghost invariant = { λ c. All (λ block. 0 < length block.items) c.blocks };
}

impl<T: Drop> Chain<T> {
    /// A chain without items. It takes no memory.
    pub fn new(alloc: Global) -> Chain<T>
        ensures empty { result ≡ [] }
    {
        Chain {
            blocks: Blocks::new(alloc),
        }
    }

    /// The number of its blocks, sealed ones among them.
    pub fn blocks(&self) -> usize
        ensures blocks { result ≡ length self.now }
        ensures most { result ≤ most_blocks }
    {
        self.blocks.len()
    }

    /// Whether it has no items.
    pub fn is_empty(&self) -> bool
        ensures empty { IsTrue result ↔ (items_of self.now ≡ []) }
    {
        self.blocks.len() == 0
    }

    /// The free slots of the last block.
    #[inline(always)]
    pub(crate) fn slots(&self) -> usize
        ensures slots { result ≡ slots_of self.now }
    {
        self.blocks.slots()
    }

    /// Whether one chain can have the blocks of both; only memory that no machine has holds more.
    pub fn can_append(&self, second: &Chain<T>) -> bool
        ensures fits { IsTrue result ↔ (length self.now + length second.now ≤ most_blocks) }
    {
        self.blocks.len() <= MOST_BLOCKS - second.blocks.len()
    }

    /// An iterator over its items, in order.
    pub fn items(&self) -> Items<'_, T>
        ensures items { result ≡ items_of self.now }
    {
        Items::over(&self.blocks)
    }

    /// An iterator over its items by value, in order. Its blocks are freed, and no pool gets them.
    pub fn into_items(self) -> IntoItems<T>
        ensures items { result ≡ items_of self }
    {
        IntoItems::over(self.into_blocks())
    }

    /// Appends an item to the last block.
    #[inline(always)]
    pub(crate) fn push(&mut self, item: T)
        requires slots { 0 < slots_of self.old }
        ensures pushed { self.new ≡ with_last item self.old }
    {
        self.blocks.push(item);
    }

    /// Appends a block that was free, with an item in it.
    #[inline(never)]
    pub(crate) fn push_block(&mut self, mut block: Blocks<T>, item: T)
        requires free { block ≡ unsealed [] ∷ [] }
        requires fits { length self.old < most_blocks }
        ensures pushed { self.new ≡ self.old ++ unsealed (item ∷ []) ∷ [] }
    {
        block.push(item);
        self.blocks.append(block);
    }

    /// Keeps the first `n` items, and hands out the blocks after theirs.
    pub(crate) fn cut(&mut self, n: u64) -> Blocks<T>
        ensures kept { self.new ≡ cut n self.old }
        ensures rest { blocks_of result + blocks_of self.new ≡ blocks_of self.old }
    {
        self.blocks.cut(n)
    }

    /// Moves the items of the last block, if it has free slots, to one in room for them alone, and
    /// hands out the block that they were in. Out of memory all is as it was.
    pub(crate) fn seal(&mut self) -> Result<Blocks<T>, AllocError>
        ensures sealed { OnOk result (self.new ≡ sealed self.old) }
        ensures emptied { IfOk result (λ free. All (λ block. block ≡ unsealed []) free) }
        ensures blocks { IfOk result (λ free.
            length free + blocks_of self.new ≡ blocks_of self.old) }
        ensures few { IfOk result (λ free. length free ≤ 1) }
        ensures refused { OnErr result (self.new ≡ self.old) }
    {
        self.blocks.seal()
    }

    /// Its blocks.
    pub(crate) fn into_blocks(self) -> Blocks<T>
        ensures blocks { result ≡ self }
    {
        let Chain { blocks } = self;
        blocks
    }
}

/// Joins two chains in constant time. No item is copied, and no memory taken.
pub fn append_chain<T: Drop>(first: &mut Chain<T>, second: Chain<T>)
    requires fits { length first.old + length second ≤ most_blocks }
    ensures joined { first.new ≡ first.old ++ second }
{
    first.blocks.append(second.into_blocks());
}
