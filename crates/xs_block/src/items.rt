//! The items of a chain, one after another.

ghost use Rattle.std.specs.Iterator.{YieldsFirst, YieldsFirstBy, item_count};
ghost use Rattle.std.specs.Prelude.{◌≡◌};
ghost use Rattle.xs_block.specs.Chain.{items_of};

use crate::blocks::Blocks;
use std::collections::linked_list::Iter;
use std::marker::Model;
use std::vec::IntoIter;

/// The items of a chain that are still to come. Contracts see the list of them.
#[derive(Drop)]
pub struct Items<'a, T> {
    block: &'a [T],
    blocks: Iter<'a, Vec<T>>,
}

impl<'a, T> Model for Items<'a, T> {
    ghost use Rattle.std.specs.Prelude.{List, ◌++◌, map};
    ghost use Rattle.xs_block.specs.Chain.{items_of};
    ghost use Rattle.xs_block.specs.steps.Blocks.{block_of};

    ghost Value = { List T };

    ghost view = { λ i. i.block.now ++ items_of (map block_of i.blocks) };
}

impl<'a, T> Items<'a, T> {
    /// Those of some blocks.
    pub(crate) fn over(blocks: &'a Blocks<T>) -> Items<'a, T>
        ensures items { result ≡ items_of blocks.now }
    {
        Items {
            block: &[],
            blocks: blocks.list.iter(),
        }
    }
}

impl<'a, T> Iterator for Items<'a, T> {
    type Item = &'a T;

    ghost next_gives = { YieldsFirstBy (λ e. e.now) (λ a. a) };

    ghost remaining = { item_count (λ a. a) };

    fn next(&mut self) -> Option<&'a T> {
        loop {
            if let Some((item, rest)) = self.block.split_first() {
                self.block = rest;
                return Some(item);
            }
            self.block = self.blocks.next()?.as_slice();
        }
    }
}

/// The items of a chain that are still to come, by value. Contracts see the list of them.
#[derive(Drop)]
pub struct IntoItems<T> {
    block: IntoIter<T>,
    blocks: Blocks<T>,
}

impl<T> Model for IntoItems<T> {
    ghost use Rattle.std.specs.Prelude.{List, ◌++◌};
    ghost use Rattle.std.specs.Vec.Iter.{into_iter_items};
    ghost use Rattle.xs_block.specs.Chain.{items_of};

    ghost Value = { List T };

    ghost view = { λ i. into_iter_items i.block ++ items_of i.blocks };
}

impl<T: Drop> IntoItems<T> {
    /// Those of some blocks.
    pub(crate) fn over(blocks: Blocks<T>) -> IntoItems<T>
        ensures items { result ≡ items_of blocks }
    {
        let block = Vec::new(blocks.allocator()).into_iter();
        IntoItems { block, blocks }
    }
}

impl<T: Drop> Iterator for IntoItems<T> {
    type Item = T;

    ghost next_gives = { YieldsFirst (λ a. a) };

    ghost remaining = { item_count (λ a. a) };

    fn next(&mut self) -> Option<T> {
        loop {
            if let Some(item) = self.block.next() {
                return Some(item);
            }
            self.block = self.blocks.pop_first()?.into_iter();
        }
    }
}
