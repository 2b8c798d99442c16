//! Chains of blocks and their pool: 65 items in two blocks, joined, cut and sealed chains, refused
//! memory.

use std::alloc::{AllocError, Global};
use xs_block::chain::{Chain, append_chain};
use xs_block::pool::Pool;

// Adds a number to a chain, with memory for it.
fn push_number(
    alloc: Global,
    pool: &mut Pool<Box<u32>>,
    chain: &mut Chain<Box<u32>>,
    n: u32,
) -> Result<(), AllocError> {
    pool.reserve(chain, 1)?;
    let item = Box::new(alloc, n)?;
    pool.push(chain, item);
    Ok(())
}

// A chain of the numbers from `first` to below `end`, with memory for each as it comes.
fn numbers(
    alloc: Global,
    pool: &mut Pool<Box<u32>>,
    first: u32,
    end: u32,
) -> Result<Chain<Box<u32>>, AllocError> {
    let mut chain = Chain::new(alloc);
    for n in first..end {
        push_number(alloc, pool, &mut chain, n)?;
    }
    Ok(chain)
}

// A value that may go to another thread.
fn sent<T: Send>(value: T) -> T {
    value
}

// Whether a chain has the numbers from 0 to below `end`.
fn counts_to(chain: &Chain<Box<u32>>, end: u32) -> bool {
    let mut next = 0_u32;
    let mut is_counted = true;
    for item in chain.items() {
        is_counted = is_counted && **item == next;
        next = next.wrapping_add(1);
    }
    is_counted && next == end
}

// Whether a chain gives the numbers from 0 to below `end`.
fn gives_to(chain: Chain<Box<u32>>, end: u32) -> bool {
    let mut next = 0_u32;
    let mut is_counted = true;
    for item in chain.into_items() {
        is_counted = is_counted && *item == next;
        next = next.wrapping_add(1);
    }
    is_counted && next == end
}

// Whether a pool makes room for 65 items in two blocks.
fn makes_room(alloc: Global, pool: &mut Pool<Box<u32>>) -> Result<bool, AllocError> {
    let chain = Chain::new(alloc);
    let made = pool.reserve(&chain, 65);
    let has_room = pool.free_blocks() == 2 && pool.spare(&chain) == 128;
    drop(chain);
    made?;
    Ok(has_room)
}

// Whether a chain has 65 numbers in two blocks, and leaves the pool none.
fn is_in_two_blocks(pool: &Pool<Box<u32>>, chain: &Chain<Box<u32>>) -> bool {
    chain.blocks() == 2
        && pool.free_blocks() == 0
        && pool.spare(chain) == 63
        && counts_to(chain, 65)
}

// Whether 65 numbers are in two blocks, which the pool gets back.
fn holds_65(alloc: Global, pool: &mut Pool<Box<u32>>) -> Result<bool, AllocError> {
    let chain = numbers(alloc, pool, 0, 65)?;
    let is_held = is_in_two_blocks(pool, &chain);
    pool.give_back(chain);
    Ok(is_held && pool.free_blocks() == 2)
}

// Joins a chain to another, where both fit; whether it did.
fn join(chain: &mut Chain<Box<u32>>, more: Chain<Box<u32>>) -> bool {
    if chain.can_append(&more) {
        append_chain(chain, more);
        return true;
    }
    drop(more);
    false
}

// Whether a chain has 75 numbers in three blocks.
fn is_joined(pool: &Pool<Box<u32>>, chain: &Chain<Box<u32>>) -> bool {
    chain.blocks() == 3 && pool.spare(chain) == 59 && counts_to(chain, 75)
}

// Cuts a chain of three blocks to 66 numbers; whether it has two blocks after.
fn cut(pool: &mut Pool<Box<u32>>, chain: &mut Chain<Box<u32>>) -> bool {
    pool.truncate(chain, 66);
    chain.blocks() == 2
        && pool.free_blocks() == 1
        && pool.spare(chain) == 126
        && counts_to(chain, 66)
}

// Whether 5 numbers are joined to a chain of 70, and all but 66 are cut off.
fn joins_and_cuts_chain(
    alloc: Global,
    pool: &mut Pool<Box<u32>>,
    chain: &mut Chain<Box<u32>>,
) -> Result<bool, AllocError> {
    let more = numbers(alloc, pool, 70, 75)?;
    let is_empty = more.is_empty();
    Ok(join(chain, more) && !is_empty && is_joined(pool, chain) && cut(pool, chain))
}

// Whether a chain of 70 numbers, to which 5 are joined, gives 66 once it is cut.
fn gives_66(alloc: Global, pool: &mut Pool<Box<u32>>) -> Result<bool, AllocError> {
    let mut chain = sent(numbers(alloc, pool, 0, 70)?);
    let is_cut = joins_and_cuts_chain(alloc, pool, &mut chain);
    let is_given = gives_to(chain, 66);
    Ok(is_cut? && is_given)
}

// Whether 80 numbers are the same once they are sealed, and the block of the last 16 is free; where
// memory was refused, all is as it was.
fn seals_80(alloc: Global, pool: &mut Pool<Box<u32>>) -> Result<bool, AllocError> {
    let mut chain = numbers(alloc, pool, 0, 80)?;
    let (free, spare) = match pool.seal(&mut chain) {
        Ok(()) => (1, 64),
        Err(_) => (0, 48),
    };
    let is_sealed = pool.free_blocks() == free && pool.spare(&chain) == spare;
    let is_same = chain.blocks() == 2 && counts_to(&chain, 80);
    pool.truncate(&mut chain, 70);
    let is_cut = pool.free_blocks() == free && counts_to(&chain, 70);
    pool.give_back(chain);
    Ok(is_sealed && is_same && is_cut && pool.free_blocks() == 2)
}

// Adds up to 200 numbers while there is room for one, and says how many.
fn fill(pool: &mut Pool<u32>, chain: &mut Chain<u32>) -> u32 {
    for n in 0..200 {
        if pool.spare(chain) == 0 {
            return n;
        }
        pool.push(chain, n);
    }
    200
}

// Whether a pool keeps the blocks that it made for 200 items, also where memory was refused.
fn keeps_blocks(pool: &mut Pool<u32>, mut chain: Chain<u32>) -> bool {
    let refused = pool.reserve(&chain, 200).is_err();
    let made = pool.free_blocks();
    let pushed = fill(pool, &mut chain);
    let held = pool.free_blocks().wrapping_add(chain.blocks());
    pool.truncate(&mut chain, 64);
    pool.give_back(chain);
    (refused || pushed == 200) && held == made && pool.free_blocks() == made
}

// Whether a pool, which may go to another thread, does so.
fn holds_items(alloc: Global) -> Result<bool, AllocError> {
    let mut pool = sent(Pool::new(alloc));
    let is_made = makes_room(alloc, &mut pool);
    let is_held = holds_65(alloc, &mut pool);
    let is_sealed = seals_80(alloc, &mut pool);
    let is_given = gives_66(alloc, &mut pool);
    drop(pool);
    Ok(is_made? && is_held? && is_sealed? && is_given?)
}

#[test]
fn chains_and_their_pool(rt: HostRuntime) -> Result<(), AllocError> {
    let mut pool = Pool::new(rt.alloc());
    assert!(rt; keeps_blocks(&mut pool, Chain::new(rt.alloc())));
    drop(pool);
    assert!(rt; holds_items(rt.alloc())?);
    Ok(())
}
