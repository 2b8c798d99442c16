//! Ranks of names: none is below a name that it leads to, and two that lead to each other have the
//! same.
//!
//! They are made as the components of a graph are, by a walk along the uses and a second one back
//! (Sharir's and Kosaraju's algorithm). Nothing is proved of them here but that the walks end:
//! `none_rise` asks of all declarations whether what they use is ranked so.

ghost use Rattle.std.specs.Prelude.{◌≡◌, ◌+◌, OnOk, length, vec_len};
ghost use Rattle.std.specs.HashMap.{hash_map_len};
ghost use Rattle.std.specs.List.{list_all};
ghost use Rattle.xs_static.specs.steps.Ranks.{falls, rises_nowhere};
ghost use Rattle.xs_static.specs.steps.Uses.{uses_size};

use crate::circles::Declaration;
use crate::name_numbers::Numbers;
use crate::search::meet;
use crate::uses::Uses;
use std::alloc::{AllocError, Global};
use xs_elements::scope::Expanded;
use xs_tree::InputHashes;

/// Whether no name is ranked below one that its declarations use.
pub(crate) fn none_rise(ranks: &Numbers<'_>, declarations: &[Declaration<'_>]) -> bool
    ensures { result ≡ list_all (rises_nowhere ranks.now) declarations.now }
{
    declarations
        .iter()
        .all(|declaration| rises_nowhere(ranks, declaration))
}

/// Whether a declaration's name is ranked below none of those that it uses.
fn rises_nowhere(ranks: &Numbers<'_>, declaration: &Declaration<'_>) -> bool
    ensures { result ≡ rises_nowhere ranks.now declaration.now }
{
    let rank = ranks.of(declaration.name);
    declaration.sets.iter().all(|used| ranks.of(*used) <= rank)
}

/// Whether a declaration's name is ranked above all of those that it uses.
pub(crate) fn falls(ranks: &Numbers<'_>, declaration: &Declaration<'_>) -> bool
    ensures { result ≡ falls ranks.now declaration.now }
{
    let rank = ranks.of(declaration.name);
    declaration.sets.iter().all(|used| ranks.of(*used) < rank)
}

/// A step of the walk along the uses.
#[derive(Clone, Copy)]
enum Step<'a> {
    /// A name is come to.
    Enter(Expanded<'a>),
    /// All that a name uses was walked over.
    Leave(Expanded<'a>),
}

/// Comes to a name: what it uses is walked over next, unless the name was come to before.
fn enter<'a>(
    left: &mut Uses<'a>,
    todo: &mut Vec<Step<'a>>,
    name: Expanded<'a>,
) -> Result<(), AllocError>
    ensures less { OnOk result (
        vec_len todo.new + (uses_size left.new + hash_map_len left.new.names)
        ≡ vec_len todo.old + (uses_size left.old + hash_map_len left.old.names)) }
{
    match left.take(name) {
        Some(names) => {
            todo.push(Step::Leave(name))?;
            push_all(todo, &names)
        }
        None => Ok(()),
    }
}

/// Names are to be come to.
fn push_all<'a>(todo: &mut Vec<Step<'a>>, names: &[Expanded<'a>]) -> Result<(), AllocError>
    ensures more { OnOk result (vec_len todo.new ≡ vec_len todo.old + length names.now) }
{
    for name in names {
        todo.push(Step::Enter(*name))?;
    }
    Ok(())
}

/// The declared names in the order in which the walk along the uses leaves them.
fn left_in_order<'a>(
    alloc: Global,
    hashes: InputHashes,
    declarations: &[Declaration<'a>],
) -> Result<Vec<Expanded<'a>>, AllocError> {
    let mut left = Uses::of(alloc, hashes, declarations)?;
    let mut order = Vec::new(alloc);
    let mut todo = Vec::new(alloc);
    for declaration in declarations {
        todo.push(Step::Enter(declaration.name))?;
    }
    while let Some(step) = todo.pop() {
        match step {
            Step::Enter(name) => enter(&mut left, &mut todo, name)?,
            Step::Leave(name) => order.push(name)?,
        }
    }
    Ok(order)
}

/// Ranks a name and all that lead to it, except those that were ranked before.
fn rank_users<'a>(
    alloc: Global,
    left: &mut Uses<'a>,
    ranks: &mut Numbers<'a>,
    name: Expanded<'a>,
    rank: usize,
) -> Result<(), AllocError> {
    let mut todo = Vec::new(alloc);
    todo.push(name)?;
    while let Some(name) = todo.pop() {
        if left.has(name) {
            ranks.set(name, rank)?;
        }
        meet(left, &mut todo, name)?;
    }
    Ok(())
}

/// Ranks of the declared names, in a table with these hashes.
pub(crate) fn ranks<'a>(
    alloc: Global,
    hashes: InputHashes,
    declarations: &[Declaration<'a>],
) -> Result<Numbers<'a>, AllocError> {
    let order = left_in_order(alloc, hashes, declarations)?;
    let mut left = Uses::turned(alloc, hashes, declarations)?;
    let mut ranks = Numbers::new(alloc, hashes);
    for place in (0..order.len()).rev() {
        rank_users(alloc, &mut left, &mut ranks, order[place], place + 1)?;
    }
    Ok(ranks)
}
