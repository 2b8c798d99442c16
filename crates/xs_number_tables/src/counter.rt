//! The numbers that an instruction counts (XSLT 1.0, 7.7): its tables are made once, and give the
//! list of each node without a look back.

ghost use Rattle.std.specs.Prelude.{◌≡◌, ◌<◌, ◌∷◌, ◌++◌, [], IfOk, OnOk, filter, get_or, length};
ghost use Rattle.std.specs.Prelude.{map, not, take_while};
ghost use Rattle.xs_pattern_spec.specs.Counted.{alike_number, number_list};
ghost use Rattle.xs_number_tables.specs.steps.Counters.{AlikeNumbers, AreCounts, AreFrom};
ghost use Rattle.xs_number_tables.specs.steps.Counters.{AreNumbers};
ghost use Rattle.xs_number_tables.specs.steps.Counters.{IsCounter, NumbersBy, alike_to};
ghost use Rattle.xs_numbering.specs.Counting.{is_alike, list_at, multiple, sibling_number};
ghost use Rattle.xs_tree.specs.declared.axes.Axis.TheVariants.{Ancestor};
ghost use Rattle.xs_tree.specs.Axis.{axis_list};
ghost use Rattle.xs_numbering.specs.Passes.{is_flagged};
ghost use Rattle.xs_tree.specs.Record.{at, places};
ghost use Rattle.xs_value.specs.Tables.{TablesIn};

use crate::alike::{alike_any_numbers, alike_numbers};
use std::alloc::{AllocError, Global};
use xs_axes::axis_nodes;
use xs_numbering::levels::{multiple, number_at, single};
use xs_numbering::passes::{any_numbers, is_alike, sibling_numbers};
use xs_pattern::match_tables::match_table;
use xs_sheet::body::{Level, NumberDecl};
use xs_sheet::scoped::ScopedPattern;
use xs_tree::{Axis, Node, Tree, is_flagged};
use xs_value::keys::KeyFinder;

/// What is known of each node of a tree for a declaration.
#[derive(Drop)]
pub struct Counter {
    // Whether it matches `count`, where there is one.
    counts: Option<Vec<bool>>,
    // Whether it matches `from`; none without one.
    from: Vec<bool>,
    // Its number at the level.
    numbers: Vec<u32>,
}

impl Counter {
    /// The tables of a declaration over the nodes of a tree.
    pub fn new<K: KeyFinder>(
        alloc: Global,
        decl: &NumberDecl,
        tree: &Tree,
        keys: &K,
    ) -> Result<Counter, AllocError>
        requires tables { TablesIn tree.now (K.tables keys.now) }
        ensures { IfOk result (IsCounter (K.tables keys.now) tree.now decl.now) }
    {
        let counts = counts_of(alloc, &decl.count, tree, keys)?;
        let from = from_of(alloc, &decl.from, tree, keys)?;
        let numbers = numbers_of(alloc, decl.level, &counts, &from, tree)?;
        Ok(Counter {
            counts,
            from,
            numbers,
        })
    }

    /// The list of numbers that is counted for a node, by the tables of the declaration.
    pub fn list<K: KeyFinder>(
        &self,
        alloc: Global,
        decl: &NumberDecl,
        tree: &Tree,
        node: Node,
        keys: &K,
    ) -> Result<Vec<u64>, AllocError>
        requires node { node < length tree.now }
        requires counter { IsCounter (K.tables keys.now) tree.now decl.now self.now }
        ensures { IfOk result (λ list. list.items
            ≡ number_list (K.tables keys.now) tree.now decl.now node) }
    {
        let _keys = keys;
        let from = self.from.as_slice();
        let numbers = self.numbers.as_slice();
        match &self.counts {
            Some(counts) => {
                let counts = counts.as_slice();
                marked_list(alloc, decl.level, counts, from, numbers, tree, node)
            }
            None => alike_list(alloc, decl.level, from, numbers, tree, node),
        }
    }
}

// The flags of the nodes that match `count`, where there is one.
fn counts_of<K: KeyFinder>(
    alloc: Global,
    count: &Option<ScopedPattern>,
    tree: &Tree,
    keys: &K,
) -> Result<Option<Vec<bool>>, AllocError>
    requires tables { TablesIn tree.now (K.tables keys.now) }
    ensures { IfOk result (AreCounts (K.tables keys.now) tree.now count.now) }
{
    match count {
        Some(pattern) => Ok(Some(match_table(alloc, pattern, tree, keys)?)),
        None => Ok(None),
    }
}

// Those of the nodes that match `from`; none without one.
fn from_of<K: KeyFinder>(
    alloc: Global,
    from: &Option<ScopedPattern>,
    tree: &Tree,
    keys: &K,
) -> Result<Vec<bool>, AllocError>
    requires tables { TablesIn tree.now (K.tables keys.now) }
    ensures { IfOk result (λ flags. AreFrom (K.tables keys.now) tree.now from.now flags.items) }
{
    match from {
        Some(pattern) => match_table(alloc, pattern, tree, keys),
        None => Ok(Vec::new(alloc)),
    }
}

// The number of each node at a level.
fn numbers_of(
    alloc: Global,
    level: Level,
    counts: &Option<Vec<bool>>,
    from: &[bool],
    tree: &Tree,
) -> Result<Vec<u32>, AllocError>
    ensures { IfOk result (λ t. AreNumbers level counts.now from.now tree.now t.items) }
{
    match counts {
        Some(counts) => marked_numbers(alloc, level, counts, from, tree),
        None => alike_level_numbers(alloc, level, from, tree),
    }
}

// The same by flags of the nodes that count.
fn marked_numbers(
    alloc: Global,
    level: Level,
    counts: &[bool],
    from: &[bool],
    tree: &Tree,
) -> Result<Vec<u32>, AllocError>
    ensures { IfOk result (λ t. NumbersBy level counts.now from.now tree.now t.items) }
{
    match level {
        Level::Single => sibling_numbers(alloc, counts, tree),
        Level::Multiple => sibling_numbers(alloc, counts, tree),
        Level::Any => any_numbers(alloc, counts, from, tree),
    }
}

// The same among the nodes that are alike.
fn alike_level_numbers(
    alloc: Global,
    level: Level,
    from: &[bool],
    tree: &Tree,
) -> Result<Vec<u32>, AllocError>
    ensures { IfOk result (λ t. AlikeNumbers level from.now tree.now t.items) }
{
    match level {
        Level::Single => alike_numbers(alloc, tree),
        Level::Multiple => alike_numbers(alloc, tree),
        Level::Any => alike_any_numbers(alloc, from, tree),
    }
}

// The list for a node, by flags of the nodes that count.
fn marked_list(
    alloc: Global,
    level: Level,
    counts: &[bool],
    from: &[bool],
    numbers: &[u32],
    tree: &Tree,
    node: Node,
) -> Result<Vec<u64>, AllocError>
    requires node { node < length tree.now }
    requires numbers { NumbersBy level counts.now from.now tree.now numbers.now }
    ensures { IfOk result (λ v. v.items ≡ list_at level (is_flagged counts.now)
        (is_flagged from.now) tree.now node) }
{
    match level {
        Level::Single => single(alloc, numbers, counts, from, tree, node),
        Level::Multiple => multiple(alloc, numbers, counts, from, tree, node),
        Level::Any => alone(alloc, numbers, node),
    }
}

// The list for a node among those that are alike to it: at a single level, it is the first itself.
fn alike_list(
    alloc: Global,
    level: Level,
    from: &[bool],
    numbers: &[u32],
    tree: &Tree,
    node: Node,
) -> Result<Vec<u64>, AllocError>
    requires node { node < length tree.now }
    requires numbers { AlikeNumbers level from.now tree.now numbers.now }
    ensures { IfOk result (λ v. v.items ≡ list_at level (alike_to tree.now node)
        (is_flagged from.now) tree.now node) }
{
    match level {
        Level::Single => alone(alloc, numbers, node),
        Level::Multiple => alike_multiple(alloc, from, numbers, tree, node),
        Level::Any => alone(alloc, numbers, node),
    }
}

// The number of a node alone.
fn alone(alloc: Global, numbers: &[u32], node: Node) -> Result<Vec<u64>, AllocError>
    requires { node < length numbers.now }
    ensures { IfOk result (λ v. v.items ≡ get_or numbers.now node 0 ∷ []) }
{
    let mut list = Vec::new(alloc);
    list.push(number_at(numbers, node))?;
    Ok(list)
}

// The numbers of the node and of its ancestors that are alike to it, the outermost first.
fn alike_multiple(
    alloc: Global,
    from: &[bool],
    numbers: &[u32],
    tree: &Tree,
    node: Node,
) -> Result<Vec<u64>, AllocError>
    requires node { node < length tree.now }
    requires numbers { numbers.now ≡ map (alike_number tree.now) (places tree.now) }
    ensures { IfOk result (λ v. v.items
        ≡ multiple (alike_to tree.now node) (is_flagged from.now) tree.now node) }
{
    let mut found = Vec::new(alloc);
    add_alike(&mut found, numbers, tree, node, node)?;
    add_above(&mut found, from, numbers, tree, node)?;
    found.reverse();
    Ok(found)
}

// Appends the numbers of the ancestors of a node that are alike to it, below the nearest one that
// matches `from`.
fn add_above(
    out: &mut Vec<u64>,
    from: &[bool],
    numbers: &[u32],
    tree: &Tree,
    node: Node,
) -> Result<(), AllocError>
    requires node { node < length tree.now }
    requires numbers { numbers.now ≡ map (alike_number tree.now) (places tree.now) }
    ensures { OnOk result (out.new.items ≡ out.old.items
        ++ map (sibling_number (alike_to tree.now node) tree.now) (filter (alike_to tree.now node)
        (take_while (λ k. not (is_flagged from.now k)) (axis_list Ancestor tree.now node)))) }
{
    for ancestor in axis_nodes(tree, node, Axis::Ancestor) {
        if is_flagged(from, ancestor) {
            return Ok(());
        }
        add_alike(out, numbers, tree, node, ancestor)?;
    }
    Ok(())
}

// Appends the number of a node, if it is alike to another.
fn add_alike(
    out: &mut Vec<u64>,
    numbers: &[u32],
    tree: &Tree,
    like: Node,
    node: Node,
) -> Result<(), AllocError>
    requires like { like < length tree.now }
    requires node { node < length tree.now }
    requires numbers { numbers.now ≡ map (alike_number tree.now) (places tree.now) }
    ensures { OnOk result (out.new.items ≡ out.old.items
        ++ map (sibling_number (alike_to tree.now like) tree.now)
        (filter (alike_to tree.now like) (node ∷ []))) }
{
    if is_alike(tree, node, like) {
        out.push(number_at(numbers, node))?;
    }
    Ok(())
}
