//! Numbers among the nodes that are alike (XSLT 1.0, 7.7): those that are counted where `count` is
//! absent. Each table is made in one pass, whatever the kinds and names of the nodes.

ghost use Rattle.std.specs.Prelude.{◌≡◌, ◌<◌, ◌+◌, ◌^◌, ◌==◌, ◌&&◌, ℕ, IfOk, OnOk};
ghost use Rattle.std.specs.Prelude.{if◌then◌else◌, length, map};
ghost use Rattle.xs_pattern_spec.specs.Counted.{alike_any_number, alike_number};
ghost use Rattle.xs_numbering.specs.Counting.{has_level, is_alike};
ghost use Rattle.xs_number_tables.specs.steps.Alike.{KindAndName, group_after, group_at};
ghost use Rattle.xs_number_tables.specs.steps.Alike.{held_count};
ghost use Rattle.xs_number_tables.specs.steps.Alike.{is_likeness, likeness, likeness_in, seen_by};
ghost use Rattle.xs_number_tables.specs.steps.Alike.{seen_in};
ghost use Rattle.xs_numbering.specs.Passes.{counted_on, held_by, is_flagged};
ghost use Rattle.xs_tree.specs.Record.{Record, at, is_place, places};

use std::alloc::{AllocError, Global};
use std::collections::HashMap;
use xs_numbering::passes::{has_level, held_by, kind_number};
use xs_tree::{Kind, Node, Tree, is_flagged};

/// What alike nodes have in common: the number of their kind, and their expanded name.
type Likeness<'t> = (u32, (&'t str, &'t str));

/// How many nodes of each likeness were seen in each group: among the children of a node, or since
/// a node that matches `from`.
#[derive(Drop)]
struct Seen<'t> {
    counts: HashMap<(u32, Likeness<'t>), u32>,
}

impl<'t> Seen<'t> {
    // None was seen.
    fn new(alloc: Global) -> Seen<'t>
        ensures { (group : ℕ) (l : KindAndName) → seen_by result group l ≡ 0 }
    {
        Seen {
            counts: HashMap::new(alloc),
        }
    }

    // How many of a likeness were seen in a group.
    fn count_of(&self, group: u32, likeness: Likeness<'_>) -> u32
        ensures { result ≡ seen_by self.now group (likeness_in likeness.entry) }
    {
        match self.counts.get(&(group, likeness)) {
            Some(count) => *count,
            None => 0,
        }
    }

    // So many of a likeness have been seen in a group.
    fn set(&mut self, group: u32, likeness: Likeness<'t>, count: u32) -> Result<(), AllocError>
        ensures { OnOk result ((other : ℕ) (l : KindAndName) → seen_by self.new other l
            ≡ (if (group == other) && is_likeness (likeness_in likeness.entry) l
            then count else seen_by self.old other l)) }
    {
        self.counts.insert((group, likeness), count)?;
        Ok(())
    }
}

/// For each node one more than how many siblings before it are alike to it.
pub(crate) fn alike_numbers(alloc: Global, tree: &Tree) -> Result<Vec<u32>, AllocError>
    ensures { IfOk result (λ t. t.items ≡ map (alike_number tree.now) (places tree.now)) }
{
    let mut numbers = Vec::new(alloc);
    let mut seen = Seen::new(alloc);
    for place in 0..tree.len() as u32 {
        let number = sibling_number(&mut seen, tree, Node::at(place))?;
        numbers.push(number)?;
    }
    Ok(numbers)
}

// The number of a node among the siblings that are alike to it; then it is seen itself.
fn sibling_number<'t>(seen: &mut Seen<'t>, tree: &'t Tree, node: Node) -> Result<u32, AllocError>
    requires node { node < length tree.now }
    requires few { held_count seen.old (at tree.now node) + 1 < 2 ^ 32 }
    ensures number { IfOk result (λ number. number ≡ held_count seen.old (at tree.now node) + 1) }
    ensures seen { OnOk result ((group : ℕ) (r : Record) → seen_in seen.new group r
        ≡ counted_on (is_place group (held_by (at tree.now node)) && is_alike (at tree.now node) r)
        (seen_in seen.old group r)) }
{
    match held_by(tree, node) {
        None => Ok(1),
        Some(parent) => count_next(seen, parent.place(), tree, node),
    }
}

// The number of the next node of its likeness in a group; then it is seen itself.
fn count_next<'t>(
    seen: &mut Seen<'t>,
    group: u32,
    tree: &'t Tree,
    node: Node,
) -> Result<u32, AllocError>
    requires node { node < length tree.now }
    requires few { seen_in seen.old group (at tree.now node) + 1 < 2 ^ 32 }
    ensures number { IfOk result (λ number.
        number ≡ seen_in seen.old group (at tree.now node) + 1) }
    ensures seen { OnOk result ((other : ℕ) (r : Record) → seen_in seen.new other r
        ≡ counted_on ((group == other) && is_alike (at tree.now node) r)
        (seen_in seen.old other r)) }
{
    let likeness = likeness(tree, node);
    let number = seen.count_of(group, likeness) + 1;
    seen.set(group, likeness, number)?;
    Ok(number)
}

// What a node has in common with those that are alike to it.
fn likeness(tree: &Tree, node: Node) -> Likeness<'_>
    requires { node < length tree.now }
    ensures { likeness_in result ≡ likeness (at tree.now node) }
{
    let kind = kind_number(tree.kind(node));
    (kind, (tree.uri(node), tree.local(node)))
}

/// For each node the number that `level="any"` counts for it among those that are alike to it, from
/// a table that flags the nodes that match `from`.
pub(crate) fn alike_any_numbers(
    alloc: Global,
    from: &[bool],
    tree: &Tree,
) -> Result<Vec<u32>, AllocError>
    ensures { IfOk result (λ t. t.items
        ≡ map (alike_any_number (is_flagged from.now) tree.now) (places tree.now)) }
{
    let mut numbers = Vec::new(alloc);
    let mut seen = Seen::new(alloc);
    let mut group = 0;
    for place in 0..tree.len() as u32 {
        let node = Node::at(place);
        let here = group_at(tree, node, group);
        let number = level_number(&mut seen, here, tree, node)?;
        numbers.push(number)?;
        group = group_after(tree, from, node, here);
    }
    Ok(numbers)
}

// The number of a node among those before it in a group that are alike to it; then it is seen
// itself, if it is at a level.
fn level_number<'t>(
    seen: &mut Seen<'t>,
    group: u32,
    tree: &'t Tree,
    node: Node,
) -> Result<u32, AllocError>
    requires node { node < length tree.now }
    requires few { seen_in seen.old group (at tree.now node) + 1 < 2 ^ 32 }
    ensures number { IfOk result (λ number.
        number ≡ seen_in seen.old group (at tree.now node) + 1) }
    ensures seen { OnOk result ((other : ℕ) (r : Record) → seen_in seen.new other r
        ≡ counted_on (has_level (at tree.now node)
        && ((group == other) && is_alike (at tree.now node) r)) (seen_in seen.old other r)) }
{
    if has_level(tree, node) {
        return count_next(seen, group, tree, node);
    }
    Ok(seen.count_of(group, likeness(tree, node)) + 1)
}

// The group of a node, by that of the node before it: a document begins another one.
fn group_at(tree: &Tree, node: Node, group: u32) -> u32
    requires node { node < length tree.now }
    requires few { group + 1 < 2 ^ 32 }
    ensures { result ≡ group_at (at tree.now node) group }
{
    if tree.kind(node) == Kind::Root {
        group + 1
    } else {
        group
    }
}

// The group after a node: what matches `from` begins another one.
fn group_after(tree: &Tree, from: &[bool], node: Node, group: u32) -> u32
    requires node { node < length tree.now }
    requires few { group + 1 < 2 ^ 32 }
    ensures { result ≡ group_after (at tree.now node) (is_flagged from.now node) group }
{
    if !has_level(tree, node) {
        return group;
    }
    if is_flagged(from, node) {
        group + 1
    } else {
        group
    }
}
