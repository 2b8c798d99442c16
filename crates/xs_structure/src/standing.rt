//! What each node of a module has by the nodes around it.

ghost use Rattle.std.specs.Prelude.{◌≡◌, ◌+◌, ◌<◌, ◌&&◌, ◌||◌, false, length, map, IfOk};
ghost use Rattle.std.specs.Prelude.{option_map};
ghost use Rattle.std.specs.List.{range_with_len};
ghost use Rattle.std.specs.Option.{option_map_or};
ghost use Rattle.xs_structure.specs.steps.Namespaces.{AreNamespaces};
ghost use Rattle.xs_structure.specs.Standing.{is_space_left_out, standing_of};
ghost use Rattle.xs_elements.specs.Nodes.{ancestors_or_self};
ghost use Rattle.xs_elements.specs.Reading.{is_seen, shows};
ghost use Rattle.xs_structure.specs.Scopes.{scopes_in, scopes_of};
ghost use Rattle.xs_elements.specs.Tags.{is_document_element, tag_of};
ghost use Rattle.xs_elements.specs.WhiteSpace.{preserves};
ghost use Rattle.xs_tree.specs.Kinds.{is_element_kind};
ghost use Rattle.xs_tree.specs.Record.{at, places};

use crate::namespaces::Namespaces;
use crate::scopes::Scopes;
use std::alloc::{AllocError, Global};
use xs_elements::kept::own_space;
use xs_elements::reading::Reading;
use xs_elements::tags::{Tag, is_document_element, tag_of};
use xs_tree::{InputHashes, Kind, Node, Tree};

/// How a node stands in its module.
#[derive(Clone, Copy)]
pub struct Standing {
    /// What it is, by its name.
    pub tag: Tag,
    /// How many nodes are around it, itself among them.
    pub depth: u32,
    /// How it is read.
    pub reading: Reading,
    /// Whether it is looked at: it and all elements around it are shown.
    pub is_seen: bool,
    /// Whether white space in it is preserved (XSLT 1.0, 3.4).
    pub preserves: bool,
    /// Of a namespace node, whether a literal element leaves it out (7.1.1).
    pub is_left_out: bool,
}

/// How the parent of a node stands, which came before it; none of a root.
fn parent_standing(standings: &[Standing], tree: &Tree, n: Node) -> Option<Standing>
    requires inside { n < length tree.now }
    requires table { standings.now ≡ map (standing_of tree.now) (range_with_len 0 n) }
    ensures { result ≡ option_map (standing_of tree.now) (at tree.now n).parent }
{
    let parent = tree.parent(n)?;
    Some(standings[parent.place() as usize])
}

/// How many nodes are around a node, itself among them, by how its parent stands.
fn depth_at(tree: &Tree, n: Node, parent: Option<Standing>) -> u32
    requires inside { n < length tree.now }
    requires parent { parent ≡ option_map (standing_of tree.now) (at tree.now n).parent }
    ensures { result ≡ length (ancestors_or_self tree.now n) }
{
    let _count = tree.len();
    match parent {
        Some(parent) => parent.depth + 1,
        None => 1,
    }
}

/// Whether children of a kind are looked at in an element that is read so.
fn shows(reading: Reading, child: Tag) -> bool
    ensures { result ≡ shows reading child }
{
    match reading {
        Reading::Known => true,
        Reading::Literal => true,
        Reading::Extension => matches!(child, Tag::Fallback),
        Reading::Unread => false,
    }
}

/// Whether a node is shown by its parent, which is read so.
fn is_shown(tree: &Tree, n: Node, tag: Tag, parent: Reading) -> bool
    requires { n < length tree.now }
    ensures { result ≡ (is_document_element tree.now n || shows parent tag) }
{
    is_document_element(tree, n) || shows(parent, tag)
}

/// Whether a node is looked at, whose parent stands so.
fn is_seen_in(tree: &Tree, n: Node, tag: Tag, parent: Standing) -> bool
    requires { n < length tree.now }
    ensures { result ≡ ((is_document_element tree.now n || shows parent.reading tag)
        && parent.is_seen) }
{
    is_shown(tree, n, tag, parent.reading) && parent.is_seen
}

/// Whether a node is looked at, by how its parent stands.
fn is_seen(tree: &Tree, n: Node, tag: Tag, parent: Option<Standing>) -> bool
    requires inside { n < length tree.now }
    requires tag { tag ≡ tag_of tree.now n }
    requires parent { parent ≡ option_map (standing_of tree.now) (at tree.now n).parent }
    ensures { result ≡ is_seen tree.now n }
{
    let _count = tree.len();
    match parent {
        Some(parent) => is_seen_in(tree, n, tag, parent),
        None => true,
    }
}

/// Whether white space is preserved around a node, whose parent stands so.
fn is_preserved_around(parent: Option<Standing>) -> bool
    ensures { result ≡ option_map_or (λ s. s.preserves) parent false }
{
    match parent {
        Some(parent) => parent.preserves,
        None => false,
    }
}

/// Whether white space is preserved in a node, by how its parent stands. An element alone says so,
/// and a node that is none has no attributes to look through.
fn preserves(tree: &Tree, n: Node, parent: Option<Standing>) -> bool
    requires inside { n < length tree.now }
    requires parent { parent ≡ option_map (standing_of tree.now) (at tree.now n).parent }
    ensures { result ≡ preserves tree.now n }
{
    let _count = tree.len();
    let around = is_preserved_around(parent);
    if !is_element(tree, n) {
        return around;
    }
    match own_space(tree, n) {
        Some(own) => own,
        None => around,
    }
}

/// Whether a node is an element.
pub fn is_element(tree: &Tree, n: Node) -> bool
    requires { n < length tree.now }
    ensures { result ≡ is_element_kind (at tree.now n).kind }
{
    matches!(tree.kind(n), Kind::Element)
}

/// Whether a node is a namespace node that a literal element leaves out.
fn is_left_out(tree: &Tree, n: Node, namespaces: &Namespaces<'_>) -> bool
    requires inside { n < length tree.now }
    requires namespaces { AreNamespaces tree.now (n + 1) namespaces.now }
    ensures { result ≡ is_space_left_out tree.now n }
{
    let _count = tree.len();
    match tree.kind(n) {
        Kind::Space => namespaces.leave_out(n, tree.text(n)),
        _ => false,
    }
}

/// How a node stands, by how its parent does.
fn standing_at(
    tree: &Tree,
    n: Node,
    tag: Tag,
    namespaces: &Namespaces<'_>,
    parent: Option<Standing>,
) -> Standing
    requires inside { n < length tree.now }
    requires tag { tag ≡ tag_of tree.now n }
    requires namespaces { AreNamespaces tree.now (n + 1) namespaces.now }
    requires parent { parent ≡ option_map (standing_of tree.now) (at tree.now n).parent }
    ensures { result ≡ standing_of tree.now n }
{
    Standing {
        tag,
        depth: depth_at(tree, n, parent),
        reading: namespaces.reading_of(tree, n, tag),
        is_seen: is_seen(tree, n, tag, parent),
        preserves: preserves(tree, n, parent),
        is_left_out: is_left_out(tree, n, namespaces),
    }
}

/// How the nodes of a module stand, in document order, by the namespaces in scope at them. Tables
/// have these hashes.
pub fn standings(
    alloc: Global,
    hashes: InputHashes,
    tree: &Tree,
    scopes: &Scopes,
) -> Result<Vec<Standing>, AllocError>
    requires scopes { scopes_in scopes.now ≡ scopes_of tree.now }
    ensures { IfOk result (λ table. table.items ≡ map (standing_of tree.now) (places tree.now)) }
{
    let mut namespaces = Namespaces::new(alloc, hashes);
    let mut standings = Vec::new(alloc);
    for place in 0..tree.len() as u32 {
        let n = Node::at(place);
        let tag = tag_of(tree, n);
        namespaces.enter(tree, n, tag, scopes.get(tree, n))?;
        let parent = parent_standing(&standings, tree, n);
        standings.push(standing_at(tree, n, tag, &namespaces, parent))?;
    }
    Ok(standings)
}

/// How a node stands, by the table of its module.
pub fn standing_in(standings: &[Standing], tree: &Tree, n: Node) -> Standing
    requires inside { n < length tree.now }
    requires table { standings.now ≡ map (standing_of tree.now) (places tree.now) }
    ensures { result ≡ standing_of tree.now n }
{
    standings[n.place() as usize]
}
