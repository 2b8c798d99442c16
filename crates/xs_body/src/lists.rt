//! Lists of nodes that are gone through.

ghost use Rattle.std.specs.Prelude.{◌≡◌, ◌<◌, ◌+◌, ◌∷◌, [], drop, length, IfOk, IfSome};
ghost use Rattle.std.specs.Prelude.{MatchOption};
ghost use Rattle.std.specs.List.{All};
ghost use Rattle.xs_body.specs.steps.Lists.{AreOrdered, nodes_in};
ghost use Rattle.xs_tree.specs.Record.{children};
ghost use Rattle.xs_value.specs.NodeSet.{IsNodeList};

use std::alloc::{AllocError, Global};
use xs_tree::{Node, Tree};
use xs_value::node_set::NodeSet;

/// Nodes, in the order in which they are gone through.
#[derive(Drop)]
pub enum NodeList {
    /// A node-set.
    Set(NodeSet),
    /// A list.
    List(Vec<Node>),
}

impl NodeList {
    /// The nodes.
    pub(crate) fn nodes(&self) -> &[Node]
        ensures { result.now ≡ nodes_in self.now }
    {
        match self {
            NodeList::Set(nodes) => nodes.nodes(),
            NodeList::List(nodes) => nodes.as_slice(),
        }
    }

    /// The set of them; they are in document order, each once.
    pub(crate) fn into_set(self) -> Result<NodeSet, AllocError>
        requires { AreOrdered self }
        ensures { IfOk result (λ set. set ≡ nodes_in self) }
    {
        match self {
            NodeList::Set(nodes) => Ok(nodes),
            NodeList::List(nodes) => NodeSet::of(nodes),
        }
    }

    /// How many nodes these are. No tree has as many as a place can't number.
    pub(crate) fn count(&self) -> Result<u32, AllocError>
        ensures { IfOk result (λ count. count ≡ length (nodes_in self.now)) }
    {
        count_of(self.nodes())
    }

    /// The node that comes next.
    pub(crate) fn node_at(&self, next: usize) -> Option<Node>
        ensures node { MatchOption result (drop next (nodes_in self.now) ≡ [])
            (λ n. drop next (nodes_in self.now) ≡ n ∷ drop (next + 1) (nodes_in self.now)) }
        ensures below { IfSome result (λ n. next < length (nodes_in self.now)) }
    {
        let nodes = self.nodes();
        nodes.get(next).copied()
    }
}

/// How many nodes these are.
pub(crate) fn count_of(nodes: &[Node]) -> Result<u32, AllocError>
    ensures { IfOk result (λ count. count ≡ length nodes.now) }
{
    match u32::try_from(nodes.len()) {
        Ok(count) => Ok(count),
        Err(_) => Err(AllocError),
    }
}

/// The children of a node.
pub(crate) fn children_of(alloc: Global, tree: &Tree, node: Node) -> Result<Vec<Node>, AllocError>
    requires { node < length tree.now }
    ensures children { IfOk result (λ found. found.items ≡ children tree.now node) }
    ensures inside { IfOk result (λ found. All (λ k. k < length tree.now) found.items) }
    ensures order { IfOk result (λ found. IsNodeList found.items) }
{
    let mut found = Vec::new(alloc);
    for child in tree.children(node) {
        found.push(child)?;
    }
    Ok(found)
}
