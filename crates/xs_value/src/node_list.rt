//! Nodes that are gathered one by one.

ghost use Rattle.std.specs.Prelude.{◌≡◌, ◌∷◌, ◌++◌, [], IfOk, OnOk, length};
ghost use Rattle.xs_value.specs.steps.Held.{gathered_nodes};

use std::alloc::{AllocError, Global};
use std::marker::Model;
use std::slice;
use xs_tree::Node;

/// Where the nodes of a list lie: one at most in the list itself, more in memory of their own.
#[derive(Debug, Drop)]
pub(crate) enum Gathered {
    /// No node.
    Empty,
    /// One node.
    One(Node),
    /// Any nodes.
    Many(Vec<Node>),
}

/// A list of nodes, in any order and with repeats. Contracts see it as the list of the nodes.
///
/// Up to one node takes no memory.
#[derive(Debug, Drop)]
pub struct NodeList {
    alloc: Global,
    gathered: Gathered,
}

impl Model for NodeList {
    ghost use Rattle.std.specs.Prelude.{List, ℕ};
    ghost use Rattle.xs_value.specs.steps.Held.{gathered_nodes};

    ghost Value = { List ℕ };

    ghost view = { λ l. gathered_nodes l.gathered };
}

impl NodeList {
    /// No node.
    pub fn new(alloc: Global) -> NodeList
        ensures nodes { result ≡ [] }
    {
        NodeList {
            alloc,
            gathered: Gathered::Empty,
        }
    }

    /// These nodes.
    pub fn from_slice(alloc: Global, nodes: &[Node]) -> Result<NodeList, AllocError>
        ensures nodes { IfOk result (λ list. list ≡ nodes.now) }
    {
        Ok(NodeList {
            alloc,
            gathered: gathered_of(alloc, nodes)?,
        })
    }

    /// The nodes, in the order in which they came.
    #[inline(always)]
    pub fn as_slice(&self) -> &[Node]
        ensures nodes { result.now ≡ self.now }
    {
        match &self.gathered {
            Gathered::Empty => &[],
            Gathered::One(node) => slice::from_ref(node),
            Gathered::Many(nodes) => nodes.as_slice(),
        }
    }

    /// How many nodes they are.
    #[inline(always)]
    pub fn len(&self) -> usize
        ensures { result ≡ length self.now }
    {
        self.as_slice().len()
    }

    /// Adds a node after the others.
    #[inline(always)]
    pub fn push(&mut self, node: Node) -> Result<(), AllocError>
        ensures nodes { OnOk result (self.new ≡ self.old ++ node ∷ []) }
    {
        let alloc = self.alloc;
        match &mut self.gathered {
            Gathered::Empty => {
                self.gathered = Gathered::One(node);
                Ok(())
            }
            Gathered::One(first) => {
                let both = two_nodes(alloc, *first, node)?;
                self.gathered = Gathered::Many(both);
                Ok(())
            }
            Gathered::Many(nodes) => {
                nodes.push(node)?;
                Ok(())
            }
        }
    }

    /// Adds nodes after the others.
    #[inline(always)]
    pub fn extend_from_slice(&mut self, more: &[Node]) -> Result<(), AllocError>
        ensures nodes { OnOk result (self.new ≡ self.old ++ more.now) }
    {
        let alloc = self.alloc;
        match &mut self.gathered {
            Gathered::Empty => {
                let gathered = gathered_of(alloc, more)?;
                self.gathered = gathered;
                Ok(())
            }
            Gathered::One(first) => {
                let all = with_first(alloc, *first, more)?;
                self.gathered = Gathered::Many(all);
                Ok(())
            }
            Gathered::Many(nodes) => {
                nodes.extend_from_slice(more)?;
                Ok(())
            }
        }
    }

    /// Where the nodes lie.
    pub(crate) fn into_gathered(self) -> Gathered
        ensures { gathered_nodes result ≡ self }
    {
        self.gathered
    }
}

// These nodes, one at most in the value itself.
fn gathered_of(alloc: Global, nodes: &[Node]) -> Result<Gathered, AllocError>
    ensures { IfOk result (λ gathered. gathered_nodes gathered ≡ nodes.now) }
{
    match nodes {
        [] => Ok(Gathered::Empty),
        [node] => Ok(Gathered::One(*node)),
        _ => Ok(Gathered::Many(Vec::from_slice(alloc, nodes)?)),
    }
}

// Two nodes, with room for two more.
fn two_nodes(alloc: Global, first: Node, second: Node) -> Result<Vec<Node>, AllocError>
    ensures { IfOk result (λ nodes. nodes.items ≡ first ∷ second ∷ []) }
{
    let mut nodes = Vec::with_capacity(alloc, 4)?;
    nodes.push(first)?;
    nodes.push(second)?;
    Ok(nodes)
}

// A node, and others after it.
fn with_first(alloc: Global, first: Node, more: &[Node]) -> Result<Vec<Node>, AllocError>
    ensures { IfOk result (λ nodes. nodes.items ≡ first ∷ more.now) }
{
    let mut nodes = Vec::new(alloc);
    nodes.push(first)?;
    nodes.extend_from_slice(more)?;
    Ok(nodes)
}
