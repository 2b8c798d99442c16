//! The tree: making one, and adding nodes.

ghost use Rattle.std.specs.Prelude.{◌≡◌, ◌<◌, ◌≤◌, ◌↔◌, [], ◌∷◌, ◌++◌, Some, Err, length, is_some};
ghost use Rattle.std.specs.Prelude.{IfOk, IfSome, true, OnOk, OnErr, IsTrue};
ghost use Rattle.xs_tree.specs.Kinds.{bears_name, can_hold, has_local_name};
ghost use Rattle.xs_tree.specs.Record.{Record, at, root_record, with_node, with_same};
ghost use Rattle.xs_tree.specs.Shape.{CanBear, IsLocalName, IsOpen, KeepsOrder, IsTree};
ghost use Rattle.xs_tree.specs.Utf8.{IsUtf8Name};

mod conditions;
mod documents;
mod namespace_nodes;
mod readers;
mod string_value;
mod stripping;
mod text_nodes;
mod walks;

use crate::closing::keep;
use crate::entries::{Entry, TextPlace};
use crate::kinds::Kind;
use crate::names::Name;
use crate::nodes::Node;
use crate::store::Store;
pub use namespace_nodes::Namespaces;
use std::alloc::{AllocError, Global};
use std::marker::Model;
pub use text_nodes::Texts;
use thiserror::Error;
pub use walks::{Attributes, Children};

/// The most nodes that a tree can have, its root among them.
pub const MOST_NODES: usize = 8_000_000;

/// Why a node was not added.
#[derive(Debug, Drop, PartialEq, Eq, Error)]
pub enum TreeFault {
    /// The tree has as many nodes as a tree can have.
    #[error("the tree has no room for another node")]
    TooLarge,
    /// Memory ran out.
    #[error("out of memory")]
    NoMemory,
}

/// One or more documents as nodes in document order (XPath 1.0, 5).
///
/// Each name and each namespace URI is kept once, the other texts lie one after another in one
/// buffer, and a node takes 24 bytes beside its text. Adding a node takes constant time on average,
/// and so does finding where its subtree ends.
#[derive(Drop)]
pub struct Tree {
    nodes: Vec<Entry>,
    store: Store,
}

impl Model for Tree {
    ghost use Rattle.std.specs.Prelude.{List};
    ghost use Rattle.xs_tree.specs.Record.{Record};

    ghost Value = { List Record };

    ghost use Rattle.xs_tree.specs.View.{records, IsWell};

    ghost view = { records };

    ghost invariant = { IsWell };
}

impl Tree {
    /// A tree with the root of one document alone.
    pub fn new(alloc: Global) -> Result<Tree, AllocError>
        ensures root { IfOk result (λ tree. tree ≡ root_record ∷ []) }
    {
        let mut nodes = Vec::new(alloc);
        nodes.push(Entry {
            text: TextPlace { start: 0, end: 0 },
            name: 0,
            parent: 0,
            end: 0,
            kind: Kind::Root,
        })?;
        Ok(Tree {
            nodes,
            store: Store::new(alloc),
        })
    }

    /// Adds a node at the end, inside an open element or root.
    #[inline(always)]
    pub fn add(
        &mut self,
        kind: Kind,
        name: Option<Name>,
        text: &str,
        parent: Node,
    ) -> Result<Node, TreeFault>
        requires within { parent < length self.old }
        requires held { IsTrue (can_hold (at self.old parent).kind kind) }
        requires named { is_some name ≡ bears_name kind }
        requires spelled { has_local_name kind ≡ true → IfSome name IsLocalName }
        requires plain { kind ≡ Kind.Element → text.now ≡ [] }
        requires open { IsOpen self.old parent }
        requires order { KeepsOrder self.old parent kind }
        ensures node { IfOk result (λ node. node ≡ length self.old) }
        ensures added { OnOk result (self.new ≡ with_node self.old kind name text.now parent) }
        ensures too_large { (result ≡ Err TreeFault.TooLarge) ↔ (length self.old ≡ MOST_NODES) }
        ensures refused { OnErr result (self.new ≡ self.old) }
    {
        if self.is_full() {
            return Err(TreeFault::TooLarge);
        }
        self.store(kind, name, text, parent)
            .map_err(|_| TreeFault::NoMemory)
    }

    /// Adds a namespace node inside an open element, with the name and the URI of one that is in
    /// the tree.
    ///
    /// Takes memory for the node alone.
    pub fn add_same(&mut self, like: Node, parent: Node) -> Result<Node, TreeFault>
        requires found { like < length self.old }
        requires space { (at self.old like).kind ≡ Kind.Space }
        requires within { parent < length self.old }
        requires held { IsTrue (can_hold (at self.old parent).kind Kind.Space) }
        requires open { IsOpen self.old parent }
        requires order { KeepsOrder self.old parent Kind.Space }
        ensures node { IfOk result (λ node. node ≡ length self.old) }
        ensures added { OnOk result (self.new ≡ with_same self.old like parent) }
        ensures too_large { (result ≡ Err TreeFault.TooLarge) ↔ (length self.old ≡ MOST_NODES) }
        ensures refused { OnErr result (self.new ≡ self.old) }
    {
        if self.is_full() {
            return Err(TreeFault::TooLarge);
        }
        self.store_same(like, parent)
            .map_err(|_| TreeFault::NoMemory)
    }

    /// Adds a node at the end, inside an open element or root, with the name of one that is in the
    /// tree.
    ///
    /// Takes no memory for the name.
    #[inline(always)]
    pub fn add_like(
        &mut self,
        kind: Kind,
        like: Node,
        text: &str,
        parent: Node,
    ) -> Result<Node, TreeFault>
        requires found { like < length self.old }
        requires within { parent < length self.old }
        requires held { IsTrue (can_hold (at self.old parent).kind kind) }
        requires borne { CanBear kind (at self.old like).name text.now }
        requires open { IsOpen self.old parent }
        requires order { KeepsOrder self.old parent kind }
        ensures node { IfOk result (λ node. node ≡ length self.old) }
        ensures added { OnOk result
            (self.new ≡ with_node self.old kind (at self.old like).name text.now parent) }
        ensures too_large { (result ≡ Err TreeFault.TooLarge) ↔ (length self.old ≡ MOST_NODES) }
        ensures refused { OnErr result (self.new ≡ self.old) }
    {
        if self.is_full() {
            return Err(TreeFault::TooLarge);
        }
        self.store_like(kind, like, text, parent)
            .map_err(|_| TreeFault::NoMemory)
    }

    // Whether there is no room for another node.
    fn is_full(&self) -> bool
        ensures value { IsTrue result ↔ (length self.now ≡ MOST_NODES) }
        ensures few { length self.now ≤ MOST_NODES }
    {
        self.nodes.len() == MOST_NODES
    }

    // Adds a node where there is room for one.
    #[inline(always)]
    fn store(
        &mut self,
        kind: Kind,
        name: Option<Name>,
        text: &str,
        parent: Node,
    ) -> Result<Node, AllocError>
        requires room { length self.old < MOST_NODES }
        requires within { parent < length self.old }
        requires held { IsTrue (can_hold (at self.old parent).kind kind) }
        requires borne { CanBear kind name text.now }
        requires open { IsOpen self.old parent }
        requires order { KeepsOrder self.old parent kind }
        ensures node { IfOk result (λ node. node ≡ length self.old) }
        ensures added { OnOk result (self.new ≡ with_node self.old kind name text.now parent) }
        ensures refused { OnErr result (self.new ≡ self.old) }
    {
        name_is_utf8(&name);
        let name = self.store.keep_name(name)?;
        let text = self.store.keep_text(kind, text)?;
        let entry = Entry {
            text,
            name,
            parent: parent.place(),
            end: 0,
            kind,
        };
        let node = keep(&mut self.nodes, entry)?;
        Ok(node)
    }

    // Adds a node with the name of another where there is room for one.
    #[inline(always)]
    fn store_like(
        &mut self,
        kind: Kind,
        like: Node,
        text: &str,
        parent: Node,
    ) -> Result<Node, AllocError>
        requires room { length self.old < MOST_NODES }
        requires found { like < length self.old }
        requires within { parent < length self.old }
        requires held { IsTrue (can_hold (at self.old parent).kind kind) }
        requires borne { CanBear kind (at self.old like).name text.now }
        requires open { IsOpen self.old parent }
        requires order { KeepsOrder self.old parent kind }
        ensures node { IfOk result (λ node. node ≡ length self.old) }
        ensures added { OnOk result
            (self.new ≡ with_node self.old kind (at self.old like).name text.now parent) }
        ensures refused { OnErr result (self.new ≡ self.old) }
    {
        let name = self.nodes[like.place() as usize].name;
        let text = self.store.keep_text(kind, text)?;
        let entry = Entry {
            text,
            name,
            parent: parent.place(),
            end: 0,
            kind,
        };
        let node = keep(&mut self.nodes, entry)?;
        Ok(node)
    }

    // Adds a namespace node like another where there is room for one.
    fn store_same(&mut self, like: Node, parent: Node) -> Result<Node, AllocError>
        requires room { length self.old < MOST_NODES }
        requires found { like < length self.old }
        requires space { (at self.old like).kind ≡ Kind.Space }
        requires within { parent < length self.old }
        requires held { IsTrue (can_hold (at self.old parent).kind Kind.Space) }
        requires open { IsOpen self.old parent }
        requires order { KeepsOrder self.old parent Kind.Space }
        ensures node { IfOk result (λ node. node ≡ length self.old) }
        ensures added { OnOk result (self.new ≡ with_same self.old like parent) }
        ensures refused { OnErr result (self.new ≡ self.old) }
    {
        let entry = Entry {
            parent: parent.place(),
            end: 0,
            ..self.nodes[like.place() as usize]
        };
        let node = keep(&mut self.nodes, entry)?;
        Ok(node)
    }
}

// That the parts of a name are UTF-8.
fn name_is_utf8(name: &Option<Name>)
    ensures { IfSome name.now IsUtf8Name }
{
    if let Some(name) = name {
        let _uri = name.uri.as_str();
        let _local = name.local.as_str();
        let _prefix = name.prefix.as_str();
    }
}
