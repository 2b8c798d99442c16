//! What a tree says of one node.

ghost use Rattle.std.specs.Prelude.{◌≡◌, ◌<◌, ◌≤◌, length};
ghost use Rattle.std.specs.Prelude.{IsTrue, ◌↔◌};
ghost use Rattle.std.specs.Option.{option_copied};
ghost use Rattle.xs_tree.specs.Limits.{most_nodes};
ghost use Rattle.xs_tree.specs.Record.{at, local_at, prefix_at, uri_at};
ghost use Rattle.xs_tree.specs.Shape.{EndsAt, HasParentFrom, IsTree};
ghost use Rattle.xs_tree.specs.Utf8.{AreUtf8};

use super::Tree;
use crate::input_hashes::InputHashes;
use crate::kinds::Kind;
use crate::names::Name;
use crate::nodes::Node;

impl Tree {
    /// The number of nodes.
    pub fn len(&self) -> usize
        ensures count { result ≡ length self.now }
        ensures few { result ≤ most_nodes }
        ensures tree { IsTree self.now }
    {
        self.nodes.len()
    }

    /// That the texts of a tree and the parts of its names are UTF-8.
    pub fn texts_are_utf8(&self)
        ensures { AreUtf8 self.now }
    {
        let _nodes = &self.nodes;
    }

    /// Hashes for tables whose keys come from this tree: who wrote its documents cannot choose them.
    ///
    /// Takes time linear in the texts and names of the tree.
    pub fn hashes(&self) -> InputHashes {
        let mut hashes = InputHashes::new();
        hashes.take_in(self.store.text.as_str());
        self.store.names.take_in(&mut hashes);
        hashes
    }

    /// The kind of a node.
    pub fn kind(&self, n: Node) -> Kind
        requires { n < length self.now }
        ensures kind { result ≡ (at self.now n).kind }
    {
        self.nodes[n.place() as usize].kind
    }

    /// The expanded name of an element, an attribute, a namespace node or a processing instruction.
    pub fn name(&self, n: Node) -> Option<&Name>
        requires { n < length self.now }
        ensures name { option_copied result ≡ (at self.now n).name }
    {
        let number = self.nodes[n.place() as usize].name;
        self.store.name(number)
    }

    /// The namespace URI of a node's name, empty where it is in none or bears no name (Namespaces
    /// in XML 1.0, 2.1).
    pub fn uri(&self, n: Node) -> &str
        requires { n < length self.now }
        ensures uri { result.now ≡ uri_at self.now n }
    {
        match self.name(n) {
            Some(name) => name.uri.as_str(),
            None => "",
        }
    }

    /// The local part of a node's name, empty where it bears none. Of a namespace node it is the
    /// prefix, of a processing instruction the target (XPath 1.0, 5.4 and 5.5).
    pub fn local(&self, n: Node) -> &str
        requires { n < length self.now }
        ensures local { result.now ≡ local_at self.now n }
    {
        match self.name(n) {
            Some(name) => name.local.as_str(),
            None => "",
        }
    }

    /// The prefix that a node's name was written with, empty where there is none (Namespaces in XML
    /// 1.0, 4).
    pub fn prefix(&self, n: Node) -> &str
        requires { n < length self.now }
        ensures prefix { result.now ≡ prefix_at self.now n }
    {
        match self.name(n) {
            Some(name) => name.prefix.as_str(),
            None => "",
        }
    }

    /// The text of a text node, a comment or a processing instruction, the value of an attribute,
    /// the URI of a namespace node or, of a root, the name of its document; empty for elements and
    /// for the root of the first document.
    pub fn text(&self, n: Node) -> &str
        requires { n < length self.now }
        ensures text { result.now ≡ (at self.now n).text }
    {
        let entry = self.nodes[n.place() as usize];
        self.store.text(entry.kind, entry.text)
    }

    /// The parent of a node, none for a root.
    pub fn parent(&self, n: Node) -> Option<Node>
        requires { n < length self.now }
        ensures parent { result ≡ (at self.now n).parent }
        ensures tree { IsTree self.now }
    {
        let entry = self.nodes[n.place() as usize];
        match entry.kind {
            Kind::Root => None,
            _ => Some(Node::at(entry.parent)),
        }
    }

    /// The place after a node and all that is inside it: that of the next node outside it, or the
    /// number of nodes.
    pub fn subtree_end(&self, n: Node) -> u32
        requires { n < length self.now }
        ensures end { EndsAt self.now n result }
        ensures tree { IsTree self.now }
    {
        let end = self.nodes[n.place() as usize].end;
        if end == 0 {
            self.nodes.len() as u32
        } else {
            end
        }
    }

    /// Whether the parent of a node is a given node or comes after it.
    pub(crate) fn begins_inside(&self, n: Node, node: Node) -> bool
        requires { node < length self.now }
        ensures value { IsTrue result ↔ HasParentFrom n (at self.now node) }
    {
        match self.parent(node) {
            Some(parent) => n.place() <= parent.place(),
            None => false,
        }
    }
}
