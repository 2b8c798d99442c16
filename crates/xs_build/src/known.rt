//! Names that were read before, so that none is tried, taken apart or made again.

ghost use Rattle.std.specs.Prelude.{◌≡◌, ◌<◌, ℕ, All, IfSome, Ok, Some, length, option_map};
ghost use Rattle.xs_build.specs.Namespaces.{attribute_name, element_name, qname_of};
ghost use Rattle.xs_build.specs.steps.Names.{Finds, IsAttribute, IsNamed, full_name};
ghost use Rattle.xs_build.specs.steps.Known.{parts_of, IsRead};
ghost use Rattle.xs_tree.specs.Record.{at};

use crate::qnames::declared_prefix;
use crate::scope::Scope;
use std::alloc::{AllocError, Global};
use std::marker::Model;
use xs_text::{is_same, split_qname};
use xs_tree::{Name, Node, Tree};

/// What names a node that is read.
#[derive(Drop)]
pub enum NodeName {
    /// The name of a node that is in the tree.
    Known(Node),
    /// A name that was made for it.
    New(Name),
}

impl NodeName {
    /// Whether it is that of a node that is in the tree.
    pub fn is_known(&self) -> bool {
        matches!(self, NodeName::Known(_))
    }
}

/// A QName that is read (Namespaces in XML 1.0, 4).
#[derive(Drop)]
pub struct ReadName<'a> {
    /// The name as it is written.
    pub written: &'a str,
    /// The prefix, empty where there is none.
    pub prefix: &'a str,
    /// The local part.
    pub local: &'a str,
    /// The place of a node that may have this name, where one was read before.
    pub like: Option<u32>,
}

/// How many names the table remembers.
const SLOTS: usize = 1024;

/// The names that were read: the last one of those whose bytes come to the same slot.
///
/// Of the nodes the table is a hint. Whoever finds one by it asks the tree for the node's name, and
/// the bindings for the namespace; so it is good in all elements, whatever they declare.
#[derive(Drop)]
pub struct KnownNames<'a> {
    names: Vec<ReadName<'a>>,
    /// For each slot the place of its name, past all names where it has none.
    slots: Vec<usize>,
}

impl<'a> Model for KnownNames<'a> {
    ghost use Rattle.std.specs.Prelude.{All, List};
    ghost use Rattle.xs_build.specs.declared.known.ReadName.{ReadName};
    ghost use Rattle.xs_build.specs.steps.Known.{IsRead};

    ghost Value = { List ReadName };

    ghost view = { λ t. t.names.items };

    ghost invariant = { λ t. All IsRead t.names.items };
}

impl<'a> KnownNames<'a> {
    /// A table that knows no name.
    pub fn new(alloc: Global) -> Result<KnownNames<'a>, AllocError> {
        Ok(KnownNames {
            names: Vec::new(alloc),
            slots: vec![in alloc; SLOTS; SLOTS]?,
        })
    }

    /// Remembers a node by its name as it is written, unless the name `is_known` from another one.
    pub fn remember(
        &mut self,
        written: &'a str,
        node: Node,
        is_known: bool,
    ) -> Result<(), AllocError> {
        if is_known {
            return Ok(());
        }
        match self.read_for(written, node) {
            Some(name) => self.put(name),
            None => Ok(()),
        }
    }

    /// Remembers a name that declares a prefix, which no node has.
    pub fn remember_declaration(&mut self, written: &'a str) -> Result<(), AllocError> {
        if self.look_up(written).is_some() {
            return Ok(());
        }
        match new_name(written, None) {
            Some(name) => self.put(name),
            None => Ok(()),
        }
    }

    /// Remembers a name in its slot.
    fn put(&mut self, name: ReadName<'a>) -> Result<(), AllocError>
        requires { IsRead name }
    {
        let slot = slot_of(name.written);
        if slot >= self.slots.len() {
            return Ok(());
        }
        let place = self.slots[slot];
        if place < self.names.len() {
            self.names[place] = name;
            return Ok(());
        }
        self.slots[slot] = self.names.len();
        self.names.push(name)?;
        Ok(())
    }

    /// The QName that is written so, which a node has; none where it is none.
    fn read_for(&self, written: &'a str, node: Node) -> Option<ReadName<'a>>
        ensures { IfSome result IsRead }
    {
        let like = Some(node.place());
        match self.look_up(written) {
            Some(name) => Some(ReadName {
                written,
                prefix: name.prefix,
                local: name.local,
                like,
            }),
            None => new_name(written, like),
        }
    }

    /// The name that is written so, where it is remembered.
    #[inline(always)]
    fn look_up(&self, written: &str) -> Option<&ReadName<'a>>
        ensures { IfSome result (λ name. qname_of written.now ≡ Some (parts_of name.now)) }
    {
        let place = *self.slots.get(slot_of(written))?;
        if place >= self.names.len() {
            return None;
        }
        matching(&self.names[place], written)
    }

    /// A node with the name of an element that is written so where these bindings are in force;
    /// none where no such node is known.
    #[inline(always)]
    pub fn find_element(&self, written: &str, tree: &Tree, scope: &Scope) -> Option<Node>
        ensures { IfSome result (λ node. (line : ℕ) → Finds (Ok (NodeName.Known node)) tree.now
            scope.now written.now line) }
    {
        let name = self.look_up(written)?;
        name.find_element(tree, scope)
    }

    /// A node with the name of an attribute that is written so where these bindings are in force,
    /// and the local part of that name; none where no such node is known, or where the attribute is
    /// a declaration.
    #[inline(always)]
    pub fn find_attribute(
        &self,
        written: &str,
        tree: &Tree,
        scope: &Scope,
    ) -> Option<(Node, &'a str)>
        ensures named { IfSome result (λ found. IsNamed tree.now (NodeName.Known found.0)) }
        ensures same { IfSome result (λ found. IsAttribute written.now scope.now
            (full_name tree.now (NodeName.Known found.0)) found.1.now) }
    {
        let name = self.look_up(written)?;
        match declared_prefix(name.prefix, name.local) {
            Some(_) => None,
            None => {
                let node = name.find_attribute(tree, scope)?;
                Some((node, name.local))
            }
        }
    }

    /// The QName that is written so; none where it is none.
    #[inline(always)]
    pub fn read(&self, written: &'a str) -> Option<ReadName<'a>>
        ensures { option_map parts_of result ≡ qname_of written.now }
    {
        match self.look_up(written) {
            Some(name) => Some(ReadName {
                written,
                prefix: name.prefix,
                local: name.local,
                like: name.like,
            }),
            None => new_name(written, None),
        }
    }
}

/// The name, if it is written so.
#[inline(always)]
fn matching<'n, 'a>(name: &'n ReadName<'a>, written: &str) -> Option<&'n ReadName<'a>>
    ensures same { IfSome result (λ found. found.now ≡ name.now) }
    ensures written { IfSome result (λ found. name.now.written.now ≡ written.now) }
{
    if is_same(name.written, written) {
        Some(name)
    } else {
        None
    }
}

/// The QName that is written so, which the node at a place may have; none where it is none.
fn new_name(written: &str, like: Option<u32>) -> Option<ReadName<'_>>
    ensures named { option_map parts_of result ≡ qname_of written.now }
    ensures read { IfSome result IsRead }
{
    match split_qname(written) {
        Some((prefix, local)) => Some(ReadName {
            written,
            prefix,
            local,
            like,
        }),
        None => None,
    }
}

impl ReadName<'_> {
    /// The node that may have this name, if the tree has one at its place.
    #[inline(always)]
    fn node_in(&self, tree: &Tree) -> Option<Node>
        ensures { IfSome result (λ node. node < length tree.now) }
    {
        let place = self.like?;
        if (place as usize) < tree.len() {
            Some(Node::at(place))
        } else {
            None
        }
    }

    /// A node that has the name that this is for an element where these bindings are in force; none
    /// where none is known.
    #[inline(always)]
    fn find_element(&self, tree: &Tree, scope: &Scope) -> Option<Node>
        ensures named { IfSome result (λ node. IsNamed tree.now (NodeName.Known node)) }
        ensures same { IfSome result
            (λ node. element_name scope.now (parts_of self.now) ≡ (at tree.now node).name) }
    {
        let node = self.node_in(tree)?;
        let name = tree.name(node)?;
        if scope.is_element_name(name, self.prefix, self.local) {
            Some(node)
        } else {
            None
        }
    }

    /// A node that has the name that this is for an attribute where these bindings are in force;
    /// none where none is known.
    #[inline(always)]
    fn find_attribute(&self, tree: &Tree, scope: &Scope) -> Option<Node>
        ensures named { IfSome result (λ node. IsNamed tree.now (NodeName.Known node)) }
        ensures same { IfSome result
            (λ node. attribute_name scope.now (parts_of self.now) ≡ (at tree.now node).name) }
    {
        let node = self.node_in(tree)?;
        let name = tree.name(node)?;
        if scope.is_attribute_name(name, self.prefix, self.local) {
            Some(node)
        } else {
            None
        }
    }
}

/// The slot of these bytes, by how many they are and by five of them. Names that share a slot are
/// only made anew, so it does not matter much which of them do.
#[inline(always)]
fn slot_of(written: &str) -> usize {
    let bytes = written.as_bytes();
    match bytes {
        [first, second, .., last] => {
            let before = bytes[bytes.len() - 2];
            let middle = bytes[bytes.len() / 2];
            let ends = (before as usize * 31 + *last as usize) * 7;
            let starts = (*first as usize * 31 + *second as usize * 5 + middle as usize) * 19;
            (bytes.len() % SLOTS + starts + ends) % SLOTS
        }
        [first, ..] => *first as usize,
        [] => 0,
    }
}
