//! Trees, node by node.

ghost use Rattle.std.specs.Prelude.{◌<◌, length};

use crate::answer::{Answer, text_of};
use crate::fields::cut;
use crate::lookups::{name_of, value_named};
use crate::reading::documents::Row;
use crate::reading::notation::quote;
use std::alloc::{AllocError, Global};
use xs_build::Built;
use xs_tree::{Kind, Name, NameText, Node, Tree, TreeFault};

/// All kinds of node, with their words.
const KINDS: &[(&str, Kind)] = &[
    ("root", Kind::Root),
    ("element", Kind::Element),
    ("attribute", Kind::Attribute),
    ("namespace", Kind::Space),
    ("text", Kind::Text),
    ("comment", Kind::Comment),
    ("instruction", Kind::Pi),
];

/// A node as a row writes it.
#[derive(Clone, Copy)]
struct Written<'a> {
    kind: Kind,
    parent: Node,
    local: &'a str,
    text: &'a str,
}

// The node that a line such as `attribute in 1: x "y"` writes.
fn read_node(line: &str) -> Option<Written<'_>> {
    let (place, content) = cut(line, ": ");
    let (word, parent) = cut(place, " in ");
    let (local, text) = cut(content, "\"");
    Some(Written {
        kind: *value_named(KINDS, word)?,
        parent: Node::at(parent.parse::<u32>().unwrap_or(u32::MAX)),
        local: local.trim_end(),
        text: text.strip_suffix('"').unwrap_or(text),
    })
}

// A name in no namespace, none where there is no local part.
fn local_name(alloc: Global, local: &str) -> Result<Option<Name>, AllocError> {
    if local.is_empty() {
        return Ok(None);
    }
    Ok(Some(Name {
        uri: NameText::of(alloc, "")?,
        local: NameText::of(alloc, local)?,
        prefix: NameText::of(alloc, "")?,
    }))
}

/// Adds the nodes of a row that can't be added to a tree, and the tree with the others and without
/// the marked text nodes.
pub(crate) fn put_tree_of(out: &Answer, row: &Row<'_>, built: Built) {
    let mut built = built;
    add_nodes(out, &mut built, &row.nodes);
    strip(out, &mut built, row.marks);
    add_nodes(out, &mut built, &row.later_nodes);
    out.put("= tree\n");
    for place in 0..built.tree.len() {
        put_node(out, &built, Node::at(place as u32));
    }
    drop(built);
}

// Adds the nodes that lines write to a tree, and to the answer the lines whose node can't be added.
fn add_nodes(out: &Answer, built: &mut Built, lines: &Answer) {
    for line in text_of(&lines.copy(out)).lines() {
        if !add_node(out, built, line) {
            out.put("= refused ");
            out.put_line(line);
        }
    }
}

// Adds the node that a line writes to a tree, and says whether it can be added.
fn add_node(out: &Answer, built: &mut Built, line: &str) -> bool {
    let Some(written) = read_node(line) else {
        return false;
    };
    match local_name(out.alloc, written.local) {
        Ok(name) => add_written(out, built, written, name),
        Err(_) => {
            out.refuse();
            true
        }
    }
}

// Adds a node to a tree, and says whether it can be added. Its line is the place that it has now.
fn add_written(out: &Answer, built: &mut Built, node: Written<'_>, name: Option<Name>) -> bool {
    let tree = &mut built.tree;
    if !tree.can_add(node.kind, &name, node.text, node.parent) {
        return false;
    }
    if built.lines.push(tree.len() as u32).is_err() {
        out.refuse();
    }
    match tree.add(node.kind, name, node.text, node.parent) {
        Ok(_) => true,
        Err(TreeFault::TooLarge) => false,
        Err(TreeFault::NoMemory) => {
            out.refuse();
            true
        }
    }
}

// Strips the marked text nodes, with their lines.
fn strip(out: &Answer, built: &mut Built, marks: &str) {
    let mut marked = Vec::new(out.alloc);
    for mark in marks.as_bytes() {
        out.take(&mut marked, Ok(*mark == b'x'));
    }
    if built.lines.len() == built.tree.len() {
        out.note(built.tree.strip_numbers(&marked, &mut built.lines));
    }
    out.note(built.tree.strip(&marked));
}

// Adds a node: where it is, its kind, its name and its text.
fn put_node(out: &Answer, built: &Built, node: Node)
    requires { node < length built.now.tree }
{
    put_place(out, built, node);
    let tree = &built.tree;
    out.put(": ");
    out.put_ended(name_of(KINDS, &tree.kind(node)), b' ');
    if let Some(name) = tree.name(node) {
        put_name(out, name);
    }
    put_text(out, tree, node);
    out.put_byte(b'\n');
}

// Adds the place of a node, for a root or an element where its subtree ends, its parent and its
// line.
fn put_place(out: &Answer, built: &Built, node: Node)
    requires { node < length built.now.tree }
{
    let tree = &built.tree;
    out.put_whole(node.place() as u64);
    if tree.kind(node).has_content() {
        out.put_count("..", tree.subtree_end(node) as u64);
    }
    if let Some(parent) = tree.parent(node) {
        out.put_count(" in ", parent.place() as u64);
    }
    if let Some(line) = built.lines.get(node.place() as usize) {
        out.put_count(", line ", *line as u64);
    }
}

// Adds the text of a node, for a root or an element its string value.
fn put_text(out: &Answer, tree: &Tree, node: Node)
    requires { node < length tree.now }
{
    if !tree.kind(node).has_content() {
        return quote(out, tree.text(node).as_bytes());
    }
    let mut value = Vec::new(out.alloc);
    out.note(tree.string_value_into(node, &mut value));
    quote(out, &value);
}

// Adds a name; that of a default namespace is empty.
fn put_name(out: &Answer, name: &Name) {
    let local = name.local.as_str();
    out.put_name(name.uri.as_str(), name.prefix.as_str(), local);
    out.put_if(!local.is_empty(), " ");
}
