//! What is kept of a key: its nodes by their texts, or its fault.

ghost use Rattle.std.specs.Prelude.{◌≡◌, ◌∷◌, ◌++◌, ℕ, [], IfOk, List, None, OnOk};
ghost use Rattle.std.specs.Prelude.{if◌then◌else◌};
ghost use Rattle.std.specs.Str.{bytes_eq};
ghost use Rattle.std.specs.String.{string_bytes};
ghost use Rattle.xs_keys.specs.KeyTables.{declarations_of, is_same};
ghost use Rattle.xs_keys.specs.Find.{IsKept};
ghost use Rattle.xs_keys.specs.steps.Cells.{IsCell, IsFound, nodes_kept};
ghost use Rattle.xs_keys.specs.steps.Pairs.{AreMatchTables, decls_in, either, is_last, nodes_by};
ghost use Rattle.xs_keys.specs.steps.Pairs.{pairs_in, pushed};

use crate::pairs::{Gathered, Pair};
use crate::runs::{Cut, gather, size_of};
use crate::tables::tables_of;
use std::alloc::{AllocError, Global};
use std::collections::HashMap;
use std::thread::Threads;
use xs_sheet::declarations::KeyDecl;
use xs_trace::event::Label;
use xs_trace::fault::Fault;
use xs_tree::{InputHashes, Node, Tree};
use xs_value::keys::{Found, KeyEnd};

/// A key.
#[derive(Drop)]
pub(crate) struct KeyCell {
    pub(crate) name: Label,
    fault: Option<Fault>,
    /// Its texts are those of a document, and so are chosen by whoever writes it.
    nodes: HashMap<String, Vec<Node>, InputHashes>,
}

/// A tree, with hashes that have taken it in.
#[derive(Clone, Copy)]
pub(crate) struct Hashed<'a> {
    pub(crate) tree: &'a Tree,
    pub(crate) hashes: InputHashes,
}

/// The key of a name, over the nodes of a tree.
pub(crate) fn cell_of<R: Threads + Sync>(
    rt: &R,
    alloc: Global,
    name: Label,
    decls: &[KeyDecl],
    hashed: &Hashed<'_>,
) -> Result<KeyCell, AllocError>
    ensures name { IfOk result (λ cell. cell.name ≡ name) }
    ensures cell { IfOk result (IsCell hashed.now.tree.now (declarations_of name decls.now)) }
{
    let tree = hashed.tree;
    let own = members_of(alloc, &name, decls)?;
    let members = own.as_slice();
    let list = tables_of(alloc, members, tree)?;
    let tables = list.as_slice();
    let mut cell = KeyCell {
        name,
        fault: None,
        nodes: HashMap::with_hasher(alloc, hashed.hashes),
    };
    cell.fill(rt, alloc, members, tables, tree)?;
    Ok(cell)
}

// The declarations of a name.
fn members_of<'a>(
    alloc: Global,
    name: &Label,
    decls: &'a [KeyDecl],
) -> Result<Vec<&'a KeyDecl>, AllocError>
    ensures { IfOk result (λ members. decls_in members.items
        ≡ declarations_of name.now decls.now) }
{
    let mut members = Vec::new(alloc);
    for decl in decls {
        add_member(&mut members, name, decl)?;
    }
    Ok(members)
}

// Adds a declaration, if it is of a name.
fn add_member<'a>(
    members: &mut Vec<&'a KeyDecl>,
    name: &Label,
    decl: &'a KeyDecl,
) -> Result<(), AllocError>
    ensures { OnOk result (decls_in members.new.items
        ≡ decls_in members.old.items ++ declarations_of name.now (decl.now ∷ [])) }
{
    if is_same(&decl.name, name) {
        members.push(decl)?;
    }
    Ok(())
}

/// Whether two names are one expanded name.
pub(crate) fn is_same(a: &Label, b: &Label) -> bool
    ensures { result ≡ is_same a.now b.now }
{
    if a.uri() != b.uri() {
        return false;
    }
    a.local() == b.local()
}

impl KeyCell {
    // Adds what the declarations give at all nodes, in document order.
    fn fill<R: Threads + Sync>(
        &mut self,
        rt: &R,
        alloc: Global,
        members: &[&KeyDecl],
        tables: &[Option<Vec<bool>>],
        tree: &Tree,
    ) -> Result<(), AllocError>
        requires tables { AreMatchTables tree.now (decls_in members.now) tables.now }
        requires fault { self.old.fault ≡ None }
        requires nodes { (text : List ℕ) → nodes_kept self.old text ≡ [] }
        ensures name { OnOk result (self.new.name ≡ self.old.name) }
        ensures cell { OnOk result (IsCell tree.now (decls_in members.now) self.new) }
    {
        let size = size_of(tree.len());
        let count = tree.len() / size + 1;
        let cut = Cut { size, count };
        let runs = gather(rt, alloc, members, tables, tree, cut)?;
        for outcome in runs {
            let run = outcome?;
            self.add_run(run)?;
        }
        Ok(())
    }

    // Adds what was gathered in the next run.
    fn add_run(&mut self, run: Gathered) -> Result<(), AllocError>
        ensures name { OnOk result (self.new.name ≡ self.old.name) }
        ensures nodes { OnOk result ((text : List ℕ) → nodes_kept self.new text
            ≡ nodes_by text (nodes_kept self.old text) (pairs_in run.pairs.items)) }
        ensures fault { OnOk result (self.new.fault ≡ either self.old.fault run.fault) }
    {
        self.fault = first_fault(self.fault, run.fault);
        for pair in run.pairs {
            self.add_pair(pair)?;
        }
        Ok(())
    }

    // Adds a node for a text, which comes after those that are there.
    #[tactic(auto, using(std::proofs::lemmas::Grind::text_groups))]
    fn add_pair(&mut self, pair: Pair) -> Result<(), AllocError>
        ensures name { OnOk result (self.new.name ≡ self.old.name) }
        ensures fault { OnOk result (self.new.fault ≡ self.old.fault) }
        ensures nodes { OnOk result ((text : List ℕ) → nodes_kept self.new text
            ≡ (if bytes_eq text (string_bytes pair.text)
            then pushed (nodes_kept self.old text) pair.node else nodes_kept self.old text)) }
    {
        let nodes = self.nodes.entry(pair.text)?.or_default();
        push_once(nodes, pair.node)?;
        Ok(())
    }

    /// The nodes for a text, which are kept, or the fault.
    pub(crate) fn find(&self, text: &str) -> Result<Found<'_>, KeyEnd>
        ensures found { IsFound self.now text.now result }
        ensures kept { IsKept result }
    {
        match self.fault {
            Some(fault) => Err(KeyEnd::Fault(fault)),
            None => Ok(Found::Kept(self.nodes_for(text))),
        }
    }

    // The nodes for a text.
    fn nodes_for(&self, text: &str) -> &[Node]
        ensures { result.now ≡ nodes_kept self.now text.now }
    {
        match self.nodes.get(text) {
            Some(nodes) => nodes.as_slice(),
            None => &[],
        }
    }
}

// The first of two faults.
fn first_fault(fault: Option<Fault>, next: Option<Fault>) -> Option<Fault>
    ensures { result ≡ either fault next }
{
    match fault {
        Some(first) => Some(first),
        None => next,
    }
}

// Adds a node to a list, unless it is its last one.
fn push_once(nodes: &mut Vec<Node>, node: Node) -> Result<(), AllocError>
    ensures { OnOk result (nodes.new.items ≡ pushed nodes.old.items node) }
{
    if !is_last(nodes, node) {
        nodes.push(node)?;
    }
    Ok(())
}

// Whether a node is the last of a list.
fn is_last(nodes: &[Node], node: Node) -> bool
    ensures { result ≡ is_last node nodes.now }
{
    match nodes.last() {
        Some(last) => *last == node,
        None => false,
    }
}
