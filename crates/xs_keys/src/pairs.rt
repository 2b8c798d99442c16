//! The texts that the declarations of a key give, with their nodes (XSLT 1.0, 12.2).

ghost use Rattle.std.specs.Prelude.{◌≡◌, ◌<◌, ◌++◌, ◌∷◌, [], IfOk, IfSome, OnOk, None, Some};
ghost use Rattle.std.specs.Prelude.{length, map};
ghost use Rattle.std.specs.Cow.{cow_str_bytes};
ghost use Rattle.std.specs.List.{All};
ghost use Rattle.std.specs.String.{string_bytes};
ghost use Rattle.xs_eval_spec.specs.Keys.{sought};
ghost use Rattle.xs_keys.specs.Keys.{faults_at, first_of, node_faults};
ghost use Rattle.xs_keys.specs.steps.Pairs.{AreMatchTables, decls_in, either, node_pairs, paired};
ghost use Rattle.xs_keys.specs.steps.Pairs.{pairs_at, pairs_in};
ghost use Rattle.xs_pattern.specs.MatchTables.{IsMatchTable};
ghost use Rattle.xs_pattern_spec.specs.Matching.{pattern_context};
ghost use Rattle.xs_tree.specs.Record.{string_value};
ghost use Rattle.xs_value.specs.Conversion.{IsIn, text_value};

use crate::tables::is_matched;
use crate::uses::{Used, use_at};
use std::alloc::{AllocError, Global};
use std::borrow::CowStr;
use xs_sheet::declarations::KeyDecl;
use xs_trace::fault::Fault;
use xs_tree::{Node, Tree};
use xs_value::conversion::{lend_text, node_text};
use xs_value::value::Value;

/// A text with a node.
#[derive(Drop)]
pub(crate) struct Pair {
    pub(crate) text: String,
    pub(crate) node: Node,
}

/// What a key's declarations give at nodes that were gone over.
#[derive(Drop)]
pub(crate) struct Gathered {
    pub(crate) pairs: Vec<Pair>,
    /// The first fault, if there is one.
    pub(crate) fault: Option<Fault>,
}

impl Gathered {
    /// Before the first node.
    pub(crate) fn new(alloc: Global) -> Gathered
        ensures pairs { result.pairs.items ≡ [] }
        ensures fault { result.fault ≡ None }
    {
        Gathered {
            pairs: Vec::new(alloc),
            fault: None,
        }
    }

    /// Adds what all declarations of a key give at a node, by the tables of those that have one.
    pub(crate) fn add_node(
        &mut self,
        alloc: Global,
        members: &[&KeyDecl],
        tables: &[Option<Vec<bool>>],
        tree: &Tree,
        node: Node,
    ) -> Result<(), AllocError>
        requires node { node < length tree.now }
        requires tables { AreMatchTables tree.now (decls_in members.now) tables.now }
        ensures pairs { OnOk result (pairs_in self.new.pairs.items
            ≡ pairs_in self.old.pairs.items
            ++ node_pairs tree.now (decls_in members.now) node) }
        ensures fault { OnOk result (self.new.fault
            ≡ either self.old.fault
            (first_of (node_faults tree.now (decls_in members.now) node))) }
    {
        for place in 0..members.len() {
            self.add_use(alloc, members[place], &tables[place], tree, node)?;
        }
        Ok(())
    }

    // Adds what one declaration gives at a node.
    fn add_use(
        &mut self,
        alloc: Global,
        decl: &KeyDecl,
        table: &Option<Vec<bool>>,
        tree: &Tree,
        node: Node,
    ) -> Result<(), AllocError>
        requires node { node < length tree.now }
        requires table { IfSome table.now (λ t.
            IsMatchTable [] tree.now decl.now.pattern t.items) }
        ensures pairs { OnOk result (pairs_in self.new.pairs.items
            ≡ pairs_in self.old.pairs.items ++ pairs_at tree.now node decl.now) }
        ensures fault { OnOk result (self.new.fault
            ≡ either self.old.fault (first_of (faults_at tree.now node decl.now))) }
    {
        if !is_matched(alloc, &decl.pattern, table, tree, node)? {
            return Ok(());
        }
        match use_at(alloc, decl, tree, node)? {
            Used::Nothing => Ok(()),
            Used::Ends(fault) => {
                self.fault = first_fault(self.fault, fault);
                Ok(())
            }
            Used::Value(v) => add_value(alloc, &mut self.pairs, tree, node, &v),
        }
    }
}

// The first of two faults.
fn first_fault(fault: Option<Fault>, next: Fault) -> Option<Fault>
    ensures { result ≡ either fault (Some next) }
{
    match fault {
        Some(first) => Some(first),
        None => Some(next),
    }
}

// Adds a node with the texts that are looked up for a value: of a node-set the string-value of
// each node, of any other value its string.
fn add_value(
    alloc: Global,
    pairs: &mut Vec<Pair>,
    tree: &Tree,
    node: Node,
    v: &Value,
) -> Result<(), AllocError>
    requires inside { IsIn tree.now v.now }
    ensures { OnOk result (pairs_in pairs.new.items ≡ pairs_in pairs.old.items
        ++ paired node (sought (pattern_context tree.now [] node) v.now)) }
{
    match v {
        Value::Nodes(nodes) => add_nodes(alloc, pairs, tree, node, nodes.nodes()),
        Value::Bool(_) => add_string(alloc, pairs, tree, node, v),
        Value::Number(_) => add_string(alloc, pairs, tree, node, v),
        Value::Chars(_) => add_string(alloc, pairs, tree, node, v),
        Value::Piece(_) => add_string(alloc, pairs, tree, node, v),
    }
}

// Adds a node with a value as a string.
fn add_string(
    alloc: Global,
    pairs: &mut Vec<Pair>,
    tree: &Tree,
    node: Node,
    v: &Value,
) -> Result<(), AllocError>
    requires inside { IsIn tree.now v.now }
    ensures { OnOk result (pairs_in pairs.new.items ≡ pairs_in pairs.old.items
        ++ (text_value tree.now v.now, node) ∷ []) }
{
    let text = lend_text(alloc, tree, v)?;
    add_text(alloc, pairs, node, text)
}

// Adds a node with the string-values of nodes.
fn add_nodes(
    alloc: Global,
    pairs: &mut Vec<Pair>,
    tree: &Tree,
    node: Node,
    nodes: &[Node],
) -> Result<(), AllocError>
    requires inside { All (λ n. n < length tree.now) nodes.now }
    ensures { OnOk result (pairs_in pairs.new.items ≡ pairs_in pairs.old.items
        ++ paired node (map (string_value tree.now) nodes.now)) }
{
    for other in nodes {
        let text = node_text(alloc, tree, *other)?;
        add_text(alloc, pairs, node, text)?;
    }
    Ok(())
}

// Adds a node with a text.
fn add_text(
    alloc: Global,
    pairs: &mut Vec<Pair>,
    node: Node,
    text: CowStr<'_, Global>,
) -> Result<(), AllocError>
    ensures { OnOk result (pairs_in pairs.new.items ≡ pairs_in pairs.old.items
        ++ (cow_str_bytes text.entry, node) ∷ []) }
{
    let text = owned(alloc, text)?;
    pairs.push(Pair { text, node })?;
    Ok(())
}

// A text in memory of its own.
fn owned(alloc: Global, text: CowStr<'_, Global>) -> Result<String, AllocError>
    ensures { IfOk result (λ own. string_bytes own ≡ cow_str_bytes text.entry) }
{
    match text {
        CowStr::Borrowed(text) => String::from_str(alloc, text),
        CowStr::Owned(text) => Ok(text),
    }
}
