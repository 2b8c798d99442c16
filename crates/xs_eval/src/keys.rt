//! Nodes by key (XSLT 1.0, 12.2).

ghost use Rattle.std.specs.Prelude.{◌≡◌, ◌<◌, ◌++◌, ◌∷◌, [], IfOk, length, filter, map};
ghost use Rattle.xs_tree.specs.Record.{string_value};
ghost use Rattle.std.specs.Cow.{cow_str_bytes};
ghost use Rattle.std.specs.List.{All};
ghost use Rattle.xs_trace.specs.Play.{IsStep};
ghost use Rattle.xs_trace.specs.Run.{limited};
ghost use Rattle.xs_value.specs.Conversion.{IsIn};
ghost use Rattle.xs_value.specs.Tables.{table_at};
ghost use Rattle.xs_eval_spec.specs.Functions.{first, second};
ghost use Rattle.xs_eval_spec.specs.Keys.{from_table, keyed, number_of, sought};
ghost use Rattle.xs_eval.specs.steps.Keys.{AddsNodes, FindsNodes, IsDocumentOf, IsSound};
ghost use Rattle.xs_eval.specs.steps.Keys.{Seeks, holds};
ghost use Rattle.xs_eval_spec.specs.Names.{expanded_name};
ghost use Rattle.xs_eval_spec.specs.Conditions.{IsContext};

use crate::arguments::text_at;
use crate::evaluator::Evaluator;
use crate::names::expanded_name;
use crate::operand::{Operand, Seen};
use crate::predicates::kept_if;
use std::alloc::{AllocError, Global};
use xs_eval_spec::context::Context;
use xs_trace::fault::Fault;
use xs_trace::recorder::{Halt, Tally, tick_several};
use xs_tree::{Node, Tree};
use xs_value::conversion::node_text;
use xs_value::keys::{KeyEnd, KeyFinder};
use xs_value::node_list::NodeList;
use xs_value::node_set::NodeSet;
use xs_value::text_indexes::{TextIndex, index_texts};
use xs_value::value::Value;
use xs_xpath::scope::Scope;

impl<K: KeyFinder> Evaluator<'_, K> {
    /// `key`: a tick for each node of the answer.
    pub(crate) fn find_by_key<T: Tally>(
        &self,
        context: &Context<'_>,
        values: &[Operand<'_>],
        tally: &mut T,
    ) -> Result<Value, Halt>
        requires context { IsContext (K.tables self.now.keys.now) context.now }
        requires inside { All (IsIn context.now.tree) values.now }
        ensures reported { IsStep (limited self.now.site
            (keyed (K.tables self.now.keys.now) context.now (first values.now) (second values.now))
            (T.state tally.old)) result (T.state tally.new) }
        ensures kept { T.kept tally.new ≡ T.kept tally.old }
        ensures inside { IfOk result (IsIn context.now.tree) }
    {
        let name = text_at(self.alloc, context.tree, values, 0)?;
        match number_of(self.keys, context.scope, name.as_str()) {
            Some(key) => self.look_up(context, key, values, tally),
            None => Err(Halt::Fault(Fault::NoKey, self.site)),
        }
    }

    // The nodes that a key gives for what is looked up, a tick for each.
    fn look_up<T: Tally>(
        &self,
        context: &Context<'_>,
        key: u32,
        values: &[Operand<'_>],
        tally: &mut T,
    ) -> Result<Value, Halt>
        requires context { IsContext (K.tables self.now.keys.now) context.now }
        requires inside { All (IsIn context.now.tree) values.now }
        ensures reported { IsStep (limited self.now.site
            (from_table context.now (table_at (K.tables self.now.keys.now) key)
            (table_at (K.tables self.now.keys.now) key).fault
            (sought context.now (second values.now)))
            (T.state tally.old)) result (T.state tally.new) }
        ensures kept { T.kept tally.new ≡ T.kept tally.old }
        ensures inside { IfOk result (IsIn context.now.tree) }
    {
        match self.found_of(context, key, values) {
            Ok(found) => {
                tick_several(tally, self.site, found.nodes().len() as u64)?;
                Ok(Value::Nodes(found))
            }
            Err(KeyEnd::Fault(fault)) => Err(Halt::Fault(fault, self.site)),
            Err(KeyEnd::NoMemory) => Err(Halt::NoMemory),
        }
    }

    // The nodes that a key gives for what is looked up, in the document of the context node.
    fn found_of(
        &self,
        context: &Context<'_>,
        key: u32,
        values: &[Operand<'_>],
    ) -> Result<NodeSet, KeyEnd>
        requires context { IsContext (K.tables self.now.keys.now) context.now }
        requires inside { All (IsIn context.now.tree) values.now }
        ensures found { FindsNodes context.now (table_at (K.tables self.now.keys.now) key)
            (sought context.now (second values.now)) result }
    {
        match sought_nodes(values) {
            Some(sought) => self.found_for_nodes(context, key, sought),
            None => {
                let text = text_at(self.alloc, context.tree, values, 1)?;
                let found = self.found_for_text(context, key, text.as_str());
                drop(text);
                found
            }
        }
    }

    // The nodes that a key gives for a text.
    fn found_for_text(&self, context: &Context<'_>, key: u32, text: &str) -> Result<NodeSet, KeyEnd>
        requires context { IsContext (K.tables self.now.keys.now) context.now }
        ensures found { FindsNodes context.now (table_at (K.tables self.now.keys.now) key)
            (text.now ∷ []) result }
    {
        let document = Document::of(context.tree, context.node);
        let none = NodeList::new(self.alloc);
        let nodes = self.add_found(context, &document, key, text, none)?;
        Ok(NodeSet::of_list(nodes)?)
    }

    // The nodes that a key gives for the string-values of some nodes: each distinct one is looked
    // up once.
    fn found_for_nodes(
        &self,
        context: &Context<'_>,
        key: u32,
        sought: &[Node],
    ) -> Result<NodeSet, KeyEnd>
        requires context { IsContext (K.tables self.now.keys.now) context.now }
        requires sought { All (λ k. k < length context.now.tree) sought.now }
        ensures found { FindsNodes context.now (table_at (K.tables self.now.keys.now) key)
            (map (string_value context.now.tree) sought.now) result }
    {
        if let [node] = sought {
            return self.found_for_node(context, key, *node);
        }
        let index = index_texts(self.alloc, context.tree, sought)?;
        let found = self.found_for_index(context, key, &index);
        drop(index);
        found
    }

    // The nodes that a key gives for the string-value of a node.
    fn found_for_node(
        &self,
        context: &Context<'_>,
        key: u32,
        sought: Node,
    ) -> Result<NodeSet, KeyEnd>
        requires context { IsContext (K.tables self.now.keys.now) context.now }
        requires sought { sought < length context.now.tree }
        ensures found { FindsNodes context.now (table_at (K.tables self.now.keys.now) key)
            (string_value context.now.tree sought ∷ []) result }
    {
        let text = node_text(self.alloc, context.tree, sought)?;
        let found = self.found_for_text(context, key, text.as_str());
        drop(text);
        found
    }

    // The nodes that a key gives for the texts of an index. Without a text the table may have a
    // fault all the same.
    fn found_for_index(
        &self,
        context: &Context<'_>,
        key: u32,
        index: &TextIndex<'_>,
    ) -> Result<NodeSet, KeyEnd>
        requires context { IsContext (K.tables self.now.keys.now) context.now }
        ensures found { FindsNodes context.now (table_at (K.tables self.now.keys.now) key)
            (map cow_str_bytes index.now.keys) result }
    {
        self.check_table(key)?;
        let document = Document::of(context.tree, context.node);
        let mut nodes = NodeList::new(self.alloc);
        for text in index.iter() {
            nodes = self.add_found(context, &document, key, text.as_str(), nodes)?;
        }
        Ok(NodeSet::of_list(nodes)?)
    }

    // Whether the table of a key has no fault.
    fn check_table(&self, key: u32) -> Result<(), KeyEnd>
        ensures table { IsSound (table_at (K.tables self.now.keys.now) key) result }
    {
        drop(self.keys.find(self.alloc, key, "")?);
        Ok(())
    }

    // The nodes that a key gives for a text, of those that are in a document, after others.
    fn add_found(
        &self,
        context: &Context<'_>,
        document: &Document,
        key: u32,
        text: &str,
        before: NodeList,
    ) -> Result<NodeList, KeyEnd>
        requires context { IsContext (K.tables self.now.keys.now) context.now }
        requires document { IsDocumentOf context.now.tree context.now.node document.now }
        ensures found { AddsNodes context.now (table_at (K.tables self.now.keys.now) key) text.now
            before result }
    {
        let found = self.keys.find(self.alloc, key, text)?;
        Ok(add_held(document, found.nodes(), before)?)
    }
}

/// The number of the key that a text names.
pub fn number_of<K: KeyFinder>(keys: &K, scope: &Scope, name: &str) -> Option<u32>
    ensures number { result
        ≡ number_of (K.tables keys.now) (expanded_name scope.now.pairs.items name.now) }
{
    match expanded_name(scope, name) {
        Some((uri, local)) => keys.number_of(uri, local),
        None => None,
    }
}

// The nodes whose string-values are looked up, where the second argument is a node-set.
fn sought_nodes<'b>(values: &'b [Operand<'_>]) -> Option<&'b [Node]>
    ensures { Seeks (second values.now) result }
{
    match values.get(1) {
        Some(v) => sought_in(v),
        None => None,
    }
}

// The nodes of an operand that is a node-set.
fn sought_in<'b>(v: &'b Operand<'_>) -> Option<&'b [Node]>
    ensures { Seeks v.now result }
{
    match v.seen() {
        Seen::Value(Value::Nodes(nodes)) => Some(nodes.nodes()),
        Seen::Value(Value::Bool(_)) => None,
        Seen::Value(Value::Number(_)) => None,
        Seen::Value(Value::Chars(_)) => None,
        Seen::Value(Value::Piece(_)) => None,
        Seen::Text(_) => None,
    }
}

// Those nodes that are in a document, after others.
fn add_held(document: &Document, found: &[Node], nodes: NodeList) -> Result<NodeList, AllocError>
    ensures nodes { IfOk result (λ ns. ns ≡ nodes ++ filter (holds document.now) found.now) }
{
    let mut nodes = nodes;
    for node in found {
        nodes = kept_if(document.holds(*node), nodes, *node)?;
    }
    Ok(nodes)
}

// A document, which is all nodes from its root up to an end.
#[derive(Drop)]
struct Document {
    // The root.
    root: Node,
    // The place after the last node.
    end: u32,
}

impl Document {
    // The document that a node is in.
    fn of(tree: &Tree, node: Node) -> Document
        requires { node < length tree.now }
        ensures { IsDocumentOf tree.now node result }
    {
        let root = tree.root_of(node);
        let end = tree.subtree_end(root);
        Document { root, end }
    }

    // Whether a node is in it.
    fn holds(&self, node: Node) -> bool
        ensures { result ≡ holds self.now node }
    {
        self.root.place() <= node.place() && node.place() < self.end
    }
}
