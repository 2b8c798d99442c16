//! The operands of operators and the arguments of calls. A string literal is lent by the
//! stylesheet, and the value of a variable by its slot. Where a lent text becomes a value, a short
//! one is copied, and a longer one is shared.

ghost use Rattle.std.specs.Prelude.{◌≡◌, ◌++◌, IfOk, OnErr, OnOk};
ghost use Rattle.std.specs.Cow.{cow_str_bytes};
ghost use Rattle.std.specs.Str.{IsUtf8};
ghost use Rattle.xs_value.specs.Conversion.{IsIn, bool_value, number_value, text_value};
ghost use Rattle.xs_value.specs.NodeSet.{IsNodeList};
ghost use Rattle.xs_value.specs.declared.value.Value.TheVariants.{Chars};
ghost use Rattle.xs_eval_spec.specs.Results.{Answers, AnswersBy, nodes_in, numeric};
ghost use Rattle.xs_eval.specs.steps.Operands.{seen_value};

use crate::arguments::{into_set, nodes_of, number_of, set_of};
use std::alloc::{AllocError, Global};
use std::borrow::CowStr;
use std::marker::Model;
use xs_eval_spec::trouble::{Trouble, or_trouble};
use xs_num::number::Num;
use xs_num::reading::read_num;
use xs_text::TextBuf;
use xs_trace::fault::Fault;
use xs_tree::{Node, Tree};
use xs_value::conversion::{lend_text, own_text, text_into, to_bool, to_text};
use xs_value::node_set::NodeSet;
use xs_value::value::Value;

/// An operand. Contracts see it as its value.
#[derive(Drop)]
pub(crate) struct Operand<'a> {
    held: Held<'a>,
}

// Where the value of an operand is.
#[derive(Drop)]
enum Held<'a> {
    // In the operand.
    Own(Value),
    // In a variable.
    Lent(&'a Value),
    // In the stylesheet, as the text of a string literal.
    Text(&'a TextBuf),
}

/// What an operand is read as.
#[derive(Clone, Copy)]
pub(crate) enum Seen<'a> {
    /// A value.
    Value(&'a Value),
    /// The text of a string literal.
    Text(&'a TextBuf),
}

impl<'a> Model for Operand<'a> {
    ghost use Rattle.xs_value.specs.declared.value.Value.{Value as Object};
    ghost use Rattle.xs_eval.specs.steps.Operands.{held_value};

    ghost Value = { Object };

    ghost view = { λ o. held_value o.held };
}

impl<'a> Operand<'a> {
    /// A value that was made.
    pub(crate) fn own(value: Value) -> Operand<'a>
        ensures value { result ≡ value }
    {
        Operand {
            held: Held::Own(value),
        }
    }

    /// A value that is lent.
    pub(crate) fn lent(value: &'a Value) -> Operand<'a>
        ensures value { result ≡ value.now }
    {
        Operand {
            held: Held::Lent(value),
        }
    }

    /// A string literal (XPath 1.0, 3.7).
    pub(crate) fn literal(text: &'a TextBuf) -> Operand<'a>
        ensures value { result ≡ Chars text.now }
    {
        Operand {
            held: Held::Text(text),
        }
    }

    /// What it is read as.
    #[inline(always)]
    pub(crate) fn seen(&self) -> Seen<'_>
        ensures value { seen_value result ≡ self.now }
    {
        match &self.held {
            Held::Own(value) => Seen::Value(value),
            Held::Lent(value) => Seen::Value(value),
            Held::Text(text) => Seen::Text(text),
        }
    }

    /// The value itself, a copy where it is lent.
    pub(crate) fn into_value(self, alloc: Global) -> Result<Value, AllocError>
        ensures value { IfOk result (λ value. value ≡ self.entry) }
    {
        match self.held {
            Held::Own(value) => Ok(value),
            Held::Lent(value) => value.copy(),
            Held::Text(text) => Ok(Value::Chars(text_of(alloc, text)?)),
        }
    }

    /// The node-set that it has to be (XPath 1.0, 3.3).
    #[inline(always)]
    pub(crate) fn into_set(self) -> Result<SetOperand<'a>, Trouble>
        ensures nodes { Answers (nodes_in self.entry) result }
    {
        match self.held {
            Held::Own(value) => Ok(SetOperand::own(into_set(value)?)),
            Held::Lent(value) => Ok(SetOperand::lent(set_of(value)?)),
            Held::Text(_) => Err(Trouble::Fault(Fault::NotNodes)),
        }
    }

    /// It as a boolean (XPath 1.0, 4.3).
    pub(crate) fn truth(&self) -> bool
        ensures { result ≡ bool_value self.now }
    {
        match self.seen() {
            Seen::Value(value) => to_bool(value),
            Seen::Text(text) => !text.as_str().is_empty(),
        }
    }

    /// It as a number (XPath 1.0, 4.4).
    pub(crate) fn number(&self, alloc: Global, tree: &Tree) -> Result<Num, Trouble>
        requires { IsIn tree.now self.now }
        ensures number { Answers (numeric (number_value tree.now self.now)) result }
    {
        match self.seen() {
            Seen::Value(value) => number_of(alloc, tree, value),
            Seen::Text(text) => or_trouble(read_num(text.as_str())),
        }
    }

    /// It as a string (XPath 1.0, 4.2), lent where it is in one piece.
    pub(crate) fn text<'b>(
        &'b self,
        alloc: Global,
        tree: &'b Tree,
    ) -> Result<CowStr<'b, Global>, AllocError>
        requires { IsIn tree.now self.now }
        ensures text { IfOk result (λ text. cow_str_bytes text ≡ text_value tree.now self.now) }
    {
        match self.seen() {
            Seen::Value(value) => lend_text(alloc, tree, value),
            Seen::Text(text) => Ok(CowStr::Borrowed(text.as_str())),
        }
    }

    /// It as a string (XPath 1.0, 4.2), in memory of its own.
    pub(crate) fn to_text(&self, alloc: Global, tree: &Tree) -> Result<TextBuf, AllocError>
        requires { IsIn tree.now self.now }
        ensures text { IfOk result (λ text. text ≡ text_value tree.now self.now) }
    {
        match &self.held {
            Held::Own(value) => to_text(alloc, tree, value),
            Held::Lent(value) => lent_to_text(alloc, tree, value),
            Held::Text(text) => text_of(alloc, text),
        }
    }

    /// Appends it as a string (XPath 1.0, 4.2). After a refusal `out` is as it was.
    pub(crate) fn text_into(&self, tree: &Tree, out: &mut Vec<u8>) -> Result<(), AllocError>
        requires { IsIn tree.now self.now }
        ensures appended { OnOk result
            (out.new.items ≡ out.old.items ++ text_value tree.now self.now) }
        ensures refused { OnErr result (out.new.items ≡ out.old.items) }
        ensures utf8 { IsUtf8 out.old.items → IsUtf8 out.new.items }
    {
        match self.seen() {
            Seen::Value(value) => text_into(tree, value, out),
            Seen::Text(text) => append_text(text.as_str(), out),
        }
    }

    /// The nodes of the node-set that it has to be (XPath 1.0, 3.3).
    pub(crate) fn nodes(&self) -> Result<&[Node], Trouble>
        ensures nodes { AnswersBy (λ ns. ns.now) (nodes_in self.now) result }
    {
        match self.seen() {
            Seen::Value(value) => nodes_of(value),
            Seen::Text(_) => Err(Trouble::Fault(Fault::NotNodes)),
        }
    }

    /// The node-set that it has to be (XPath 1.0, 3.3).
    pub(crate) fn set(&self) -> Result<&NodeSet, Trouble>
        ensures nodes { AnswersBy (λ ns. ns.now) (nodes_in self.now) result }
    {
        match self.seen() {
            Seen::Value(value) => set_of(value),
            Seen::Text(_) => Err(Trouble::Fault(Fault::NotNodes)),
        }
    }
}

/// How long a text is at most that is copied where it becomes a value, so that no count of its
/// owner is touched. A longer one is shared, so that the time does not grow with it.
const SHORT: usize = 30;

/// A text that is lent, as a value has it.
pub(crate) fn text_of(alloc: Global, text: &TextBuf) -> Result<TextBuf, AllocError>
    ensures { IfOk result (λ own. own ≡ text.now) }
{
    if text.as_str().len() > SHORT {
        return text.copy();
    }
    TextBuf::of(alloc, text.as_str())
}

// A value that is lent, as a string.
fn lent_to_text(alloc: Global, tree: &Tree, value: &Value) -> Result<TextBuf, AllocError>
    requires { IsIn tree.now value.now }
    ensures text { IfOk result (λ text. text ≡ text_value tree.now value.now) }
{
    match value {
        Value::Chars(text) => text_of(alloc, text),
        _ => own_text(alloc, lend_text(alloc, tree, value)?),
    }
}

// Appends a text. After a refusal `out` is as it was.
fn append_text(text: &str, out: &mut Vec<u8>) -> Result<(), AllocError>
    ensures appended { OnOk result (out.new.items ≡ out.old.items ++ text.now) }
    ensures refused { OnErr result (out.new.items ≡ out.old.items) }
    ensures utf8 { IsUtf8 out.old.items → IsUtf8 out.new.items }
{
    out.extend_from_slice(text.as_bytes())
}

/// A node-set that was made, or that a variable lends. Contracts see it as its nodes.
#[derive(Drop)]
pub(crate) struct SetOperand<'a> {
    held: HeldSet<'a>,
}

// Where a node-set is.
#[derive(Drop)]
enum HeldSet<'a> {
    // In the operand.
    Own(NodeSet),
    // In a variable.
    Lent(&'a NodeSet),
}

impl<'a> Model for SetOperand<'a> {
    ghost use Rattle.std.specs.Prelude.{ℕ, List};
    ghost use Rattle.xs_eval.specs.steps.Operands.{held_nodes};

    ghost Value = { List ℕ };

    ghost view = { λ o. held_nodes o.held };
}

impl<'a> SetOperand<'a> {
    /// A node-set that was made.
    pub(crate) fn own(set: NodeSet) -> SetOperand<'a>
        ensures nodes { result ≡ set }
    {
        SetOperand {
            held: HeldSet::Own(set),
        }
    }

    /// A node-set that is lent.
    pub(crate) fn lent(set: &'a NodeSet) -> SetOperand<'a>
        ensures nodes { result ≡ set.now }
    {
        SetOperand {
            held: HeldSet::Lent(set),
        }
    }

    /// The nodes, in document order.
    #[inline(always)]
    pub(crate) fn nodes(&self) -> &[Node]
        ensures nodes { result.now ≡ self.now }
        ensures list { IsNodeList self.now }
    {
        match &self.held {
            HeldSet::Own(set) => set.nodes(),
            HeldSet::Lent(set) => set.nodes(),
        }
    }

    /// The node-set itself, a copy where it is lent.
    #[inline(always)]
    pub(crate) fn into_set(self) -> Result<NodeSet, AllocError>
        ensures nodes { IfOk result (λ set. set ≡ self.entry) }
    {
        match self.held {
            HeldSet::Own(set) => Ok(set),
            HeldSet::Lent(set) => set.copy(),
        }
    }
}
