//! An expression.

ghost use Rattle.std.specs.Prelude.{◌≡◌, option_map};
ghost use Rattle.xs_xpath.specs.Exprs.{step_data, tree_from};
ghost use Rattle.xs_xpath.specs.Tree.{is_here, step_of};

use crate::name::{Function, NodeTest, Slot};
use crate::token::Operator;
use xs_num::number::Num;
use xs_text::TextBuf;
use xs_tree::Axis;

/// An expression. The operands of one precedence level are a list, so that its depth is bounded
/// by the nesting of its brackets.
#[derive(Drop)]
pub enum Expr {
    Number(Num),
    Literal(TextBuf),
    /// A variable: the URI and the local part of its name, and its slot, once it is bound.
    Variable(TextBuf, TextBuf, Option<Slot>),
    Call(Function, Vec<Expr>),
    /// So many minus signs, and their operand.
    Negative(usize, Box<Expr>),
    /// Operators, and the operands around them.
    Chain(Vec<Operator>, Vec<Expr>),
    /// An expression in round brackets.
    Group(Box<Expr>),
    /// The context node, at which a relative path begins.
    Here,
    /// The root of the context node's document.
    Root,
    /// A step by its axis, its node test and its predicates.
    Step(Axis, NodeTest, Vec<Expr>),
    /// The step that `//` represents, `descendant-or-self::node()`.
    Descend,
    /// An expression, and predicates.
    Filter(Box<Expr>, Vec<Expr>),
    /// Where a path begins, and its steps.
    Path(Box<Expr>, Vec<Expr>),
}

impl Expr {
    /// Whether this is the context node alone, at which a relative path begins (XPath 1.0, 2.5).
    pub fn is_here(&self) -> bool
        ensures alone { result ≡ is_here (tree_from self.now) }
    {
        match self {
            Expr::Here => true,
            Expr::Number(_) => false,
            Expr::Literal(_) => false,
            Expr::Variable(_, _, _) => false,
            Expr::Call(_, _) => false,
            Expr::Negative(_, _) => false,
            Expr::Chain(_, _) => false,
            Expr::Group(_) => false,
            Expr::Root => false,
            Expr::Step(_, _, _) => false,
            Expr::Descend => false,
            Expr::Filter(_, _) => false,
            Expr::Path(_, _) => false,
        }
    }

    /// The axis, the node test and the predicates of a step (XPath 1.0, 2.1).
    pub fn as_step(&self) -> Option<(Axis, &NodeTest, &[Expr])>
        ensures parts { option_map step_data result ≡ step_of (tree_from self.now) }
    {
        match self {
            Expr::Step(axis, test, predicates) => Some((*axis, test, predicates)),
            Expr::Number(_) => None,
            Expr::Literal(_) => None,
            Expr::Variable(_, _, _) => None,
            Expr::Call(_, _) => None,
            Expr::Negative(_, _) => None,
            Expr::Chain(_, _) => None,
            Expr::Group(_) => None,
            Expr::Here => None,
            Expr::Root => None,
            Expr::Descend => None,
            Expr::Filter(_, _) => None,
            Expr::Path(_, _) => None,
        }
    }
}
