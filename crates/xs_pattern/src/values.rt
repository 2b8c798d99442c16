//! Values of expressions whose faults are not reported.

ghost use Rattle.std.specs.Prelude.{◌≡◌, ◌<◌, [], false, IfOk, length};
ghost use Rattle.std.specs.Option.{option_map_or};
ghost use Rattle.xs_eval_spec.specs.Conditions.{IsContext};
ghost use Rattle.xs_eval_spec.specs.Context.{at_node};
ghost use Rattle.xs_eval_spec.specs.Evaluation.{run_of};
ghost use Rattle.xs_eval_spec.specs.Paths.{selects};
ghost use Rattle.xs_pattern_spec.specs.Predicates.{holds, is_among, nodes_given, nodes_of};
ghost use Rattle.xs_pattern_spec.specs.Predicates.{value_in};
ghost use Rattle.xs_pattern.specs.steps.Alone.{IsSaid, said, said_by};

use crate::keys::is_among;
use crate::matcher::Matcher;
use std::alloc::AllocError;
use xs_eval::evaluate::evaluate;
use xs_eval::predicates::selects;
use xs_eval_spec::context::Context;
use xs_trace::item::Site;
use xs_trace::meter::Meter;
use xs_trace::recorder::Halt;
use xs_tree::Node;
use xs_value::conversion::to_bool;
use xs_value::keys::KeyFinder;
use xs_value::value::Value;
use xs_xpath::expr::Expr;
use xs_xpath::uses::uses_place;

// Where a pattern is evaluated: its ticks and faults are reported to nobody.
const NOWHERE: Site = Site { module: 0, line: 0 };

impl<'a, K: KeyFinder> Matcher<'a, K> {
    /// The value of an expression in a context; none where it ends in a fault.
    pub(crate) fn value_in(
        &self,
        expr: &Expr,
        context: &Context<'_>,
    ) -> Result<Option<Value>, AllocError>
        requires { IsContext (K.tables self.now.keys.now) context.now }
        ensures value { IfOk result (λ v. v
            ≡ value_in (run_of (K.tables self.now.keys.now) expr.now context.now).end) }
    {
        let mut meter = Meter {
            limit: None,
            spent: 0,
        };
        match evaluate(self.alloc, expr, context, self.keys, NOWHERE, &mut meter) {
            Ok(v) => Ok(Some(v)),
            Err(Halt::Fault(_, _)) => Ok(None),
            Err(Halt::Needs(_, _)) => Ok(None),
            Err(Halt::NoMemory) => Err(AllocError),
            Err(Halt::Spent(_)) => unreachable!(),
            Err(Halt::Full(_)) => unreachable!(),
            Err(Halt::Over { total: _ }) => unreachable!(),
        }
    }

    /// Whether a predicate holds of a node at a position, among so many.
    pub(crate) fn holds(
        &self,
        predicate: &Expr,
        node: Node,
        position: u32,
        size: u32,
        context: &Context<'_>,
    ) -> Result<bool, AllocError>
        requires context { IsContext (K.tables self.now.keys.now) context.now }
        requires node { node < length context.now.tree }
        ensures holds { IfOk result (λ b. b
            ≡ holds context.now (run_of (K.tables self.now.keys.now) predicate.now)
            size (position, node)) }
    {
        let around = context.at_node(node, position, size);
        let v = self.value_in(predicate, &around)?;
        Ok(is_selecting(&v, position))
    }

    /// What a predicate says of a node wherever it stands among others; nothing, where that depends
    /// on its position, since the predicate asks for it or has a number for its value.
    pub(crate) fn says(
        &self,
        predicate: &Expr,
        node: Node,
        context: &Context<'_>,
    ) -> Result<Option<bool>, AllocError>
        requires context { IsContext (K.tables self.now.keys.now) context.now }
        requires node { node < length context.now.tree }
        ensures says { IfOk result
            (IsSaid node context.now (run_of (K.tables self.now.keys.now) predicate.now)) }
    {
        if uses_place(predicate) {
            return Ok(None);
        }
        let around = context.at_node(node, 1, 1);
        let v = self.value_in(predicate, &around)?;
        Ok(said(&v))
    }
}

// What a value says of a node at whatever position: nothing, where it is a number.
fn said(v: &Option<Value>) -> Option<bool>
    ensures { result ≡ said v.now }
{
    match v {
        Some(v) => said_by(v),
        None => Some(false),
    }
}

// The same where there is a value.
fn said_by(v: &Value) -> Option<bool>
    ensures { result ≡ said_by v.now }
{
    match v {
        Value::Number(_) => None,
        Value::Bool(boolean) => Some(*boolean),
        Value::Chars(_) => Some(to_bool(v)),
        Value::Nodes(_) => Some(to_bool(v)),
        Value::Piece(_) => Some(to_bool(v)),
    }
}

// Whether there is a value, and it selects a node at a position.
fn is_selecting(v: &Option<Value>, position: u32) -> bool
    ensures { result ≡ option_map_or (λ v. selects v position) v.now false }
{
    match v {
        Some(v) => selects(v, position),
        None => false,
    }
}

impl<'a, K: KeyFinder> Matcher<'a, K> {
    /// Whether a node is among those that an expression gives in a context.
    pub(crate) fn is_given(
        &self,
        expr: &Expr,
        node: Node,
        context: &Context<'_>,
    ) -> Result<bool, AllocError>
        requires { IsContext (K.tables self.now.keys.now) context.now }
        ensures given { IfOk result (λ b. b
            ≡ is_among node (nodes_given (run_of (K.tables self.now.keys.now) expr.now)
            context.now)) }
    {
        let v = self.value_in(expr, context)?;
        Ok(is_in_value(node, &v))
    }
}

// Whether there is a value, and a node is in it.
fn is_in_value(node: Node, v: &Option<Value>) -> bool
    ensures { result ≡ is_among node (option_map_or nodes_of v.now []) }
{
    match v {
        Some(Value::Nodes(nodes)) => is_among(node, nodes.nodes()),
        Some(Value::Bool(_)) => false,
        Some(Value::Number(_)) => false,
        Some(Value::Chars(_)) => false,
        Some(Value::Piece(_)) => false,
        None => false,
    }
}
