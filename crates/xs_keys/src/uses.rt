//! What the `use` of a key gives at a node (XSLT 1.0, 12.2).

ghost use Rattle.std.specs.Prelude.{◌<◌, [], IfOk, length};
ghost use Rattle.xs_eval_spec.specs.Conditions.{IsContext};
ghost use Rattle.xs_eval_spec.specs.Evaluation.{run_of};
ghost use Rattle.xs_keys.specs.Keys.{expression_fault, use_end};
ghost use Rattle.xs_keys.specs.steps.Pairs.{IsFault, IsUsed};

use std::alloc::{AllocError, Global};
use xs_eval::evaluate::evaluate;
use xs_eval_spec::context::Context;
use xs_sheet::declarations::KeyDecl;
use xs_trace::fault::Fault;
use xs_trace::item::Site;
use xs_trace::meter::Meter;
use xs_trace::recorder::Halt;
use xs_tree::{Node, Tree};
use xs_value::keys::NoKeys;
use xs_value::value::Value;
use xs_xpath::expr::Expr;

// Where a key is evaluated: its ticks are reported to nobody, and its fault to each call.
const NOWHERE: Site = Site { module: 0, line: 0 };

/// What a `use` gives.
#[derive(Drop)]
pub(crate) enum Used {
    /// Nothing.
    Nothing,
    /// A fault.
    Ends(Fault),
    /// A value.
    Value(Value),
}

/// What the `use` of a declaration gives at a node, which is its context node and current node.
pub(crate) fn use_at(
    alloc: Global,
    decl: &KeyDecl,
    tree: &Tree,
    node: Node,
) -> Result<Used, AllocError>
    requires node { node < length tree.now }
    ensures used { IfOk result (IsUsed tree.now (use_end tree.now node decl.now)) }
{
    let context = Context {
        tree,
        node,
        position: 1,
        size: 1,
        current: node,
        locals: &[],
        globals: &[],
        scope: decl.value.scope.scope(),
    };
    used_in(alloc, decl.value.expr.expr(), &context)
}

// What an expression gives in a context, over no keys.
fn used_in(alloc: Global, expr: &Expr, context: &Context<'_>) -> Result<Used, AllocError>
    requires context { IsContext [] context.now }
    ensures used { IfOk result (IsUsed context.now.tree (run_of [] expr.now context.now).end) }
{
    let mut meter = Meter {
        limit: None,
        spent: 0,
    };
    match evaluate(alloc, expr, context, &NoKeys, NOWHERE, &mut meter) {
        Ok(v) => Ok(Used::Value(v)),
        Err(Halt::Fault(fault, _)) => Ok(used_fault(fault)),
        Err(Halt::Needs(_, _)) => Ok(Used::Nothing),
        Err(Halt::NoMemory) => Err(AllocError),
        Err(Halt::Spent(_)) => unreachable!(),
        Err(Halt::Full(_)) => unreachable!(),
        Err(Halt::Over { total: _ }) => unreachable!(),
    }
}

// A fault in which an expression ends.
fn used_fault(fault: Fault) -> Used
    ensures { IsFault (expression_fault fault) result }
{
    match fault {
        Fault::Fraction => Used::Ends(fault),
        Fault::Range => Used::Ends(fault),
        Fault::NotNodes => Used::Ends(fault),
        Fault::NoKey => Used::Ends(fault),
        Fault::Budget => Used::Nothing,
        Fault::TooDeep => Used::Nothing,
        Fault::NoRule => Used::Nothing,
        Fault::Terminated => Used::Nothing,
        Fault::NoExtension => Used::Nothing,
        Fault::Circular => Used::Nothing,
        Fault::BadResultName => Used::Nothing,
        Fault::UnboundResultPrefix => Used::Nothing,
        Fault::BadValue => Used::Nothing,
        Fault::TooManyEvents => Used::Nothing,
        Fault::NoDocument => Used::Nothing,
    }
}
