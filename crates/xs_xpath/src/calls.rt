//! Calls of functions, and the divisions of `floor`, `ceiling` and `round` (XPath 1.0, 3.2, 4.4).

ghost use Rattle.std.specs.Prelude.{◌≡◌, Some};
ghost use Rattle.xs_xpath.specs.Exprs.{tree_from, trees_from};
ghost use Rattle.xs_xpath.specs.Quotients.{called, divided, divided_in, division_of};
ghost use Rattle.xs_xpath.specs.Quotients.{instead_of_div, last_divided};

use crate::expr::Expr;
use crate::name::Function;
use crate::token::Operator;

impl Expr {
    /// The call of a function. Where a `div` is all of the argument of `floor`, `ceiling` or
    /// `round`, brackets aside, the division of that function stands in its place.
    pub fn call(function: Function, mut arguments: Vec<Expr>) -> Expr
        ensures tree { tree_from result ≡ called function (trees_from arguments.items) }
    {
        if let Some(division) = division_of(function) {
            divide_first(&mut arguments, division);
        }
        Expr::Call(function, arguments)
    }
}

/// The division of a function that rounds.
fn division_of(function: Function) -> Option<Operator>
    ensures { result ≡ division_of function }
{
    match function {
        Function::Floor => Some(Operator::FloorDiv),
        Function::Ceiling => Some(Operator::CeilingDiv),
        Function::Round => Some(Operator::NearestDiv),
        _ => None,
    }
}

/// Puts a division in the place of the `div` that is all of the first argument.
fn divide_first(arguments: &mut Vec<Expr>, division: Operator)
    ensures trees { trees_from arguments.new.items
        ≡ divided_in (Some division) (trees_from arguments.old.items) }
{
    if let Some(first) = arguments.first_mut() {
        divide(first, division);
    }
}

/// Puts a division in the place of the `div` that is all of an expression in a box.
#[cycle(division)]
fn divide_boxed(e: &mut Box<Expr>, division: Operator)
    ensures tree { tree_from e.new.value ≡ divided division (tree_from e.old.value) }
{
    divide(e, division);
}

/// Puts a division in the place of the `div` that is all of an expression, brackets aside.
#[cycle(division)]
fn divide(e: &mut Expr, division: Operator)
    ensures tree { tree_from e.new ≡ divided division (tree_from e.old) }
{
    match e {
        Expr::Chain(operators, _) => divide_last(operators, division),
        Expr::Group(inner) => divide_boxed(inner, division),
        Expr::Number(_)
        | Expr::Literal(_)
        | Expr::Variable(_, _, _)
        | Expr::Call(_, _)
        | Expr::Negative(_, _)
        | Expr::Here
        | Expr::Root
        | Expr::Step(_, _, _)
        | Expr::Descend
        | Expr::Filter(_, _)
        | Expr::Path(_, _) => {}
    }
}

/// Puts a division in the place of the last operator, if this is `div`.
fn divide_last(operators: &mut Vec<Operator>, division: Operator)
    ensures operators { operators.new.items ≡ last_divided division operators.old.items }
{
    let count = operators.len();
    if count > 0 {
        let last = operators[count - 1];
        operators[count - 1] = instead_of_div(division, last);
    }
}

/// A division in the place of `div`; another operator stays.
fn instead_of_div(division: Operator, operator: Operator) -> Operator
    ensures { result ≡ instead_of_div division operator }
{
    match operator {
        Operator::Div => division,
        _ => operator,
    }
}
