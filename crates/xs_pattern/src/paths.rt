//! The parts of a path.

ghost use Rattle.std.specs.Prelude.{◌≡◌};
ghost use Rattle.xs_pattern_spec.specs.Matching.{start_of, steps_of};
ghost use Rattle.xs_xpath.specs.Exprs.{tree_from, trees_from};

use xs_xpath::expr::Expr;

/// Where a path begins; an expression that is no path begins with itself.
pub fn start_of(alternative: &Expr) -> &Expr
    ensures { tree_from result.now ≡ start_of (tree_from alternative.now) }
{
    match alternative {
        Expr::Path(start, _) => start,
        Expr::Number(_) => alternative,
        Expr::Literal(_) => alternative,
        Expr::Variable(_, _, _) => alternative,
        Expr::Call(_, _) => alternative,
        Expr::Negative(_, _) => alternative,
        Expr::Chain(_, _) => alternative,
        Expr::Group(_) => alternative,
        Expr::Here => alternative,
        Expr::Root => alternative,
        Expr::Step(_, _, _) => alternative,
        Expr::Descend => alternative,
        Expr::Filter(_, _) => alternative,
    }
}

/// The steps of a path; an expression that is no path has none.
pub fn steps_of(alternative: &Expr) -> &[Expr]
    ensures { trees_from result.now ≡ steps_of (tree_from alternative.now) }
{
    match alternative {
        Expr::Path(_, steps) => steps,
        Expr::Number(_) => &[],
        Expr::Literal(_) => &[],
        Expr::Variable(_, _, _) => &[],
        Expr::Call(_, _) => &[],
        Expr::Negative(_, _) => &[],
        Expr::Chain(_, _) => &[],
        Expr::Group(_) => &[],
        Expr::Here => &[],
        Expr::Root => &[],
        Expr::Step(_, _, _) => &[],
        Expr::Descend => &[],
        Expr::Filter(_, _) => &[],
    }
}
