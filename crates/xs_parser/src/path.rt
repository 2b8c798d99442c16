//! Paths, which are read from the right.
ghost use Rattle.std.specs.Prelude.{◌≡◌, ◌∷◌, IfOk, None, Some, option_map, reverse};
ghost use Rattle.xs_xpath.specs.Exprs.{tree_from, trees_from};
ghost use Rattle.xs_xpath.specs.Tree.{filtered, followed, here, path, step, trees};
ghost use Rattle.xs_parser.specs.steps.Parts.{ahead_of, part_of, parts_of, tail_of};
ghost use Rattle.xs_parser.specs.Reading.{behind_slash, front, path_from, path_of, plain, steps_in};
ghost use Rattle.xs_parser.specs.Reading.{tail, tail_in, with_axis, with_dots, with_predicate};
ghost use Rattle.xs_parser.specs.Reading.{with_slash, with_slashes, with_test, with_whole};

use crate::build;
use crate::part::Part;
use crate::token::Token;
use std::alloc::{AllocError, Global};
use xs_tree::Axis;
use xs_xpath::expr::Expr;
use xs_xpath::name::NodeTest;

/// What stands at the right of a path: predicates and steps; a node test with such; a step and
/// steps after it; a whole path.
/// The last of a list stands first in the path.
#[derive(Drop)]
pub enum Ahead {
    Tail(Vec<Expr>, Vec<Expr>),
    Tested(NodeTest, Vec<Expr>, Vec<Expr>),
    Stepped(Expr, Vec<Expr>),
    Complete(Expr),
}

/// Nothing, where what stands at the right makes no path.
fn no_path<T>(ahead: Ahead) -> Option<T>
    ensures none { result ≡ None }
{
    drop(ahead);
    None
}

/// A step whose predicates stand the other way round.
fn step_from(axis: Axis, test: NodeTest, mut predicates: Vec<Expr>) -> Expr
    ensures tree { tree_from result
        ≡ step axis test (trees (trees_from (reverse predicates.items))) }
{
    predicates.reverse();
    build::step(axis, test, predicates)
}

/// Steps with one more in front.
fn with_step(first: Expr, mut steps: Vec<Expr>) -> Result<Option<Vec<Expr>>, AllocError>
    ensures steps { IfOk result (λ r. option_map (λ v. trees_from (reverse v.items)) r
        ≡ Some (tree_from first ∷ trees_from (reverse steps.items))) }
{
    steps.push(first)?;
    Ok(Some(steps))
}

/// The steps that stand there, of which the first has the child axis where it has none yet.
fn steps_in(ahead: Ahead) -> Result<Option<Vec<Expr>>, AllocError>
    ensures steps { IfOk result (λ r. option_map (λ v. trees_from (reverse v.items)) r
        ≡ steps_in (ahead_of ahead)) }
{
    match ahead {
        Ahead::Tail(_, _) => Ok(no_path(ahead)),
        Ahead::Tested(test, predicates, steps) => {
            with_step(step_from(Axis::Child, test, predicates), steps)
        }
        Ahead::Stepped(first, steps) => with_step(first, steps),
        Ahead::Complete(_) => Ok(no_path(ahead)),
    }
}

/// The predicates and steps that stand there, if nothing stands before them.
fn tail_in(ahead: Ahead) -> Option<(Vec<Expr>, Vec<Expr>)>
    ensures tail { option_map tail_of result ≡ tail_in (ahead_of ahead) }
{
    match ahead {
        Ahead::Tail(predicates, steps) => Some((predicates, steps)),
        Ahead::Tested(_, _, _) => no_path(ahead),
        Ahead::Stepped(_, _) => no_path(ahead),
        Ahead::Complete(_) => no_path(ahead),
    }
}

/// With a predicate more in front.
fn with_predicate(e: Expr, ahead: Ahead) -> Result<Option<Ahead>, AllocError>
    ensures ahead { IfOk result (λ r. option_map ahead_of r
        ≡ with_predicate (tree_from e) (ahead_of ahead)) }
{
    match tail_in(ahead) {
        None => {
            drop(e);
            Ok(None)
        }
        Some((mut predicates, steps)) => {
            predicates.push(e)?;
            Ok(Some(Ahead::Tail(predicates, steps)))
        }
    }
}

/// An expression with predicates and steps that stand the other way round.
fn whole_from(
    alloc: Global,
    e: Expr,
    mut predicates: Vec<Expr>,
    mut steps: Vec<Expr>,
) -> Result<Expr, AllocError>
    ensures tree { IfOk result (λ r. tree_from r
        ≡ followed (filtered (tree_from e) (trees_from (reverse predicates.items)))
        (trees_from (reverse steps.items))) }
{
    predicates.reverse();
    steps.reverse();
    let start = build::filtered(alloc, e, predicates)?;
    build::followed(alloc, start, steps)
}

/// With a primary expression in front.
fn with_whole(alloc: Global, e: Expr, ahead: Ahead) -> Result<Option<Ahead>, AllocError>
    ensures ahead { IfOk result (λ r. option_map ahead_of r
        ≡ with_whole (tree_from e) (ahead_of ahead)) }
{
    match tail_in(ahead) {
        None => {
            drop(e);
            Ok(None)
        }
        Some((predicates, steps)) => {
            let whole = whole_from(alloc, e, predicates, steps)?;
            Ok(Some(Ahead::Complete(whole)))
        }
    }
}

/// With a node test in front.
fn with_test(test: NodeTest, ahead: Ahead) -> Option<Ahead>
    ensures ahead { option_map ahead_of result ≡ with_test test (ahead_of ahead) }
{
    match tail_in(ahead) {
        None => None,
        Some((predicates, steps)) => Some(Ahead::Tested(test, predicates, steps)),
    }
}

/// With an axis in front.
fn with_axis(axis: Axis, ahead: Ahead) -> Option<Ahead>
    ensures ahead { option_map ahead_of result ≡ with_axis axis (ahead_of ahead) }
{
    match ahead {
        Ahead::Tail(_, _) => no_path(ahead),
        Ahead::Tested(test, predicates, steps) => {
            Some(Ahead::Stepped(step_from(axis, test, predicates), steps))
        }
        Ahead::Stepped(_, _) => no_path(ahead),
        Ahead::Complete(_) => no_path(ahead),
    }
}

/// With `.` or `..` first, after which no predicate stands.
fn with_dots(alloc: Global, axis: Axis, ahead: Ahead) -> Option<Ahead>
    ensures ahead { option_map ahead_of result ≡ with_dots axis (ahead_of ahead) }
{
    match ahead {
        Ahead::Tail(predicates, steps) => {
            if !predicates.is_empty() {
                return None;
            }
            let first = build::step(axis, NodeTest::Node, Vec::new(alloc));
            Some(Ahead::Stepped(first, steps))
        }
        Ahead::Tested(_, _, _) => no_path(ahead),
        Ahead::Stepped(_, _) => no_path(ahead),
        Ahead::Complete(_) => no_path(ahead),
    }
}

/// With a slash before steps.
fn behind_slash(alloc: Global, ahead: Ahead) -> Result<Option<Ahead>, AllocError>
    ensures ahead { IfOk result (λ r. option_map ahead_of r ≡ behind_slash (ahead_of ahead)) }
{
    match steps_in(ahead)? {
        None => Ok(None),
        Some(steps) => Ok(Some(Ahead::Tail(Vec::new(alloc), steps))),
    }
}

/// With a slash first, which is the root where nothing is after it.
fn with_slash(alloc: Global, ahead: Ahead) -> Result<Option<Ahead>, AllocError>
    ensures ahead { IfOk result (λ r. option_map ahead_of r ≡ with_slash (ahead_of ahead)) }
{
    match ahead {
        Ahead::Tail(predicates, steps) => {
            if !predicates.is_empty() {
                return Ok(None);
            }
            if !steps.is_empty() {
                return Ok(None);
            }
            Ok(Some(Ahead::Complete(build::root())))
        }
        Ahead::Tested(_, _, _) => behind_slash(alloc, ahead),
        Ahead::Stepped(_, _) => behind_slash(alloc, ahead),
        Ahead::Complete(_) => Ok(no_path(ahead)),
    }
}

/// With a double slash in front.
fn with_slashes(alloc: Global, ahead: Ahead) -> Result<Option<Ahead>, AllocError>
    ensures ahead { IfOk result (λ r. option_map ahead_of r ≡ with_slashes (ahead_of ahead)) }
{
    match steps_in(ahead)? {
        None => Ok(None),
        Some(mut steps) => {
            steps.push(build::descend())?;
            Ok(Some(Ahead::Tail(Vec::new(alloc), steps)))
        }
    }
}

/// With a token in front.
fn with_token(alloc: Global, token: Token, ahead: Ahead) -> Result<Option<Ahead>, AllocError>
    ensures ahead { IfOk result (λ r. option_map ahead_of r
        ≡ front (plain token) (ahead_of ahead)) }
{
    match token {
        Token::Test(test) => Ok(with_test(test, ahead)),
        Token::OnAxis(axis) => Ok(with_axis(axis, ahead)),
        Token::Dots(axis) => Ok(with_dots(alloc, axis, ahead)),
        Token::Slash => with_slash(alloc, ahead),
        Token::Slashes => with_slashes(alloc, ahead),
        Token::Round => Ok(no_path(ahead)),
        Token::Call(_) => Ok(no_path(ahead)),
        Token::EndRound => Ok(no_path(ahead)),
        Token::Square => Ok(no_path(ahead)),
        Token::EndSquare => Ok(no_path(ahead)),
        Token::Comma => Ok(no_path(ahead)),
        Token::Negate => Ok(no_path(ahead)),
        Token::Infix(_) => Ok(no_path(ahead)),
        Token::Atom(_) => Ok(no_path(ahead)),
    }
}

/// With a part in front.
fn front(alloc: Global, part: Part, ahead: Ahead) -> Result<Option<Ahead>, AllocError>
    ensures ahead { IfOk result (λ r. option_map ahead_of r
        ≡ front (part_of part) (ahead_of ahead)) }
{
    match part {
        Part::Plain(token) => with_token(alloc, token, ahead),
        Part::Whole(e) => with_whole(alloc, e, ahead),
        Part::Predicate(e) => with_predicate(e, ahead),
    }
}

/// The path from the root, where no predicate stands in front.
fn root_path(
    alloc: Global,
    predicates: Vec<Expr>,
    steps: Vec<Expr>,
) -> Result<Option<Expr>, AllocError>
    ensures tree { IfOk result (λ r. option_map tree_from r
        ≡ path_from (tail (trees_from predicates.items) (trees_from steps.items))) }
{
    if !predicates.is_empty() {
        return Ok(None);
    }
    if steps.is_empty() {
        return Ok(None);
    }
    Ok(Some(build::path(alloc, build::root(), steps)?))
}

/// A relative path whose steps stand the other way round.
fn relative_path(alloc: Global, first: Expr, mut steps: Vec<Expr>) -> Result<Expr, AllocError>
    ensures tree { IfOk result (λ e. tree_from e
        ≡ path here (trees (tree_from first ∷ trees_from (reverse steps.items)))) }
{
    steps.push(first)?;
    steps.reverse();
    build::path(alloc, build::here(), steps)
}

/// The path, once nothing is left in front.
fn path_from(alloc: Global, ahead: Ahead) -> Result<Option<Expr>, AllocError>
    ensures tree { IfOk result (λ r. option_map tree_from r ≡ path_from (ahead_of ahead)) }
{
    match ahead {
        Ahead::Tail(mut predicates, mut steps) => {
            predicates.reverse();
            steps.reverse();
            root_path(alloc, predicates, steps)
        }
        Ahead::Tested(test, predicates, steps) => {
            let first = step_from(Axis::Child, test, predicates);
            Ok(Some(relative_path(alloc, first, steps)?))
        }
        Ahead::Stepped(first, steps) => Ok(Some(relative_path(alloc, first, steps)?)),
        Ahead::Complete(e) => Ok(Some(e)),
    }
}

/// The path that the parts are.
pub fn path(alloc: Global, parts: Vec<Part>) -> Result<Option<Expr>, AllocError>
    ensures tree { IfOk result (λ e. option_map tree_from e ≡ path_of (parts_of parts.items)) }
{
    let mut ahead = Ahead::Tail(Vec::new(alloc), Vec::new(alloc));
    let mut rest = parts;
    while let Some(part) = rest.pop() {
        match front(alloc, part, ahead)? {
            None => return Ok(None),
            Some(next) => ahead = next,
        }
    }
    path_from(alloc, ahead)
}
