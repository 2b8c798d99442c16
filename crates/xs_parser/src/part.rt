//! The parts of an expression between two brackets.
ghost use Rattle.std.specs.Prelude.{◌≡◌, ◌≤◌, ◌<◌, ◌+◌, IfOk, length, option_map};
ghost use Rattle.xs_xpath.specs.Exprs.{tree_from, trees_from};
ghost use Rattle.xs_parser.specs.steps.Cuttings.{behind_operator, behind_part, cutting_of};
ghost use Rattle.xs_parser.specs.steps.Cuttings.{gathered_by};
ghost use Rattle.xs_parser.specs.steps.Cuttings.{with_front, with_operand};
ghost use Rattle.xs_parser.specs.steps.Parts.{gathered, part_of, parts_of, signs_in};
ghost use Rattle.xs_parser.specs.Reading.{cut, is_minus, level, operand};
ghost use Rattle.xs_parser.specs.Tokens.{rank};

use crate::build::{chain, negated};
use crate::path::path;
use crate::token::Token;
use std::alloc::{AllocError, Global};
use xs_xpath::expr::Expr;
use xs_xpath::token::Operator;

/// A part of an expression: a token, a whole primary expression, or a predicate.
#[derive(Drop)]
pub enum Part {
    Plain(Token),
    Whole(Expr),
    Predicate(Expr),
}

/// The level of the expression whose operands an operator joins.
fn rank(operator: Operator) -> u8
    ensures rank { result ≡ rank operator }
{
    match operator {
        Operator::Union => 1,
        Operator::Times => 3,
        Operator::Div => 3,
        Operator::FloorDiv => 3,
        Operator::CeilingDiv => 3,
        Operator::NearestDiv => 3,
        Operator::Mod => 3,
        Operator::Plus => 4,
        Operator::Minus => 4,
        Operator::Less => 5,
        Operator::LessEqual => 5,
        Operator::Greater => 5,
        Operator::GreaterEqual => 5,
        Operator::Equal => 6,
        Operator::Unequal => 6,
        Operator::And => 7,
        Operator::Or => 8,
    }
}

/// The operator that a part is, if it has the rank.
fn operator_of(wanted: u8, part: &Part) -> Option<Operator>
    ensures operator { result ≡ cut wanted (part_of part.now) }
{
    match part {
        Part::Plain(Token::Infix(operator)) => {
            if rank(*operator) == wanted {
                Some(*operator)
            } else {
                None
            }
        }
        _ => None,
    }
}

/// Operands with the operators between them, of which there may be none.
fn gather(operators: Vec<Operator>, mut operands: Vec<Expr>) -> Expr
    requires some { 0 < length operands.items }
    ensures tree { tree_from result ≡ gathered operators.items (trees_from operands.items) }
{
    if operands.len() == 1 {
        if let Some(only) = operands.pop() {
            return only;
        }
    }
    chain(operators, operands)
}

/// What was cut off: operators, the operands before them, and the parts after the last operator.
#[derive(Drop)]
pub struct Cutting {
    operators: Vec<Operator>,
    operands: Vec<Expr>,
    front: Vec<Part>,
}

/// With a part more after the last operator.
fn with_front(state: Cutting, part: Part) -> Result<Cutting, AllocError>
    ensures cutting { IfOk result (λ s. cutting_of s
        ≡ with_front (part_of part) (cutting_of state)) }
{
    let Cutting {
        operators,
        operands,
        mut front,
    } = state;
    front.push(part)?;
    Ok(Cutting {
        operators,
        operands,
        front,
    })
}

/// With an operand and the operator after it.
fn with_operand(
    alloc: Global,
    mut operators: Vec<Operator>,
    mut operands: Vec<Expr>,
    operator: Operator,
    operand: Expr,
) -> Result<Cutting, AllocError>
    ensures cutting { IfOk result (λ s. cutting_of s
        ≡ with_operand operators.items (trees_from operands.items) operator (tree_from operand)) }
{
    operands.push(operand)?;
    operators.push(operator)?;
    Ok(Cutting {
        operators,
        operands,
        front: Vec::new(alloc),
    })
}

/// Behind an operator: the parts before it are an operand of a level.
#[cycle(levels)]
fn behind_operator(
    alloc: Global,
    n: u8,
    operator: Operator,
    state: Cutting,
) -> Result<Option<Cutting>, AllocError>
    requires most { n ≤ 7 }
    ensures cutting { IfOk result (λ r. option_map cutting_of r
        ≡ behind_operator (operand n (level n)) operator (cutting_of state)) }
{
    let Cutting {
        operators,
        operands,
        front,
    } = state;
    match operand(alloc, n, front)? {
        None => Ok(None),
        Some(e) => Ok(Some(with_operand(alloc, operators, operands, operator, e)?)),
    }
}

/// Behind a part.
#[cycle(levels)]
fn behind_part(
    alloc: Global,
    n: u8,
    part: Part,
    state: Cutting,
) -> Result<Option<Cutting>, AllocError>
    requires most { n ≤ 7 }
    ensures cutting { IfOk result (λ r. option_map cutting_of r
        ≡ behind_part (operand n (level n)) (cut (n + 1) (part_of part)) (part_of part)
        (cutting_of state)) }
{
    match operator_of(n + 1, &part) {
        None => Ok(Some(with_front(state, part)?)),
        Some(operator) => {
            drop(part);
            behind_operator(alloc, n, operator, state)
        }
    }
}

/// The expression at the end of the parts.
#[cycle(levels)]
fn gather_all(alloc: Global, n: u8, state: Cutting) -> Result<Option<Expr>, AllocError>
    requires most { n ≤ 7 }
    ensures tree { IfOk result (λ e. option_map tree_from e
        ≡ gathered_by (operand n (level n)) (cutting_of state)) }
{
    let Cutting {
        operators,
        mut operands,
        front,
    } = state;
    match operand(alloc, n, front)? {
        None => Ok(None),
        Some(e) => {
            operands.push(e)?;
            Ok(Some(gather(operators, operands)))
        }
    }
}

/// The expression of a level that the parts are.
#[cycle(levels)]
pub fn level(alloc: Global, n: u8, parts: Vec<Part>) -> Result<Option<Expr>, AllocError>
    requires most { n ≤ 8 }
    ensures tree { IfOk result (λ e. option_map tree_from e ≡ level n (parts_of parts.items)) }
{
    if n == 0 {
        return path(alloc, parts);
    }
    let mut now = Cutting {
        operators: Vec::new(alloc),
        operands: Vec::new(alloc),
        front: Vec::new(alloc),
    };
    let mut rest = parts.into_iter();
    while let Some(part) = rest.next() {
        match behind_part(alloc, n - 1, part, now)? {
            None => return Ok(None),
            Some(next) => now = next,
        }
    }
    // The buffer is empty: the levels below are not to keep it.
    drop(rest);
    gather_all(alloc, n - 1, now)
}

/// Whether a part is a minus sign before an operand.
fn is_minus(part: &Part) -> bool
    ensures minus { result ≡ is_minus (part_of part.now) }
{
    matches!(part, Part::Plain(Token::Negate))
}

/// How many minus signs are in front.
fn minus_signs(parts: &[Part]) -> usize
    ensures signs { result ≡ signs_in (parts_of parts.now) }
    ensures within { result ≤ length parts.now }
{
    let mut rest = parts;
    let mut signs = 0;
    while let Some((first, behind)) = rest.split_first() {
        if !is_minus(first) {
            return signs;
        }
        rest = behind;
        signs += 1;
    }
    signs
}

/// An operand of the level above `n`; one of level 1 may have signs.
#[cycle(levels)]
fn operand(alloc: Global, n: u8, mut parts: Vec<Part>) -> Result<Option<Expr>, AllocError>
    requires most { n ≤ 7 }
    ensures tree { IfOk result (λ e. option_map tree_from e
        ≡ operand n (level n) (parts_of parts.items)) }
{
    if n != 1 {
        return level(alloc, n, parts);
    }
    let signs = minus_signs(&parts);
    let behind = parts.split_off(signs)?;
    match level(alloc, n, behind)? {
        None => Ok(None),
        Some(e) => Ok(Some(negated(alloc, signs, e)?)),
    }
}
