//! Reads tokens from the left, with the open brackets on a stack of its own.
ghost use Rattle.std.specs.Prelude.{◌≡◌, ◌++◌, ◌∷◌, [], IfOk, Some, map, option_map, reverse};
ghost use Rattle.xs_xpath.specs.Exprs.{tree_from, trees_from};
ghost use Rattle.xs_parser.specs.steps.Parts.{part_of, parts_of};
ghost use Rattle.xs_parser.specs.Reading.{all_arguments, argued, expr, opened, read, round_ended};
ghost use Rattle.xs_parser.specs.Reading.{square_ended, state, taken, tree_by, with_part};
ghost use Rattle.xs_parser.specs.steps.States.{bracket_of, frame_of, kept, state_of};
ghost use Rattle.xs_parser.specs.declared.token.Token.TheVariants.{Comma, EndRound, EndSquare};

use crate::build;
use crate::part::{Part, level};
use crate::token::Token;
use std::alloc::{AllocError, Global};
use xs_xpath::expr::Expr;
use xs_xpath::name::Function;

/// An open bracket; of a call, with its name and the arguments before the last comma.
#[derive(Drop)]
pub enum Bracket {
    Round,
    Call(Function, Vec<Expr>),
    Square,
}

/// An open bracket, and the parts before it.
#[derive(Drop)]
pub struct Frame {
    bracket: Bracket,
    before: Vec<Part>,
}

/// What was read: the open brackets, and the parts after the last one.
#[derive(Drop)]
pub struct State {
    frames: Vec<Frame>,
    parts: Vec<Part>,
}

/// What is kept of the expression that the parts between two brackets are.
fn inner(alloc: Global, is_deep: bool, parts: Vec<Part>) -> Result<Option<Expr>, AllocError>
    ensures tree { IfOk result (λ e. option_map tree_from e
        ≡ expr (kept is_deep) (parts_of parts.items)) }
{
    let found = level(alloc, 8, parts)?;
    if !is_deep {
        return Ok(found);
    }
    match found {
        None => Ok(None),
        Some(e) => {
            drop(e);
            Ok(Some(build::here()))
        }
    }
}

/// With a bracket opened.
fn open_bracket(alloc: Global, state: State, bracket: Bracket) -> Result<State, AllocError>
    ensures state { IfOk result (λ s. state_of s ≡ opened (bracket_of bracket) (state_of state)) }
{
    let State { mut frames, parts } = state;
    frames.push(Frame {
        bracket,
        before: parts,
    })?;
    Ok(State {
        frames,
        parts: Vec::new(alloc),
    })
}

/// With a part more.
fn with_part(state: State, part: Part) -> Result<State, AllocError>
    ensures state { IfOk result (λ s. state_of s ≡ with_part (part_of part) (state_of state)) }
{
    let State { frames, mut parts } = state;
    parts.push(part)?;
    Ok(State { frames, parts })
}

/// With one argument more.
fn with_argument(
    alloc: Global,
    is_deep: bool,
    mut arguments: Vec<Expr>,
    parts: Vec<Part>,
) -> Result<Option<Vec<Expr>>, AllocError>
    ensures all { IfOk result (λ all. option_map (λ es. trees_from es.items) all
        ≡ option_map (λ e. trees_from arguments.items ++ e ∷ [])
        (expr (kept is_deep) (parts_of parts.items))) }
{
    match inner(alloc, is_deep, parts)? {
        None => Ok(None),
        Some(e) => {
            arguments.push(e)?;
            Ok(Some(arguments))
        }
    }
}

/// The arguments of a call, of which there may be none.
fn all_arguments(
    alloc: Global,
    is_deep: bool,
    arguments: Vec<Expr>,
    parts: Vec<Part>,
) -> Result<Option<Vec<Expr>>, AllocError>
    ensures all { IfOk result (λ all. option_map (λ es. trees_from es.items) all
        ≡ all_arguments (expr (kept is_deep)) (trees_from arguments.items) (parts_of parts.items)) }
{
    if !arguments.is_empty() {
        return with_argument(alloc, is_deep, arguments, parts);
    }
    if !parts.is_empty() {
        return with_argument(alloc, is_deep, arguments, parts);
    }
    Ok(Some(arguments))
}

/// What a round bracket ends.
fn round_ended(
    alloc: Global,
    is_deep: bool,
    bracket: Bracket,
    parts: Vec<Part>,
) -> Result<Option<Part>, AllocError>
    ensures part { IfOk result (λ part. option_map part_of part
        ≡ round_ended (expr (kept is_deep)) (bracket_of bracket) (parts_of parts.items)) }
{
    match bracket {
        Bracket::Round => match inner(alloc, is_deep, parts)? {
            None => Ok(None),
            Some(e) => Ok(Some(Part::Whole(build::group(alloc, e)?))),
        },
        Bracket::Call(name, arguments) => match all_arguments(alloc, is_deep, arguments, parts)? {
            None => Ok(None),
            Some(all) => Ok(Some(Part::Whole(build::call(name, all)))),
        },
        Bracket::Square => Ok(None),
    }
}

/// What a square bracket ends.
fn square_ended(
    alloc: Global,
    is_deep: bool,
    bracket: Bracket,
    parts: Vec<Part>,
) -> Result<Option<Part>, AllocError>
    ensures part { IfOk result (λ part. option_map part_of part
        ≡ square_ended (expr (kept is_deep)) (bracket_of bracket) (parts_of parts.items)) }
{
    match bracket {
        Bracket::Round => Ok(None),
        Bracket::Call(_, _) => Ok(None),
        Bracket::Square => match inner(alloc, is_deep, parts)? {
            None => Ok(None),
            Some(e) => Ok(Some(Part::Predicate(e))),
        },
    }
}

/// The innermost bracket with one more argument.
fn argued(
    alloc: Global,
    is_deep: bool,
    bracket: Bracket,
    parts: Vec<Part>,
) -> Result<Option<Bracket>, AllocError>
    ensures bracket { IfOk result (λ b. option_map bracket_of b
        ≡ argued (expr (kept is_deep)) (bracket_of bracket) (parts_of parts.items)) }
{
    match bracket {
        Bracket::Round => Ok(None),
        Bracket::Call(name, arguments) => match with_argument(alloc, is_deep, arguments, parts)? {
            None => Ok(None),
            Some(all) => Ok(Some(Bracket::Call(name, all))),
        },
        Bracket::Square => Ok(None),
    }
}

/// The state after a bracket that ended as a part.
fn behind_bracket(
    frames: Vec<Frame>,
    mut before: Vec<Part>,
    ended: Option<Part>,
) -> Result<Option<State>, AllocError>
    ensures state { IfOk result (λ s. option_map state_of s
        ≡ option_map (λ p. state (map frame_of (reverse frames.items))
        (parts_of before.items ++ part_of p ∷ [])) ended) }
{
    match ended {
        None => Ok(None),
        Some(part) => {
            before.push(part)?;
            Ok(Some(State {
                frames,
                parts: before,
            }))
        }
    }
}

/// The state after a round bracket that closes.
fn end_round(alloc: Global, is_deep: bool, state: State) -> Result<Option<State>, AllocError>
    ensures state { IfOk result (λ s. option_map state_of s
        ≡ taken (expr (kept is_deep)) EndRound (state_of state)) }
{
    let State { mut frames, parts } = state;
    match frames.pop() {
        None => Ok(None),
        Some(frame) => {
            let Frame { bracket, before } = frame;
            let ended = round_ended(alloc, is_deep, bracket, parts)?;
            behind_bracket(frames, before, ended)
        }
    }
}

/// The state after a square bracket that closes.
fn end_square(alloc: Global, is_deep: bool, state: State) -> Result<Option<State>, AllocError>
    ensures state { IfOk result (λ s. option_map state_of s
        ≡ taken (expr (kept is_deep)) EndSquare (state_of state)) }
{
    let State { mut frames, parts } = state;
    match frames.pop() {
        None => Ok(None),
        Some(frame) => {
            let Frame { bracket, before } = frame;
            let ended = square_ended(alloc, is_deep, bracket, parts)?;
            behind_bracket(frames, before, ended)
        }
    }
}

/// The state after a comma.
fn next_argument(alloc: Global, is_deep: bool, state: State) -> Result<Option<State>, AllocError>
    ensures state { IfOk result (λ s. option_map state_of s
        ≡ taken (expr (kept is_deep)) Comma (state_of state)) }
{
    let State { mut frames, parts } = state;
    match frames.pop() {
        None => Ok(None),
        Some(frame) => {
            let Frame { bracket, before } = frame;
            match argued(alloc, is_deep, bracket, parts)? {
                None => Ok(None),
                Some(bracket) => {
                    frames.push(Frame { bracket, before })?;
                    Ok(Some(State {
                        frames,
                        parts: Vec::new(alloc),
                    }))
                }
            }
        }
    }
}

/// The state after a token that opens a bracket.
fn begin(alloc: Global, state: State, bracket: Bracket) -> Result<Option<State>, AllocError>
    ensures state { IfOk result (λ s. option_map state_of s
        ≡ Some (opened (bracket_of bracket) (state_of state))) }
{
    Ok(Some(open_bracket(alloc, state, bracket)?))
}

/// The state after a part more.
fn add(state: State, part: Part) -> Result<Option<State>, AllocError>
    ensures state { IfOk result (λ s. option_map state_of s
        ≡ Some (with_part (part_of part) (state_of state))) }
{
    Ok(Some(with_part(state, part)?))
}

/// The state after a token.
fn take(
    alloc: Global,
    is_deep: bool,
    state: State,
    token: Token,
) -> Result<Option<State>, AllocError>
    ensures state { IfOk result (λ s. option_map state_of s
        ≡ taken (expr (kept is_deep)) token (state_of state)) }
{
    match token {
        Token::Round => begin(alloc, state, Bracket::Round),
        Token::Call(name) => begin(alloc, state, Bracket::Call(name, Vec::new(alloc))),
        Token::Square => begin(alloc, state, Bracket::Square),
        Token::EndRound => end_round(alloc, is_deep, state),
        Token::EndSquare => end_square(alloc, is_deep, state),
        Token::Comma => next_argument(alloc, is_deep, state),
        Token::Slash => add(state, Part::Plain(token)),
        Token::Slashes => add(state, Part::Plain(token)),
        Token::Negate => add(state, Part::Plain(token)),
        Token::Infix(_) => add(state, Part::Plain(token)),
        Token::OnAxis(_) => add(state, Part::Plain(token)),
        Token::Test(_) => add(state, Part::Plain(token)),
        Token::Dots(_) => add(state, Part::Plain(token)),
        Token::Atom(atom) => add(state, Part::Whole(build::from_atom(atom))),
    }
}

/// The expression that tokens spell, if they spell one. Where it is nested too deep, only whether
/// they do.
pub fn read(alloc: Global, is_deep: bool, tokens: Vec<Token>) -> Result<Option<Expr>, AllocError>
    ensures tree { IfOk result (λ e. option_map tree_from e ≡ tree_by (kept is_deep) tokens.items) }
{
    let mut now = State {
        frames: Vec::new(alloc),
        parts: Vec::new(alloc),
    };
    let mut rest = tokens.into_iter();
    while let Some(token) = rest.next() {
        match take(alloc, is_deep, now, token)? {
            None => return Ok(None),
            Some(next) => now = next,
        }
    }
    let State { frames, parts } = now;
    if frames.len() != 0 {
        return Ok(None);
    }
    inner(alloc, is_deep, parts)
}
