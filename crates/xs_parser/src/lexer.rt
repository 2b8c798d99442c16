//! The tokens of a text.
ghost use Rattle.std.specs.Prelude.{◌≡◌, ◌<◌, ◌^◌, ◌++◌, ◌∷◌, length, IfOk, Some, option_map};
ghost use Rattle.xs_parser.specs.declared.bytes.Class.TheVariants.{Space};
ghost use Rattle.xs_parser.specs.Lexing.{before_bracket, before_colons, before_star, begun, behind};
ghost use Rattle.xs_parser.specs.Lexing.{bracketed, closed, first, found, kind_named, lexemes_in};
ghost use Rattle.xs_parser.specs.Lexing.{literal_found, name_found, number_found, operator_found};
ghost use Rattle.xs_parser.specs.Lexing.{pointed, sign_found, star_at, strip, target_found};
ghost use Rattle.xs_parser.specs.Lexing.{unprefixed, variable_found};

use crate::bytes::{
    self, Class, Kind, first, is_space, kind_at, quoted, second, skip_one, split_run, strip,
};
use crate::names::{axis_named, is_pi, is_unprefixed, kind_named, operator_named, qualified};
use crate::signs::{Before, is_operand, one, two};
use crate::token::{Lexeme, Placed, QName, Token};
use std::alloc::{AllocError, Global};
use xs_text::TextBuf;
use xs_xpath::name::NodeTest;
use xs_xpath::token::Atom;

/// A sign of one byte or two.
fn sign_found(before: Before, text: &str) -> Option<(Lexeme, &str, Before)>
    ensures found { option_map (λ f. found f.0 f.1.now f.2) result ≡ sign_found before text.now }
{
    let b = first(text);
    match two(b, second(text)) {
        Some((token, after)) => Some((Lexeme::Ready(token), skip_one(skip_one(text)), after)),
        None => match one(before, b) {
            Some((token, after)) => Some((Lexeme::Ready(token), skip_one(text), after)),
            None => None,
        },
    }
}

/// Digits, a point, and digits.
fn joined(alloc: Global, whole: &str, fraction: &str) -> Result<TextBuf, AllocError>
    ensures text { IfOk result (λ t. t ≡ whole.now ++ 46 ∷ fraction.now) }
{
    let mut text = String::from_str(alloc, whole)?;
    text.push_str(".")?;
    text.push_str(fraction)?;
    TextBuf::from_string(text)
}

/// A number, from the first digits on.
fn pointed<'a>(
    alloc: Global,
    whole: &str,
    rest: &'a str,
    more: Option<&'a str>,
) -> Result<Option<(Lexeme, &'a str, Before)>, AllocError>
    ensures found { IfOk result (λ r. option_map (λ f. found f.0 f.1.now f.2) r
        ≡ Some (pointed whole.now rest.now (option_map (λ m. m.now) more.entry))) }
{
    match more {
        None => {
            let text = TextBuf::of(alloc, whole)?;
            Ok(Some((Lexeme::Number(text), rest, Before::Operand)))
        }
        Some(more) => {
            let (fraction, behind) = split_run(more, Class::Digit);
            let text = joined(alloc, whole, fraction)?;
            Ok(Some((Lexeme::Number(text), behind, Before::Operand)))
        }
    }
}

/// A number.
fn number_found(alloc: Global, text: &str) -> Result<Option<(Lexeme, &str, Before)>, AllocError>
    ensures found { IfOk result (λ r. option_map (λ f. found f.0 f.1.now f.2) r
        ≡ Some (number_found text.now)) }
{
    let (whole, behind) = split_run(text, Class::Digit);
    pointed(alloc, whole, behind, strip(behind, b'.'))
}

/// A literal.
fn literal_found(alloc: Global, text: &str) -> Result<Option<(Lexeme, &str, Before)>, AllocError>
    ensures found { IfOk result (λ r. option_map (λ f. found f.0 f.1.now f.2) r
        ≡ literal_found text.now) }
{
    match quoted(text) {
        None => Ok(None),
        Some((inside, rest)) => {
            let text = TextBuf::of(alloc, inside)?;
            Ok(Some((
                Lexeme::Ready(Token::Atom(Atom::Literal(text))),
                rest,
                Before::Operand,
            )))
        }
    }
}

/// A variable.
fn variable_found(alloc: Global, text: &str) -> Result<Option<(Lexeme, &str, Before)>, AllocError>
    requires dollar { first text.now ≡ 36 }
    ensures found { IfOk result (λ r. option_map (λ f. found f.0 f.1.now f.2) r
        ≡ variable_found text.now) }
{
    match qualified(alloc, skip_one(text)) {
        Err(e) => Err(e),
        Ok(None) => Ok(None),
        Ok(Some((name, rest))) => Ok(Some((Lexeme::Variable(name), rest, Before::Operand))),
    }
}

/// A name that is an operator's.
fn operator_found(name: QName, rest: &str) -> Option<(Lexeme, &str, Before)>
    ensures found { option_map (λ f. found f.0 f.1.now f.2) result ≡ operator_found name rest.now }
{
    match operator_named(&name) {
        None => None,
        Some(operator) => {
            Some((
                Lexeme::Ready(Token::Infix(operator)),
                rest,
                Before::NoOperand,
            ))
        }
    }
}

/// `processing-instruction` with a literal, from after it.
fn target_found<'a>(
    alloc: Global,
    parts: Option<(&'a str, &'a str)>,
) -> Result<Option<(Lexeme, &'a str, Before)>, AllocError>
    ensures found { IfOk result (λ r. option_map (λ f. found f.0 f.1.now f.2) r
        ≡ target_found (option_map (λ q. (q.0.now, q.1.now)) parts.entry)) }
{
    match parts {
        None => Ok(None),
        Some((target, behind)) => {
            let (_, inside) = split_run(behind, Class::Space);
            match strip(inside, b')') {
                None => Ok(None),
                Some(rest) => {
                    let test = NodeTest::Target(TextBuf::of(alloc, target)?);
                    Ok(Some((Lexeme::Ready(Token::Test(test)), rest, Before::Operand)))
                }
            }
        }
    }
}

/// A node type, from the white space after its bracket on.
fn closed<'a>(
    alloc: Global,
    test: NodeTest,
    inside: &'a str,
    behind: Option<&'a str>,
) -> Result<Option<(Lexeme, &'a str, Before)>, AllocError>
    ensures found { IfOk result (λ r. option_map (λ f. found f.0 f.1.now f.2) r
        ≡ closed test inside.now (option_map (λ b. b.now) behind.entry)) }
{
    match behind {
        Some(rest) => Ok(Some((Lexeme::Ready(Token::Test(test)), rest, Before::Operand))),
        None => {
            if is_pi(&test) {
                target_found(alloc, quoted(inside))
            } else {
                Ok(None)
            }
        }
    }
}

/// A name and a bracket: a node type or a function.
fn bracketed(
    alloc: Global,
    name: QName,
    inside: &str,
) -> Result<Option<(Lexeme, &str, Before)>, AllocError>
    ensures found { IfOk result (λ r. option_map (λ f. found f.0 f.1.now f.2) r
        ≡ bracketed name inside.now (unprefixed kind_named name)) }
{
    match kind_named(&name) {
        None => Ok(Some((Lexeme::Called(name), inside, Before::NoOperand))),
        Some(test) => {
            let (_, text) = split_run(inside, Class::Space);
            closed(alloc, test, text, strip(text, b')'))
        }
    }
}

/// A name before two colons, or before nothing that says what it is.
fn before_colons<'a>(
    name: QName,
    rest: &'a str,
    step: Option<&'a str>,
) -> Option<(Lexeme, &'a str, Before)>
    ensures found { option_map (λ f. found f.0 f.1.now f.2) result
        ≡ before_colons name rest.now (option_map (λ s. s.now) step.entry) }
{
    match step {
        None => Some((Lexeme::Named(name), rest, Before::Operand)),
        Some(step) => match axis_named(&name) {
            None => None,
            Some(axis) => Some((Lexeme::Ready(Token::OnAxis(axis)), step, Before::NoOperand)),
        },
    }
}

/// A name that is no operator's, and before no colon and star.
fn before_bracket(
    alloc: Global,
    name: QName,
    rest: &str,
) -> Result<Option<(Lexeme, &str, Before)>, AllocError>
    ensures found { IfOk result (λ r. option_map (λ f. found f.0 f.1.now f.2) r
        ≡ before_bracket name rest.now (strip 40 (behind Space rest.now))) }
{
    let (_, text) = split_run(rest, Class::Space);
    match strip(text, b'(') {
        Some(inside) => bracketed(alloc, name, inside),
        None => Ok(before_colons(name, rest, bytes::colons_at(text))),
    }
}

/// A name that is no operator's.
fn before_star(
    alloc: Global,
    name: QName,
    rest: &str,
) -> Result<Option<(Lexeme, &str, Before)>, AllocError>
    ensures found { IfOk result (λ r. option_map (λ f. found f.0 f.1.now f.2) r
        ≡ before_star name rest.now (star_at rest.now)) }
{
    match bytes::star_at(rest) {
        None => before_bracket(alloc, name, rest),
        Some(more) => {
            if !is_unprefixed(&name) {
                return Ok(None);
            }
            let QName { prefix: _, local } = name;
            Ok(Some((Lexeme::AnyOf(local), more, Before::Operand)))
        }
    }
}

/// A name.
fn name_found(
    alloc: Global,
    before: Before,
    text: &str,
) -> Result<Option<(Lexeme, &str, Before)>, AllocError>
    ensures found { IfOk result (λ r. option_map (λ f. found f.0 f.1.now f.2) r
        ≡ name_found before text.now) }
{
    match qualified(alloc, text) {
        Err(e) => Err(e),
        Ok(None) => Ok(None),
        Ok(Some((name, rest))) => {
            if is_operand(before) {
                Ok(operator_found(name, rest))
            } else {
                before_star(alloc, name, rest)
            }
        }
    }
}

/// The token at the front.
#[tactic(auto, unfolding(crate::specs::Lexing::begun))]
fn begun(
    alloc: Global,
    before: Before,
    text: &str,
) -> Result<Option<(Lexeme, &str, Before)>, AllocError>
    ensures found { IfOk result (λ r. option_map (λ f. found f.0 f.1.now f.2) r
        ≡ begun before text.now) }
{
    match kind_at(text) {
        Kind::AName => name_found(alloc, before, text),
        Kind::ANumber => number_found(alloc, text),
        Kind::ALiteral => literal_found(alloc, text),
        Kind::AVariable => variable_found(alloc, text),
        Kind::ASign => Ok(sign_found(before, text)),
    }
}

/// The tokens of a text, if it has such.
pub fn lexemes(alloc: Global, text: &str) -> Result<Option<Vec<Placed>>, AllocError>
    requires short { length text.now < 2 ^ 32 }
    ensures tokens { IfOk result (λ r. option_map (λ v. v.items) r ≡ lexemes_in text.now) }
{
    let mut out = Vec::new(alloc);
    let mut before = Before::NoOperand;
    let mut rest = text;
    'tokens: while !rest.is_empty() {
        if is_space(first(rest)) {
            rest = skip_one(rest);
        } else {
            let at = (text.len() - rest.len()) as u32;
            match begun(alloc, before, rest) {
                Err(e) => return Err(e),
                Ok(None) => return Ok(None),
                Ok(Some((lexeme, behind, after))) => {
                    out.push(Placed { at, lexeme })?;
                    before = after;
                    rest = behind;
                }
            }
        }
    }
    Ok(Some(out))
}
