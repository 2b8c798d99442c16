//! Value templates (XSLT 1.0, 7.6.2): fixed text with expressions between curly brackets.
ghost use Rattle.std.specs.Prelude.{◌≡◌, ◌≤◌, ◌<◌, ◌+◌, ◌^◌, None, IfOk, IfSome, length};
ghost use Rattle.std.specs.Prelude.{option_map, true};
ghost use Rattle.std.specs.List.{prefix_len};
ghost use Rattle.xs_xpath.specs.AvtParts.{parts_from};
ghost use Rattle.xs_parser.specs.Outcome.{IsTemplateParsed};
ghost use Rattle.xs_parser.specs.Faults.{expr_in};
ghost use Rattle.xs_parser.specs.Lexing.{first};
ghost use Rattle.xs_parser.specs.Outcome.{place_of_fault};
ghost use Rattle.xs_parser.specs.steps.SoFar.{brackets, earlier, part_answer, so_far};
ghost use Rattle.xs_parser.specs.steps.SoFar.{template_answer, with_part};
ghost use Rattle.xs_parser.specs.Templates.{braced_at, bracket_at, computed_from, doubled_at, ends};
ghost use Rattle.xs_parser.specs.Templates.{fixed_at, inside, is_bracket, is_fixed, lesser, moved};
ghost use Rattle.xs_parser.specs.Templates.{open_behind, part_by, piece_at, template_in};

use crate::bytes::{first, is_quote, second, skip_one};
use crate::fault::{Fault, ParseFault};
use crate::parse::{number_of_fault, parse, reported};
use std::alloc::{AllocError, Global};
use xs_text::TextBuf;
use xs_xpath::avt::AvtPart;
use xs_xpath::scope::Scope;

/// How a part is written.
#[derive(Clone, Copy)]
pub(crate) enum Written {
    /// As it is.
    Plain,
    /// Between brackets, as an expression.
    Braced,
}

/// The parts of a text so far, and the least fault of its expressions.
#[derive(Drop)]
pub(crate) struct SoFar {
    parts: Vec<AvtPart>,
    fault: Option<Fault>,
}

/// Whether a byte is a curly bracket.
fn is_bracket(b: u8) -> bool
    ensures bracket { result ≡ is_bracket b }
{
    b == b'{' || b == b'}'
}

/// How long the fixed text at the front is.
fn fixed_len(bytes: &[u8]) -> usize
    ensures len { result ≡ prefix_len is_fixed bytes.now }
    ensures within { result ≤ length bytes.now }
{
    let mut rest = bytes;
    let mut n = 0;
    while let Some((b, behind)) = rest.split_first() {
        if is_bracket(*b) {
            return n;
        }
        rest = behind;
        n += 1;
    }
    n
}

/// Whether a byte ends an expression.
fn ends(quote: Option<u8>, b: u8) -> bool
    ensures ends { result ≡ ends quote b }
{
    match quote {
        None => b == b'}',
        Some(_) => false,
    }
}

/// The quote whose literal is open after a byte.
fn open_behind(quote: Option<u8>, b: u8) -> Option<u8>
    ensures quote { result ≡ open_behind quote b }
{
    match quote {
        None => {
            if is_quote(b) {
                return Some(b);
            }
            None
        }
        Some(open) => {
            if b == open {
                return None;
            }
            Some(open)
        }
    }
}

/// How many bytes stand before the right bracket that ends an expression.
fn inside(bytes: &[u8]) -> Option<usize>
    ensures inside { result ≡ inside None bytes.now }
    ensures within { IfSome result (λ n. n < length bytes.now) }
{
    let mut rest = bytes;
    let mut quote = None;
    let mut n = 0;
    while let Some((b, behind)) = rest.split_first() {
        if ends(quote, *b) {
            return Some(n);
        }
        quote = open_behind(quote, *b);
        rest = behind;
        n += 1;
    }
    None
}

/// An expression up to its right bracket, and what is after that.
fn braced_at(text: &str) -> Option<(Written, &str, &str)>
    ensures piece { option_map (λ p. (p.0, p.1.now, p.2.now)) result
        ≡ braced_at text.now (inside None text.now) }
    ensures within { IfSome result (λ p. brackets p.0 + length p.1.now + length p.2.now
        ≤ 1 + length text.now) }
{
    match inside(text.as_bytes()) {
        None => None,
        Some(n) => {
            let (inner, behind) = text.split_at(n);
            Some((Written::Braced, inner, skip_one(behind)))
        }
    }
}

/// A bracket that is written twice, from the second on.
fn doubled_at(text: &str) -> (Written, &str, &str)
    requires some { 0 < first text.now }
    requires ascii { first text.now < 128 }
    ensures piece { (result.0, result.1.now, result.2.now) ≡ doubled_at text.now }
    ensures within { brackets result.0 + length result.1.now + length result.2.now
        ≤ length text.now }
{
    let (bracket, behind) = text.split_at(1);
    (Written::Plain, bracket, behind)
}

/// A bracket with what is after it.
fn bracket_at(text: &str) -> Option<(Written, &str, &str)>
    requires bracket { is_bracket (first text.now) ≡ true }
    ensures piece { option_map (λ p. (p.0, p.1.now, p.2.now)) result ≡ bracket_at text.now }
    ensures within { IfSome result (λ p. brackets p.0 + length p.1.now + length p.2.now
        ≤ length text.now) }
{
    let b = first(text);
    if second(text) == b {
        return Some(doubled_at(skip_one(text)));
    }
    if b == b'{' {
        return braced_at(skip_one(text));
    }
    None
}

/// Fixed text, and what is after it.
fn fixed_at(text: &str) -> (Written, &str, &str)
    ensures piece { (result.0, result.1.now, result.2.now) ≡ fixed_at text.now }
    ensures within { brackets result.0 + length result.1.now + length result.2.now
        ≤ length text.now }
{
    let (fixed, behind) = text.split_at(fixed_len(text.as_bytes()));
    (Written::Plain, fixed, behind)
}

/// The piece at the front: how it is written, its text, and what is after it.
#[tactic(auto, unfolding(crate::specs::Templates::piece_at))]
fn piece_at(text: &str) -> Option<(Written, &str, &str)>
    ensures piece { option_map (λ p. (p.0, p.1.now, p.2.now)) result ≡ piece_at text.now }
    ensures within { IfSome result (λ p. brackets p.0 + length p.1.now + length p.2.now
        ≤ length text.now) }
{
    if is_bracket(first(text)) {
        return bracket_at(text);
    }
    Some(fixed_at(text))
}

/// A fault of an expression, at its place in the whole text.
fn moved(at: u32, fault: Fault) -> Fault
    requires within { at + place_of_fault fault < 2 ^ 32 }
    ensures fault { result ≡ moved at fault }
{
    match fault {
        Fault::Syntax => Fault::Syntax,
        Fault::UnknownFunction(place) => Fault::UnknownFunction(at + place),
        Fault::ArgCount(place) => Fault::ArgCount(at + place),
        Fault::BadLiteral(place) => Fault::BadLiteral(at + place),
        Fault::TooNested(place) => Fault::TooNested(at + place),
        Fault::NotPattern(place) => Fault::NotPattern(at + place),
        Fault::UnboundPrefix(place) => Fault::UnboundPrefix(at + place),
    }
}

/// The lesser of two faults, of which the first is the earlier.
fn lesser(f: Fault, g: Fault) -> Fault
    ensures fault { result ≡ lesser f g }
{
    if number_of_fault(g) < number_of_fault(f) {
        g
    } else {
        f
    }
}

/// The least fault, with one more.
fn earlier(fault: Option<Fault>, g: Fault) -> Fault
    ensures fault { result ≡ earlier fault g }
{
    match fault {
        None => g,
        Some(f) => lesser(f, g),
    }
}

/// The part that an expression is, or its fault at its place.
fn computed(
    alloc: Global,
    scope: &Scope,
    at: u32,
    text: &str,
) -> Result<Result<AvtPart, Fault>, AllocError>
    requires within { at + length text.now < 2 ^ 32 }
    ensures part { IfOk result (λ r. part_answer r
        ≡ computed_from at (expr_in scope.now.pairs.items text.now)) }
{
    match parse(alloc, false, text, scope) {
        Err(e) => Err(e),
        Ok(Ok(e)) => Ok(Ok(AvtPart::Computed(e))),
        Ok(Err(fault)) => Ok(Err(moved(at, fault))),
    }
}

/// The part that a piece at a place is, or its fault.
fn part_by(
    alloc: Global,
    scope: &Scope,
    at: u32,
    written: Written,
    text: &str,
) -> Result<Result<AvtPart, Fault>, AllocError>
    requires within { at + brackets written + length text.now < 2 ^ 32 }
    ensures part { IfOk result (λ r. part_answer r
        ≡ part_by scope.now.pairs.items at written text.now) }
{
    match written {
        Written::Plain => Ok(Ok(AvtPart::Fixed(TextBuf::of(alloc, text)?))),
        Written::Braced => computed(alloc, scope, at + 1, text),
    }
}

impl SoFar {
    /// With one part more, or with its fault.
    fn with(self, part: Result<AvtPart, Fault>) -> Result<SoFar, AllocError>
        ensures so_far { IfOk result (λ s. so_far s
            ≡ with_part self.fault (parts_from self.parts.items) (part_answer part)) }
    {
        let SoFar { mut parts, fault } = self;
        match part {
            Ok(part) => {
                parts.push(part)?;
                Ok(SoFar { parts, fault })
            }
            Err(g) => Ok(SoFar {
                parts,
                fault: Some(earlier(fault, g)),
            }),
        }
    }

    /// The parts, if there is no fault.
    fn outcome(self) -> Result<Vec<AvtPart>, Fault>
        ensures outcome { template_answer result ≡ so_far self }
    {
        match self.fault {
            None => Ok(self.parts),
            Some(fault) => Err(fault),
        }
    }
}

/// What a value template represents, or the least of its faults.
fn template(
    alloc: Global,
    text: &str,
    scope: &Scope,
) -> Result<Result<Vec<AvtPart>, Fault>, AllocError>
    requires short { length text.now < 2 ^ 32 }
    ensures answer { IfOk result (λ r. template_answer r
        ≡ template_in scope.now.pairs.items text.now) }
{
    let mut so_far = SoFar {
        parts: Vec::new(alloc),
        fault: None,
    };
    let mut rest = text;
    'pieces: while !rest.is_empty() {
        let at = (text.len() - rest.len()) as u32;
        match piece_at(rest) {
            None => return Ok(Err(Fault::Syntax)),
            Some((written, inner, behind)) => {
                let part = part_by(alloc, scope, at, written, inner)?;
                let next = so_far.with(part)?;
                so_far = next;
                rest = behind;
            }
        }
    }
    Ok(so_far.outcome())
}

/// The parts that a value template represents in a scope, or the least of its faults at its first
/// byte. The fault is 20 exactly where the text is no value template.
pub fn parse_avt(alloc: Global, text: &str, scope: &Scope) -> Result<Vec<AvtPart>, ParseFault>
    requires short { length text.now < 2 ^ 32 }
    ensures parsed { IsTemplateParsed result (template_in scope.now.pairs.items text.now) }
{
    match template(alloc, text, scope) {
        Err(_) => Err(ParseFault::NoMemory),
        Ok(Ok(parts)) => Ok(parts),
        Ok(Err(fault)) => Err(reported(fault)),
    }
}
