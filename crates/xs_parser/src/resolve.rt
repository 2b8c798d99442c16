//! What the names of tokens represent.
ghost use Rattle.std.specs.Prelude.{◌≡◌, IfOk};
ghost use Rattle.std.specs.Option.{unwrap_or};
ghost use Rattle.xs_num.specs.Text.{number_in};
ghost use Rattle.xs_xpath.specs.declared.name.Function.TheVariants.{Last};
ghost use Rattle.xs_xpath.specs.Names.{function_named, is_bound, uri_of};
ghost use Rattle.xs_parser.specs.declared.token.Lexeme.TheVariants.{AnyOf, Named, Variable};
ghost use Rattle.xs_parser.specs.declared.token.Token.TheVariants.{Call};
ghost use Rattle.xs_parser.specs.Faults.{tokens_in};
ghost use Rattle.xs_parser.specs.Lexing.{unprefixed};
ghost use Rattle.xs_parser.specs.Names.{number_of, token_in};

use crate::names::is_unprefixed;
use crate::token::{Lexeme, Placed, QName, Token};
use std::alloc::{AllocError, Global};
use xs_num::number::Num;
use xs_num::reading::read_num;
use xs_text::TextBuf;
use xs_xpath::name::{Function, NodeTest};
use xs_xpath::scope::{Scope, function_of};
use xs_xpath::token::Atom;

/// The URI of a name with this prefix, empty where there is none.
#[tactic(auto, using(xs_xpath::proofs::RunLemmas::nil_by_length))]
fn uri_of(alloc: Global, scope: &Scope, prefix: &TextBuf) -> Result<TextBuf, AllocError>
    ensures uri { IfOk result (λ u. u ≡ uri_of scope.now.pairs.items prefix.now) }
{
    if prefix.as_str().is_empty() {
        return TextBuf::of(alloc, "");
    }
    match scope.uri_in(prefix.as_str()) {
        None => TextBuf::of(alloc, ""),
        Some(uri) => TextBuf::of(alloc, uri),
    }
}

/// Whether a prefix is bound; the empty one needs no binding.
#[tactic(auto, using(xs_xpath::proofs::RunLemmas::nil_by_length))]
pub(crate) fn is_bound(scope: &Scope, prefix: &TextBuf) -> bool
    ensures bound { result ≡ is_bound scope.now.pairs.items prefix.now }
{
    if prefix.as_str().is_empty() {
        return true;
    }
    scope.uri_in(prefix.as_str()).is_some()
}

/// The function that a name is; one with a prefix is none.
pub(crate) fn function_named(name: &QName) -> Option<Function>
    ensures function { result ≡ unprefixed function_named name.now }
{
    if is_unprefixed(name) {
        function_of(name.local.as_str().as_bytes())
    } else {
        None
    }
}

/// The number that digits are, NaN where they are none of this profile.
fn number_of(text: &TextBuf) -> Num
    ensures number { result ≡ number_of (number_in text.now) }
{
    match read_num(text.as_str()) {
        Ok(n) => n,
        Err(_) => Num::NAN,
    }
}

/// The test for any name in the namespace of a prefix.
fn any_of(alloc: Global, scope: &Scope, prefix: TextBuf) -> Result<Token, AllocError>
    ensures token { IfOk result (λ t. t ≡ token_in scope.now.pairs.items (AnyOf prefix)) }
{
    Ok(Token::Test(NodeTest::Uri(uri_of(alloc, scope, &prefix)?)))
}

/// The test for a name.
fn name_test(alloc: Global, scope: &Scope, name: QName) -> Result<Token, AllocError>
    ensures token { IfOk result (λ t. t ≡ token_in scope.now.pairs.items (Named name)) }
{
    let uri = uri_of(alloc, scope, &name.prefix)?;
    let QName { prefix: _, local } = name;
    Ok(Token::Test(NodeTest::Name(uri, local)))
}

/// A variable.
fn variable(alloc: Global, scope: &Scope, name: QName) -> Result<Token, AllocError>
    ensures token { IfOk result (λ t. t ≡ token_in scope.now.pairs.items (Variable name)) }
{
    let uri = uri_of(alloc, scope, &name.prefix)?;
    let QName { prefix: _, local } = name;
    Ok(Token::Atom(Atom::Variable(uri, local)))
}

/// The call of a function.
fn call(name: QName) -> Token
    ensures token { result ≡ Call (unwrap_or (unprefixed function_named name) Last) }
{
    match function_named(&name) {
        None => Token::Call(Function::Last),
        Some(function) => Token::Call(function),
    }
}

/// The token whose names are resolved.
fn token_in(alloc: Global, scope: &Scope, lexeme: Lexeme) -> Result<Token, AllocError>
    ensures token { IfOk result (λ t. t ≡ token_in scope.now.pairs.items lexeme) }
{
    match lexeme {
        Lexeme::Ready(token) => Ok(token),
        Lexeme::AnyOf(prefix) => any_of(alloc, scope, prefix),
        Lexeme::Named(name) => name_test(alloc, scope, name),
        Lexeme::Called(name) => Ok(call(name)),
        Lexeme::Variable(name) => variable(alloc, scope, name),
        Lexeme::Number(text) => Ok(Token::Atom(Atom::Number(number_of(&text)))),
    }
}

/// The tokens whose names are resolved.
pub(crate) fn tokens_in(
    alloc: Global,
    scope: &Scope,
    lexemes: Vec<Placed>,
) -> Result<Vec<Token>, AllocError>
    ensures tokens { IfOk result (λ ts. ts.items ≡ tokens_in scope.now.pairs.items lexemes.items) }
{
    let mut out = Vec::new(alloc);
    let mut rest = lexemes.into_iter();
    while let Some(placed) = rest.next() {
        let Placed { at: _, lexeme } = placed;
        out.push(token_in(alloc, scope, lexeme)?)?;
    }
    Ok(out)
}
