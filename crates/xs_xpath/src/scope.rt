//! The namespaces in scope, and the functions by their names.
ghost use Rattle.std.specs.Prelude.{◌≡◌, map, option_map};
ghost use Rattle.xs_xpath.specs.Names.{function_named, uri_in};
ghost use Rattle.xs_xpath.specs.steps.Rising.{rises};
ghost use Rattle.xs_xpath.specs.Rows.{functions, row_data};

use crate::name::Function;
use crate::rising::{few_with, rises};
use xs_text::TextBuf;

/// The pairs of prefix and URI that are in force, each prefix once, `xml` among them; the default
/// namespace has the empty prefix.
#[derive(Drop)]
pub struct Scope {
    pub pairs: Vec<(TextBuf, TextBuf)>,
    /// Whether the prefixes rise by their bytes, as those of the namespace nodes of a tree do.
    is_rising: bool,
    ghost known: { is_rising ≡ rises pairs.items },
}

impl Scope {
    /// The scope of these pairs. Takes no memory.
    pub fn of(pairs: Vec<(TextBuf, TextBuf)>) -> Scope
        ensures pairs { result.pairs.items ≡ pairs.items }
    {
        let is_rising = rises(&pairs);
        Scope { pairs, is_rising }
    }

    /// The URI that a prefix is bound to: found by halving where the prefixes rise, else in turn.
    pub fn uri_in(&self, prefix: &str) -> Option<&str>
        ensures uri { option_map (λ u. u.now) result ≡ uri_in self.now.pairs.items prefix.now }
    {
        if self.is_rising {
            return uri_in(few_with(&self.pairs, prefix), prefix);
        }
        uri_in(&self.pairs, prefix)
    }
}

/// The URI that a prefix is bound to by the first pair that has it.
fn uri_in<'a>(pairs: &'a [(TextBuf, TextBuf)], prefix: &str) -> Option<&'a str>
    ensures uri { option_map (λ u. u.now) result ≡ uri_in pairs.now prefix.now }
{
    let mut rest = pairs;
    while let Some((pair, behind)) = rest.split_first() {
        if pair.0.as_str().as_bytes() == prefix.as_bytes() {
            return Some(pair.1.as_str());
        }
        rest = behind;
    }
    None
}

/// The functions by their names.
static FUNCTIONS: [(&str, Function); 34] = [
    // On nodes (XPath 1.0, 4.1).
    ("last", Function::Last),
    ("position", Function::Position),
    ("count", Function::Count),
    ("id", Function::Id),
    ("local-name", Function::LocalName),
    ("namespace-uri", Function::NamespaceUri),
    ("name", Function::Name),
    // On strings (4.2).
    ("string", Function::String),
    ("concat", Function::Concat),
    ("starts-with", Function::StartsWith),
    ("contains", Function::Contains),
    ("substring-before", Function::SubstringBefore),
    ("substring-after", Function::SubstringAfter),
    ("substring", Function::Substring),
    ("string-length", Function::StringLength),
    ("normalize-space", Function::NormalizeSpace),
    ("translate", Function::Translate),
    // On booleans and numbers (4.3 and 4.4).
    ("boolean", Function::Boolean),
    ("not", Function::Not),
    ("true", Function::True),
    ("false", Function::False),
    ("lang", Function::Lang),
    ("number", Function::Number),
    ("sum", Function::Sum),
    ("floor", Function::Floor),
    ("ceiling", Function::Ceiling),
    ("round", Function::Round),
    // Of XSLT 1.0 (12 and 15).
    ("key", Function::Key),
    ("current", Function::Current),
    ("generate-id", Function::GenerateId),
    ("system-property", Function::SystemProperty),
    ("element-available", Function::ElementAvailable),
    ("function-available", Function::FunctionAvailable),
    ("unparsed-entity-uri", Function::UnparsedEntityUri),
];

/// The functions by their names.
#[tactic(auto, unfolding(crate::specs::Rows::functions))]
fn functions() -> &'static [(&'static str, Function)]
    ensures { map row_data result.now ≡ functions }
{
    &FUNCTIONS
}

/// The function of a name without a prefix.
pub fn function_of(name: &[u8]) -> Option<Function>
    ensures function { result ≡ function_named name.now }
{
    for (spelling, function) in functions() {
        if name == spelling.as_bytes() {
            return Some(*function);
        }
    }
    None
}
