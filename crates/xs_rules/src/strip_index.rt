//! The rules of white space by their name tests, so that an element is not compared with each
//! (XSLT 1.0, 3.4).

ghost use Rattle.std.specs.Prelude.{◌≡◌, ◌<◌, ◌&&◌, IfOk, List, OnOk, Some, filter, length};
ghost use Rattle.std.specs.Prelude.{if◌then◌else◌, ℕ};
ghost use Rattle.std.specs.Option.{option_copied};
ghost use Rattle.std.specs.Str.{bytes_eq};
ghost use Rattle.xs_sheet.specs.declared.declarations.StripRule.{StripRule};
ghost use Rattle.xs_tree.specs.Record.{at};
ghost use Rattle.xs_rules.specs.Ranks.{highest, or_above};
ghost use Rattle.xs_rules.specs.WhiteSpace.{is_true_of, rank_of, test_priority};
ghost use Rattle.xs_rules.specs.steps.Strips.{IsStripIndex, Tested, found, higher, of_name, of_uri};
ghost use Rattle.xs_rules.specs.steps.Strips.{with_rule};

use crate::ranks::Rank;
use std::alloc::{AllocError, Global};
use std::collections::HashMap;
use xs_sheet::declarations::{NameTest, StripRule};
use xs_tree::{InputHashes, Node, Tree};

/// The rules of white space, of those with one name test the highest.
#[derive(Drop)]
pub(crate) struct StripIndex<'a> {
    /// All of them, for the clauses.
    pub(crate) rules: &'a [StripRule],
    any: Option<&'a StripRule>,
    uris: Uris<'a>,
    names: Names<'a>,
}

/// Rules by the URIs of their tests, which whoever writes a stylesheet chooses.
type Uris<'a> = HashMap<&'a str, &'a StripRule, InputHashes>;

/// Rules by the names of their tests, by URI and local part.
type Names<'a> = HashMap<(&'a str, &'a str), &'a StripRule, InputHashes>;

impl<'a> StripIndex<'a> {
    /// The index of rules, in time linear in them.
    pub(crate) fn of(alloc: Global, rules: &'a [StripRule]) -> Result<StripIndex<'a>, AllocError>
        ensures index { IfOk result IsStripIndex }
        ensures rules { IfOk result (λ index. index.rules.now ≡ rules.now) }
    {
        let hashes = hashes_of(rules);
        let mut index = StripIndex {
            rules,
            any: None,
            uris: HashMap::with_hasher(alloc, hashes),
            names: HashMap::with_hasher(alloc, hashes),
        };
        let mut rest = rules;
        while let Some((rule, before)) = rest.split_last() {
            index.add(rule)?;
            rest = before;
        }
        Ok(index)
    }

    /// Adds a rule before those that were added.
    fn add(&mut self, rule: &'a StripRule) -> Result<(), AllocError>
        ensures found { OnOk result ((q : Tested) → found self.new q
            ≡ with_rule q rule.entry.now (found self.old q)) }
        ensures rules { OnOk result (self.new.rules.now ≡ self.old.rules.now) }
    {
        match &rule.test {
            NameTest::Any => {
                self.any = higher(Some(rule), self.any);
                Ok(())
            }
            NameTest::Uri(uri) => add_uri(&mut self.uris, uri.as_str(), rule),
            NameTest::Name(name) => add_name(&mut self.names, name.uri(), name.local(), rule),
        }
    }

    /// The highest of the rules whose tests are true of an element.
    pub(crate) fn highest(&self, tree: &Tree, element: Node) -> Option<&'a StripRule>
        requires index { IsStripIndex self.now }
        requires element { element < length tree.now }
        ensures { option_copied result ≡ highest rank_of (filter
            (λ (rule : StripRule). is_true_of (at tree.now element) rule.test)
            self.now.rules.now) }
    {
        let uri = rule_of_uri(&self.uris, tree.uri(element));
        let name = rule_of_name(&self.names, tree.uri(element), tree.local(element));
        higher(higher(self.any, uri), name)
    }
}

// Hashes that have taken in the names of all tests.
fn hashes_of(rules: &[StripRule]) -> InputHashes {
    let mut hashes = InputHashes::new();
    for rule in rules {
        match &rule.test {
            NameTest::Any => (),
            NameTest::Uri(uri) => hashes.take_in(uri.as_str()),
            NameTest::Name(name) => {
                hashes.take_in(name.uri());
                hashes.take_in(name.local());
            }
        }
    }
    hashes
}

/// The highest rule for the elements of a namespace. Where there is none no URI is hashed.
fn rule_of_uri<'a>(uris: &Uris<'a>, uri: &str) -> Option<&'a StripRule>
    ensures { option_copied result ≡ of_uri uris.now uri.now }
{
    if uris.is_empty() {
        return None;
    }
    uris.get(uri).copied()
}

/// The highest rule for the elements of a name. Where there is none no name is hashed.
fn rule_of_name<'a>(names: &Names<'a>, uri: &str, local: &str) -> Option<&'a StripRule>
    ensures { option_copied result ≡ of_name names.now uri.now local.now }
{
    if names.is_empty() {
        return None;
    }
    names.get(&(uri, local)).copied()
}

/// Adds a rule for the elements of a namespace.
fn add_uri<'a>(uris: &mut Uris<'a>, uri: &'a str, rule: &'a StripRule) -> Result<(), AllocError>
    ensures { OnOk result ((u : List ℕ) → of_uri uris.new u
        ≡ (if bytes_eq u uri.entry.now then or_above rank_of rule.entry.now (of_uri uris.old u)
        else of_uri uris.old u)) }
{
    let best = above(rule, rule_of_uri(uris, uri));
    uris.insert(uri, best)?;
    Ok(())
}

/// Adds a rule for the elements of a name.
fn add_name<'a>(
    names: &mut Names<'a>,
    uri: &'a str,
    local: &'a str,
    rule: &'a StripRule,
) -> Result<(), AllocError>
    ensures { OnOk result ((u l : List ℕ) → of_name names.new u l
        ≡ (if bytes_eq u uri.entry.now && bytes_eq l local.entry.now
        then or_above rank_of rule.entry.now (of_name names.old u l)
        else of_name names.old u l)) }
{
    let best = above(rule, rule_of_name(names, uri, local));
    names.insert((uri, local), best)?;
    Ok(())
}

/// A rule where it is above another one that stands after it, if there is one; else that one.
fn above<'a>(rule: &'a StripRule, other: Option<&'a StripRule>) -> &'a StripRule
    ensures { Some result.now ≡ or_above rank_of rule.entry.now (option_copied other.entry) }
{
    match other {
        Some(other) => {
            if rank_of(rule).outranks(rank_of(other)) {
                rule
            } else {
                other
            }
        }
        None => rule,
    }
}

/// Of two rules the first where it is above the other.
fn higher<'a>(first: Option<&'a StripRule>, other: Option<&'a StripRule>) -> Option<&'a StripRule>
    ensures { option_copied result
        ≡ higher rank_of (option_copied first.entry) (option_copied other.entry) }
{
    match first {
        Some(rule) => Some(above(rule, other)),
        None => other,
    }
}

/// Where a rule stands among others.
fn rank_of(rule: &StripRule) -> Rank
    ensures { result ≡ rank_of rule.now }
{
    Rank {
        precedence: rule.precedence,
        priority: test_priority(&rule.test),
    }
}

/// The priority of a test, as of a pattern (XSLT 1.0, 5.5).
fn test_priority(test: &NameTest) -> i64
    ensures { result ≡ test_priority test.now }
{
    match test {
        NameTest::Any => -5_000,
        NameTest::Uri(_) => -2_500,
        NameTest::Name(_) => 0,
    }
}
