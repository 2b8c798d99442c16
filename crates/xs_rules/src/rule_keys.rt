//! The mode, kind and name by which a rule is found that matches nodes of one kind and name alone.

ghost use Rattle.std.specs.Prelude.{◌≡◌, ◌<◌, length, option_map};
ghost use Rattle.xs_tree.specs.Record.{at};
ghost use Rattle.xs_xpath.specs.Exprs.{tree_from};
ghost use Rattle.xs_rules.specs.steps.Index.{is_key, key_data, key_of, name_key, node_key};
ghost use Rattle.xs_rules.specs.steps.Index.{step_key, test_key};

use xs_pattern::paths::steps_of;
use xs_sheet::declarations::Template;
use xs_tree::{Axis, InputHashes, Kind, Node, Tree};
use xs_xpath::expr::Expr;
use xs_xpath::name::NodeTest;

/// A mode, the number of a kind of node, and a name by its URI and its local part: 1 for elements,
/// 2 for attributes, 3 for processing instructions.
pub(crate) type RuleKey<'a> = (u32, u32, &'a str, &'a str);

/// The key of an alternative in a mode, if it matches nodes of one kind and name alone.
pub(crate) fn key_of(mode: u32, alternative: &Expr) -> Option<RuleKey<'_>>
    ensures { option_map key_data result ≡ key_of mode (tree_from alternative.now) }
{
    match steps_of(alternative).split_last() {
        None => None,
        Some((step, _)) => step_key(mode, step),
    }
}

// The key of a path in a mode, by its last step.
fn step_key(mode: u32, step: &Expr) -> Option<RuleKey<'_>>
    ensures { option_map key_data result ≡ step_key mode (tree_from step.now) }
{
    match step.as_step() {
        None => None,
        Some((axis, test, _)) => test_key(mode, axis, test),
    }
}

// The same by its node test.
fn test_key(mode: u32, axis: Axis, test: &NodeTest) -> Option<RuleKey<'_>>
    ensures { option_map key_data result ≡ test_key mode axis test.now }
{
    match test {
        NodeTest::Name(uri, local) => name_key(mode, axis, uri.as_str(), local.as_str()),
        NodeTest::Target(target) => Some((mode, 3, "", target.as_str())),
        NodeTest::Any => None,
        NodeTest::Uri(_) => None,
        NodeTest::Node => None,
        NodeTest::Text => None,
        NodeTest::Comment => None,
        NodeTest::Pi => None,
    }
}

// The same by its axis and a name.
fn name_key<'a>(mode: u32, axis: Axis, uri: &'a str, local: &'a str) -> Option<RuleKey<'a>>
    ensures { option_map key_data result ≡ name_key mode axis uri.entry.now local.entry.now }
{
    match axis {
        Axis::Child => Some((mode, 1, uri, local)),
        Axis::Attribute => Some((mode, 2, uri, local)),
        Axis::Descendant => None,
        Axis::Parent => None,
        Axis::Ancestor => None,
        Axis::FollowingSibling => None,
        Axis::PrecedingSibling => None,
        Axis::Following => None,
        Axis::Preceding => None,
        Axis::Namespace => None,
        Axis::SelfNode => None,
        Axis::DescendantOrSelf => None,
        Axis::AncestorOrSelf => None,
    }
}

/// Hashes that have taken in the names of all rules.
pub(crate) fn hashes_of(templates: &[Template]) -> InputHashes {
    let mut hashes = InputHashes::new();
    for template in templates {
        if let Some(pattern) = &template.pattern {
            take_in(&mut hashes, pattern.pattern.alternatives());
        }
    }
    hashes
}

// Lets hashes take in the names by which some alternatives are found.
fn take_in(hashes: &mut InputHashes, alternatives: &[Expr]) {
    for alternative in alternatives {
        if let Some(key) = key_of(0, alternative) {
            hashes.take_in(key.2);
            hashes.take_in(key.3);
        }
    }
}

/// Whether two keys are the same.
pub(crate) fn is_key(key: &RuleKey<'_>, other: &RuleKey<'_>) -> bool
    ensures { result ≡ is_key (key_data key.now) (key_data other.now) }
{
    key.0 == other.0 && key.1 == other.1 && key.2 == other.2 && key.3 == other.3
}

/// The key of a node in a mode, if nodes of its kind are found by their names.
pub(crate) fn node_key(mode: u32, tree: &Tree, node: Node) -> Option<RuleKey<'_>>
    requires { node < length tree.now }
    ensures { option_map key_data result ≡ node_key mode (at tree.now node) }
{
    match tree.kind(node) {
        Kind::Element => Some((mode, 1, tree.uri(node), tree.local(node))),
        Kind::Attribute => Some((mode, 2, tree.uri(node), tree.local(node))),
        Kind::Pi => Some((mode, 3, "", tree.local(node))),
        Kind::Root => None,
        Kind::Space => None,
        Kind::Text => None,
        Kind::Comment => None,
    }
}
