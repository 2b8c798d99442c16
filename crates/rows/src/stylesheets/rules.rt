//! The rules that the nodes of a document take (XSLT 1.0, 5.5 to 5.7), chosen from the stylesheet,
//! from its index, and from its index with tables for the document.

ghost use Rattle.std.specs.Prelude.{◌<◌, ◌^◌, length};
ghost use Rattle.xs_rules.specs.Indexed.{IsIndex, IsPrepared};

use crate::answer::Answer;
use std::alloc::{AllocError, Global};
use xs_rules::choice::{Rule, choose, choose_import};
use xs_rules::index::{RuleIndex, choose_import_with, choose_with};
use xs_sheet::sheet::Sheet;
use xs_tree::{Kind, Node, Tree};
use xs_value::keys::NoKeys;

/// The most templates of a stylesheet.
const MOST: usize = 1_000;

/// The modes of the rows: that of templates without a mode, and two more.
const MODES: u32 = 3;

/// The rules from which one is chosen.
#[derive(Clone, Copy)]
enum Among {
    /// Those of a mode.
    Mode(u32),
    /// Those of no mode that were imported into the module of a template.
    ImportedUnder(u32),
}

/// The rule that a node takes, by the stylesheet.
fn rule_of(
    alloc: Global,
    sheet: &Sheet,
    tree: &Tree,
    node: Node,
    among: Among,
) -> Result<Rule, AllocError>
    requires few { length sheet.now.templates < 2 ^ 32 }
    requires node { node < length tree.now }
{
    match among {
        Among::Mode(mode) => choose(alloc, sheet, tree, node, mode, &NoKeys),
        Among::ImportedUnder(under) => choose_import(alloc, sheet, tree, node, 0, &NoKeys, under),
    }
}

/// The rule that a node takes, by an index.
fn indexed_rule(
    alloc: Global,
    index: &RuleIndex<'_>,
    tree: &Tree,
    node: Node,
    among: Among,
) -> Result<Rule, AllocError>
    requires index { IsIndex index.now }
    requires prepared { IsPrepared index.now tree.now }
    requires node { node < length tree.now }
{
    match among {
        Among::Mode(mode) => choose_with(alloc, index, tree, node, mode, &NoKeys),
        Among::ImportedUnder(under) => {
            choose_import_with(alloc, index, tree, node, 0, &NoKeys, under)
        }
    }
}

/// The rules that the nodes of a document take, by the stylesheet.
fn plain_rules(out: &Answer, sheet: &Sheet, tree: &Tree, among: Among) -> Vec<Rule>
    requires few { length sheet.now.templates < 2 ^ 32 }
{
    let mut rules = Vec::new(out.alloc);
    for place in 0..tree.len() as u32 {
        out.take(
            &mut rules,
            rule_of(out.alloc, sheet, tree, Node::at(place), among),
        );
    }
    rules
}

/// Whether rules are those that the nodes of a document take, by an index.
fn are_by(out: &Answer, index: &RuleIndex<'_>, tree: &Tree, among: Among, rules: &[Rule]) -> bool
    requires index { IsIndex index.now }
    requires prepared { IsPrepared index.now tree.now }
{
    for place in 0..tree.len() as u32 {
        match indexed_rule(out.alloc, index, tree, Node::at(place), among) {
            Ok(rule) => {
                if rules.get(place as usize) != Some(&rule) {
                    return false;
                }
            }
            Err(_) => out.refuse(),
        }
    }
    true
}

/// Whether rules are those by an index, as it is and with tables for the document.
fn are_indexed(
    out: &Answer,
    index: &mut RuleIndex<'_>,
    tree: &Tree,
    among: Among,
    rules: &[Rule],
) -> bool
    requires index { IsIndex index.old }
    requires prepared { IsPrepared index.old tree.now }
{
    let are_plain = are_by(out, index, tree, among, rules);
    match index.prepare(out.alloc, tree) {
        Ok(()) => are_by(out, index, tree, among, rules) && are_plain,
        Err(_) => {
            out.refuse();
            false
        }
    }
}

/// The rules that the nodes of a document take, none of too large a stylesheet; adds `!` where the
/// stylesheet and its indexes differ.
fn rules_of(out: &Answer, sheet: &Sheet, tree: &Tree, among: Among) -> Vec<Rule> {
    if sheet.templates.as_slice().len() >= MOST {
        return Vec::new(out.alloc);
    }
    let rules = plain_rules(out, sheet, tree, among);
    match RuleIndex::new(out.alloc, sheet) {
        Ok(mut index) => {
            let is_agreed = are_indexed(out, &mut index, tree, among, &rules);
            out.put_if(!is_agreed, "!");
            drop(index);
        }
        Err(_) => out.refuse(),
    }
    rules
}

/// How many nodes take a template.
fn count_chosen(rules: &[Rule]) -> u64 {
    let mut count = 0_u64;
    for rule in rules {
        count = count.saturating_add((*rule != Rule::BuiltIn) as u64);
    }
    count
}

/// Adds the rules of all nodes but the namespace nodes: the number of a template, or `-` for the
/// built-in one.
fn put_all(out: &Answer, rules: &[Rule], tree: &Tree) {
    for place in 0..tree.len() as u32 {
        if tree.kind(Node::at(place)) != Kind::Space {
            match rules.get(place as usize) {
                Some(Rule::Template(number)) => out.put_whole(*number as u64),
                _ => out.put_byte(b'-'),
            }
        }
    }
}

/// Adds the rules without a mode, and those of each mode in which a node takes a template.
pub(crate) fn put_rules(out: &Answer, sheet: &Sheet, tree: &Tree) {
    for mode in 0..MODES {
        let rules = rules_of(out, sheet, tree, Among::Mode(mode));
        if mode == 0 || count_chosen(&rules) > 0 {
            out.put_if(mode > 0, " ");
            put_all(out, &rules, tree);
        }
    }
}

/// Adds the rules among those imported under each template.
pub(crate) fn put_imported(out: &Answer, sheet: &Sheet, tree: &Tree) {
    let mut under = 0_u32;
    for _ in sheet.templates.as_slice() {
        out.put_if(under > 0, " ");
        let rules = rules_of(out, sheet, tree, Among::ImportedUnder(under));
        put_all(out, &rules, tree);
        under = under.wrapping_add(1);
    }
}

/// Adds how many nodes take a template without a mode.
pub(crate) fn put_count(out: &Answer, sheet: &Sheet, tree: &Tree) {
    let rules = rules_of(out, sheet, tree, Among::Mode(0));
    out.put_whole(count_chosen(&rules));
}
