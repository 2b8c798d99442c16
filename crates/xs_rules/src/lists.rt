//! The rules of a stylesheet by their ranks, and lists of their places by mode, kind and name.

ghost use Rattle.std.specs.Prelude.{◌≡◌, ◌<◌, ◌∷◌, ◌++◌, ℕ, [], false, length, None};
ghost use Rattle.std.specs.Prelude.{IfOk, IfSome, OnOk, option_copied, true};
ghost use Rattle.std.specs.Option.{option_and_then, option_map_or};
ghost use Rattle.xs_tree.specs.declared.kinds.Kind.{Kind};
ghost use Rattle.xs_tree.specs.Record.{at};
ghost use Rattle.xs_value.specs.Tables.{TablesIn};
ghost use Rattle.xs_xpath.specs.Exprs.{tree_from};
ghost use Rattle.xs_rules.specs.Rules.{candidates, takes};
ghost use Rattle.xs_rules.specs.steps.Candidates.{best_before, passes, rule_of_best};
ghost use Rattle.xs_rules.specs.steps.Index.{AreTables, IsIndexed, IsTableOf, Key, at_entry};
ghost use Rattle.xs_rules.specs.steps.Index.{has_key, key_of, may_match, node_key, nth_of};
ghost use Rattle.xs_rules.specs.steps.Index.{ranked, with_place};
ghost use Rattle.xs_rules.specs.steps.Lists.{IsAdded, named_in, unnamed_in};

use crate::candidates::nth_alternative;
use crate::choice::Rule;
use crate::entries::Entry;
use crate::places::{Named, Unnamed, add_named, add_unnamed, kinds_of, later, named_by, without};
use crate::rule_keys::{key_of, node_key};
use crate::search::Search;
use crate::tables::{RuleTable, table_at};
use indexmap::IndexMap;
use std::alloc::{AllocError, Global};
use xs_sheet::declarations::Template;
use xs_tree::{InputHashes, Kind, Node, Tree};
use xs_value::keys::KeyFinder;
use xs_xpath::expr::Expr;

/// The rules from the lowest rank to the highest, and lists of their places. A rule for nodes of
/// one kind and name is in the list of its key, any other in those of its mode for the kinds that
/// it may match.
#[derive(Drop)]
pub(crate) struct Lists<'a> {
    pub(crate) entries: Vec<Entry>,
    pub(crate) named: Named<'a>,
    pub(crate) unnamed: Unnamed,
}

impl<'a> Lists<'a> {
    /// Lists without rules, whose names are found by these hashes.
    pub(crate) fn new(alloc: Global, hashes: InputHashes) -> Lists<'a>
        ensures entries { result.entries.items ≡ [] }
        ensures named { (q : Key) → named_in result.named q ≡ [] }
        ensures unnamed { (mode : ℕ) (kind : Kind) → unnamed_in result.unnamed mode kind ≡ [] }
    {
        Lists {
            entries: Vec::new(alloc),
            named: IndexMap::with_hasher(alloc, hashes),
            unnamed: IndexMap::new(alloc),
        }
    }

    /// Adds a rule after those that are there.
    pub(crate) fn add_entry(
        &mut self,
        alloc: Global,
        templates: &'a [Template],
        entry: &Entry,
    ) -> Result<(), AllocError>
        ensures added { OnOk result (IfSome (at_entry templates.entry.now entry.now)
            (IsAdded entry.now self.old self.new)) }
    {
        match templates.get(entry.template as usize) {
            None => Ok(()),
            Some(template) => self.add_nth(alloc, template, *entry),
        }
    }

    // The same of a rule of a template.
    fn add_nth(
        &mut self,
        alloc: Global,
        template: &'a Template,
        entry: Entry,
    ) -> Result<(), AllocError>
        ensures added { OnOk result (IfSome (option_and_then
            (nth_of entry.template template.entry.now entry.alternative)
            template.entry.now.pattern) (IsAdded entry self.old self.new)) }
    {
        match &template.pattern {
            None => Ok(()),
            Some(pattern) => match nth_alternative(pattern, entry.alternative) {
                None => Ok(()),
                Some(alternative) => self.add(alloc, entry, template.mode, alternative),
            },
        }
    }

    // Adds a rule of a mode.
    fn add(
        &mut self,
        alloc: Global,
        entry: Entry,
        mode: u32,
        alternative: &'a Expr,
    ) -> Result<(), AllocError>
        ensures entries { OnOk result (self.new.entries.items
            ≡ self.old.entries.items ++ entry ∷ []) }
        ensures named { OnOk result ((q : Key) → named_in self.new.named q
            ≡ with_place (has_key q (key_of mode (tree_from alternative.entry.now)))
            (length self.old.entries.items) (named_in self.old.named q)) }
        ensures unnamed { OnOk result ((m : ℕ) (kind : Kind) → unnamed_in self.new.unnamed m kind
            ≡ with_place (may_match m kind mode (tree_from alternative.entry.now))
            (length self.old.entries.items) (unnamed_in self.old.unnamed m kind)) }
    {
        let place = self.entries.len();
        self.entries.push(entry)?;
        match key_of(mode, alternative) {
            Some(key) => add_named(alloc, &mut self.named, key, place),
            None => add_unnamed(alloc, &mut self.unnamed, mode, alternative, place),
        }
    }

    // The places of the rules for a node's kind and name alone.
    fn named_for<'l>(&'l self, mode: u32, tree: &'l Tree, node: Node) -> &'l [usize]
        requires { node < length tree.now }
        ensures { result.now ≡ option_map_or (named_in self.now.named)
            (node_key mode (at tree.now node)) [] }
    {
        match node_key(mode, tree, node) {
            Some(key) => named_by(&self.named, &key),
            None => &[],
        }
    }

    // The places of the rules for a kind of node, whatever the name.
    fn unnamed_for(&self, mode: u32, kind: Kind) -> &[usize]
        ensures { result.now ≡ unnamed_in self.now.unnamed mode kind }
    {
        match kinds_of(&self.unnamed, mode) {
            Some(lists) => lists.of_kind(kind),
            None => &[],
        }
    }

    /// The rule that a node takes of those that are looked at. The rules for its name and those for
    /// its kind are two lists, which are gone along together from their ends: from the highest rank
    /// to the first rule that takes the node. A rule that has a table is tried by it.
    pub(crate) fn choose_among<K: KeyFinder>(
        &self,
        search: &Search<'_, K>,
        templates: &[Template],
        rule_tables: &[Option<RuleTable>],
    ) -> Result<Rule, AllocError>
        requires indexed { IsIndexed templates.now (ranked (candidates templates.now))
            self.now.entries.items (named_in self.now.named) (unnamed_in self.now.unnamed) }
        requires node { search.now.node < length search.now.tree.now }
        requires tables { TablesIn search.now.tree.now (K.tables search.now.keys.now) }
        requires rule_tables { AreTables templates.now self.now.entries.items
            search.now.tree.now rule_tables.now }
        ensures chosen { IfOk result (λ rule. rule ≡ rule_of_best (best_before
            (passes search.now.looked (K.tables search.now.keys.now) search.now.tree.now
            search.now.mode search.now.node) (candidates templates.now) None)) }
    {
        // `len` says that it is a tree, whose roots are the nodes that `/` matches.
        let count = search.tree.len();
        prove!((search.node.place() as usize) < count);
        let mut named = self.named_for(search.mode, search.tree, search.node);
        let mut unnamed = self.unnamed_for(search.mode, search.tree.kind(search.node));
        while let Some(place) = later(named, unnamed) {
            let entry = self.entries[place];
            let table = table_at(rule_tables, place);
            let is_taken = search.is_taken(templates, entry, table)?;
            if is_taken {
                return Ok(Rule::Template(entry.template));
            }
            named = without(named, place);
            unnamed = without(unnamed, place);
        }
        Ok(Rule::BuiltIn)
    }
}

impl<'a, K: KeyFinder> Search<'a, K> {
    // Whether the rule of an entry is looked at and takes the node, which one that is certain does.
    fn is_taken(
        &self,
        templates: &[Template],
        entry: Entry,
        table: Option<&RuleTable>,
    ) -> Result<bool, AllocError>
        requires node { self.now.node < length self.now.tree.now }
        requires tables { TablesIn self.now.tree.now (K.tables self.now.keys.now) }
        requires rank { IfSome (at_entry templates.now entry) (λ c. entry.rank ≡ c.rank) }
        requires certain { entry.is_certain ≡ true → option_map_or
            (takes (K.tables self.now.keys.now) self.now.tree.now self.now.mode self.now.node)
            (at_entry templates.now entry) false ≡ true }
        requires table { IsTableOf self.now.tree.now (at_entry templates.now entry)
            (option_copied table) }
        ensures taken { IfOk result (λ taken. taken ≡ option_map_or
            (passes self.now.looked (K.tables self.now.keys.now)
            self.now.tree.now self.now.mode self.now.node)
            (at_entry templates.now entry) false) }
    {
        if !self.looked.looks_at(entry.rank.precedence) {
            return Ok(false);
        }
        if entry.is_certain {
            return Ok(true);
        }
        self.takes_entry(templates, entry, table)
    }

    // Whether the rule of an entry takes the node.
    fn takes_entry(
        &self,
        templates: &[Template],
        entry: Entry,
        table: Option<&RuleTable>,
    ) -> Result<bool, AllocError>
        requires node { self.now.node < length self.now.tree.now }
        requires tables { TablesIn self.now.tree.now (K.tables self.now.keys.now) }
        requires table { IsTableOf self.now.tree.now (at_entry templates.now entry)
            (option_copied table) }
        ensures taken { IfOk result (λ taken. taken ≡ option_map_or
            (takes (K.tables self.now.keys.now) self.now.tree.now self.now.mode self.now.node)
            (at_entry templates.now entry) false) }
    {
        match templates.get(entry.template as usize) {
            None => Ok(false),
            Some(template) => self.takes_nth(template, entry, table),
        }
    }
}
