//! The rules of a stylesheet by mode, kind and name, and the rule that a node takes, found among
//! those that it may match.

ghost use Rattle.std.specs.Prelude.{◌≡◌, ◌<◌, ◌^◌, IfOk, List, OnErr, OnOk, length};
ghost use Rattle.xs_tree.specs.Record.{Record};
ghost use Rattle.xs_value.specs.Tables.{TablesIn};
ghost use Rattle.xs_rules.specs.Indexed.{IsIndex, IsPrepared};
ghost use Rattle.xs_rules.specs.Rules.{chosen, chosen_import};

use crate::candidates::Looked;
use crate::choice::{Rule, imported_into};
use crate::entries::ranked_entries;
use crate::lists::Lists;
use crate::rule_keys::hashes_of;
use crate::search::Search;
use crate::tables::{RuleTable, tables_for};
use std::alloc::{AllocError, Global};
use xs_sheet::declarations::Template;
use xs_sheet::sheet::Sheet;
use xs_tree::{Node, Tree};
use xs_value::keys::KeyFinder;

/// The rules of a stylesheet, to be chosen from by `choose_with` and `choose_import_with`.
#[derive(Drop)]
pub struct RuleIndex<'a> {
    /// The templates of the stylesheet.
    pub templates: &'a [Template],
    lists: Lists<'a>,
    /// By the places of the rules in their list: their tables over the nodes of a tree, where they
    /// have one.
    tables: Vec<Option<RuleTable>>,
}

impl<'a> RuleIndex<'a> {
    /// The rules of a stylesheet, in time linear in it except their order by rank. Without tables
    /// it is prepared for any tree.
    pub fn new(alloc: Global, sheet: &'a Sheet) -> Result<RuleIndex<'a>, AllocError>
        requires few { length sheet.now.templates < 2 ^ 32 }
        ensures index { IfOk result IsIndex }
        ensures templates { IfOk result (λ index. index.templates.now ≡ sheet.now.templates) }
        ensures plain { IfOk result (λ index. (rs : List Record) → IsPrepared index rs) }
    {
        let templates = sheet.templates.as_slice();
        let list = ranked_entries(alloc, templates)?;
        let entries = list.as_slice();
        let mut lists = Lists::new(alloc, hashes_of(templates));
        for place in 0..entries.len() {
            lists.add_entry(alloc, templates, &entries[place])?;
        }
        Ok(RuleIndex {
            templates,
            lists,
            tables: Vec::new(alloc),
        })
    }

    /// Tables for the patterns with `//` between steps, where the tree is deep, and for those that
    /// count positions, where it is wide; without them each match climbs, or lists the node's
    /// siblings (XSLT 1.0, 5.2). Those of another tree are given up, and after a refusal all is as
    /// it was.
    pub fn prepare(&mut self, alloc: Global, tree: &Tree) -> Result<(), AllocError>
        ensures prepared { OnOk result (IsPrepared self.new tree.now) }
        ensures refused { OnErr result (self.new ≡ self.old) }
        ensures templates { self.new.templates.now ≡ self.old.templates.now }
        ensures index { IsIndex self.old → IsIndex self.new }
    {
        self.tables = tables_for(alloc, self.templates, &self.lists.entries, tree)?;
        Ok(())
    }
}

/// The rule that a node takes in a mode: that of `choose` (XSLT 1.0, 5.5), found among the rules
/// that the node's kind and name allow, whatever the number of others.
pub fn choose_with<K: KeyFinder>(
    alloc: Global,
    index: &RuleIndex<'_>,
    tree: &Tree,
    node: Node,
    mode: u32,
    keys: &K,
) -> Result<Rule, AllocError>
    requires index { IsIndex index.now }
    requires prepared { IsPrepared index.now tree.now }
    requires node { node < length tree.now }
    requires tables { TablesIn tree.now (K.tables keys.now) }
    ensures chosen { IfOk result (λ rule. rule
        ≡ chosen (K.tables keys.now) index.now.templates.now tree.now mode node) }
{
    let search = Search {
        alloc,
        tree,
        keys,
        looked: Looked::All,
        mode,
        node,
    };
    index
        .lists
        .choose_among(&search, index.templates, &index.tables)
}

/// The rule that a node takes in a mode of those that were imported into the module of the template
/// with a number: that of `choose_import` (XSLT 1.0, 5.6), found in the same way.
pub fn choose_import_with<K: KeyFinder>(
    alloc: Global,
    index: &RuleIndex<'_>,
    tree: &Tree,
    node: Node,
    mode: u32,
    keys: &K,
    under: u32,
) -> Result<Rule, AllocError>
    requires index { IsIndex index.now }
    requires prepared { IsPrepared index.now tree.now }
    requires node { node < length tree.now }
    requires tables { TablesIn tree.now (K.tables keys.now) }
    ensures chosen { IfOk result (λ rule. rule
        ≡ chosen_import under (K.tables keys.now) index.now.templates.now tree.now mode node) }
{
    let looked = imported_into(index.templates, under);
    let search = Search {
        alloc,
        tree,
        keys,
        looked,
        mode,
        node,
    };
    index
        .lists
        .choose_among(&search, index.templates, &index.tables)
}
