//! The tables of all instructions of a stylesheet that count (XSLT 1.0, 7.7), by the places where
//! they stand. A place is a hint: the declaration of a table is compared before it is used.

ghost use Rattle.std.specs.Prelude.{◌≡◌, ◌<◌, IfOk, IfSome, List, OnOk, length};
ghost use Rattle.xs_pattern_spec.specs.Counted.{number_list};
ghost use Rattle.xs_number_tables.specs.steps.Counters.{IsCounter};
ghost use Rattle.xs_number_tables.specs.Tables.{AreCounters};
ghost use Rattle.xs_tree.specs.Record.{Record};
ghost use Rattle.xs_value.specs.Tables.{Table, TablesIn};

use crate::counter::Counter;
use crate::declared::{Counting, counting_in};
use crate::same::is_same_counting;
use std::alloc::{AllocError, Global};
use std::collections::HashMap;
use xs_sheet::body::NumberDecl;
use xs_sheet::sheet::Sheet;
use xs_trace::item::Site;
use xs_tree::{Node, Tree};
use xs_value::keys::KeyFinder;

/// The counters of a stylesheet over the nodes of a tree. What is counted depends on none of them.
#[derive(Drop)]
pub struct Counters<'a> {
    // By module and line: no two elements begin on one line of a module.
    counters: HashMap<(u32, u32), Counted<'a>>,
}

/// A counter, and what it counts by.
#[derive(Drop)]
struct Counted<'a> {
    decl: &'a NumberDecl,
    counter: Counter,
}

impl<'a> Counters<'a> {
    /// None.
    pub fn new(alloc: Global) -> Counters<'a>
        ensures { (keys : List Table) (rs : List Record) → AreCounters keys rs result }
    {
        Counters {
            counters: HashMap::new(alloc),
        }
    }

    /// Those of all instructions that count, in time linear in the nodes for each of them.
    pub fn over<K: KeyFinder>(
        alloc: Global,
        sheet: &'a Sheet,
        tree: &Tree,
        keys: &K,
    ) -> Result<Counters<'a>, AllocError>
        requires tables { TablesIn tree.now (K.tables keys.now) }
        ensures { IfOk result (AreCounters (K.tables keys.now) tree.now) }
    {
        let mut counters = Counters::new(alloc);
        let all = counting_in(alloc, sheet)?;
        for counting in &all {
            counters.add(alloc, counting, tree, keys)?;
        }
        Ok(counters)
    }

    // Adds the counter of an instruction.
    fn add<K: KeyFinder>(
        &mut self,
        alloc: Global,
        counting: &Counting<'a>,
        tree: &Tree,
        keys: &K,
    ) -> Result<(), AllocError>
        requires tables { TablesIn tree.now (K.tables keys.now) }
        requires counters { AreCounters (K.tables keys.now) tree.now self.old }
        ensures { OnOk result (AreCounters (K.tables keys.now) tree.now self.new) }
    {
        let decl = counting.decl;
        let counter = Counter::new(alloc, decl, tree, keys)?;
        let key = (counting.site.module, counting.site.line);
        self.counters.insert(key, Counted { decl, counter })?;
        Ok(())
    }

    /// The list of numbers that an instruction at a place counts for a node: by its counter, or, if
    /// none is known to be its own, by one that is made for it.
    pub fn list<K: KeyFinder>(
        &self,
        alloc: Global,
        site: Site,
        decl: &NumberDecl,
        tree: &Tree,
        node: Node,
        keys: &K,
    ) -> Result<Vec<u64>, AllocError>
        requires tables { TablesIn tree.now (K.tables keys.now) }
        requires node { node < length tree.now }
        requires counters { AreCounters (K.tables keys.now) tree.now self.now }
        ensures { IfOk result (λ list. list.items
            ≡ number_list (K.tables keys.now) tree.now decl.now node) }
    {
        match self.counter_of(site, decl) {
            Some(counter) => counter.list(alloc, decl, tree, node, keys),
            None => {
                let counter = Counter::new(alloc, decl, tree, keys)?;
                counter.list(alloc, decl, tree, node, keys)
            }
        }
    }

    // The counter at a place, if it counts by the same as a declaration.
    fn counter_of(&self, site: Site, decl: &NumberDecl) -> Option<&Counter>
        ensures { (keys : List Table) (rs : List Record) → AreCounters keys rs self.now
            → IfSome result (λ counter. IsCounter keys rs decl.now counter.now) }
    {
        let counted = self.counters.get(&(site.module, site.line))?;
        if !is_same_counting(counted.decl, decl) {
            return None;
        }
        Some(&counted.counter)
    }
}
