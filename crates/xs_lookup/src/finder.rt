//! The finder of a stylesheet over a tree.

ghost use Rattle.std.specs.Prelude.{◌≡◌, ◌<◌, ◌^◌, IfOk, length};
ghost use Rattle.xs_lookup.specs.Ready.{IsReady, tables_in};
ghost use Rattle.xs_keys.specs.Find.{IsKept};
ghost use Rattle.xs_keys.specs.KeyTables.{tables_of};
ghost use Rattle.xs_keys.specs.lemmas.TableLemmas.{are_tables};
ghost use Rattle.xs_body_spec.specs.Rules.{template_of};
ghost use Rattle.xs_value.specs.Keys.{Finds};
ghost use Rattle.xs_value.specs.Tables.{TablesIn, table_at};

use std::alloc::{AllocError, Global};
use std::borrow::CowStr;
use xs_body_spec::finder::Finder;
use xs_eval::evaluate::evaluate;
use xs_eval::templates::{evaluate_avt, lend_avt};
use xs_eval_spec::context::Context;
use xs_eval_spec::expressions::ExprEvaluator;
use xs_keys::keys::KeyCells;
use xs_number_tables::counters::Counters;
use xs_rules::choice::Rule;
use xs_rules::index::{RuleIndex, choose_import_with, choose_with};
use xs_sheet::body::NumberDecl;
use xs_sheet::sheet::Sheet;
use xs_text::TextBuf;
use xs_trace::item::Site;
use xs_trace::recorder::{Halt, Tally};
use xs_tree::{Node, Tree};
use xs_value::keys::{Found, KeyEnd, KeyFinder};
use xs_value::value::Value;
use xs_xpath::avt::AvtPart;
use xs_xpath::expr::Expr;

/// Finds for a stylesheet, over a tree. Nothing that is found depends on its tables.
#[derive(Drop)]
pub struct SheetFinder<'a> {
    sheet: &'a Sheet,
    tree: &'a Tree,
    /// By which nodes are found by key (XSLT 1.0, 12.2).
    keys: &'a KeyCells,
    /// By which rules are found (5.5).
    rules: RuleIndex<'a>,
    /// By which nodes are counted (7.7).
    counters: Counters<'a>,
}

impl<'a> SheetFinder<'a> {
    /// That of a stylesheet over a tree and its keys, in time linear in both.
    pub fn new(
        alloc: Global,
        sheet: &'a Sheet,
        tree: &'a Tree,
        keys: &'a KeyCells,
    ) -> Result<SheetFinder<'a>, AllocError>
        requires templates { length sheet.now.templates < 2 ^ 32 }
        requires keys { ⟦<KeyCells as KeyFinder>⟧.tables keys.now
            ≡ tables_of tree.now sheet.now.keys }
        requires inside { TablesIn tree.now (⟦<KeyCells as KeyFinder>⟧.tables keys.now) }
        ensures sheet { IfOk result (λ f. f.sheet.now ≡ sheet.now) }
        ensures tree { IfOk result (λ f. f.tree.now ≡ tree.now) }
        ensures tables { IfOk result (λ f. tables_in f ≡ tables_of tree.now sheet.now.keys) }
        ensures inside { IfOk result (λ f. TablesIn tree.now (tables_in f)) }
        ensures ready { IfOk result IsReady }
    {
        let mut rules = RuleIndex::new(alloc, sheet)?;
        rules.prepare(alloc, tree)?;
        let counters = Counters::over(alloc, sheet, tree, keys)?;
        Ok(SheetFinder {
            sheet,
            tree,
            keys,
            rules,
            counters,
        })
    }
}

impl<'a> KeyFinder for SheetFinder<'a> {
    ghost tables = { λ f. tables_in f };

    ghost are_tables = { λ f.
        are_tables f.keys.now.tree.value f.keys.now.sheet.value.keys f.keys.now.few };

    /// The number of the key with a name.
    fn number_of(&self, uri: &str, local: &str) -> Option<u32> {
        self.keys.number_of(uri, local)
    }

    /// The nodes, which are kept: it takes no memory.
    fn find(&self, alloc: Global, key: u32, text: &str) -> Result<Found<'_>, KeyEnd>
        ensures found { Finds (table_at (tables_in self.now) key) text.now result }
        ensures kept { IsKept result }
    {
        self.keys.find(alloc, key, text)
    }
}

impl<'a> ExprEvaluator for SheetFinder<'a> {
    /// By the evaluation of XPath.
    #[inline(always)]
    fn evaluate<T: Tally>(
        &self,
        alloc: Global,
        expr: &Expr,
        context: &Context<'_>,
        site: Site,
        tally: &mut T,
    ) -> Result<Value, Halt> {
        evaluate(alloc, expr, context, self, site, tally)
    }

    /// By the evaluation of value templates.
    #[inline(always)]
    fn evaluate_avt<T: Tally>(
        &self,
        alloc: Global,
        parts: &[AvtPart],
        context: &Context<'_>,
        site: Site,
        tally: &mut T,
    ) -> Result<TextBuf, Halt> {
        evaluate_avt(alloc, parts, context, self, site, tally)
    }

    /// The same.
    #[inline(always)]
    fn lend_avt<'t, T: Tally>(
        &self,
        alloc: Global,
        parts: &'t [AvtPart],
        context: &Context<'_>,
        site: Site,
        tally: &mut T,
    ) -> Result<CowStr<'t, Global>, Halt> {
        lend_avt(alloc, parts, context, self, site, tally)
    }
}

impl<'a> Finder for SheetFinder<'a> {
    ghost sheet = { λ f. f.sheet.now };

    ghost tree = { λ f. f.tree.now };

    ghost is_ready = { λ f. IsReady f };

    /// The template of the rule that is found among those that the node's kind and name allow.
    fn rule_for(&self, alloc: Global, node: Node, mode: u32) -> Result<Option<u32>, AllocError> {
        let rule = choose_with(alloc, &self.rules, self.tree, node, mode, self.keys)?;
        Ok(template_of(rule))
    }

    /// The same of the rules that were imported.
    fn import_for(
        &self,
        alloc: Global,
        under: u32,
        node: Node,
        mode: u32,
    ) -> Result<Option<u32>, AllocError> {
        let rules = &self.rules;
        let rule = choose_import_with(alloc, rules, self.tree, node, mode, self.keys, under)?;
        Ok(template_of(rule))
    }

    /// The list of the instruction's counter.
    fn numbers_of(
        &self,
        alloc: Global,
        site: Site,
        decl: &NumberDecl,
        node: Node,
    ) -> Result<Vec<u64>, AllocError> {
        self.counters
            .list(alloc, site, decl, self.tree, node, self.keys)
    }
}

/// The template of a rule.
fn template_of(rule: Rule) -> Option<u32>
    ensures { result ≡ template_of rule }
{
    match rule {
        Rule::Template(template) => Some(template),
        Rule::BuiltIn => None,
    }
}
