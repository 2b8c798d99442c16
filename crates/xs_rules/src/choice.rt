//! Which template rule a node takes (XSLT 1.0, 5.5 and 5.6), found by going over all of them.

ghost use Rattle.std.specs.Prelude.{◌≡◌, ℕ, ◌<◌, ◌^◌, None, IfOk, length};
ghost use Rattle.xs_value.specs.Tables.{TablesIn};
ghost use Rattle.xs_rules.specs.Rules.{candidates, chosen, chosen_import, is_imported};
ghost use Rattle.xs_rules.specs.steps.Candidates.{best_before, looks_at, passes};
ghost use Rattle.xs_rules.specs.steps.Candidates.{rule_of_best};

use crate::candidates::{Looked, rule_of_best};
use crate::search::Search;
use std::alloc::{AllocError, Global};
pub use xs_pattern_spec::rule::Rule;
use xs_sheet::declarations::Template;
use xs_sheet::sheet::Sheet;
use xs_tree::{Node, Tree};
use xs_value::keys::KeyFinder;

/// The rule that a node takes in a mode: of those that match the highest (XSLT 1.0, 5.5). It serves
/// callers of the library and rows; a run takes `choose_with`.
pub fn choose<K: KeyFinder>(
    alloc: Global,
    sheet: &Sheet,
    tree: &Tree,
    node: Node,
    mode: u32,
    keys: &K,
) -> Result<Rule, AllocError>
    requires few { length sheet.now.templates < 2 ^ 32 }
    requires node { node < length tree.now }
    requires tables { TablesIn tree.now (K.tables keys.now) }
    ensures chosen { IfOk result (λ rule. rule
        ≡ chosen (K.tables keys.now) sheet.now.templates tree.now mode node) }
{
    let search = Search {
        alloc,
        tree,
        keys,
        looked: Looked::All,
        mode,
        node,
    };
    search.choose_among(sheet)
}

/// The rule that a node takes in a mode of those that were imported into the module of the template
/// with a number (XSLT 1.0, 5.6). It serves callers of the library and rows; a run takes
/// `choose_import_with`.
pub fn choose_import<K: KeyFinder>(
    alloc: Global,
    sheet: &Sheet,
    tree: &Tree,
    node: Node,
    mode: u32,
    keys: &K,
    under: u32,
) -> Result<Rule, AllocError>
    requires few { length sheet.now.templates < 2 ^ 32 }
    requires node { node < length tree.now }
    requires tables { TablesIn tree.now (K.tables keys.now) }
    ensures chosen { IfOk result (λ rule. rule
        ≡ chosen_import under (K.tables keys.now) sheet.now.templates tree.now mode node) }
{
    let looked = imported_into(sheet.templates.as_slice(), under);
    let search = Search {
        alloc,
        tree,
        keys,
        looked,
        mode,
        node,
    };
    search.choose_among(sheet)
}

/// Which rules are looked at for the module of the template with a number.
pub(crate) fn imported_into(templates: &[Template], under: u32) -> Looked
    ensures { (precedence : ℕ)
        → looks_at result precedence ≡ is_imported templates.now under precedence }
{
    match templates.get(under as usize) {
        Some(template) => Looked::Within(template.imports_from, template.precedence),
        None => Looked::Nothing,
    }
}

impl<'a, K: KeyFinder> Search<'a, K> {
    // The rule that a node takes of those that are looked at.
    fn choose_among(&self, sheet: &Sheet) -> Result<Rule, AllocError>
        requires few { length sheet.now.templates < 2 ^ 32 }
        requires node { self.now.node < length self.now.tree.now }
        requires tables { TablesIn self.now.tree.now (K.tables self.now.keys.now) }
        ensures chosen { IfOk result (λ rule. rule ≡ rule_of_best (best_before
            (passes self.now.looked (K.tables self.now.keys.now)
            self.now.tree.now self.now.mode self.now.node)
            (candidates sheet.now.templates) None)) }
    {
        let mut best = None;
        let mut rest = sheet.templates.as_slice();
        while let Some((template, before)) = rest.split_last() {
            let number = before.len() as u32;
            best = self.best_of_template(number, template, best)?;
            rest = before;
        }
        Ok(rule_of_best(best))
    }
}
