//! The rules of a template, each an alternative of its pattern (XSLT 1.0, 5.3 and 5.5), and the
//! best of those that match.

ghost use Rattle.std.specs.Prelude.{◌≡◌, ◌==◌, ◌&&◌, ◌<◌, ◌∷◌, [], true, false, IfOk, IfSome};
ghost use Rattle.std.specs.Prelude.{length, map};
ghost use Rattle.std.specs.Prelude.{option_copied, option_map, slice_get};
ghost use Rattle.std.specs.Option.{option_and_then, option_map_or};
ghost use Rattle.xs_pattern_spec.specs.Matching.{matches_path, pattern_context};
ghost use Rattle.xs_value.specs.Tables.{TablesIn};
ghost use Rattle.xs_xpath.specs.Exprs.{tree_from};
ghost use Rattle.xs_rules.specs.Ranks.{outranks};
ghost use Rattle.xs_rules.specs.Rules.{candidate, candidates_of, rank_of, takes};
ghost use Rattle.xs_rules.specs.steps.Candidates.{best_before, candidate_of, is_matching, looks_at};
ghost use Rattle.xs_rules.specs.steps.Candidates.{passes, rule_of_best};
ghost use Rattle.xs_rules.specs.steps.Index.{IsTable, IsTableOf, nth_of};

use crate::choice::Rule;
use crate::entries::Entry;
use crate::ranks::{Rank, default_priority};
use crate::search::Search;
use crate::tables::{RuleTable, matches_by};
use std::alloc::AllocError;
use xs_pattern::matcher::Matcher;
use xs_sheet::declarations::Template;
use xs_sheet::scoped::ScopedPattern;
use xs_value::keys::KeyFinder;
use xs_xpath::expr::Expr;

/// The precedences of the rules that are looked at.
#[derive(Clone, Copy)]
pub(crate) enum Looked {
    /// All of them.
    All,
    /// None.
    Nothing,
    /// Those from the first up to just below the second.
    Within(u32, u32),
}

/// A rule: one of the alternatives of a template's pattern.
#[derive(Drop)]
pub(crate) struct Alternative<'a> {
    /// The number of its template.
    number: u32,
    template: &'a Template,
    pattern: &'a ScopedPattern,
    expr: &'a Expr,
    /// By what it is compared with others.
    rank: Rank,
}

/// The best rule so far.
#[derive(Clone, Copy)]
pub(crate) struct Best {
    /// The number of its template.
    pub(crate) template: u32,
    pub(crate) rank: Rank,
}

impl Looked {
    /// Whether rules of a precedence are looked at.
    pub(crate) fn looks_at(self, precedence: u32) -> bool
        ensures { result ≡ looks_at self precedence }
    {
        match self {
            Looked::All => true,
            Looked::Nothing => false,
            Looked::Within(from, below) => from <= precedence && precedence < below,
        }
    }
}

impl<'a, K: KeyFinder> Search<'a, K> {
    /// The best rule of a template with a number, before the best one after it.
    pub(crate) fn best_of_template(
        &self,
        number: u32,
        template: &Template,
        best: Option<Best>,
    ) -> Result<Option<Best>, AllocError>
        requires node { self.now.node < length self.now.tree.now }
        requires tables { TablesIn self.now.tree.now (K.tables self.now.keys.now) }
        ensures best { IfOk result (λ found. found
            ≡ best_before (passes self.now.looked (K.tables self.now.keys.now)
            self.now.tree.now self.now.mode self.now.node)
            (candidates_of (number, template.now)) best) }
    {
        match &template.pattern {
            None => Ok(best),
            Some(pattern) => {
                if template.mode != self.mode {
                    return Ok(best);
                }
                if !self.looked.looks_at(template.precedence) {
                    return Ok(best);
                }
                self.best_of_pattern(number, template, pattern, best)
            }
        }
    }

    // The best of the alternatives of a pattern that match, before the best rule after it.
    fn best_of_pattern(
        &self,
        number: u32,
        template: &Template,
        pattern: &ScopedPattern,
        best: Option<Best>,
    ) -> Result<Option<Best>, AllocError>
        requires node { self.now.node < length self.now.tree.now }
        requires tables { TablesIn self.now.tree.now (K.tables self.now.keys.now) }
        ensures best { IfOk result (λ found. found
            ≡ best_before (is_matching (K.tables self.now.keys.now) self.now.tree.now self.now.node)
            (map (candidate number template.now pattern.now)
            pattern.now.pattern) best) }
    {
        let mut best = best;
        let mut rest = pattern.pattern.alternatives();
        while let Some((alternative, before)) = rest.split_last() {
            let rule = Alternative {
                number,
                template,
                pattern,
                expr: alternative,
                rank: rank_of(template, alternative),
            };
            best = self.best_of_alternative(&rule, best)?;
            rest = before;
        }
        Ok(best)
    }

    // An alternative where it matches and is above the best rule after it; otherwise that one.
    fn best_of_alternative(
        &self,
        rule: &Alternative<'_>,
        best: Option<Best>,
    ) -> Result<Option<Best>, AllocError>
        requires rank { rule.now.rank ≡ (candidate_of rule.now).rank }
        requires node { self.now.node < length self.now.tree.now }
        requires tables { TablesIn self.now.tree.now (K.tables self.now.keys.now) }
        ensures best { IfOk result (λ found. found
            ≡ best_before (is_matching (K.tables self.now.keys.now) self.now.tree.now self.now.node)
            (candidate_of rule.now ∷ []) best) }
    {
        if !is_above(rule.rank, best) {
            return Ok(best);
        }
        let matcher = Matcher {
            alloc: self.alloc,
            tree: self.tree,
            keys: self.keys,
        };
        if matches_by(
            &matcher,
            rule.expr,
            rule.pattern.scope.scope(),
            self.node,
            None,
        )? {
            return Ok(Some(Best {
                template: rule.number,
                rank: rule.rank,
            }));
        }
        Ok(best)
    }

    /// Whether one of a template's alternatives is of the mode and matches the node.
    pub(crate) fn takes_nth(
        &self,
        template: &Template,
        entry: Entry,
        table: Option<&RuleTable>,
    ) -> Result<bool, AllocError>
        requires node { self.now.node < length self.now.tree.now }
        requires tables { TablesIn self.now.tree.now (K.tables self.now.keys.now) }
        requires table { IsTableOf self.now.tree.now
            (option_and_then (nth_of entry.template template.now entry.alternative)
            template.now.pattern)
            (option_copied table) }
        ensures taken { IfOk result (λ taken. taken ≡ option_map_or
            (takes (K.tables self.now.keys.now) self.now.tree.now self.now.mode self.now.node)
            (option_and_then (nth_of entry.template template.now entry.alternative)
            template.now.pattern) false) }
    {
        match &template.pattern {
            None => Ok(false),
            Some(pattern) => match nth_alternative(pattern, entry.alternative) {
                None => Ok(false),
                Some(alternative) => {
                    self.takes_alternative(template.mode, pattern, alternative, table)
                }
            },
        }
    }

    // Whether an alternative of a pattern of a mode is of the node's mode and matches.
    fn takes_alternative(
        &self,
        mode: u32,
        pattern: &ScopedPattern,
        alternative: &Expr,
        table: Option<&RuleTable>,
    ) -> Result<bool, AllocError>
        requires node { self.now.node < length self.now.tree.now }
        requires tables { TablesIn self.now.tree.now (K.tables self.now.keys.now) }
        requires table { IfSome table (λ t. IsTable self.now.tree.now
            pattern.now.scope (tree_from alternative.now) t.now) }
        ensures taken { IfOk result (λ taken. taken ≡ (mode == self.now.mode
            && matches_path (K.tables self.now.keys.now)
            (pattern_context self.now.tree.now pattern.now.scope self.now.node)
            (tree_from alternative.now))) }
    {
        if mode != self.mode {
            return Ok(false);
        }
        let matcher = Matcher {
            alloc: self.alloc,
            tree: self.tree,
            keys: self.keys,
        };
        matches_by(
            &matcher,
            alternative,
            pattern.scope.scope(),
            self.node,
            table,
        )
    }
}

/// One of the alternatives of a pattern, by its place.
#[tactic(auto, using(crate::proofs::TreeLemmas::tree_at))]
pub(crate) fn nth_alternative(pattern: &ScopedPattern, place: usize) -> Option<&Expr>
    ensures { option_map tree_from (option_copied result)
        ≡ slice_get pattern.now.pattern place }
{
    pattern.pattern.alternatives().get(place)
}

/// Whether there is no later rule, or one that is outranked.
pub(crate) fn is_above(rank: Rank, best: Option<Best>) -> bool
    ensures { result ≡ option_map_or (λ b. outranks rank b.rank) best true }
{
    match best {
        None => true,
        Some(other) => rank.outranks(other.rank),
    }
}

/// Where an alternative of a template's pattern stands among others: by the priority that is
/// written, or else the default one.
pub(crate) fn rank_of(template: &Template, alternative: &Expr) -> Rank
    ensures { result ≡ rank_of template.now (tree_from alternative.now) }
{
    let priority = match template.priority {
        Some(written) => written,
        None => default_priority(alternative),
    };
    Rank {
        precedence: template.precedence,
        priority,
    }
}

/// The rule of what was found.
pub(crate) fn rule_of_best(best: Option<Best>) -> Rule
    ensures { result ≡ rule_of_best best }
{
    match best {
        Some(best) => Rule::Template(best.template),
        None => Rule::BuiltIn,
    }
}
