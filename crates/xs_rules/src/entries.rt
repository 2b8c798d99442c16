//! The rules of a stylesheet by their ranks: import precedence, then priority, then the order of
//! the stylesheet (XSLT 1.0, 5.5).

ghost use Rattle.std.specs.Prelude.{◌≡◌, ◌<◌, ◌^◌, ◌++◌, IfOk, List, OnOk, Some, length, map};
ghost use Rattle.std.specs.Ordering.{is_lt};
ghost use Rattle.xs_sheet.specs.declared.declarations.Template.{Template};
ghost use Rattle.xs_sort_order.specs.InOrder.{in_order};
ghost use Rattle.xs_rules.specs.Ranks.{outranks};
ghost use Rattle.xs_rules.specs.Rules.{Candidate, candidate, candidates, candidates_of};
ghost use Rattle.xs_rules.specs.steps.Index.{AreEntries, is_entry_below, ranked};
ghost use Rattle.std.specs.Prelude.{slice_get};

use crate::candidates::rank_of;
use crate::ranks::Rank;
use crate::rule_kinds::is_certain;
use std::alloc::{AllocError, Global};
use std::cmp::Ordering;
use xs_sheet::declarations::Template;
use xs_sheet::scoped::ScopedPattern;

/// One rule: an alternative of a template's pattern.
#[derive(Clone, Copy)]
pub(crate) struct Entry {
    /// The number of its template.
    pub(crate) template: u32,
    /// Which of the pattern's alternatives it is.
    pub(crate) alternative: usize,
    /// By what it is compared with others.
    pub(crate) rank: Rank,
    /// Whether it matches each node for which it is in a list.
    pub(crate) is_certain: bool,
}

/// The rules of a stylesheet, from the lowest rank to the highest. Those of one rank stand in the
/// order of the stylesheet.
pub(crate) fn ranked_entries(
    alloc: Global,
    templates: &[Template],
) -> Result<Vec<Entry>, AllocError>
    requires few { length templates.now < 2 ^ 32 }
    ensures ranked { IfOk result (λ entries. AreEntries templates.now
        (ranked (candidates templates.now)) entries.items) }
{
    let entries = entries_of(alloc, templates)?;
    sorted(entries)
}

// Rules by their ranks. Those of one rank stay in their order.
fn sorted(entries: Vec<Entry>) -> Result<Vec<Entry>, AllocError>
    ensures sorted { IfOk result (λ sorted. sorted.items
        ≡ in_order is_entry_below entries.items) }
{
    let mut entries = entries;
    entries.sort_by(|a, b| compare_ranks(a.rank, b.rank))?;
    Ok(entries)
}

// The order of two ranks.
fn compare_ranks(a: Rank, b: Rank) -> Ordering
    ensures { is_lt result ≡ outranks b a }
{
    if b.outranks(a) {
        return Ordering::Less;
    }
    if a.outranks(b) {
        return Ordering::Greater;
    }
    Ordering::Equal
}

// The rules of a stylesheet in its order.
fn entries_of(alloc: Global, templates: &[Template]) -> Result<Vec<Entry>, AllocError>
    requires few { length templates.now < 2 ^ 32 }
    ensures entries { IfOk result (λ entries. AreEntries templates.now
        (candidates templates.now) entries.items) }
{
    let mut entries = Vec::new(alloc);
    for number in 0..templates.len() {
        add_template(&mut entries, number as u32, &templates[number])?;
    }
    Ok(entries)
}

// Adds the rules of a template with a number after those that are there.
fn add_template(
    entries: &mut Vec<Entry>,
    number: u32,
    template: &Template,
) -> Result<(), AllocError>
    ensures entries { OnOk result ((ts : List Template) (cs : List Candidate)
        → slice_get ts number ≡ Some template.now
        → AreEntries ts cs entries.old.items
        → AreEntries ts (cs ++ candidates_of (number, template.now)) entries.new.items) }
{
    match &template.pattern {
        None => Ok(()),
        Some(pattern) => add_pattern(entries, number, template, pattern),
    }
}

// Adds the alternatives of a template's pattern.
fn add_pattern(
    entries: &mut Vec<Entry>,
    number: u32,
    template: &Template,
    pattern: &ScopedPattern,
) -> Result<(), AllocError>
    ensures entries { OnOk result ((ts : List Template) (cs : List Candidate)
        → slice_get ts number ≡ Some template.now
        → template.now.pattern ≡ Some pattern.now
        → AreEntries ts cs entries.old.items
        → AreEntries ts (cs ++ map (candidate number template.now pattern.now)
        pattern.now.pattern) entries.new.items) }
{
    let alternatives = pattern.pattern.alternatives();
    for place in 0..alternatives.len() {
        let alternative = &alternatives[place];
        let rank = rank_of(template, alternative);
        let is_certain = is_certain(alternative);
        let entry = Entry {
            template: number,
            alternative: place,
            rank,
            is_certain,
        };
        entries.push(entry)?;
    }
    Ok(())
}
