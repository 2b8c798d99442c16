//! Lists of the places of rules, by keys and by modes and kinds.

ghost use Rattle.std.specs.Prelude.{◌≡◌, ◌==◌, ◌&&◌, ℕ, [], false, nat_lt, option_copied};
ghost use Rattle.std.specs.Prelude.{if◌then◌else◌, OnOk, reverse};
ghost use Rattle.indexmap.specs.IndexMap.{get_by};
ghost use Rattle.xs_tree.specs.declared.kinds.Kind.{Kind};
ghost use Rattle.xs_xpath.specs.Exprs.{tree_from};
ghost use Rattle.xs_rules.specs.steps.Index.{Key, is_key, key_data, later, passed, with_place};
ghost use Rattle.xs_rules.specs.steps.Kinds.{allows_kind};
ghost use Rattle.xs_rules.specs.steps.Lists.{named_in, places_for, unnamed_in};

use crate::kind_lists::KindLists;
use crate::rule_keys::{RuleKey, is_key};
use indexmap::IndexMap;
use std::alloc::{AllocError, Global};
use xs_tree::InputHashes;
use xs_xpath::expr::Expr;

/// The most keys that are gone over one after another, which takes less time than a hash.
const FEW_KEYS: usize = 8;

/// The places of rules by their keys, whose names whoever writes a stylesheet chooses.
pub(crate) type Named<'a> = IndexMap<RuleKey<'a>, Vec<usize>, InputHashes>;

/// The places of rules by their modes, and in each by kinds.
pub(crate) type Unnamed = IndexMap<u32, KindLists>;

/// Adds the place of a rule with a key.
pub(crate) fn add_named<'a>(
    alloc: Global,
    named: &mut Named<'a>,
    key: RuleKey<'a>,
    place: usize,
) -> Result<(), AllocError>
    ensures { OnOk result ((q : Key) → named_in named.new q
        ≡ with_place (is_key (key_data key.entry) q) place (named_in named.old q)) }
{
    let mut places = take_named(alloc, named, key);
    places.push(place)?;
    named.insert(key, places)?;
    Ok(())
}

// Takes the places of the rules with a key away.
fn take_named<'a>(alloc: Global, named: &mut Named<'a>, key: RuleKey<'a>) -> Vec<usize>
    ensures taken { result.items ≡ named_in named.old (key_data key.entry) }
    ensures others { (q : Key) → is_key (key_data key.entry) q ≡ false
        → named_in named.new q ≡ named_in named.old q }
{
    match named.swap_remove(&key) {
        Some(places) => places,
        None => Vec::new(alloc),
    }
}

/// Adds the place of a rule without a key.
pub(crate) fn add_unnamed(
    alloc: Global,
    unnamed: &mut Unnamed,
    mode: u32,
    alternative: &Expr,
    place: usize,
) -> Result<(), AllocError>
    ensures { OnOk result ((m : ℕ) (kind : Kind) → unnamed_in unnamed.new m kind
        ≡ with_place (mode == m && allows_kind (tree_from alternative.now) kind) place
        (unnamed_in unnamed.old m kind)) }
{
    let mut lists = take_unnamed(alloc, unnamed, mode);
    lists.add(alternative, place)?;
    unnamed.insert(mode, lists)?;
    Ok(())
}

// Takes the lists of a mode away.
fn take_unnamed(alloc: Global, unnamed: &mut Unnamed, mode: u32) -> KindLists
    ensures taken { (kind : Kind) → places_for kind result ≡ unnamed_in unnamed.old mode kind }
    ensures others { (m : ℕ) (kind : Kind) → (mode == m) ≡ false
        → unnamed_in unnamed.new m kind ≡ unnamed_in unnamed.old m kind }
{
    match unnamed.swap_remove(&mode) {
        Some(lists) => lists,
        None => KindLists::new(alloc),
    }
}

/// The places of the rules with a key.
pub(crate) fn named_by<'l, 'a>(named: &'l Named<'a>, key: &RuleKey<'l>) -> &'l [usize]
    ensures { result.now ≡ named_in named.entry.now (key_data key.now) }
{
    if named.len() > FEW_KEYS {
        return match named.get(key) {
            Some(places) => places.as_slice(),
            None => &[],
        };
    }
    named_among_few(named, key)
}

// The same, by going over the keys.
fn named_among_few<'l, 'a>(named: &'l Named<'a>, key: &RuleKey<'_>) -> &'l [usize]
    ensures { result.now ≡ named_in named.entry.now (key_data key.now) }
{
    let mut left = named.as_slice();
    while let Some(((other, places), others)) = left.split_first() {
        if is_key(key, other) {
            return places.as_slice();
        }
        left = others;
    }
    &[]
}

/// The lists of a mode.
pub(crate) fn kinds_of(unnamed: &Unnamed, mode: u32) -> Option<&KindLists>
    ensures { option_copied result ≡ get_by (λ k. mode == k) unnamed.now }
{
    if unnamed.len() > FEW_KEYS {
        return unnamed.get(&mode);
    }
    kinds_among_few(unnamed, mode)
}

// The same, by going over the modes.
fn kinds_among_few(unnamed: &Unnamed, mode: u32) -> Option<&KindLists>
    ensures { option_copied result ≡ get_by (λ k. mode == k) unnamed.now }
{
    let mut left = unnamed.as_slice();
    while let Some(((other, lists), others)) = left.split_first() {
        if mode == *other {
            return Some(lists);
        }
        left = others;
    }
    None
}

/// The later of the last places of two lists.
pub(crate) fn later(named: &[usize], unnamed: &[usize]) -> Option<usize>
    ensures { result ≡ later (reverse named.now) (reverse unnamed.now) }
{
    match named.split_last() {
        None => match unnamed.split_last() {
            None => None,
            Some((j, _)) => Some(*j),
        },
        Some((i, _)) => match unnamed.split_last() {
            None => Some(*i),
            Some((j, _)) => Some(later_of(*i, *j)),
        },
    }
}

// The later of two places.
fn later_of(i: usize, j: usize) -> usize
    ensures { result ≡ (if nat_lt i j then j else i) }
{
    if i < j { j } else { i }
}

/// A list without a place, where that is its last one.
pub(crate) fn without(places: &[usize], place: usize) -> &[usize]
    ensures { reverse result.now ≡ passed place (reverse places.now) }
{
    match places.split_last() {
        None => places,
        Some((last, before)) => { if *last == place { before } else { places } }
    }
}
