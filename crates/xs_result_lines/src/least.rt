//! A table of the least prefix that is bound to each URI.
ghost use Rattle.std.specs.Prelude.{◌≡◌, ℕ, if◌then◌else◌, IfOk, List, Some};
ghost use Rattle.std.specs.BTreeMap.{is_at};
ghost use Rattle.xs_result_lines.specs.Bindings.{order_of_prefixes, uri_in};
ghost use Rattle.xs_result_lines.specs.steps.Tables.{is_less, least_with};

use crate::text_key::TextKey;
use std::alloc::AllocError;
use std::collections::BTreeMap;
use xs_text::TextBuf;

/// A table with a binding more. The empty prefix is left out: it is for elements alone.
pub(crate) fn noted(
    by_uri: BTreeMap<TextKey, TextBuf>,
    prefix: &TextBuf,
    uri: &TextBuf,
) -> Result<BTreeMap<TextKey, TextBuf>, AllocError>
    ensures { IfOk result (λ table. (some : List ℕ) → uri_in table.entries some
        ≡ least_with prefix.now uri.now (uri_in by_uri.entries some) some) }
{
    if prefix.as_str().is_empty() {
        return Ok(by_uri);
    }
    let key = TextKey::of(uri)?;
    let least = least_of(&by_uri, &key)?;
    if !is_less(prefix, &least) {
        return Ok(by_uri);
    }
    with_least(by_uri, key, prefix)
}

/// The prefix that a table has for a URI.
#[tactic(auto, unfolding(crate::specs::Bindings::uri_in))]
fn least_of(
    by_uri: &BTreeMap<TextKey, TextBuf>,
    uri: &TextKey,
) -> Result<Option<TextBuf>, AllocError>
    ensures { IfOk result (λ prefix. prefix ≡ uri_in by_uri.now.entries uri.now) }
{
    match by_uri.get(uri) {
        Some(prefix) => Ok(Some(prefix.copy()?)),
        None => Ok(None),
    }
}

/// Whether a prefix is less than another, if there is another.
fn is_less(prefix: &TextBuf, other: &Option<TextBuf>) -> bool
    ensures { result ≡ is_less prefix.now other.now }
{
    match other {
        Some(other) => prefix.as_str() < other.as_str(),
        None => true,
    }
}

/// A table with another prefix for a URI.
#[tactic(auto, unfolding(crate::specs::Bindings::uri_in))]
fn with_least(
    by_uri: BTreeMap<TextKey, TextBuf>,
    uri: TextKey,
    prefix: &TextBuf,
) -> Result<BTreeMap<TextKey, TextBuf>, AllocError>
    ensures { IfOk result (λ table. (some : List ℕ) → uri_in table.entries some
        ≡ (if is_at (order_of_prefixes uri) some then Some prefix.now
        else uri_in by_uri.entries some)) }
{
    let mut table = by_uri;
    let copy = prefix.copy()?;
    let _ = table.insert(uri, copy)?;
    Ok(table)
}
