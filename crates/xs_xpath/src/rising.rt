//! Pairs whose prefixes rise by their bytes, as the namespaces of a tree do.

ghost use Rattle.std.specs.Prelude.{◌≡◌, ◌<◌, ◌≤◌, true, length};
ghost use Rattle.xs_xpath.specs.Names.{uri_in};
ghost use Rattle.xs_xpath.specs.steps.Rising.{is_below, rises, rises_above};

use xs_text::TextBuf;

/// Whether a text is below another one by its bytes.
fn is_below(text: &[u8], other: &[u8]) -> bool
    ensures { result ≡ is_below text.now other.now }
{
    text.cmp(other).is_lt()
}

/// Whether the prefixes of pairs rise, and all are above this one.
fn rises_above(prefix: &[u8], pairs: &[(TextBuf, TextBuf)]) -> bool
    ensures { result ≡ rises_above prefix.now pairs.now }
{
    let mut before = prefix;
    let mut rest = pairs;
    while let Some((pair, behind)) = rest.split_first() {
        let next = pair.0.as_str().as_bytes();
        if !is_below(before, next) {
            return false;
        }
        before = next;
        rest = behind;
    }
    true
}

/// Whether the prefixes of pairs rise. Then none comes twice, and one of them is found by halving.
pub(crate) fn rises(pairs: &[(TextBuf, TextBuf)]) -> bool
    ensures { result ≡ rises pairs.now }
{
    match pairs.split_first() {
        None => true,
        Some((first, behind)) => rises_above(first.0.as_str().as_bytes(), behind),
    }
}

/// The half of pairs that rise where a prefix is, if it is in them.
fn half_with<'p>(pairs: &'p [(TextBuf, TextBuf)], prefix: &str) -> &'p [(TextBuf, TextBuf)]
    requires rising { rises pairs.now ≡ true }
    requires several { 2 ≤ length pairs.now }
    ensures rising { rises result.now ≡ true }
    ensures uri { uri_in result.now prefix.now ≡ uri_in pairs.now prefix.now }
    ensures shorter { length result.now < length pairs.now }
{
    let middle = pairs.len() / 2;
    let (front, behind) = pairs.split_at(middle);
    if is_below(prefix.as_bytes(), pairs[middle].0.as_str().as_bytes()) {
        return front;
    }
    behind
}

/// A few of pairs that rise, where a prefix is, if it is in them.
pub(crate) fn few_with<'p>(
    pairs: &'p [(TextBuf, TextBuf)],
    prefix: &str,
) -> &'p [(TextBuf, TextBuf)]
    requires { rises pairs.now ≡ true }
    ensures { uri_in result.now prefix.now ≡ uri_in pairs.now prefix.now }
{
    let mut part = pairs;
    while part.len() > 16 {
        part = half_with(part, prefix);
    }
    part
}
