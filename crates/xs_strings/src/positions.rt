//! Characters by their positions.

ghost use Rattle.std.specs.Prelude.{◌≡◌, ℕ, ◌≤◌, List, ◌++◌, length, take, drop, vec_len, OnOk};
ghost use Rattle.std.specs.Prelude.{OnErr};
ghost use Rattle.std.specs.Str.{chars, encode_utf8_all, IsUtf8};
ghost use Rattle.xs_num.specs.Range.{IsInRange};
ghost use Rattle.xs_strings.specs.Positions.{substring_of, places_below};

use crate::translation::push_char;
use std::alloc::AllocError;
use std::ops::Range;
use xs_num::number::{Num, Number};

/// How many characters a text has.
pub fn char_count(s: &str) -> u64
    ensures { result ≡ length (chars s.now) }
{
    s.chars().count() as u64
}

/// Appends the characters of `s` whose position, from 1, is at least `first` and less than
/// `first + count`; without a count all from `first` on, and with NaN none (XPath 1.0, 4.2).
/// After a refusal `out` is as it was.
pub fn substring(
    out: &mut Vec<u8>,
    s: &str,
    first: Num,
    count: Option<Num>,
) -> Result<(), AllocError>
    ensures ok { OnOk result
        (out.new.items
        ≡ out.old.items ++ encode_utf8_all (substring_of (chars s.now) first count)) }
    ensures err { OnErr result (out.new.items ≡ out.old.items) }
    ensures utf8 { IsUtf8 out.old.items → IsUtf8 out.new.items }
{
    let start = out.len();
    let outcome = append_kept(out, s, first, count);
    if outcome.is_err() {
        out.truncate(start);
    }
    outcome
}

/// Appends the characters at the positions that are kept. After a refusal some of them
/// may follow what `out` had.
fn append_kept(out: &mut Vec<u8>, s: &str, first: Num, count: Option<Num>) -> Result<(), AllocError>
    ensures ok { OnOk result
        (out.new.items
        ≡ out.old.items ++ encode_utf8_all (substring_of (chars s.now) first count)) }
    ensures kept { take (vec_len out.old) out.new.items ≡ out.old.items }
{
    let kept = kept_places(first, count, s.len());
    for character in s.chars().take(kept.end).skip(kept.start) {
        push_char(out, character)?;
    }
    Ok(())
}

/// The places, from 0, of the characters that are kept, of at most so many.
fn kept_places(first: Num, count: Option<Num>, most: usize) -> Range<usize>
    ensures { (characters : List ℕ) → length characters ≤ most
        → drop result.start (take result.end characters) ≡ substring_of characters first count }
{
    match first.get() {
        Number::Whole(first) => places_from(first, count, most),
        Number::NaN => 0..0,
    }
}

/// The same where the first position is a whole number.
fn places_from(first: i64, count: Option<Num>, most: usize) -> Range<usize>
    requires { IsInRange first }
    ensures { (characters : List ℕ) → length characters ≤ most
        → drop result.start (take result.end characters)
        ≡ substring_of characters (Number.Whole first) count }
{
    let start = places_below(first);
    match count {
        None => start..most,
        Some(count) => match count.get() {
            Number::Whole(count) => start..places_below(first + count),
            Number::NaN => 0..0,
        },
    }
}

/// How many positions there are below one, of which the first is 1.
fn places_below(position: i64) -> usize
    ensures { result ≡ places_below position }
{
    if position < 1 {
        0
    } else {
        (position - 1) as usize
    }
}
