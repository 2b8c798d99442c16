//! Characters replaced by others.

ghost use Rattle.std.specs.Prelude.{◌≡◌, [], ◌++◌, OnOk, OnErr, take, vec_len};
ghost use Rattle.std.specs.List.{cons_option, filter_map};
ghost use Rattle.std.specs.Char.{encode_utf8};
ghost use Rattle.std.specs.Str.{chars, encode_utf8_all, IsUtf8};
ghost use Rattle.xs_strings.specs.Replacements.{replaced_by};
ghost use Rattle.xs_strings.specs.Translation.{replacement, translated};

use crate::replacements::Replacements;
use std::alloc::AllocError;

/// How many bytes a text may have that is worked through in turn, without a table.
const SHORT: usize = 64;

/// Appends `s` with each character that `from` holds replaced by the character of `to` at the
/// place of its first occurrence in `from`, and removed where `to` has no such place
/// (XPath 1.0, 4.2). After a refusal `out` is as it was.
///
/// The time is linear in the sizes of all three: where both `s` and `from` are long, a table has
/// the characters of `from`.
pub fn translate(out: &mut Vec<u8>, s: &str, from: &str, to: &str) -> Result<(), AllocError>
    ensures ok { OnOk result
        (out.new.items ≡ out.old.items
        ++ encode_utf8_all (translated (chars s.now) (chars from.now) (chars to.now))) }
    ensures err { OnErr result (out.new.items ≡ out.old.items) }
    ensures utf8 { IsUtf8 out.old.items → IsUtf8 out.new.items }
{
    let start = out.len();
    let outcome = append_translated(out, s, from, to);
    if outcome.is_err() {
        out.truncate(start);
    }
    outcome
}

/// Appends `s` with its characters replaced. After a refusal some of them may follow
/// what `out` had.
fn append_translated(out: &mut Vec<u8>, s: &str, from: &str, to: &str) -> Result<(), AllocError>
    ensures ok { OnOk result
        (out.new.items ≡ out.old.items
        ++ encode_utf8_all (translated (chars s.now) (chars from.now) (chars to.now))) }
    ensures kept { take (vec_len out.old) out.new.items ≡ out.old.items }
{
    if is_short(s) {
        return append_in_turn(out, s, from, to);
    }
    if is_short(from) {
        return append_in_turn(out, s, from, to);
    }
    let table = Replacements::new(*out.allocator(), from, to)?;
    append_by_table(out, s, &table)
}

/// Whether a text is worked through in turn.
fn is_short(text: &str) -> bool {
    text.len() <= SHORT
}

/// The same, where the place of each character of `s` is looked for in `from`.
fn append_in_turn(out: &mut Vec<u8>, s: &str, from: &str, to: &str) -> Result<(), AllocError>
    ensures ok { OnOk result
        (out.new.items ≡ out.old.items
        ++ encode_utf8_all (translated (chars s.now) (chars from.now) (chars to.now))) }
    ensures kept { take (vec_len out.old) out.new.items ≡ out.old.items }
{
    for character in s.chars() {
        push_replacement(out, replacement(character, from, to))?;
    }
    Ok(())
}

/// The same by a table.
fn append_by_table(out: &mut Vec<u8>, s: &str, table: &Replacements) -> Result<(), AllocError>
    ensures ok { OnOk result
        (out.new.items ≡ out.old.items
        ++ encode_utf8_all (filter_map (replaced_by table.now) (chars s.now))) }
    ensures kept { take (vec_len out.old) out.new.items ≡ out.old.items }
{
    for character in s.chars() {
        push_replacement(out, table.replacement(character))?;
    }
    Ok(())
}

/// Appends what replaces a character, if anything does.
fn push_replacement(out: &mut Vec<u8>, replaced: Option<char>) -> Result<(), AllocError>
    ensures ok { OnOk result
        (out.new.items ≡ out.old.items ++ encode_utf8_all (cons_option replaced [])) }
    ensures err { OnErr result (out.new.items ≡ out.old.items) }
{
    match replaced {
        Some(character) => push_char(out, character),
        None => Ok(()),
    }
}

/// What replaces a character: itself where `from` does not hold it, else the character of `to` at
/// its first place there, if any.
fn replacement(character: char, from: &str, to: &str) -> Option<char>
    ensures { result ≡ replacement (chars from.now) (chars to.now) character }
{
    match from.chars().position(|other| other == character) {
        Some(place) => to.chars().nth(place),
        None => Some(character),
    }
}

/// Appends a character. After a refusal `out` is as it was.
pub fn push_char(out: &mut Vec<u8>, character: char) -> Result<(), AllocError>
    ensures ok { OnOk result (out.new.items ≡ out.old.items ++ encode_utf8 character) }
    ensures err { OnErr result (out.new.items ≡ out.old.items) }
    ensures utf8 { IsUtf8 out.old.items → IsUtf8 out.new.items }
{
    let mut bytes = [0; 4];
    out.extend_from_slice(character.encode_utf8(&mut bytes).as_bytes())
}
