//! White space normalized.

ghost use Rattle.std.specs.Prelude.{◌≡◌, ◌∷◌, ◌++◌, if◌then◌else◌, OnOk, OnErr, take, vec_len};
ghost use Rattle.std.specs.Str.{chars, encode_utf8_all, IsUtf8};
ghost use Rattle.xs_strings.specs.Normalization.{normalized};

use std::alloc::AllocError;
use xs_text::is_space_byte;

/// Appends `s` without white space at its ends, and with one space for each white space within
/// (XPath 1.0, 4.2). After a refusal `out` is as it was.
pub fn normalize_space(out: &mut Vec<u8>, s: &str) -> Result<(), AllocError>
    ensures ok { OnOk result
        (out.new.items ≡ out.old.items ++ encode_utf8_all (normalized (chars s.now))) }
    ensures err { OnErr result (out.new.items ≡ out.old.items) }
    ensures utf8 { IsUtf8 out.old.items → IsUtf8 out.new.items }
{
    let start = out.len();
    let outcome = append_words(out, s);
    if outcome.is_err() {
        out.truncate(start);
    }
    outcome
}

/// Appends the words of `s` with a space between each two. After a refusal some of
/// them may follow what `out` had.
fn append_words(out: &mut Vec<u8>, s: &str) -> Result<(), AllocError>
    ensures ok { OnOk result
        (out.new.items ≡ out.old.items ++ encode_utf8_all (normalized (chars s.now))) }
    ensures kept { take (vec_len out.old) out.new.items ≡ out.old.items }
{
    let mut is_first = true;
    for word in s
        .as_bytes()
        .split(|byte| is_space_byte(*byte))
        .filter(|word| !word.is_empty())
    {
        push_word(out, word, is_first)?;
        is_first = false;
    }
    Ok(())
}

/// Appends a word, after a space unless it is the first one.
fn push_word(out: &mut Vec<u8>, word: &[u8], is_first: bool) -> Result<(), AllocError>
    ensures ok { OnOk result
        (out.new.items ≡ out.old.items ++ (if is_first then word.now else 32 ∷ word.now)) }
    ensures kept { take (vec_len out.old) out.new.items ≡ out.old.items }
{
    if !is_first {
        out.push(b' ')?;
    }
    out.extend_from_slice(word)
}
