//! Words with white space between them.

ghost use Rattle.std.specs.List.{position_or_len};
ghost use Rattle.std.specs.Prelude.{◌≡◌, ◌<◌, ◌≤◌, ◌∷◌, false, length, slice_index};
ghost use Rattle.std.specs.Prelude.{IfSome, MatchOption};
ghost use Rattle.xs_elements.specs.WhiteSpace.{words, words_with};
ghost use Rattle.xs_text.specs.WhiteSpace.{is_white_space};

use xs_text::is_space_byte;

/// The first word of a text, and what is behind it; none where there is white space alone.
pub fn first_word(text: &str) -> Option<(&str, &str)>
    ensures words { words text.now ≡ words_with result }
    ensures shorter { IfSome result (λ parts. length parts.1.now < length text.now) }
{
    let rest = without_space(text);
    if rest.is_empty() {
        return None;
    }
    Some(cut_word(rest))
}

/// A text without the white space that it begins with.
fn without_space(text: &str) -> &str
    ensures words { words result.now ≡ words text.now }
    ensures bare { is_white_space (slice_index result.now 0) ≡ false }
    ensures short { length result.now ≤ length text.now }
{
    let mut rest = text;
    while let Some(behind) = behind_space(rest) {
        rest = behind;
    }
    rest
}

/// What is behind the white space that a text begins with, one character of it; none where it
/// begins with something else or is empty.
fn behind_space(text: &str) -> Option<&str>
    ensures { MatchOption result (is_white_space (slice_index text.now 0) ≡ false) (λ behind.
        (words behind.now ≡ words text.now) × (length behind.now < length text.now)) }
{
    let first = *text.as_bytes().first()?;
    if is_space_byte(first) {
        Some(&text[1..])
    } else {
        None
    }
}

/// The word that a text begins with, and what is behind it.
fn cut_word(text: &str) -> (&str, &str)
    requires some { 0 < length text.now }
    requires bare { is_white_space (slice_index text.now 0) ≡ false }
    ensures words { words text.now ≡ result.0.now ∷ words result.1.now }
    ensures shorter { length result.1.now < length text.now }
{
    text.split_at(word_length(text.as_bytes()))
}

/// How many bytes stand before the first white space.
fn word_length(text: &[u8]) -> usize
    ensures { result ≡ position_or_len is_white_space text.now }
{
    let mut count = 0;
    for byte in text {
        if is_space_byte(*byte) {
            return count;
        }
        count += 1;
    }
    count
}
