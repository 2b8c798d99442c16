//! The first line of a text, found and searched for escapes in one pass.

ghost use Rattle.std.specs.Prelude.{◌≡◌, ◌<◌, ◌≤◌, drop, false, length, true};
ghost use Rattle.std.specs.Str.{IsCharBoundary};
ghost use Rattle.memchr.specs.Find.{IsFirstByte};
ghost use Rattle.xs_pyx.specs.Row.{behind_row, first_row, is_line_feed};
ghost use Rattle.xs_pyx.specs.Views.{has_backslash};

use memchr::{memchr, memchr2};

/// The first line of a text.
#[derive(Drop)]
pub(crate) struct TextRow<'a> {
    /// The line without its line feed.
    pub text: &'a str,
    /// Whether a line feed ends it.
    pub ended: bool,
    /// Whether it holds no backslash.
    pub is_plain: bool,
    /// How many bytes it takes, the line feed at its end among them.
    pub taken: usize,
}

/// Where the first line feed stands, and whether the first line holds no backslash.
fn find_end(bytes: &[u8]) -> (Option<usize>, bool)
    ensures end { IsFirstByte is_line_feed bytes.now result.0 }
    ensures plain { result.1 ≡ true → has_backslash (first_row bytes.now).bytes ≡ false }
    ensures escaped { result.1 ≡ false → has_backslash (first_row bytes.now).bytes ≡ true }
{
    match memchr2(b'\n', b'\\', bytes) {
        Some(place) => {
            if bytes[place] == b'\n' {
                (Some(place), true)
            } else {
                (memchr(b'\n', bytes), false)
            }
        }
        None => (None, true),
    }
}

/// The first line of a text.
pub(crate) fn split_text(text: &str) -> TextRow<'_>
    ensures first { record { bytes = result.text.now; ended = result.ended } ≡ first_row text.now }
    ensures plain { result.is_plain ≡ true → has_backslash result.text.now ≡ false }
    ensures escaped { result.is_plain ≡ false → has_backslash result.text.now ≡ true }
    ensures some { 0 < length text.now → 0 < result.taken }
    ensures within { result.taken ≤ length text.now }
    ensures taken { drop result.taken text.now ≡ behind_row text.now }
    ensures cut { IsCharBoundary text.now result.taken }
{
    let (end, is_plain) = find_end(text.as_bytes());
    match end {
        Some(end) => TextRow {
            text: &text[..end],
            ended: true,
            is_plain,
            taken: end + 1,
        },
        None => TextRow {
            text,
            ended: false,
            is_plain,
            taken: text.len(),
        },
    }
}
