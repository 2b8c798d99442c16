//! The fields of a row. A field that is missing is empty, and a number 0.

use crate::answer::Answer;

/// What is before the first of these texts, and what is after it; where there is none, all is
/// before it.
pub(crate) fn cut<'t>(text: &'t str, between: &str) -> (&'t str, &'t str) {
    text.split_once(between).unwrap_or((text, ""))
}

/// The same; where there is none, all is after it.
pub(crate) fn cut_prefix<'t>(text: &'t str, between: &str) -> (&'t str, &'t str) {
    text.split_once(between).unwrap_or(("", text))
}

/// Adds the input of a row, which is before its arrow, and the arrow.
pub(crate) fn put_input<'t>(out: &Answer, line: &'t str) -> &'t str {
    let (input, _) = cut(line, " ==>");
    out.put_both(input, " ==> ");
    input
}

/// The number that a text is.
pub(crate) fn whole(text: &str) -> u32 {
    text.parse::<u32>().unwrap_or(0)
}

/// Whether a line of a row file is empty or a comment.
pub(crate) fn is_comment(line: &str) -> bool {
    line.is_empty() || line.starts_with('#')
}
