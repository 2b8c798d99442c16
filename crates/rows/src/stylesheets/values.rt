//! Names, expressions, patterns and value templates, as texts.

use crate::answer::Answer;
use crate::expressions::shown::{show, show_all, show_parts};
use xs_sheet::scoped::{ScopedExpr, ScopedPattern, ValueTemplate};
use xs_trace::event::Label;

/// What is added as a text.
pub(crate) trait Shown {
    /// Adds it.
    fn put(&self, out: &Answer);
}

impl Shown for Label {
    /// Adds a name.
    fn put(&self, out: &Answer) {
        out.put_label(self);
    }
}

impl Shown for ScopedExpr {
    /// Adds an expression, in round brackets.
    fn put(&self, out: &Answer) {
        out.put_byte(b'(');
        show(out, self.expr.expr());
        out.put_byte(b')');
    }
}

impl Shown for ScopedPattern {
    /// Adds a pattern, in round brackets.
    fn put(&self, out: &Answer) {
        out.put_byte(b'(');
        show_all(out, " or ", self.pattern.alternatives());
        out.put_byte(b')');
    }
}

impl Shown for ValueTemplate {
    /// Adds a value template.
    fn put(&self, out: &Answer) {
        show_parts(out, self.parts.as_slice());
    }
}

/// Adds a value after a word, if it is there.
pub(crate) fn put_some<T: Shown>(out: &Answer, word: &str, value: &Option<T>) {
    if let Some(value) = value {
        out.put(word);
        value.put(out);
    }
}

/// Adds the attribute sets that are used.
pub(crate) fn put_sets(out: &Answer, names: &[Label]) {
    for name in names {
        out.put(" uses ");
        out.put_label(name);
    }
}
