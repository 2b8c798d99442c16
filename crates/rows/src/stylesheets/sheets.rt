//! Declarations of compiled stylesheets, as texts.

use crate::answer::Answer;
use crate::stylesheets::bodies::{put_binding, put_body, put_instr, put_mode};
use crate::stylesheets::values::{Shown, put_sets, put_some};
use xs_sheet::declarations::{
    Alias, AttrSet, Global, KeyDecl, Method, NameTest, StripRule, Template,
};
use xs_sheet::sheet::Sheet;
use xs_trace::item::Site;

/// Begins a declaration: what it is.
fn put_word(out: &Answer, word: &str) {
    out.put_between("; ");
    out.put(word);
}

/// Begins a declaration: what it is, and its module and line.
fn put_site(out: &Answer, word: &str, site: Site) {
    put_word(out, word);
    out.put_pair(site.module, b'.', site.line);
    out.put_byte(b' ');
}

impl Shown for Template {
    /// Adds a template: its module and line, its precedences, its pattern, name, priority and mode,
    /// its parameters, its body.
    fn put(&self, out: &Answer) {
        put_site(out, "T ", self.site);
        out.put_pair(self.imports_from, b'-', self.precedence);
        put_some(out, " match", &self.pattern);
        put_some(out, " name ", &self.name);
        if let Some(priority) = self.priority {
            out.put(" priority ");
            out.put_if(priority < 0, "-");
            out.put_whole(priority.unsigned_abs());
        }
        put_mode(out, self.mode);
        for param in self.params.as_slice() {
            out.put_byte(b' ');
            put_binding(out, param);
        }
        put_body(out, &self.body);
    }
}

impl Shown for Global {
    /// Adds a global variable or parameter.
    fn put(&self, out: &Answer) {
        put_site(out, "G ", self.binding.site);
        if self.param {
            out.put("param ");
        }
        put_binding(out, &self.binding);
    }
}

impl Shown for KeyDecl {
    /// Adds a key.
    fn put(&self, out: &Answer) {
        put_site(out, "K ", self.site);
        out.put_label(&self.name);
        self.pattern.put(out);
        self.value.put(out);
    }
}

impl Shown for AttrSet {
    /// Adds a declaration of an attribute set.
    fn put(&self, out: &Answer) {
        put_site(out, "S ", self.site);
        out.put_whole(self.precedence as u64);
        out.put_byte(b' ');
        out.put_label(&self.name);
        put_sets(out, self.sets.as_slice());
        for attribute in self.attributes.as_slice() {
            put_instr(out, attribute);
        }
    }
}

impl Shown for StripRule {
    /// Adds a rule for white space.
    fn put(&self, out: &Answer) {
        put_word(out, if self.strip { "W strip " } else { "W keep " });
        match &self.test {
            NameTest::Any => out.put_byte(b'*'),
            NameTest::Uri(uri) => out.put_name(uri.as_str(), "", "*"),
            NameTest::Name(name) => out.put_label(name),
        }
        out.put_byte(b' ');
        out.put_whole(self.precedence as u64);
    }
}

impl Shown for Alias {
    /// Adds an alias: both URIs.
    fn put(&self, out: &Answer) {
        put_word(out, "A ");
        out.put_ended(self.from_uri.as_str(), b'=');
        out.put(self.to_uri.as_str());
    }
}

/// Adds declarations.
fn put_all<T: Shown>(out: &Answer, declarations: &[T]) {
    for declaration in declarations {
        declaration.put(out);
    }
}

/// Adds all of a stylesheet.
pub(crate) fn put_sheet(out: &Answer, sheet: &Sheet) {
    put_all(out, sheet.templates.as_slice());
    put_all(out, sheet.globals.as_slice());
    put_all(out, sheet.keys.as_slice());
    put_all(out, sheet.sets.as_slice());
    put_all(out, sheet.strips.as_slice());
    put_all(out, sheet.aliases.as_slice());
    if sheet.method == Method::Text {
        put_word(out, "text");
    }
}
