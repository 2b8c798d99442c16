//! A stylesheet, with all modules that it includes and imports.

use crate::declarations::{Alias, AttrSet, Global, KeyDecl, Method, StripRule, Template};
use crate::items::Items;
use xs_text::TextBuf;

/// A compiled stylesheet.
///
/// The lists `templates`, `sets` and `strips` are in the order of the stylesheet, the content of an
/// included module standing in the place of the element that includes it.
#[derive(Drop)]
pub struct Sheet {
    pub templates: Items<Template>,
    pub globals: Items<Global>,
    pub keys: Items<KeyDecl>,
    pub sets: Items<AttrSet>,
    pub strips: Items<StripRule>,
    pub aliases: Items<Alias>,
    pub method: Method,
    /// The names of the modules, by their numbers.
    pub modules: Items<TextBuf>,
    /// The line of the first module's element.
    pub root_line: u32,
}
