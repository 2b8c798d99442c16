//! Reads a stylesheet's modules, depth first in the order of lines.

ghost use Rattle.std.specs.Prelude.{◌≡◌, ◌<◌, ◌≤◌, ◌+◌, [], ◌∷◌, length, map, IfOk};
ghost use Rattle.xs_modules.specs.Mentions.{named_by_words};
ghost use Rattle.xs_modules.specs.Numbering.{ranked, sheet_for};
ghost use Rattle.xs_modules.specs.Precedence.{no_imports, rank_of};
ghost use Rattle.xs_modules.specs.Reading.{IsAsked, is_above, most_modules};
ghost use Rattle.xs_modules.specs.ReadingLaws.{ReportsOnly};
ghost use Rattle.xs_modules.specs.Results.{AreModules, Comes, module_data, modules_data};
ghost use Rattle.xs_modules.specs.Sound.{IsSound};
ghost use Rattle.xs_modules.specs.steps.Reader.{Checks, ComesOr, Gains, GainsPart, HasNodes};
ghost use Rattle.xs_modules.specs.steps.Reader.{IsRefusal, mention_in, number_of, part_mention};
ghost use Rattle.xs_modules.specs.steps.Reader.{parts_of};
ghost use Rattle.xs_modules.specs.steps.Views.{imports_data, mention_data, part_data};
ghost use Rattle.xs_modules.specs.steps.Views.{rank_data, sheets_data};

use crate::document::{Unread, fetch_document};
use crate::mentions::{is_import, mention_elements, reference};
use crate::modules::{Module, Modules, ModulesEnd};
use crate::names::resolve;
use crate::precedence::{Imports, Rank, Sheet, rank_of};
use std::alloc::{AllocError, Global};
use xs_outside::Library;
use xs_text::TextBuf;
use xs_tree::{Node, Tree};

/// The most modules of a stylesheet.
const MOST_MODULES: usize = 256;

/// A module is mentioned on its own path of modules.
const CIRCULAR_MODULE: u8 = 30;

/// A module is mentioned where there are as many as there may be.
const TOO_MANY_MODULES: u8 = 31;

/// The modules of the stylesheet of this name.
///
/// They are read depth first in the order of lines, a module again at each mention. `Failed` has
/// the name that could not be read, and `Refused` the first trouble.
pub fn read_modules<L: Library>(
    alloc: Global,
    library: &mut L,
    name: &str,
) -> Result<Modules, ModulesEnd>
    ensures files { L.files library.new ≡ L.files library.old }
    ensures modules { Comes AreModules result (L.files library.old)
        [] 0 (named_by_words name.now ∷ [])
        (L.asked library.old) (L.asked library.new) (L.failed library.old) (L.failed library.new) }
    ensures sound { IfOk result (λ modules. IsSound (modules_data modules)) }

    // Where the library shows its files, these come to one end alone, and that is reported.
    ensures only { ReportsOnly result (L.files library.old) name.now }
{
    read_all(alloc, library, name)
}

// Reads them, with their precedences.
fn read_all<L: Library>(alloc: Global, library: &mut L, name: &str) -> Result<Modules, ModulesEnd>
    ensures files { L.files library.new ≡ L.files library.old }
    ensures modules { Comes AreModules result (L.files library.old)
        [] 0 (named_by_words name.now ∷ [])
        (L.asked library.old) (L.asked library.new) (L.failed library.old) (L.failed library.new) }
    ensures few { IfOk result (λ modules. length modules.list.items ≤ most_modules) }
{
    let mention = Mention::by_words(alloc, name)?;
    let mut reader = Reader::new(alloc);
    let mut imports = Imports::new(alloc);
    reader.read_mention(alloc, library, mention, 0, &mut imports)?;
    let sheets = imports.in_order()?;
    let list = reader.ranked(alloc, sheets.as_slice())?;
    Ok(Modules { list })
}

/// A module that is asked for: by an element of another one, or by the words.
#[derive(Drop)]
struct Mention {
    /// The name of the module that has the element.
    from: TextBuf,
    /// The line of the element.
    line: u32,
    /// The number of that module and the element, none for the words.
    element: Option<(u32, Node)>,
    /// Whether the element is an import; else it is an include.
    is_import: bool,
    /// The name that is asked for.
    name: TextBuf,
}

impl Mention {
    // The first module, which the words name.
    fn by_words(alloc: Global, name: &str) -> Result<Mention, AllocError>
        ensures { IfOk result (λ mention. mention_data mention ≡ named_by_words name.now) }
    {
        Ok(Mention {
            from: TextBuf::of(alloc, "")?,
            line: 0,
            element: None,
            is_import: true,
            name: TextBuf::of(alloc, name)?,
        })
    }
}

/// A module, before its precedence is known.
#[derive(Drop)]
struct Part {
    tree: Tree,
    lines: Vec<u32>,
    name: TextBuf,
    mention: Option<(u32, Node)>,
    /// The number of the stylesheet that it is a part of.
    sheet: u32,
}

impl Part {
    // The mention by an element of this module, whose number is `number`.
    fn mention_at(&self, alloc: Global, number: u32, n: Node) -> Result<Mention, AllocError>
        requires inside { n < length self.now.tree }
        requires each { length self.now.lines.items ≡ length self.now.tree }
        ensures { IfOk result (λ mention.
            mention_data mention ≡ part_mention number (part_data self.now) n) }
    {
        Ok(Mention {
            from: self.name.copy()?,
            line: self.lines[n.place() as usize],
            element: Some((number, n)),
            is_import: is_import(&self.tree, n),
            name: resolve(alloc, self.name.as_str(), reference(&self.tree, n))?,
        })
    }

    // The module, with the rank of its stylesheet.
    fn ranked(self, rank: Rank) -> Module
        ensures { module_data result ≡ ranked (λ _. rank_data rank) (part_data self) }
    {
        Module {
            tree: self.tree,
            lines: self.lines,
            name: self.name,
            precedence: rank.precedence,
            imports_from: rank.imports_from,
            mention: self.mention,
        }
    }
}

/// What was read so far.
#[derive(Drop)]
struct Reader {
    /// The modules, by their numbers.
    parts: Vec<Part>,
    /// The names of the modules from the first one down to the one that is being read.
    path: Vec<TextBuf>,
}

impl Reader {
    // A reader that has read nothing.
    fn new(alloc: Global) -> Reader
        ensures parts { result.parts.items ≡ [] }
        ensures path { result.path.items ≡ [] }
    {
        Reader {
            parts: Vec::new(alloc),
            path: Vec::new(alloc),
        }
    }

    // Reads the module that a mention names, in a part of the stylesheet of this number, and all
    // that it mentions itself.
    #[cycle(read)]
    fn read_mention<L: Library>(
        &mut self,
        alloc: Global,
        library: &mut L,
        mention: Mention,
        sheet: u32,
        imports: &mut Imports,
    ) -> Result<(), ModulesEnd>
        requires few { number_of self.old ≤ most_modules }
        ensures files { L.files library.new ≡ L.files library.old }
        ensures reads { Comes (λ _. Gains self.old self.new sheet
            (imports_data imports.old) (imports_data imports.new))
            result (L.files library.old) self.old.path.items (number_of self.old)
            (mention_data mention ∷ []) (L.asked library.old) (L.asked library.new)
            (L.failed library.old) (L.failed library.new) }
    {
        self.check(&mention)?;
        let number = self.parts.len() as u32;
        let is_import = mention.is_import;
        let sheet = sheet_for(is_import, number, sheet);
        let elements = self.read_part(alloc, library, mention, sheet)?;
        let within = self.read_elements(alloc, library, number, sheet, elements.as_slice())?;
        self.path.pop();
        imports.put(is_import, number, within)?;
        Ok(())
    }

    // Reads what these elements of the module of this number mention.
    #[cycle(read)]
    fn read_elements<L: Library>(
        &mut self,
        alloc: Global,
        library: &mut L,
        number: u32,
        sheet: u32,
        elements: &[Node],
    ) -> Result<Imports, ModulesEnd>
        requires few { number_of self.old ≤ most_modules }
        requires nodes { HasNodes self.old number elements.now }
        ensures files { L.files library.new ≡ L.files library.old }
        ensures reads { Comes (λ imports. Gains self.old self.new sheet
            no_imports (imports_data imports))
            result (L.files library.old) self.old.path.items (number_of self.old)
            (map (mention_in self.old number) elements.now)
            (L.asked library.old) (L.asked library.new)
            (L.failed library.old) (L.failed library.new) }
    {
        let mut imports = Imports::new(alloc);
        for element in elements {
            let mention = self.mention_at(alloc, number, *element)?;
            self.read_mention(alloc, library, mention, sheet, &mut imports)?;
        }
        Ok(imports)
    }

    // Reads one module, and answers its elements that mention others.
    fn read_part<L: Library>(
        &mut self,
        alloc: Global,
        library: &mut L,
        mention: Mention,
        sheet: u32,
    ) -> Result<Vec<Node>, ModulesEnd>
        requires asked { IsAsked self.old.path.items (number_of self.old) (mention_data mention) }
        ensures files { L.files library.new ≡ L.files library.old }
        ensures reads { ComesOr (λ elements. GainsPart (L.files library.old) self.old self.new
            (mention_data mention) sheet elements.items
            (L.asked library.old) (L.asked library.new)
            (L.failed library.old) (L.failed library.new))
            result (L.files library.old) self.old.path.items (number_of self.old)
            (mention_data mention ∷ []) (L.asked library.old) (L.asked library.new)
            (L.failed library.old) (L.failed library.new) }
    {
        let Mention { element, name, .. } = mention;
        let built = match fetch_document(alloc, library, name.as_str()) {
            Ok(built) => built,
            Err(Unread::Failed) => return Err(ModulesEnd::Failed { name }),
            Err(Unread::Bad { number, line }) => {
                return Err(ModulesEnd::Refused {
                    number,
                    module: name,
                    line,
                });
            }
            Err(Unread::NoMemory) => return Err(ModulesEnd::NoMemory),
        };
        let elements = mention_elements(alloc, &built.tree)?;
        self.path.push(name.copy()?)?;
        self.parts.push(Part {
            tree: built.tree,
            lines: built.lines,
            name,
            mention: element,
            sheet,
        })?;
        Ok(elements)
    }

    // Refuses a name on its own path, and one module more than there may be.
    fn check(&self, mention: &Mention) -> Result<(), ModulesEnd>
        requires { number_of self.now ≤ most_modules }
        ensures { Checks result self.now.path.items (number_of self.now)
            (mention_data mention.now) }
    {
        if self.is_above(mention.name.as_str()) {
            refuse(CIRCULAR_MODULE, mention)
        } else if self.parts.len() == MOST_MODULES {
            refuse(TOO_MANY_MODULES, mention)
        } else {
            Ok(())
        }
    }

    // Whether a name is that of a module on the path.
    fn is_above(&self, name: &str) -> bool
        ensures { result ≡ is_above self.now.path.items name.now }
    {
        self.path.iter().any(|above| above.as_str() == name)
    }

    // The mention by an element of the module of this number.
    fn mention_at(&self, alloc: Global, number: u32, n: Node) -> Result<Mention, AllocError>
        requires { HasNodes self.now number (n ∷ []) }
        ensures { IfOk result (λ mention. mention_data mention ≡ mention_in self.now number n) }
    {
        self.parts[number as usize].mention_at(alloc, number, n)
    }

    // The modules, each with the rank of its stylesheet.
    fn ranked(self, alloc: Global, sheets: &[Sheet]) -> Result<Vec<Module>, AllocError>
        requires { length sheets.now ≤ most_modules }
        ensures { IfOk result (λ list. map module_data list.items
            ≡ map (ranked (rank_of (sheets_data sheets.now))) (parts_of self)) }
    {
        let mut list = Vec::new(alloc);
        for part in self.parts {
            let rank = rank_of(sheets, part.sheet);
            list.push(part.ranked(rank))?;
        }
        Ok(list)
    }
}

// The number of the stylesheet that a module is a part of: an imported one is one of its own, an
// included one is part of the including one's.
fn sheet_for(is_import: bool, number: u32, sheet: u32) -> u32
    ensures { result ≡ sheet_for is_import number sheet }
{
    if is_import { number } else { sheet }
}

// A mention is refused, at its line.
fn refuse(number: u8, mention: &Mention) -> Result<(), ModulesEnd>
    ensures { IsRefusal result number (mention_data mention.now) }
{
    Err(ModulesEnd::Refused {
        number,
        module: mention.from.copy()?,
        line: mention.line,
    })
}
