//! Of several declarations of one name the one that counts: that of the highest import precedence,
//! and of several such the last (XSLT 1.0, 2.6.2, 7.1.1 and 11.4).

ghost use Rattle.std.specs.Prelude.{◌≡◌, ◌+◌, ◌&&◌, ℕ, List, option_map, filter, false, None, IfOk};
ghost use Rattle.std.specs.Prelude.{OnOk, if◌then◌else◌};
ghost use Rattle.std.specs.List.{All};
ghost use Rattle.std.specs.Option.{option_map_or};
ghost use Rattle.xs_compile.specs.Counted.{counted, global_number, is_global, named};
ghost use Rattle.xs_compile.specs.Counted.{template_number};
ghost use Rattle.xs_structure.specs.Order.{is_template_place, declarations, declares};
ghost use Rattle.xs_compile.specs.steps.Counting.{behind, counts_for, name_of, is_called};
ghost use Rattle.xs_compile.specs.steps.Counting.{numbered_as};
ghost use Rattle.xs_compile.specs.Tables.{kind_test, number_in, place_in};
ghost use Rattle.xs_structure.specs.Places.{IsIn};
ghost use Rattle.xs_elements.specs.Nodes.{is_named, is_same_name, name_data};
ghost use Rattle.xs_elements.specs.Tags.{is_template, is_variable};
ghost use Rattle.xs_modules.specs.Results.{modules_data};
ghost use Rattle.xs_structure.specs.Modules.{is_same_place};

use std::alloc::{AllocError, Global};
use std::collections::HashMap;
use xs_elements::scope::Expanded;
use xs_elements::tags::Tag;
use xs_modules::Modules;
use xs_structure::places::{Place, is_template, name_at, precedence_at, tag_at};
use xs_tree::{InputHashes, Node};

/// The declarations that count, by their names: the number of the module and the place there.
#[derive(Drop)]
pub(crate) struct Counted<'m> {
    /// Of each name the one that counts.
    pub(crate) places: HashMap<Expanded<'m>, (u32, u32), InputHashes>,
}

impl<'m> Counted<'m> {
    /// None, in a table with these hashes.
    pub(crate) fn new(alloc: Global, hashes: InputHashes) -> Counted<'m>
        ensures { (uri local : List ℕ) → place_in result uri local ≡ None }
    {
        Counted {
            places: HashMap::with_hasher(alloc, hashes),
        }
    }

    /// The hashes of the table.
    pub(crate) fn hashes(&self) -> InputHashes {
        *self.places.hasher()
    }

    /// Whether the declaration of a name that counts so far has a higher precedence.
    fn has_higher(&self, modules: &Modules, name: Expanded<'m>, number: u32) -> bool
        ensures { result ≡ option_map_or
            (λ other. behind (modules_data modules.now) other.0 «number»)
            (place_in self.now name.entry.0.now name.entry.1.now) false }
    {
        match self.places.get(&name) {
            Some(other) => precedence_at(modules, number) < precedence_at(modules, other.0),
            None => false,
        }
    }

    /// One more, behind all others.
    pub(crate) fn declare(
        &mut self,
        modules: &Modules,
        name: Expanded<'m>,
        number: u32,
        n: Node,
    ) -> Result<(), AllocError>
        ensures { OnOk result ((uri local : List ℕ) → place_in self.new uri local
            ≡ (if is_same_name (uri, local) (name_data name.entry)
            then counts_for (modules_data modules.now) (place_in self.old uri local) («number», n)
            else place_in self.old uri local)) }
    {
        if !self.has_higher(modules, name, number) {
            self.places.insert(name, (number, n.place()))?;
        }
        Ok(())
    }

    /// Whether a declaration is the one that counts for this name.
    pub(crate) fn is_counted(&self, name: &Expanded<'_>, number: u32, n: Node) -> bool
        ensures { result ≡ option_map_or (is_same_place («number», n))
            (place_in self.now name.now.0.now name.now.1.now) false }
    {
        match self.places.get(name) {
            Some(other) => number == other.0 && n.place() == other.1,
            None => false,
        }
    }
}

/// The kinds of declarations whose names are distinguished.
#[derive(Clone, Copy)]
pub(crate) enum Kind {
    /// Global variables and parameters (11.4).
    Global,
    /// Templates (6).
    Template,
}

/// Whether a declaration is of this kind.
fn is_of(kind: Kind, tag: Tag) -> bool
    ensures { result ≡ kind_test kind tag }
{
    match kind {
        Kind::Global => matches!(tag, Tag::Variable | Tag::Param),
        Kind::Template => matches!(tag, Tag::Template),
    }
}

/// The name of a declaration, if it is of this kind and has one.
fn name_of(modules: &Modules, kind: Kind, number: u32, n: Node) -> Option<Expanded<'_>>
    requires at { IsIn (modules_data modules.now) («number», n) }
    ensures { option_map name_data result ≡ name_of (modules_data modules.now) kind («number», n) }
{
    if is_of(kind, tag_at(modules, number, n)) {
        name_at(modules, number, n)
    } else {
        None
    }
}

/// Notes a declaration, if it is of this kind and has a name.
fn note<'m>(
    modules: &'m Modules,
    kind: Kind,
    number: u32,
    n: Node,
    found: &mut Counted<'m>,
) -> Result<(), AllocError>
    requires at { IsIn (modules_data modules.now) («number», n) }
    ensures { OnOk result ((uri local : List ℕ) → place_in found.new uri local
        ≡ (if declares (kind_test kind) (modules_data modules.now) (uri, local) («number», n)
        then counts_for (modules_data modules.now) (place_in found.old uri local) («number», n)
        else place_in found.old uri local)) }
{
    match name_of(modules, kind, number, n) {
        Some(name) => found.declare(modules, name, number, n),
        None => Ok(()),
    }
}

/// The declarations of a kind that count, each for another name, in a table with these hashes.
pub(crate) fn counted_of<'m>(
    alloc: Global,
    hashes: InputHashes,
    modules: &'m Modules,
    places: &[Place],
    kind: Kind,
) -> Result<Counted<'m>, AllocError>
    requires inside { All (IsIn (modules_data modules.now)) places.now }
    ensures { IfOk result (λ c. (uri local : List ℕ) → place_in c uri local
        ≡ counted (modules_data modules.now)
        (filter (declares (kind_test kind) (modules_data modules.now) (uri, local))
        places.now)) }
{
    let mut found = Counted::new(alloc, hashes);
    for place in places {
        note(modules, kind, place.0, place.1, &mut found)?;
    }
    Ok(found)
}

/// Whether a declaration is the global variable or parameter that counts for its name.
pub(crate) fn is_global(modules: &Modules, found: &Counted<'_>, number: u32, n: Node) -> bool
    requires at { IsIn (modules_data modules.now) («number», n) }
    requires globals { (uri local : List ℕ) → place_in found.now uri local
        ≡ counted (modules_data modules.now)
        (filter (declares is_variable (modules_data modules.now) (uri, local))
        (declarations (modules_data modules.now))) }
    ensures { result ≡ is_global (modules_data modules.now) («number», n) }
{
    match name_of(modules, Kind::Global, number, n) {
        Some(name) => found.is_counted(&name, number, n),
        None => false,
    }
}

/// The numbers of declarations, by their names.
#[derive(Drop)]
pub(crate) struct Numbers<'m> {
    /// Of each name its number.
    pub(crate) numbers: HashMap<Expanded<'m>, u32, InputHashes>,
}

impl<'m> Numbers<'m> {
    /// None, in a table with these hashes.
    fn new(alloc: Global, hashes: InputHashes) -> Numbers<'m>
        ensures { (uri local : List ℕ) → number_in result uri local ≡ None }
    {
        Numbers {
            numbers: HashMap::with_hasher(alloc, hashes),
        }
    }

    /// The number of a name.
    pub(crate) fn get(&self, uri: &str, local: &str) -> Option<u32>
        ensures { result ≡ number_in self.now uri.now local.now }
    {
        self.numbers.get(&(uri, local)).copied()
    }

    /// A name has a number, if there is one, and unless it has one already.
    fn enter_some(&mut self, name: Option<Expanded<'m>>, number: u32) -> Result<(), AllocError>
        ensures { OnOk result ((uri local : List ℕ) → number_in self.new uri local
            ≡ numbered_as (is_named (uri, local) (option_map name_data name.entry))
            (number_in self.old uri local) «number») }
    {
        match name {
            Some(name) => self.enter(name, number),
            None => Ok(()),
        }
    }

    /// A name has a number, unless it has one already.
    fn enter(&mut self, name: Expanded<'m>, number: u32) -> Result<(), AllocError>
        ensures { OnOk result ((uri local : List ℕ) → number_in self.new uri local
            ≡ numbered_as (is_same_name (uri, local) (name_data name.entry))
            (number_in self.old uri local) «number») }
    {
        if self.numbers.get(&name).is_none() {
            self.numbers.insert(name, number)?;
        }
        Ok(())
    }
}

/// Numbers a declaration, if it is a global variable or parameter that counts. Answers the next
/// number.
fn number_global<'m>(
    modules: &'m Modules,
    found: &Counted<'m>,
    number: u32,
    n: Node,
    next: u32,
    numbers: &mut Numbers<'m>,
) -> Result<u32, AllocError>
    requires at { IsIn (modules_data modules.now) («number», n) }
    requires globals { (uri local : List ℕ) → place_in found.now uri local
        ≡ counted (modules_data modules.now)
        (filter (declares is_variable (modules_data modules.now) (uri, local))
        (declarations (modules_data modules.now))) }
    ensures next { IfOk result (λ k. k
        ≡ (if is_global (modules_data modules.now) («number», n) then next + 1 else next)) }
    ensures numbers { OnOk result ((uri local : List ℕ) → number_in numbers.new uri local
        ≡ numbered_as (is_global (modules_data modules.now) («number», n)
        && declares is_variable (modules_data modules.now) (uri, local) («number», n))
        (number_in numbers.old uri local) next) }
{
    if !is_global(modules, found, number, n) {
        return Ok(next);
    }
    numbers.enter_some(name_at(modules, number, n), next)?;
    following(next)
}

/// The numbers of the globals that count, by their names.
pub(crate) fn global_numbers<'m>(
    alloc: Global,
    modules: &'m Modules,
    places: &[Place],
    found: &Counted<'m>,
) -> Result<Numbers<'m>, AllocError>
    requires inside { All (IsIn (modules_data modules.now)) places.now }
    requires all { places.now ≡ declarations (modules_data modules.now) }
    requires globals { (uri local : List ℕ) → place_in found.now uri local
        ≡ counted (modules_data modules.now)
        (filter (declares is_variable (modules_data modules.now) (uri, local))
        (declarations (modules_data modules.now))) }
    ensures { IfOk result (λ n. (uri local : List ℕ) → number_in n uri local
        ≡ global_number (modules_data modules.now) (uri, local)) }
{
    let mut numbers = Numbers::new(alloc, found.hashes());
    let mut next: u32 = 0;
    for place in places {
        next = number_global(modules, found, place.0, place.1, next, &mut numbers)?;
    }
    Ok(numbers)
}

/// Numbers a declaration, if it is a template. Answers the next number.
fn number_template<'m>(
    modules: &'m Modules,
    found: &Counted<'m>,
    number: u32,
    n: Node,
    next: u32,
    numbers: &mut Numbers<'m>,
) -> Result<u32, AllocError>
    requires at { IsIn (modules_data modules.now) («number», n) }
    requires templates { (uri local : List ℕ) → place_in found.now uri local
        ≡ counted (modules_data modules.now) (named is_template (modules_data modules.now)
        (uri, local)) }
    ensures next { IfOk result (λ k. k ≡ (if is_template_place (modules_data modules.now)
        («number», n) then next + 1 else next)) }
    ensures numbers { OnOk result ((uri local : List ℕ) → number_in numbers.new uri local
        ≡ numbered_as (is_template_place (modules_data modules.now) («number», n)
        && is_called (modules_data modules.now) (uri, local) («number», n))
        (number_in numbers.old uri local) next) }
{
    if !is_template(modules, number, n) {
        return Ok(next);
    }
    numbers.enter_some(called_name(modules, found, number, n), next)?;
    following(next)
}

/// The numbers of the templates that are called, by their names. Each template has a number, also
/// one without a name.
pub(crate) fn template_numbers<'m>(
    alloc: Global,
    hashes: InputHashes,
    modules: &'m Modules,
    places: &[Place],
) -> Result<Numbers<'m>, AllocError>
    requires inside { All (IsIn (modules_data modules.now)) places.now }
    requires all { places.now ≡ declarations (modules_data modules.now) }
    ensures { IfOk result (λ n. (uri local : List ℕ) → number_in n uri local
        ≡ template_number (modules_data modules.now) (uri, local)) }
{
    let found = counted_of(alloc, hashes, modules, places, Kind::Template)?;
    let mut numbers = Numbers::new(alloc, hashes);
    let mut next: u32 = 0;
    for place in places {
        next = number_template(modules, &found, place.0, place.1, next, &mut numbers)?;
    }
    Ok(numbers)
}

/// The name by which a template is called, if it is the one that counts for it.
fn called_name<'m>(
    modules: &'m Modules,
    found: &Counted<'_>,
    number: u32,
    n: Node,
) -> Option<Expanded<'m>>
    requires at { IsIn (modules_data modules.now) («number», n) }
    requires templates { (uri local : List ℕ) → place_in found.now uri local
        ≡ counted (modules_data modules.now) (named is_template (modules_data modules.now)
        (uri, local)) }
    ensures { (uri local : List ℕ) → is_named (uri, local) (option_map name_data result)
        ≡ is_called (modules_data modules.now) (uri, local) («number», n) }
{
    match name_of(modules, Kind::Template, number, n) {
        Some(name) => {
            if found.is_counted(&name, number, n) {
                Some(name)
            } else {
                None
            }
        }
        None => None,
    }
}

/// The number behind another one; past 2^32 there is no memory for what is numbered.
pub(crate) fn following(number: u32) -> Result<u32, AllocError>
    ensures { IfOk result (λ next. next ≡ «number» + 1) }
{
    match number.checked_add(1) {
        Some(next) => Ok(next),
        None => Err(AllocError),
    }
}
