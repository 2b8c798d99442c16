//! What replaces each character of an alphabet, as a table.

ghost use Rattle.std.specs.Prelude.{◌≡◌, ℕ, ◌==◌, nat_eq, IfOk, Some, None, if◌then◌else◌};
ghost use Rattle.std.specs.HashMap.{get};
ghost use Rattle.std.specs.List.{position};
ghost use Rattle.std.specs.Str.{chars};
ghost use Rattle.xs_strings.specs.Replacements.{IsPlaceAdded, replaced_by};
ghost use Rattle.xs_strings.specs.Translation.{replacement};

use std::alloc::{AllocError, Global};
use std::collections::HashMap;

/// What replaces each character of an alphabet: its first place there, and the characters at these
/// places.
#[derive(Drop)]
pub(crate) struct Replacements {
    places: HashMap<char, usize>,
    partners: Vec<char>,
}

impl Replacements {
    /// Of the characters of `from` by those of `to`, in time linear in both.
    pub(crate) fn new(alloc: Global, from: &str, to: &str) -> Result<Replacements, AllocError>
        ensures { IfOk result (λ table. (c : ℕ)
            → replaced_by table c ≡ replacement (chars from.now) (chars to.now) c) }
    {
        let partners = letters(alloc, to)?;
        let alphabet = letters(alloc, from)?;
        let places = first_places(alloc, alphabet.as_slice())?;
        Ok(Replacements { places, partners })
    }

    /// What replaces a character: itself where the alphabet does not hold it.
    pub(crate) fn replacement(&self, character: char) -> Option<char>
        ensures { result ≡ replaced_by self.now character }
    {
        match self.places.get(&character) {
            Some(place) => self.partners.get(*place).copied(),
            None => Some(character),
        }
    }
}

/// The characters of a text.
fn letters(alloc: Global, text: &str) -> Result<Vec<char>, AllocError>
    ensures { IfOk result (λ letters. letters.items ≡ chars text.now) }
{
    text.chars().collect(alloc)
}

/// The first place of each character.
fn first_places(alloc: Global, alphabet: &[char]) -> Result<HashMap<char, usize>, AllocError>
    ensures { IfOk result (λ places. (c : ℕ)
        → get nat_eq places c ≡ position (λ d. d == c) alphabet.now) }
{
    let mut places = HashMap::new(alloc);
    for place in 0..alphabet.len() {
        add_place(&mut places, alphabet[place], place)?;
    }
    Ok(places)
}

/// Gives a character a place where it has none.
fn add_place(
    places: &mut HashMap<char, usize>,
    character: char,
    place: usize,
) -> Result<(), AllocError>
    ensures { IfOk result (λ _. IsPlaceAdded places.old places.new character place) }
{
    if (&*places).contains_key(&character) {
        return Ok(());
    }
    places.insert(character, place)?;
    Ok(())
}
