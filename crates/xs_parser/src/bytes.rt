//! Bytes at the front of a text.
ghost use Rattle.std.specs.Prelude.{◌≡◌, ◌≤◌, ◌<◌, ◌==◌, ◌&&◌, ◌||◌, length, take, drop};
ghost use Rattle.std.specs.Prelude.{option_map};
ghost use Rattle.std.specs.List.{prefix_len};
ghost use Rattle.xs_xpath.specs.Digits.{is_digit};
ghost use Rattle.xs_parser.specs.Lexing.{IsCut, colons_at, first, is_quote, is_space};
ghost use Rattle.xs_parser.specs.Lexing.{kind, local_at, passes, quoted, quoted_in, second};
ghost use Rattle.xs_parser.specs.Lexing.{star_at, starts_name, strip};

/// The bytes that a run is made of.
#[derive(Clone, Copy)]
pub enum Class {
    /// White space.
    Space,
    /// Digits.
    Digit,
    /// Bytes with which a name may go on.
    NameByte,
    /// Bytes other than this one, a quote.
    Until(u8),
}

/// Which token begins at bytes.
#[derive(Clone, Copy)]
pub enum Kind {
    AName,
    ANumber,
    ALiteral,
    AVariable,
    ASign,
}

/// Whether a byte is white space.
pub fn is_space(b: u8) -> bool
    ensures space { result ≡ is_space b }
{
    b == b' ' || b == b'\t' || b == b'\n' || b == b'\r'
}

/// Whether a byte is a digit.
fn is_digit(b: u8) -> bool
    ensures digit { result ≡ is_digit b }
{
    b'0' <= b && b <= b'9'
}

/// Whether a name may begin with a byte.
fn starts_name(b: u8) -> bool
    ensures starts { result ≡ starts_name b }
{
    (b'A' <= b && b <= b'Z') || (b'a' <= b && b <= b'z') || b == b'_' || 128 <= b
}

/// Whether a byte is a quote.
pub fn is_quote(b: u8) -> bool
    ensures quote { result ≡ is_quote b }
{
    b == b'"' || b == b'\''
}

/// Whether a byte is of a class.
fn passes(class: Class, b: u8) -> bool
    ensures passes { result ≡ passes class b }
{
    match class {
        Class::Space => is_space(b),
        Class::Digit => is_digit(b),
        Class::NameByte => starts_name(b) || is_digit(b) || b == b'-' || b == b'.',
        Class::Until(quote) => b != quote,
    }
}

/// How long the run of a class at the front is.
fn run_len(bytes: &[u8], class: Class) -> usize
    ensures len { result ≡ prefix_len (passes class) bytes.now }
    ensures within { result ≤ length bytes.now }
{
    let mut rest = bytes;
    let mut n = 0;
    while let Some((b, behind)) = rest.split_first() {
        if !passes(class, *b) {
            return n;
        }
        rest = behind;
        n += 1;
    }
    n
}

/// The first byte; 0 where there is none.
#[tactic(auto, using(crate::proofs::RunLemmas::first_none))]
fn first_byte(bytes: &[u8]) -> u8
    ensures first { result ≡ first bytes.now }
{
    match bytes.split_first() {
        Some((b, _)) => *b,
        None => 0,
    }
}

/// The first byte of a text; 0 where there is none.
pub fn first(text: &str) -> u8
    ensures first { result ≡ first text.now }
{
    first_byte(text.as_bytes())
}

/// What is after the first byte, which is ASCII.
pub fn skip_one(text: &str) -> &str
    requires some { 0 < first text.now }
    requires ascii { first text.now < 128 }
    ensures rest { result.now ≡ drop 1 text.now }
{
    text.split_at(1).1
}

/// The second byte; 0 where there is none.
#[tactic(auto, using(crate::proofs::RunLemmas::second_none))]
fn second_byte(bytes: &[u8]) -> u8
    ensures second { result ≡ second bytes.now }
{
    match bytes.split_first() {
        Some((_, behind)) => first_byte(behind),
        None => 0,
    }
}

/// The second byte of a text; 0 where there is none.
pub fn second(text: &str) -> u8
    ensures second { result ≡ second text.now }
{
    second_byte(text.as_bytes())
}

/// The longest run of a class at the front, and what is after it.
pub fn split_run(text: &str, class: Class) -> (&str, &str)
    requires cut { IsCut class }
    ensures run { result.0.now ≡ take (prefix_len (passes class) text.now) text.now }
    ensures behind { result.1.now ≡ drop (prefix_len (passes class) text.now) text.now }
{
    text.split_at(run_len(text.as_bytes(), class))
}

/// What is after an ASCII byte, where the text begins with it.
pub fn strip(text: &str, b: u8) -> Option<&str>
    requires some { 0 < b }
    requires ascii { b < 128 }
    ensures rest { option_map (λ rest. rest.now) result ≡ strip b text.now }
{
    if first(text) == b {
        Some(skip_one(text))
    } else {
        None
    }
}

/// What is after a colon, where a name begins there.
pub fn local_at(text: &str) -> Option<&str>
    ensures rest { option_map (λ rest. rest.now) result ≡ local_at text.now }
{
    if first(text) == b':' {
        if starts_name(second(text)) {
            return Some(skip_one(text));
        }
    }
    None
}

/// What is after two colons.
pub fn colons_at(text: &str) -> Option<&str>
    ensures rest { option_map (λ rest. rest.now) result ≡ colons_at text.now }
{
    if first(text) == b':' {
        if second(text) == b':' {
            return Some(skip_one(skip_one(text)));
        }
    }
    None
}

/// What is after a colon and a star.
pub fn star_at(text: &str) -> Option<&str>
    ensures rest { option_map (λ rest. rest.now) result ≡ star_at text.now }
{
    if first(text) == b':' {
        if second(text) == b'*' {
            return Some(skip_one(skip_one(text)));
        }
    }
    None
}

/// Whether a number begins with these two bytes.
fn begins_number(b: u8, c: u8) -> bool
    ensures number { result ≡ (is_digit b || (b == 46 && is_digit c)) }
{
    is_digit(b) || (b == b'.' && is_digit(c))
}

/// Which token begins at the front. A point before a digit begins a number.
pub fn kind_at(text: &str) -> Kind
    ensures kind { result ≡ kind text.now }
{
    let b = first(text);
    if starts_name(b) {
        return Kind::AName;
    }
    if begins_number(b, second(text)) {
        return Kind::ANumber;
    }
    if is_quote(b) {
        return Kind::ALiteral;
    }
    if b == b'$' {
        return Kind::AVariable;
    }
    Kind::ASign
}

/// A literal's text from after its first quote on, and what is after its second.
fn quoted_in(text: &str, quote: u8) -> Option<(&str, &str)>
    requires some { 0 < quote }
    requires ascii { quote < 128 }
    ensures parts { option_map (λ q. (q.0.now, q.1.now)) result ≡ quoted_in quote text.now }
{
    let (inside, behind) = split_run(text, Class::Until(quote));
    match strip(behind, quote) {
        None => None,
        Some(rest) => Some((inside, rest)),
    }
}

/// A literal's text, and what is after its second quote.
pub fn quoted(text: &str) -> Option<(&str, &str)>
    ensures parts { option_map (λ q. (q.0.now, q.1.now)) result ≡ quoted text.now }
{
    let quote = first(text);
    if is_quote(quote) {
        quoted_in(skip_one(text), quote)
    } else {
        None
    }
}
