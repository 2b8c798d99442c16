//! The number that a word writes.

ghost use Rattle.std.specs.Prelude.{◌≡◌, ◌≤◌, true, IfSome};
ghost use Rattle.std.specs.Char.{is_ascii_digit};
ghost use Rattle.std.specs.List.{list_all};
ghost use Rattle.xs_words.specs.Numbers.{is_number, number_up_to, up_to, value_from};

/// The number from 1 to `most` that a word writes.
#[tactic(auto, unfolding(crate::specs::Numbers::number_up_to))]
pub fn number_up_to(most: u64, word: &str) -> Option<u64>
    ensures number { result ≡ number_up_to most word.now }
    ensures within { IfSome result (λ n. n ≤ most) }
{
    if is_number(word) {
        up_to(most, number_in(word))
    } else {
        None
    }
}

/// Whether a word is 1 to 13 decimal digits.
fn is_number(word: &str) -> bool
    ensures { result ≡ is_number word.now }
{
    are_digits(word) && !word.is_empty() && word.len() <= 13
}

/// Whether each character is a decimal digit.
fn are_digits(word: &str) -> bool
    ensures { result ≡ list_all is_ascii_digit word.now }
{
    word.as_bytes().iter().all(|byte| byte.is_ascii_digit())
}

/// The number that digits write.
fn number_in(digits: &str) -> u64
    requires { is_number digits.now ≡ true }
    ensures { result ≡ value_from 0 digits.now }
{
    match digits.parse::<u64>() {
        Ok(number) => number,
        Err(_) => unreachable!(),
    }
}

/// A number, where it is from 1 to `most`.
fn up_to(most: u64, number: u64) -> Option<u64>
    ensures number { result ≡ up_to most number }
    ensures within { IfSome result (λ n. n ≤ most) }
{
    if 1 <= number && number <= most {
        Some(number)
    } else {
        None
    }
}
