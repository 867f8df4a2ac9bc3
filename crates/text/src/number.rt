// Decimal numerals: digits only, the most significant first, with zeros in front or without.
ghost use Rattle.std.specs.Prelude.{◌≡◌, true, ◌+◌, ◌-◌, ◌*◌};
ghost use Rattle.text.specs.Numbers.{digit, numeral_answer, in_width, NextNumber};

use crate::bytes::part;
use crate::word::next_word;

// Why a word is no number of 64 bits: it is a numeral of 2^64 or more, or no numeral.
#[derive(Clone, Copy, Debug, PartialEq, Eq)]
pub enum NumberError {
    Past,
    Unreadable,
}

// The whole of w as a numeral.
pub fn number_of(w: &[u8]) -> Result<u64, NumberError>
    ensures { result ≡ numeral_answer w.now }
{
    if w.is_empty() {
        return Err(NumberError::Unreadable);
    }
    if !w.iter().all(|b| is_digit(*b)) {
        return Err(NumberError::Unreadable);
    }
    let mut n = 0;
    for b in w {
        n = with_digit(n, *b)?;
    }
    Ok(n)
}

#[tactic(auto, unfolding(crate::specs::Numbers::digit))]
fn is_digit(b: u8) -> bool
    ensures { result ≡ digit b }
{
    b.is_ascii_digit()
}

// One more digit behind the number n.
fn with_digit(n: u64, b: u8) -> Result<u64, NumberError>
    requires { digit b ≡ true }
    ensures { result ≡ in_width (n * 10 + (b - 48)) }
{
    let tens = n.checked_mul(10).ok_or(NumberError::Past)?;
    let d = u64::from(b - 48);
    tens.checked_add(d).ok_or(NumberError::Past)
}

// A number, and the place behind it.
#[derive(Clone, Copy, Debug, PartialEq, Eq)]
pub struct Field {
    pub value: u64,
    pub next: usize,
}

// Why there is no number next: no word is left, or the word is no number below 2^64.
#[derive(Clone, Copy, Debug, PartialEq, Eq)]
pub enum FieldError {
    Missing,
    Bad,
}

impl From<NumberError> for FieldError {
    ghost use Rattle.std.specs.Prelude.{◌≡◌};
    ghost use Rattle.text.specs.declared.number.FieldError.TheVariants.{Bad};

    ghost from_gives = { λ _ e. e ≡ Bad };

    fn from(_error: NumberError) -> FieldError {
        FieldError::Bad
    }
}

// The next word at or after `from`, as a number.
pub fn next_number(s: &[u8], from: usize) -> Result<Field, FieldError>
    ensures { NextNumber s.now from result }
{
    let word = next_word(s, from).ok_or(FieldError::Missing)?;
    let value = number_of(part(s, word.start, word.end))?;
    Ok(Field {
        value,
        next: word.end,
    })
}
