// Words: what stands between blanks (space, tab, carriage return).
ghost use Rattle.std.specs.Prelude.{◌≡◌};
ghost use Rattle.text.specs.Words.{NextWord, is_end, same, word_from};

use crate::bytes::{Class, pass};

// A word is the bytes start..end.
#[derive(Clone, Copy, Debug, PartialEq, Eq)]
pub struct Word {
    pub start: usize,
    pub end: usize,
}

// The next word at or after `from`: None where only blanks are left, or `from` is past the end.
pub fn next_word(s: &[u8], from: usize) -> Option<Word>
    ensures { NextWord s.now from result }
{
    let start = pass(Class::Blank, s, from);
    if s.len() <= start {
        return None;
    }
    let end = pass(Class::Ink, s, start);
    Some(Word { start, end })
}

// Is there no word at or after `from`?
pub fn ended(s: &[u8], from: usize) -> bool
    ensures { result ≡ is_end (word_from s.now from) }
{
    next_word(s, from).is_none()
}

// Has w just the bytes of name?
pub fn is_word(w: &[u8], name: &[u8]) -> bool
    ensures { result ≡ same w.now name.now }
{
    w == name
}
