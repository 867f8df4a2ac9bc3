// The words of a line, one after another.
ghost use Rattle.std.specs.Prelude.{◌≡◌};
ghost use Rattle.text.specs.Words.{is_end, word_from};
ghost use Rattle.text.specs.Line.{TakesWord, TakesNumber};

use crate::bytes::part;
use crate::number::{FieldError, next_number};
use crate::word::{ended, next_word};

// A line, and the place in it behind which the next word is looked for.
#[derive(Clone, Copy, Debug)]
pub struct Words<'a> {
    pub line: &'a [u8],
    pub at: usize,
}

impl<'a> Words<'a> {
    ghost use Rattle.std.specs.Option.{option_copied};

    // All the words of the line.
    pub fn new(line: &'a [u8]) -> Words<'a>
        ensures line { result.line.now ≡ line.now }
        ensures at { result.at ≡ 0 }
    {
        Words { line, at: 0 }
    }

    // The bytes of the next word; what is left then stands behind it. Where no word is left, nothing changes.
    pub fn next_word(&mut self) -> Option<&'a [u8]>
        ensures { TakesWord self.old (option_copied result) self.new }
    {
        let word = next_word(self.line, self.at)?;
        self.at = word.end;
        Some(part(self.line, word.start, word.end))
    }

    // The next word as a number; what is left then stands behind it. Where that is none, nothing changes.
    pub fn next_number(&mut self) -> Result<u64, FieldError>
        ensures { TakesNumber self.old result self.new }
    {
        let field = next_number(self.line, self.at)?;
        self.at = field.next;
        Ok(field.value)
    }

    // Is no word left?
    pub fn is_over(&self) -> bool
        ensures { result ≡ is_end (word_from self.now.line.now self.now.at) }
    {
        ended(self.line, self.at)
    }
}
