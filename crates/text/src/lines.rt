// The lines of an input, one after another.
ghost use Rattle.std.specs.Prelude.{◌≡◌};
ghost use Rattle.std.specs.Borrow.{sem};

use crate::bytes::part;
use crate::line::{Input, take_line, unread};
use crate::word::Word;
use std::io::Read;

// The lines of what input gives, with the buffer that the program lends; `at` is what the buffer holds and no line has taken.
#[derive(Drop)]
pub struct Lines<'a, R> {
    pub input: &'a mut R,
    pub buf: &'a mut [u8],
    pub at: Input,
}

impl<'a, R: Read> Lines<'a, R> {
    ghost use Rattle.text.specs.Bytes.{part as bytes_part};
    ghost use Rattle.text.specs.Lines.{nothing_read};
    ghost use Rattle.text.specs.Reader.{TakesPlace, EndsAs};

    // Nothing is read yet.
    pub fn new(input: &'a mut R, buf: &'a mut [u8]) -> Lines<'a, R>
        ensures input { result.input.ghost_name ≡ input.entry.ghost_name }
        ensures buf { result.buf.ghost_name ≡ buf.entry.ghost_name }
        ensures bytes { result.buf.now ≡ buf.old }
        ensures at { result.at ≡ nothing_read }
    {
        Lines {
            input,
            buf,
            at: unread(),
        }
    }

    // Takes the next line: its places in the buffer.
    fn advance(&mut self) -> Option<Word>
        ensures { TakesPlace self.old result self.new }
    {
        take_line(self.input, self.buf, &mut self.at)
    }

    // The bytes of the buffer in these places.
    fn bytes(&self, place: Word) -> &[u8]
        ensures { result.now ≡ bytes_part place.start place.end self.now.buf.now }
    {
        part(self.buf, place.start, place.end)
    }

    // Takes the next line, without its line feed; None where nothing is left. A line that does not fit the buffer comes in pieces
    // as long as the buffer; what follows the last line feed is a line, unless it is empty. A read that fails counts as the end.
    pub fn next_line(&mut self) -> Option<&[u8]>
        ensures* ends { sem 𝓛 (EndsAs R.row self.entry result) }
    {
        let place = self.advance()?;
        Some(self.bytes(place))
    }
}
