// Lines: what line feeds end, in a slice and from a reader.
ghost use Rattle.std.specs.Prelude.{◌≡◌, ◌+◌, ◌≤◌, length, take, drop};
ghost use Rattle.text.specs.Bytes.{part};
ghost use Rattle.text.specs.Lines.{Refilled, Added, LineRead, Taken, nothing_read};

use crate::bytes::{Class, pass};
use crate::word::Word;
use std::io::Read;

// Moves the bytes from..to of buf to its front, if it has them, reads once behind them, and answers how far buf is filled.
pub fn refill<R: Read>(input: &mut R, buf: &mut [u8], from: usize, to: usize) -> usize
    ensures { Refilled buf.old from to buf.new result }
{
    if to < from {
        return read_at(input, buf, 0);
    }
    if buf.len() < to {
        return read_at(input, buf, 0);
    }
    let kept = to - from;
    move_to_front(buf, from, kept);
    read_at(input, buf, kept)
}

// Moves the n bytes of buf from `from` on to its front.
fn move_to_front(buf: &mut [u8], from: usize, n: usize)
    requires { from + n ≤ length buf.old }
    ensures { (length buf.new ≡ length buf.old) × (take n buf.new ≡ take n (drop from buf.old)) }
{
    buf.copy_within(from..from + n, 0);
}

// Reads once into buf from index `at` on, and answers how far buf is filled.
fn read_at<R: Read>(input: &mut R, buf: &mut [u8], at: usize) -> usize
    requires { at ≤ length buf.old }
    ensures { Added buf.old at buf.new result }
{
    match input.read(&mut buf[at..]) {
        Ok(more) => at + more,
        Err(_) => at,
    }
}

// What is read and not taken yet: the bytes from..to of the buffer. Nothing more is read once `ended` is set.
#[derive(Clone, Copy, Debug, PartialEq, Eq)]
pub struct Input {
    pub from: usize,
    pub to: usize,
    pub ended: bool,
}

// Nothing read: where reading starts.
pub fn unread() -> Input
    ensures { result ≡ nothing_read }
{
    Input {
        from: 0,
        to: 0,
        ended: false,
    }
}

// Takes the next line of what input gives, without its line feed: the bytes start..end of buf; None where nothing is left.
// A line that does not fit buf comes in pieces as long as buf; what follows the last line feed is a line, unless it is empty.
// A read that fails counts as the end of the input.
pub fn take_line<R: Read>(input: &mut R, buf: &mut [u8], at: &mut Input) -> Option<Word>
    ensures { Taken (part at.old.from at.old.to buf.old) buf.old at.old.ended buf.new result at.new }
{
    let end = read_line(input, buf, at);
    let start = at.from;
    if start == at.to {
        return None;
    }
    at.from = if end < at.to { end + 1 } else { end };
    Some(Word { start, end })
}

// Reads until what is pending has a line feed, or fills buf, or nothing more comes; answers where its first line ends.
fn read_line<R: Read>(input: &mut R, buf: &mut [u8], at: &mut Input) -> usize
    ensures { LineRead (part at.old.from at.old.to buf.old) buf.old at.old.ended buf.new result at.new }
{
    if at.to < at.from || buf.len() < at.to {
        at.from = 0;
        at.to = 0;
    }
    loop {
        let end = pass(Class::InLine, &buf[..at.to], at.from);
        let pending = at.to - at.from;
        if end < at.to || at.ended || buf.len() <= pending {
            return end;
        }
        at.to = refill(input, buf, at.from, at.to);
        at.from = 0;
        at.ended = at.to == pending;
    }
}

// The longest line that a program reads. One that fills the reading buffer may be cut there, so it is no command.
pub const LONGEST: usize = 65535;
