// The answer to a line `L E B W`: a line for each packet of one transfer sent once, or `refused`.
//
// No packet is kept. The text of its line goes into a buffer, which is written whenever the next line may not fit.
#![tactic(auto)]

mod drain;

ghost use Rattle.std.specs.Prelude.{◌≡◌, not, ◌+◌, ◌≤◌, length};
ghost use Rattle.sender.specs.EncoderCalls.{ValidEncoder};
ghost use Rattle.text.specs.Put.{Appended};
ghost use Rattle.drain_program.specs.DrainCalls.{drain_refuses};
ghost use Rattle.drain_program.specs.Lines.{field, line_text, most_field, most_line};

use crate::drain::Line;
pub use drain::Transfer;
use sender::blockencoder::BlockEncoder;
use std::io::Write;
use text::Words;

// Writes the answer to one line.
pub fn answer<W: Write>(to: &mut W, line: &[u8]) {
    match read_transfer(line) {
        Some(t) => {
            write_lines(to, t);
        }
        None => refuse(to),
    }
}

// Writes the lines of a transfer with these numbers and answers true; or writes `refused`, where they are not
// admitted, and answers false.
pub fn write_lines<W: Write>(to: &mut W, t: Transfer) -> bool
    ensures { result ≡ not (drain_refuses t.l t.e t.b t.w) }
{
    let Some(encoder) = drain::begin(t) else {
        refuse(to);
        return false;
    };
    send(to, encoder);
    true
}

fn refuse<W: Write>(to: &mut W) {
    text::write_all(to, b"refused\n");
}

// The four numbers of a line, if it has these and nothing else.
fn read_transfer(line: &[u8]) -> Option<Transfer> {
    if text::LONGEST < line.len() {
        return None;
    }
    let mut words = Words::new(line);
    let l = words.next_number().ok()?;
    let e = words.next_number().ok()?;
    let b = words.next_number().ok()?;
    let w = words.next_number().ok()?;
    words.is_over().then_some(Transfer { l, e, b, w })
}

// Writes the lines of a transfer. The turns are counted, to a number that no run uses up, since a proved loop
// has to end.
fn send<W: Write>(to: &mut W, x: BlockEncoder)
    requires { ValidEncoder x }
{
    let mut space = [0u8; 65536];
    let out: &mut [u8] = &mut space;
    let mut used = 0;
    let mut encoder = x;
    for _ in 0..u64::MAX {
        let Some(line) = drain::turn(&mut encoder) else {
            break;
        };
        used = make_room(to, out, used);
        used = put_line(out, used, line);
    }
    text::write_all(to, text::part(out, 0, used));
}

// How long a line's text can be: six numbers of at most 20 digits, each with a byte behind it.
const MOST_LINE: usize = 126;

// Writes the first `used` bytes of out if another line may not fit behind them, and answers how many are still in use.
fn make_room<W: Write>(to: &mut W, out: &[u8], used: usize) -> usize
    requires { (used ≤ length out.now) × (most_line ≤ length out.now) }
    ensures { result + most_line ≤ length out.now }
{
    if out.len() - used < MOST_LINE {
        text::write_all(to, text::part(out, 0, used));
        return 0;
    }
    used
}

// Puts the text of a line behind the first `at` bytes of out, and answers how many are in use then.
fn put_line(out: &mut [u8], at: usize, line: Line) -> usize
    requires { at + most_line ≤ length out.old }
    ensures { Appended out.old at (line_text line) out.new result }
{
    let a = put(out, at, line.block.0 as u64, b' ');
    let b = put(out, a, line.symbol.0 as u64, b' ');
    let c = put(out, b, line.symbols, b' ');
    let d = put(out, c, line.start, b' ');
    let e = put(out, d, line.length, b' ');
    put(out, e, line.close as u64, b'\n')
}

// The same for a number in decimal and one byte.
fn put(out: &mut [u8], at: usize, n: u64, mark: u8) -> usize
    requires { at + most_field ≤ length out.old }
    ensures { Appended out.old at (field n mark) out.new result × (result ≤ at + most_field) }
{
    let end = text::put_number(out, at, n);
    text::put_text(out, end, &[mark])
}
