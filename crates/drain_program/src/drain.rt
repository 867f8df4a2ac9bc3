// One transfer that is sent once, a line for each packet.
ghost use Rattle.std.specs.Prelude.{◌≡◌, ◌*◌, ◌<◌};
ghost use Rattle.sizes.specs.Limits.{wide};
ghost use Rattle.sizes.specs.Partition.{first_symbol, block_start};
ghost use Rattle.sender.specs.EncoderCalls.{Sound, ValidEncoder, symbol_said};
ghost use Rattle.sender.specs.EncoderPromises.{Shown};
ghost use Rattle.drain_program.specs.DrainCalls.{drain_refuses, packet_line, DrainBegins, Turns};

use lifecycle::fdt::are_bad_blocks;
use lifecycle::parts::Part;
use sender::blockencoder::{BlockEncoder, Content, Symbol};
use sizes::limits::{LARGEST_NAMED_WINDOW, LONGEST_STORE};
use sizes::numbers::{Esi, Sbn};
use sizes::partition::Sizes;

// The numbers of a transfer: its length, E and B, and how many blocks are open at a time.
#[derive(Clone, Copy)]
pub struct Transfer {
    pub l: u64,
    pub e: u64,
    pub b: u64,
    pub w: u64,
}

// What the line of a packet says.
#[derive(Clone, Copy)]
pub struct Line {
    pub block: Sbn,
    pub symbol: Esi,
    pub symbols: u64,
    pub start: u64,
    pub length: u64,
    pub close: bool,
}

// Is a number out of range, or are there too many blocks?
#[tactic(auto, unfolding(crate::specs::DrainCalls::drain_refuses))]
fn is_refused(t: Transfer) -> bool
    ensures { result ≡ drain_refuses t.l t.e t.b t.w }
{
    let sizes = Sizes { e: t.e, b: t.b };
    t.w == 0 || LARGEST_NAMED_WINDOW < t.w || LONGEST_STORE < t.l || are_bad_blocks(sizes, t.l)
}

// The transfer, where its numbers are admitted.
pub fn begin(t: Transfer) -> Option<BlockEncoder>
    ensures { DrainBegins t.l t.e t.b t.w result }
{
    if is_refused(t) {
        return None;
    }
    let all = Part {
        start: 0,
        size: t.l,
    };
    let sizes = Sizes { e: t.e, b: t.b };
    Some(BlockEncoder::new(all, sizes, t.w as usize, true))
}

// Where a block begins, in bytes: each block before it has the small count, and each large one a symbol more.
fn block_start(c: Content, k: Sbn) -> u64
    requires { Sound c × (first_symbol c.partition k * c.sizes.e < wide) }
    ensures { result ≡ block_start c.partition c.sizes.e k }
{
    let p = c.partition;
    let n = k.0 as u64;
    let e = c.sizes.e;
    if n < p.nb_a_large {
        return (n * p.small + n) * e;
    }
    (n * p.small + p.nb_a_large) * e
}

// The line of a packet.
fn line_for(c: Content, s: Symbol) -> Line
    requires { Sound c × Shown c s }
    ensures { result ≡ packet_line c (symbol_said s) }
{
    Line {
        block: s.sbn,
        symbol: s.esi,
        symbols: s.symbols,
        start: block_start(c, s.sbn) + s.esi.0 as u64 * c.sizes.e,
        length: s.payload.size,
        close: s.close,
    }
}

// The next line, or none where the transfer is over.
pub fn turn(x: &mut BlockEncoder) -> Option<Line>
    requires { ValidEncoder x.old }
    ensures { Turns x.old (record { line = result; encoder = x.new }) }
{
    let symbol = x.read(false)?;
    Some(line_for(x.content, symbol))
}
