// The numbers of a write, in the order of the command.
ghost use Rattle.std.specs.Prelude.{◌≡◌, true};
ghost use Rattle.wire.specs.Record.{with_values};
ghost use Rattle.record_program.specs.Numbers.{fit};

use sizes::numbers::{Esi, Sbn};
use text::Words;
use wire::record::Record;

// Ten numbers; None where there are less or more words, or one is no number.
pub fn read_numbers(mut words: Words) -> Option<[u64; 10]> {
    let mut all = [0u64; 10];
    for n in all.iter_mut() {
        *n = words.next_number().ok()?;
    }
    words.is_over().then_some(all)
}

// The largest number of 32 bits.
const MOST_32: u64 = 0xFFFF_FFFF;

// The largest buffer.
const MOST_ROOM: u64 = 64;

// Does each number fit its type?
#[tactic(auto, unfolding(crate::specs::Numbers::fit))]
pub fn in_range(a: [u64; 10]) -> bool
    ensures { result ≡ fit a }
{
    a[0] <= 1
        && a[1] <= 1
        && a[2] <= MOST_32
        && a[4] <= MOST_32
        && a[5] <= MOST_32
        && a[9] <= MOST_ROOM
}

// The record of the first nine.
pub(crate) fn record_of(a: [u64; 10]) -> Record
    requires { fit a ≡ true }
    ensures { result ≡ with_values a }
{
    let fdt_id = a[2] as u32;
    let block = a[4] as u32;
    let symbol = a[5] as u32;
    Record {
        is_fdt: a[0] == 1,
        close: a[1] == 1,
        fdt_id,
        toi: a[3],
        block: Sbn(block),
        symbol: Esi(symbol),
        length: a[6],
        total: a[7],
        symbols: a[8],
    }
}
