// The bytes of the two stores, and the checksum of a payload.
//
// A store may be longer than the memory for it. Its bytes repeat, so a part that lies further along has the same bytes as
// one in the first period.
ghost use Rattle.std.specs.Prelude.{◌≡◌, ◌<◌, ◌≤◌, length};
ghost use Rattle.desk_program.specs.Stores.{byte_at, Filled, period_of, nearer_of, sum_with, sum_of};

use lifecycle::parts::{Part, ends_past};
use sender::payload::payload;
use sender::sender::Packet;

// Memory for a store: a period, and the longest payload behind it.
pub(crate) fn space() -> [u8; 131072]
    ensures { 131072 ≡ length result }
{
    [0; 131072]
}

// How long that is.
const KEPT: u64 = 131072;

// Byte i of a store.
fn store_byte(is_fdt: bool, i: usize) -> u8
    requires { i < 131072 }
    ensures { result ≡ byte_at is_fdt i }
{
    if is_fdt {
        ((83 * i + 29 * (i / 241) + 7) % 128) as u8
    } else {
        ((167 * i + 59 * (i / 251) + 13) % 256) as u8
    }
}

// Fills a store.
#[tactic(auto, unfolding(crate::specs::Stores::Filled))]
pub(crate) fn fill(store: &mut [u8], is_fdt: bool)
    requires { length store.old ≤ 131072 }
    ensures { Filled is_fdt store.new }
{
    for (i, b) in store.iter_mut().enumerate() {
        *b = store_byte(is_fdt, i);
    }
}

// After how many bytes a store repeats itself.
fn period(is_fdt: bool) -> u64
    ensures { (result ≡ period_of is_fdt) × (0 < result) }
{
    if is_fdt { 30848 } else { 64256 }
}

// A part with the same bytes, near the front.
fn nearer(is_fdt: bool, c: Part) -> Part
    ensures { result ≡ nearer_of is_fdt c }
{
    Part {
        start: c.start % period(is_fdt),
        size: c.size,
    }
}

// The bytes of the two stores.
#[derive(Clone, Copy)]
pub struct Stores<'a> {
    pub objects: &'a [u8],
    pub fdts: &'a [u8],
}

impl<'a> Stores<'a> {
    // The checksum of a packet's payload.
    pub fn payload_sum(&self, p: Packet) -> u64 {
        let c = p.symbol.payload;
        let near = if ends_past(KEPT, c) {
            moved(p, nearer(p.is_fdt, c))
        } else {
            p
        };
        checksum(payload(self.objects, self.fdts, Ok(Some(near))))
    }
}

// The packet with another place for its payload.
fn moved(mut p: Packet, c: Part) -> Packet {
    p.symbol.payload = c;
    p
}

// A checksum with one more byte.
fn with_byte(sum: u64, b: u8) -> u64
    requires { sum < 4294967291 }
    ensures { (result ≡ sum_with sum b) × (result < 4294967291) }
{
    (257 * sum + b as u64 + 1) % 4294967291
}

// The checksum of bytes.
pub fn checksum(bytes: &[u8]) -> u64
    ensures { result ≡ sum_of 1 bytes.now }
{
    let mut sum = 1;
    for b in bytes {
        sum = with_byte(sum, *b);
    }
    sum
}
