// The packet record: 28 bytes, fields bit-packed, the most significant first.
ghost use Rattle.std.specs.Prelude.{◌≡◌, ◌≢◌, true, ◌++◌, ◌≤◌, length, drop, MatchOption};
ghost use Rattle.wire.specs.Packing.{join, last_bytes};
ghost use Rattle.wire.specs.Record.{good, well_named, RecordWrites, RecordReads};
ghost use Rattle.wire.specs.RecordWords.{first_fields, second_fields, third_fields, last_fields, record_in, AreWords};

use sizes::numbers::{Esi, Sbn};
use sizes::refusal::Refusal;

// A record, in bytes.
const RECORD_SIZE: usize = 28;

// The largest values of fields of 16, 20 and 48 bits.
const MOST_16: u32 = 0xFFFF;

const MOST_16_OF_64: u64 = 0xFFFF;

const MOST_20: u32 = 0xF_FFFF;

const MOST_48: u64 = 0xFFFF_FFFF_FFFF;

// What a record says of a packet. A value may be too wide for its field.
#[derive(Clone, Copy)]
pub struct Record {
    pub is_fdt: bool,
    pub close: bool,
    pub fdt_id: u32,
    pub toi: u64,
    pub block: Sbn,
    pub symbol: Esi,
    pub length: u64,
    pub total: u64,
    pub symbols: u64,
}

// Writes a record into the first 28 bytes of out, or nothing.
pub fn write(out: &mut [u8], r: Record) -> Result<(), Refusal>
    ensures { RecordWrites out.old r result out.new }
{
    if out.len() < RECORD_SIZE || !is_good(r) {
        return Err(Refusal::Record);
    }
    put_words(out, first(r), second(r), third(r), last(r));
    Ok(())
}

// Reads the record that 28 bytes hold.
pub fn read(bytes: &[u8]) -> Result<Record, Refusal>
    ensures { RecordReads bytes.now result }
{
    let (a, b, c, d) = words_in(bytes).ok_or(Refusal::Record)?;
    if d % 0x400_0000 != 0 {
        return Err(Refusal::Record);
    }
    let r = record_in(a, b, c, d);
    if !is_good(r) {
        return Err(Refusal::Record);
    }
    Ok(r)
}

// Can the record be written?
fn is_good(r: Record) -> bool
    ensures { result ≡ good r }
{
    r.fdt_id <= MOST_20
        && r.block.0 <= MOST_16
        && r.symbol.0 <= MOST_16
        && r.length <= MOST_16_OF_64
        && r.total <= MOST_48
        && r.symbols <= MOST_16_OF_64
        && is_well_named(r)
}

// Has the FDT number 0, and an object another number and no FDT id?
fn is_well_named(r: Record) -> bool
    ensures { result ≡ well_named r }
{
    if r.is_fdt {
        r.toi == 0
    } else {
        r.toi != 0 && r.fdt_id == 0
    }
}

// The record's bits in words. 0x40 is 2^6, 0x400 is 2^10: each zero is 4 bits.
fn first(r: Record) -> u64
    requires { good r ≡ true }
    ensures { result ≡ join (first_fields r) }
{
    (r.is_fdt as u64) * 0x8000_0000_0000_0000
        + (r.close as u64) * 0x4000_0000_0000_0000
        + (r.fdt_id as u64) * 0x400_0000_0000
        + r.toi / 0x40_0000
}

fn second(r: Record) -> u64
    requires { good r ≡ true }
    ensures { result ≡ join (second_fields r) }
{
    let toi = r.toi % 0x40_0000;
    let block = r.block.0 as u64;
    let symbol = r.symbol.0 as u64;
    toi * 0x400_0000_0000 + block * 0x400_0000 + symbol * 0x400 + r.length / 0x40
}

fn third(r: Record) -> u64
    requires { good r ≡ true }
    ensures { result ≡ join (third_fields r) }
{
    (r.length % 0x40) * 0x400_0000_0000_0000 + r.total * 0x400 + r.symbols / 0x40
}

fn last(r: Record) -> u32
    ensures { result ≡ join (last_fields r) }
{
    (r.symbols % 0x40) as u32 * 0x400_0000
}

// The record that the words hold.
fn record_in(a: u64, b: u64, c: u64, d: u32) -> Record
    ensures { result ≡ record_in a b c d }
{
    let fdt_id = (a / 0x400_0000_0000 % 0x10_0000) as u32;
    let toi = (a % 0x400_0000_0000) * 0x40_0000 + b / 0x400_0000_0000 % 0x40_0000;
    let block = (b / 0x400_0000 % 0x1_0000) as u32;
    let symbol = (b / 0x400 % 0x1_0000) as u32;
    let length = (b % 0x400) * 0x40 + c / 0x400_0000_0000_0000 % 0x40;
    let symbols = (c % 0x400) * 0x40 + (d / 0x400_0000) as u64;
    Record {
        is_fdt: a / 0x8000_0000_0000_0000 % 2 == 1,
        close: a / 0x4000_0000_0000_0000 % 2 == 1,
        fdt_id,
        toi,
        block: Sbn(block),
        symbol: Esi(symbol),
        length,
        total: c / 0x400 % 0x1_0000_0000_0000,
        symbols,
    }
}

// Puts the words at the front of out.
fn put_words(out: &mut [u8], a: u64, b: u64, c: u64, d: u32)
    requires { 28 ≤ length out.old }
    ensures { out.new ≡ last_bytes 8 a ++ (last_bytes 8 b ++ (last_bytes 8 c ++ (last_bytes 4 d ++ drop 28 out.old))) }
{
    out[..8].copy_from_slice(&a.to_be_bytes());
    out[8..16].copy_from_slice(&b.to_be_bytes());
    out[16..24].copy_from_slice(&c.to_be_bytes());
    out[24..28].copy_from_slice(&d.to_be_bytes());
}

// The words of 28 bytes.
fn words_in(bytes: &[u8]) -> Option<(u64, u64, u64, u32)>
    ensures cases { MatchOption result (length bytes.now ≢ 28) (λ w. AreWords bytes.now w.0 w.1 w.2 w.3) }
{
    let (a, rest) = bytes.split_first_chunk()?;
    let (b, rest) = rest.split_first_chunk()?;
    let (c, rest) = rest.split_first_chunk()?;
    let d = rest.as_array()?;
    Some((
        u64::from_be_bytes(*a),
        u64::from_be_bytes(*b),
        u64::from_be_bytes(*c),
        u32::from_be_bytes(*d),
    ))
}
