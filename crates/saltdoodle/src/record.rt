// What the host does with a packet that a run told: its payload, and the 28 bytes of its record.
ghost use Rattle.std.specs.Prelude.{◌≡◌};
ghost use Rattle.definition.specs.Payload.{no_place};
ghost use Rattle.sender.specs.SenderCalls.{packet_in};
ghost use Rattle.saltdoodle.specs.Record.{packet_sent, place_named, place_in, PayloadTold, fields_told, reading_told, RecordTold, FieldsTold};

use host_structs::answers::{Sent, refusal_told};
use lifecycle::parts::{Part, ends_past};
use packet_record::answer_record;
use sender::sender::RunAnswer;
use sizes::numbers::{Esi, Sbn};
use sizes::refusal::Refusal;
use wire::record::{Record, read, write};

// Where a payload stands: a part of the FDT store or of the object store.
#[repr(C)]
#[derive(Clone, Copy)]
pub struct PayloadPlace {
    pub of_fdt: bool,
    pub start: u64,
    pub size: u64,
}

// What a record says of a packet, or the refusal.
#[repr(C)]
#[derive(Clone, Copy)]
pub struct PlainRecord {
    pub refused: u32,
    pub is_fdt: bool,
    pub close: bool,
    pub fdt_id: u32,
    pub block: Sbn,
    pub symbol: Esi,
    pub toi: u64,
    pub length: u64,
    pub total: u64,
    pub symbols: u64,
}

// The answer with the packet that was sent, if one was.
fn answer_in(s: Sent) -> RunAnswer
    ensures { packet_in result ≡ packet_sent s }
{
    Ok(s.sent.then_some(s.packet))
}

impl From<Record> for PlainRecord {
    ghost from_gives = { λ r a. a ≡ fields_told r };

    fn from(r: Record) -> PlainRecord {
        PlainRecord {
            refused: 0,
            is_fdt: r.is_fdt,
            close: r.close,
            fdt_id: r.fdt_id,
            block: r.block,
            symbol: r.symbol,
            toi: r.toi,
            length: r.length,
            total: r.total,
            symbols: r.symbols,
        }
    }
}

// What a read says, or the refusal with zeros.
impl From<Result<Record, Refusal>> for PlainRecord {
    ghost from_gives = { λ a r. r ≡ reading_told a };

    fn from(a: Result<Record, Refusal>) -> PlainRecord {
        match a {
            Ok(r) => PlainRecord::from(r),
            Err(why) => PlainRecord {
                refused: u32::from(why),
                is_fdt: false,
                close: false,
                fdt_id: 0,
                block: Sbn(0),
                symbol: Esi(0),
                toi: 0,
                length: 0,
                total: 0,
                symbols: 0,
            },
        }
    }
}

// No payload: the empty part of the object store.
fn no_place() -> PayloadPlace
    ensures { place_named result ≡ no_place }
{
    PayloadPlace {
        of_fdt: false,
        start: 0,
        size: 0,
    }
}

// A part of a store of this length, if the store has it.
fn place_in(of_fdt: bool, store: u64, c: Part) -> PayloadPlace
    ensures { place_named result ≡ place_in of_fdt store c }
{
    if ends_past(store, c) {
        return no_place();
    }
    PayloadPlace {
        of_fdt,
        start: c.start,
        size: c.size,
    }
}

// Where the packet's payload stands, in stores of these lengths: the empty part of the object store where the store does not have it or there is no packet.
pub fn sd_payload(object_store: u64, fdt_store: u64, s: Sent) -> PayloadPlace
    ensures { PayloadTold object_store fdt_store s result }
{
    if !s.sent {
        return no_place();
    }
    let p = s.packet;
    let store = if p.is_fdt { fdt_store } else { object_store };
    place_in(p.is_fdt, store, p.symbol.payload)
}

// Writes the packet's record. Refused, with nothing written, where there is no packet, or one that has no record.
pub fn sd_record_write(out: &mut [u8; 28], s: Sent) -> u32
    ensures { RecordTold s out.old result out.new }
{
    match answer_record(answer_in(s)) {
        Some(r) => refusal_told(write(out, r)),
        None => u32::from(Refusal::Record),
    }
}

// Reads a record.
pub fn sd_record_read(bytes: &[u8; 28]) -> PlainRecord
    ensures { FieldsTold bytes.now result }
{
    PlainRecord::from(read(bytes))
}
