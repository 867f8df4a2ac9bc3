// The record of a sender's packet.
#![tactic(auto)]

ghost use Rattle.std.specs.Prelude.{◌≡◌};
ghost use Rattle.sizes.specs.Words.{when◌then◌else◌, over};
ghost use Rattle.sender.specs.SenderCalls.{packet_said, packet_in};
ghost use Rattle.packet_record.specs.PacketRecord.{record_of};

use sender::sender::{Packet, RunAnswer};
use wire::record::Record;

// What a record says of the packet that a run gave, if it gave one.
pub fn answer_record(answer: RunAnswer) -> Option<Record>
    ensures { result ≡ over record_of (packet_in answer) }
{
    match answer {
        Ok(Some(p)) => Some(record_of(p)),
        Ok(None) | Err(_) => None,
    }
}

fn record_of(p: Packet) -> Record
    ensures { result ≡ record_of (packet_said p) }
{
    let s = p.symbol;
    Record {
        is_fdt: p.is_fdt,
        close: s.close,
        fdt_id: own_id(p.is_fdt, p.fdt_id),
        toi: p.toi,
        block: s.sbn,
        symbol: s.esi,
        length: s.payload.size,
        total: s.transfer_length,
        symbols: s.symbols,
    }
}

// Only an FDT's packet has an id.
fn own_id(is_fdt: bool, id: u32) -> u32
    ensures { result ≡ (when is_fdt then id else 0) }
{
    if is_fdt { id } else { 0 }
}
