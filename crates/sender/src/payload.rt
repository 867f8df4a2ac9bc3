// The payload of a packet: a part of one of the two stores.
ghost use Rattle.std.specs.Prelude.{◌≡◌};
ghost use Rattle.definition.specs.Payload.{payload_of};
ghost use Rattle.sender.specs.SenderCalls.{packet_in};

use crate::sender::RunAnswer;
use lifecycle::parts::ends_past;

// The part that a run's answer names, of the FDT store or the object store; the empty part of the object store where the store does not have it or there is no packet.
#[tactic(auto, using(crate::proofs::PayloadLaws::cutting))]
pub fn payload<'a>(objects: &'a [u8], fdts: &'a [u8], answer: RunAnswer) -> &'a [u8]
    ensures { result.now ≡ payload_of (record { of_objects = objects.now; of_fdts = fdts.now }) (packet_in answer) }
{
    let Ok(Some(p)) = answer else {
        return &objects[..0];
    };
    let store = if p.is_fdt { fdts } else { objects };
    let c = p.symbol.payload;
    if ends_past(store.len() as u64, c) {
        return &objects[..0];
    }
    &store[c.start as usize..(c.start + c.size) as usize]
}
