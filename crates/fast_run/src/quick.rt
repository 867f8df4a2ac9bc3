// A packet in the middle of a transfer: it changes three numbers of the session and nothing else.
ghost use Rattle.std.specs.Prelude.{◌≡◌};
ghost use Rattle.fast_run.specs.Settle.{ValidSession};
ghost use Rattle.fast_run.specs.Quick.{Glances, is_due};

use host_structs::answers::Sent;
use lifecycle::slots::Slot;
use sender::sender::Packet;
use sender::sendersession::SenderSession;
use sizes::numbers::Esi;

// The block at `place` has `esi` for its next symbol, `next` is the place to visit next, and `due` the due time.
#[repr(C)]
#[derive(Clone, Copy)]
pub struct Numbers {
    pub place: usize,
    pub esi: Esi,
    pub next: usize,
    pub due: u64,
    pub answer: Sent,
}

// Is a packet of a listed object due?
fn is_due(x: &SenderSession, t: &Slot, waiting: usize, at: u64) -> bool
    ensures { result ≡ is_due waiting at t.now x.now }
{
    waiting == 0 && x.busy && t.listed && !x.pace.is_early(at)
}

// The numbers after the packet that is due, where it only moves its block on; none for any other run.
pub fn glance(x: &SenderSession, t: &Slot, waiting: usize, at: u64) -> Option<Numbers>
    requires { ValidSession x.now }
    ensures { Glances waiting at t.now x.now result }
{
    if !is_due(x, t, waiting, at) {
        return None;
    }
    let v = x.encoder.glance()?;
    let after = x.pace.ticked();
    let packet = Packet {
        is_fdt: false,
        toi: t.file.toi,
        fdt_id: 0,
        symbol: v.symbol,
    };
    Some(Numbers {
        place: v.place,
        esi: Esi(v.symbol.esi.0 + 1),
        next: v.place + 1,
        due: after.due,
        answer: Sent::from(Ok(Some(packet))),
    })
}
