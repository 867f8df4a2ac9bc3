// A run of a file session that changes nothing but the session: from the session, the slot in its hand and how many FDTs wait.
#![tactic(auto)]

pub mod quick;

ghost use Rattle.std.specs.Prelude.{◌≡◌, false};
ghost use Rattle.sender.specs.SenderCalls.{answer_of};
ghost use Rattle.sender.specs.declared.sendersession.Outcome.TheVariants as OutcomeV;
ghost use Rattle.fast_run.specs.Settle.{ValidSession, settled_as, settled_of};

use host_structs::answers::Sent;
use lifecycle::slots::Slot;
use sender::blockencoder::Symbol;
use sender::sender::Packet;
use sender::sendersession::{SenderSession, is_forced};

// What the host is told of a run that is settled, and the session after it.
#[repr(C)]
#[derive(Clone, Copy)]
pub struct Settled {
    pub answer: Sent,
    pub session: SenderSession,
}

// No packet.
fn nothing(session: SenderSession) -> Settled
    ensures { result ≡ settled_as (Ok None) session }
{
    Settled {
        answer: Sent::from(Ok(None)),
        session,
    }
}

// A packet of the object with number toi.
fn one(session: SenderSession, toi: u64, symbol: Symbol) -> Settled
    ensures { result ≡ settled_as (answer_of false toi 0 (OutcomeV.Sent symbol)) session }
{
    let packet = Packet {
        is_fdt: false,
        toi,
        fdt_id: 0,
        symbol,
    };
    Settled {
        answer: Sent::from(Ok(Some(packet))),
        session,
    }
}

// With nothing in hand, or at the end of a transfer, the run is not settled here.
pub fn settle(x: &SenderSession, t: &Slot, waiting: usize, at: u64) -> Option<Settled>
    requires { ValidSession x.now }
    ensures { result ≡ settled_of waiting at t.now x.now }
{
    if !x.busy {
        return None;
    }
    if waiting != 0 || x.pace.is_early(at) {
        return Some(nothing(*x));
    }
    let mut after = *x;
    let symbol = after.encoder.read(is_forced(t))?;
    after.pace = x.pace.ticked();
    Some(one(after, t.file.toi, symbol))
}
