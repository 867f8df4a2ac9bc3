// What the host is told: numbers and plain structs. A refusal has its number of the table; 0 is none.
ghost use Rattle.std.specs.Prelude.{◌≡◌, false};
ghost use Rattle.host_structs.specs.Answers.{numbered_told, refusal_told, transfers_told, not_sent, run_told};

use lifecycle::parts::Part;
use sender::blockencoder::Symbol;
use sender::fdtsession::Drafted;
use sender::sender::{Packet, RunAnswer};
use sizes::numbers::{Esi, Sbn};
use sizes::refusal::Refusal;

// An object's number, or the refusal.
#[repr(C)]
#[derive(Clone, Copy)]
pub struct Numbered {
    pub refused: u32,
    pub toi: u64,
}

// The total transfers of an object, where it is listed.
#[repr(C)]
#[derive(Clone, Copy)]
pub struct Counted {
    pub listed: bool,
    pub total: u64,
}

// The packet of a run, where `sent`; was the draft taken?
#[repr(C)]
#[derive(Clone, Copy)]
pub struct Sent {
    pub refused: u32,
    pub taken: bool,
    pub sent: bool,
    pub packet: Packet,
}

// The answer of a call that gives a number.
impl From<Result<u64, Refusal>> for Numbered {
    ghost from_gives = { λ a r. r ≡ numbered_told a };

    fn from(a: Result<u64, Refusal>) -> Numbered {
        match a {
            Ok(toi) => Numbered { refused: 0, toi },
            Err(why) => Numbered {
                refused: u32::from(why),
                toi: 0,
            },
        }
    }
}

// The answer of a call that is done or refused.
pub fn refusal_told(a: Result<(), Refusal>) -> u32
    ensures { result ≡ refusal_told a }
{
    match a {
        Ok(()) => 0,
        Err(why) => u32::from(why),
    }
}

impl From<Option<u64>> for Counted {
    ghost from_gives = { λ a r. r ≡ transfers_told a };

    fn from(a: Option<u64>) -> Counted {
        Counted {
            listed: a.is_some(),
            total: a.unwrap_or(0),
        }
    }
}

// A run without a packet.
fn not_sent(refused: u32, taken: bool) -> Sent
    ensures { result ≡ not_sent refused taken }
{
    Sent {
        refused,
        taken,
        sent: false,
        packet: Packet {
            is_fdt: false,
            toi: 0,
            fdt_id: 0,
            symbol: Symbol {
                sbn: Sbn(0),
                esi: Esi(0),
                symbols: 0,
                payload: Part { start: 0, size: 0 },
                transfer_length: 0,
                close: false,
            },
        },
    }
}

// A run of the FDT session.
impl From<Drafted<RunAnswer>> for Sent {
    ghost from_gives = { λ a r. r ≡ run_told a.taken a.answer };

    fn from(a: Drafted<RunAnswer>) -> Sent {
        let taken = a.taken;
        match a.answer {
            Ok(Some(packet)) => Sent {
                refused: 0,
                taken,
                sent: true,
                packet,
            },
            Ok(None) => not_sent(0, taken),
            Err(why) => not_sent(u32::from(why), taken),
        }
    }
}

// A run of a file session, which takes no draft.
impl From<RunAnswer> for Sent {
    ghost from_gives = { λ a r. r ≡ run_told false a };

    fn from(answer: RunAnswer) -> Sent {
        Sent::from(Drafted {
            taken: false,
            answer,
        })
    }
}
