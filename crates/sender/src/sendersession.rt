// A file session: it has one object in hand at a time and sends its packets (src/sender/sendersession.rs).
ghost use Rattle.std.specs.Prelude.{◌≡◌, ◌≤◌};
ghost use Rattle.sizes.specs.Limits.{largest_window};
ghost use Rattle.sender.specs.EncoderCalls.{ValidEncoder};
ghost use Rattle.sender.specs.SessionCalls.{Ready, Holds, Runs, no_encoder, idle_of, begun_of, forced_slot, served_of, attended_of, taken_on_of, ran_of};

use crate::block::no_open;
use crate::blockencoder::{BlockEncoder, Content, Symbol};
use lifecycle::fdt::Fdt;
use lifecycle::filedesc::{FileDesc, Pace};
use lifecycle::parts::Part;
use lifecycle::slots::Slot;
use sizes::limits::LARGEST_WINDOW;
use sizes::numbers::Sbn;
use sizes::partition::{Partition, Sizes};

// `slot` is the object in hand while `busy`; the due time and the tick are its transfer's.
#[repr(C)]
#[derive(Clone, Copy)]
pub struct SenderSession {
    pub priority: u32,
    pub busy: bool,
    pub slot: usize,
    pub pace: Pace,
    pub encoder: BlockEncoder,
}

// What a session comes to: no packet now, a packet's symbol, or that the transfer is over.
#[derive(Clone, Copy)]
pub enum Outcome {
    Idle,
    Sent(Symbol),
    Over,
}

// No transfer: zeros.
pub fn no_encoder() -> BlockEncoder
    ensures { result ≡ no_encoder }
{
    BlockEncoder {
        content: Content {
            part: Part { start: 0, size: 0 },
            sizes: Sizes { e: 0, b: 0 },
            partition: Partition {
                large: 0,
                small: 0,
                nb_a_large: 0,
                blocks: 0,
            },
        },
        width: 0,
        closable: false,
        begun: false,
        stopped: false,
        next: Sbn(0),
        filled: 0,
        index: 0,
        window: [no_open(); LARGEST_WINDOW],
    }
}

// Is the transfer of the object in a slot to be forced to its end: it may be stopped, and is not listed?
pub fn is_forced(v: &Slot) -> bool
    ensures { result ≡ forced_slot v.now }
{
    !v.listed && v.file.can_transfer_be_stopped()
}

impl SenderSession {
    // With nothing in hand.
    pub fn idle(priority: u32) -> SenderSession
        ensures { result ≡ idle_of priority }
    {
        SenderSession {
            priority,
            busy: false,
            slot: 0,
            pace: Pace::none(),
            encoder: no_encoder(),
        }
    }

    // The object in slot k, whose transfer has started, is in hand.
    fn begin(priority: u32, k: usize, file: &FileDesc, width: usize, at: u64) -> SenderSession
        ensures { result ≡ begun_of width at priority k file.now }
    {
        SenderSession {
            priority,
            busy: true,
            slot: k,
            pace: file.pace_from(at),
            encoder: BlockEncoder::new(file.part, file.sizes, width, file.is_last_transfer()),
        }
    }

    // Nothing while an FDT is queued or before the due time; else the next packet, or that the transfer is over.
    fn serve(&mut self, forced: bool, blocked: bool, now: u64) -> Outcome
        requires { ValidEncoder self.old.encoder }
        ensures answer { result ≡ (served_of forced blocked now self.old).answer }
        ensures left { (result ≡ Outcome.Over → ⊥) → self.new ≡ (served_of forced blocked now self.old).session }
    {
        if blocked || self.pace.is_early(now) {
            return Outcome::Idle;
        }
        let Some(s) = self.encoder.read(forced) else {
            return Outcome::Over;
        };
        self.pace = self.pace.ticked();
        Outcome::Sent(s)
    }

    // With an object in hand: at the end of its transfer it is done, and the hand is empty.
    fn attend(&mut self, fdt: &mut Fdt, now: u64) -> Outcome
        requires { Ready fdt.old self.old }
        ensures { attended_of now fdt.old self.old ≡ record { answer = result; fdt = fdt.new; session = self.new } }
    {
        let k = self.slot;
        let priority = self.priority;
        let forced = is_forced(&fdt.slots[k]);
        let outcome = self.serve(forced, fdt.need_transfer_fdt(), now);
        if let Outcome::Over = outcome {
            fdt.transfer_done(k, now);
            *self = SenderSession::idle(priority);
        }
        outcome
    }

    // With nothing in hand: the first in the queue that may start is taken.
    fn take_on(&mut self, fdt: &mut Fdt, width: usize, now: u64) -> Outcome
        requires { Holds fdt.old × (width ≤ largest_window) }
        ensures { taken_on_of width now fdt.old self.old ≡ record { answer = result; fdt = fdt.new; session = self.new } }
    {
        let Some(k) = fdt.get_next_file_transfer(self.priority, now) else {
            return Outcome::Idle;
        };
        *self = SenderSession::begin(self.priority, k, &fdt.slots[k].file, width, now);
        self.attend(fdt, now)
    }

    // In order: without an object take the next; on the end of a transfer go round again, once.
    pub(crate) fn run(&mut self, fdt: &mut Fdt, width: usize, now: u64) -> Outcome
        requires { Runs fdt.old width self.old }
        ensures { ran_of width now fdt.old self.old ≡ record { answer = result; fdt = fdt.new; session = self.new } }
    {
        if !self.busy {
            return self.take_on(fdt, width, now);
        }
        let outcome = self.attend(fdt, now);
        if let Outcome::Over = outcome {
            return self.take_on(fdt, width, now);
        }
        outcome
    }
}
