// The FDT session: it sends the current FDT, and asks for the next (src/sender/sendersession.rs, with an FDT).
ghost use Rattle.std.specs.Prelude.{◌≡◌, Bool};
ghost use Rattle.sender.specs.FdtSessionCalls.{FdtRuns, FdtTries, left_of, fdt_idle_of, fdt_begun_of, fdt_sent_of, fdt_attempted_of, fdt_ran_of};

use crate::blockencoder::BlockEncoder;
use crate::sendersession::{Outcome, no_encoder};
use lifecycle::announce::Instance;
use lifecycle::fdt::Fdt;
use lifecycle::parts::Part;
use sizes::partition::Sizes;

// `id` is the FDT's in hand while `busy`.
#[repr(C)]
#[derive(Clone, Copy)]
pub struct FdtSession {
    pub busy: bool,
    pub id: u32,
    pub encoder: BlockEncoder,
}

// What a run comes to or gives, and whether it took the draft.
#[derive(Clone, Copy)]
pub struct Drafted<A> {
    pub taken: bool,
    pub answer: A,
}

// A draft that was taken is not there any more.
fn left_draft(draft: Option<Part>, taken: bool) -> Option<Part>
    ensures { result ≡ left_of draft taken }
{
    if taken { None } else { draft }
}

impl FdtSession {
    // With nothing in hand.
    pub fn idle() -> FdtSession
        ensures { result ≡ fdt_idle_of }
    {
        FdtSession {
            busy: false,
            id: 0,
            encoder: no_encoder(),
        }
    }

    // The FDT that starts is in hand; an FDT has a carousel, so no packet of it closes.
    fn begin(i: &Instance, sizes: Sizes, width: usize) -> FdtSession
        ensures { result ≡ fdt_begun_of width i.now.id i.now.part sizes }
    {
        FdtSession {
            busy: true,
            id: i.id,
            encoder: BlockEncoder::new(i.part, sizes, width, false),
        }
    }

    // The next packet of what is in hand; at the end of its transfer it is done. It is never forced.
    fn send(&mut self, fdt: &mut Fdt, now: u64) -> Outcome
        requires { FdtRuns fdt.old self.old }
        ensures { (taken : Bool) → fdt_sent_of now taken fdt.old self.old ≡ record { taken = taken; answer = result; fdt = fdt.new; session = self.new } }
    {
        if !self.busy {
            return Outcome::Idle;
        }
        if let Some(s) = self.encoder.read(false) {
            return Outcome::Sent(s);
        }
        fdt.fdt_transfer_done(now);
        *self = FdtSession::idle();
        Outcome::Over
    }

    // With nothing in hand ask for the next FDT; then send. The draft is there no more where `taken`.
    fn attempt(
        &mut self,
        fdt: &mut Fdt,
        width: usize,
        now: u64,
        draft: Option<Part>,
        taken: bool,
    ) -> Drafted<Outcome>
        requires { FdtTries fdt.old width draft self.old }
        ensures { fdt_attempted_of width now draft taken fdt.old self.old ≡ record { taken = result.taken; answer = result.answer; fdt = fdt.new; session = self.new } }
    {
        if self.busy {
            let answer = self.send(fdt, now);
            return Drafted { taken, answer };
        }
        let next = fdt.get_next_fdt_transfer(now, left_draft(draft, taken));
        if next.starts {
            *self = FdtSession::begin(&fdt.announcer.current, fdt.settings.sizes, width);
        }
        let answer = self.send(fdt, now);
        Drafted {
            taken: taken || next.taken,
            answer,
        }
    }

    // On the end of a transfer it goes round again, once.
    pub(crate) fn run(
        &mut self,
        fdt: &mut Fdt,
        width: usize,
        now: u64,
        draft: Option<Part>,
    ) -> Drafted<Outcome>
        requires { FdtTries fdt.old width draft self.old }
        ensures { fdt_ran_of width now draft fdt.old self.old ≡ record { taken = result.taken; answer = result.answer; fdt = fdt.new; session = self.new } }
    {
        let first = self.attempt(fdt, width, now, draft, false);
        if let Outcome::Over = first.answer {
            return self.attempt(fdt, width, now, draft, first.taken);
        }
        first
    }
}
