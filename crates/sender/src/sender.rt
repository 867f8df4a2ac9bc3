// The sender: every call from outside (src/sender/sender.rs).
ghost use Rattle.std.specs.Prelude.{◌≡◌, take, false};
ghost use Rattle.sizes.specs.Words.{any};
ghost use Rattle.sender.specs.SenderCalls.{ValidSender, has_priority, answer_of, request_of, Reserves, Releases, Adds, Removes, Prompts, Lists, CountsTransfers, Completes, Publishes, RunsFdt, RunsFile};

use crate::blockencoder::Symbol;
use crate::fdtsession::{Drafted, FdtSession};
use crate::sendersession::{Outcome, SenderSession};
use lifecycle::fdt::{Fdt, Request, real_draft};
use lifecycle::filedesc::{Carousel, Plan, Target, Time};
use lifecycle::parts::Part;
use sizes::limits::MOST_SESSIONS;
use sizes::partition::Sizes;
use sizes::refusal::Refusal;

// The list with its FDTs, the file sessions (the first `count`), and the FDT session.
#[repr(C)]
#[derive(Clone, Copy)]
pub struct Sender {
    pub fdt: Fdt,
    pub window: usize,
    pub count: usize,
    pub sessions: [SenderSession; MOST_SESSIONS],
    pub fdt_session: FdtSession,
}

// An object to add; without E and B of its own, it has the set-up's.
#[derive(Clone, Copy)]
pub struct Object {
    pub priority: u32,
    pub part: Part,
    pub own: Option<Sizes>,
    pub most: u32,
    pub carousel: Option<Carousel>,
    pub target: Target,
    pub start: Time,
    pub stop_at_once: bool,
}

// A packet: of an FDT (object number 0) or of an object; its payload is a part of that store.
#[repr(C)]
#[derive(Clone, Copy)]
pub struct Packet {
    pub is_fdt: bool,
    pub toi: u64,
    pub fdt_id: u32,
    pub symbol: Symbol,
}

// What a run gives: a packet or nothing, or why it is refused.
pub type RunAnswer = Result<Option<Packet>, Refusal>;

// The answer of a run of a session.
fn run_answer(answer: Outcome, is_fdt: bool, toi: u64, fdt_id: u32) -> RunAnswer
    ensures { result ≡ answer_of is_fdt toi fdt_id answer }
{
    match answer {
        Outcome::Idle | Outcome::Over => Ok(None),
        Outcome::Sent(symbol) => Ok(Some(Packet {
            is_fdt,
            toi,
            fdt_id,
            symbol,
        })),
    }
}

// What the list is asked for an object.
impl From<Object> for Request {
    ghost from_gives = { λ o r. r ≡ request_of o };

    fn from(o: Object) -> Request {
        Request {
            priority: o.priority,
            part: o.part,
            own: o.own,
            plan: Plan::new(o.most, o.carousel, o.target, o.stop_at_once),
            start: o.start,
        }
    }
}

impl Sender {
    // Has a file session this priority?
    fn has_priority(&self, priority: u32) -> bool
        requires { ValidSender self.now }
        ensures { result ≡ any (has_priority priority) (take self.now.count self.now.sessions) }
    {
        self.sessions[..self.count]
            .iter()
            .any(|x| x.priority == priority)
    }

    // The next object number, held from now on as a loose reservation.
    pub fn reserve(&mut self) -> Result<u64, Refusal>
        requires { ValidSender self.old }
        ensures { Reserves self.old (record { answer = result; sender = self.new }) }
    {
        self.fdt.allocate_toi()
    }

    // A loose reservation is let go.
    pub fn release(&mut self, toi: u64) -> Result<(), Refusal>
        requires { ValidSender self.old }
        ensures { Releases toi self.old (record { answer = result; sender = self.new }) }
    {
        self.fdt.release_toi(toi)
    }

    // The object with this number leaves the list; a session that sends it keeps it.
    pub fn remove(&mut self, toi: u64) -> bool
        requires { ValidSender self.old }
        ensures { Removes toi self.old (record { yes = result; sender = self.new }) }
    {
        self.fdt.remove_object(toi)
    }

    // The object with this number may start anew, at the named start if one is given; one in transfer stays as it is.
    pub fn trigger(&mut self, toi: u64, start: Time) -> bool
        requires { ValidSender self.old }
        ensures { Prompts toi start self.old (record { yes = result; sender = self.new }) }
    {
        self.fdt.trigger_transfer_at(toi, start)
    }

    // Is an object with this number listed?
    pub fn listed(&self, toi: u64) -> bool
        requires { ValidSender self.now }
        ensures { Lists toi self.now result }
    {
        self.fdt.is_added(toi)
    }

    // How often the listed object with this number was sent.
    pub fn transfers(&self, toi: u64) -> Option<u64>
        requires { ValidSender self.now }
        ensures { CountsTransfers toi self.now result }
    {
        self.fdt.nb_transfers(toi)
    }

    // From now on no object is added.
    pub fn complete(&mut self)
        requires { ValidSender self.old }
        ensures { Completes self.old self.new }
    {
        self.fdt.set_complete();
    }

    // The part is queued as the next FDT, and every listed object is published.
    pub fn publish(&mut self, now: u64, part: Part) -> Result<(), Refusal>
        requires { ValidSender self.old }
        ensures { Publishes now part self.old (record { answer = result; sender = self.new }) }
    {
        self.fdt.publish(now, part)
    }

    // An object is listed, under the reservation that it names or the next number.
    pub fn add(&mut self, o: Object, named: Option<u64>) -> Result<u64, Refusal>
        requires { ValidSender self.old }
        ensures { Adds o named self.old (record { answer = result; sender = self.new }) }
    {
        if !self.has_priority(o.priority) {
            return Err(Refusal::NoPriority);
        }
        self.fdt.add_object(Request::from(o), named)
    }

    // The FDT session, with a draft or none.
    pub fn run_fdt(&mut self, now: u64, draft: Option<Part>) -> Drafted<RunAnswer>
        requires { ValidSender self.old }
        ensures { RunsFdt now draft self.old (record { taken = result.taken; answer = result.answer; sender = self.new }) }
    {
        let draft = real_draft(draft);
        if let Err(why) = self.fdt.test_draft(draft) {
            return Drafted {
                taken: false,
                answer: Err(why),
            };
        }
        let r = self.fdt_session.run(&mut self.fdt, self.window, now, draft);
        Drafted {
            taken: r.taken,
            answer: run_answer(r.answer, true, 0, self.fdt_session.id),
        }
    }

    // File session i.
    pub fn run(&mut self, i: u64, now: u64) -> RunAnswer
        requires { ValidSender self.old }
        ensures { RunsFile i now self.old (record { taken = false; answer = result; sender = self.new }) }
    {
        if self.count as u64 <= i {
            return Err(Refusal::NoSession);
        }
        let k = i as usize;
        let outcome = self.sessions[k].run(&mut self.fdt, self.window, now);
        let toi = self.fdt.slots[self.sessions[k].slot].file.toi;
        run_answer(outcome, false, toi, 0)
    }
}
