// The FDT side: what waits to be announced, what is current, and when a new FDT is needed (src/sender/fdt.rs).
ghost use Rattle.std.specs.Prelude.{◌≡◌, ◌&&◌, ◌<◌, Bool};
ghost use Rattle.sizes.specs.Limits.{waiting_fdts};
ghost use Rattle.sizes.specs.Words.{given, any};
ghost use Rattle.lifecycle.specs.Fdt.{runs_out};
ghost use Rattle.lifecycle.specs.Announce.{no_instance, first_instance, started_instance, done_instance, fdt_plan_of, needs_new_of, queued_of, republished_of, published_of, front_of, start_of, transferring_of, next_of, current_done, waits_of, waiting_of, held_of, shares_fdt_of, bad_fdt_of, new_announcer, ValidAnnouncer};

use crate::filedesc::{Life, Plan, Time, elapsed};
use crate::parts::{Part, ends_past, shares};
use sizes::gap::close_gap;
use sizes::limits::{LARGEST_FDT_ID, WAITING_FDTS};

// How many ids there are.
const FDT_IDS: u32 = LARGEST_FDT_ID + 1;

// One FDT.
#[repr(C)]
#[derive(Clone, Copy)]
pub struct Instance {
    pub id: u32,
    pub part: Part,
    pub life: Life,
}

// The next id, the last publish, the FDTs that wait (the first `waiting`), and the current one where `has_current`.
#[repr(C)]
#[derive(Clone, Copy)]
pub struct Announcer {
    pub fdtid: u32,
    pub last_publish: Time,
    pub queue: [Instance; WAITING_FDTS],
    pub waiting: usize,
    pub has_current: bool,
    pub current: Instance,
}

// What asking for the next FDT comes to: was the draft taken, and does the current one start now?
#[derive(Clone, Copy)]
pub struct Next {
    pub taken: bool,
    pub starts: bool,
}

// What is asked of every FDT: maximum 1, the set-up's carousel.
pub fn fdt_plan(from_start: bool, interval: u64) -> Plan
    ensures { result ≡ fdt_plan_of from_start interval }
{
    Plan {
        most: 1,
        repeats: true,
        from_start,
        interval,
        paced: false,
        by_time: false,
        target: 0,
        stop_at_once: false,
    }
}

// Has the validity run out, or nearly, once this much has elapsed? By its whole seconds: at most 10, 11 to 30, above 30; at 10 and 30 its nanoseconds decide.
pub fn will_expire(validity: u64, elapsed: u64) -> bool
    ensures { result ≡ runs_out validity elapsed }
{
    let seconds = validity / 1_000_000_000;
    let rest = validity % 1_000_000_000;
    match seconds {
        0..=9 => validity <= elapsed,
        10 => {
            if rest == 0 {
                return validity <= elapsed;
            }
            validity - 1_000_000_000 < elapsed
        }
        11..=29 => validity - 1_000_000_000 < elapsed,
        30 => {
            if 0 < rest {
                return validity - 5_000_000_000 < elapsed;
            }
            validity - 1_000_000_000 < elapsed
        }
        _ => validity - 5_000_000_000 < elapsed,
    }
}

// What stands where there is no FDT.
fn no_fdt() -> Instance
    ensures { result ≡ no_instance }
{
    Instance {
        id: 0,
        part: Part { start: 0, size: 0 },
        life: Life::new(Time::none()),
    }
}

impl Instance {
    // An FDT that is just being published.
    fn new(id: u32, part: Part) -> Instance
        ensures { result ≡ first_instance id part }
    {
        let mut life = Life::new(Time::none());
        life.published = true;
        Instance { id, part, life }
    }

    // Its transfer starts.
    fn start(&mut self, plan: Plan, now: u64)
        ensures { self.new ≡ started_instance plan now self.old }
    {
        self.life.start(plan, now);
    }

    // Its transfer has ended.
    fn end(&mut self, now: u64)
        ensures { self.new ≡ done_instance now self.old }
    {
        self.life.end(now);
    }
}

impl Announcer {
    // Nothing waits, and nothing is current.
    pub fn new(first_id: u32) -> Announcer
        ensures { result ≡ new_announcer first_id }
    {
        Announcer {
            fdtid: first_id,
            last_publish: Time::none(),
            queue: [no_fdt(); WAITING_FDTS],
            waiting: 0,
            has_current: false,
            current: no_fdt(),
        }
    }

    // Is a new FDT needed?
    pub fn needs_new(&self, validity: u64, at: u64) -> bool
        ensures { result ≡ needs_new_of validity at self.now }
    {
        if self.waiting != 0 {
            return false;
        }
        if !self.has_current || !self.last_publish.known {
            return true;
        }
        will_expire(validity, elapsed(at, self.last_publish.at))
    }

    // The part waits under the current id, and the id moves on.
    fn queue_up(&mut self, now: u64, part: Part)
        requires { ValidAnnouncer self.old × (self.old.waiting < waiting_fdts) }
        ensures { self.new ≡ queued_of now part self.old }
    {
        self.queue[self.waiting] = Instance::new(self.fdtid, part);
        self.waiting += 1;
        self.fdtid = (self.fdtid + 1) % FDT_IDS;
        self.last_publish = Time::at(now);
    }

    // The part waits under the current id; where the queue is full, nothing changes.
    pub fn publish(&mut self, now: u64, part: Part)
        requires { ValidAnnouncer self.old }
        ensures { self.new ≡ published_of now part self.old }
    {
        if self.waiting < WAITING_FDTS {
            self.queue_up(now, part);
        }
    }

    // The front of the queue, if any, becomes current.
    fn take_front(&mut self)
        ensures { self.new ≡ front_of self.old }
    {
        if self.waiting == 0 {
            return;
        }
        self.current = self.queue[0];
        self.has_current = true;
        close_gap(&mut self.queue, 0, no_fdt());
        self.waiting -= 1;
    }

    // The current one starts if it may.
    fn start_current(&mut self, plan: Plan, now: u64) -> bool
        ensures { (taken : Bool) → start_of plan now taken self.old ≡ record { taken = taken; starts = result; announcer = self.new } }
    {
        if !self.has_current || !plan.may_start_now(self.current.life, now) {
            return false;
        }
        self.current.start(plan, now);
        true
    }

    // Is an FDT being transferred?
    fn is_transferring(&self) -> bool
        ensures { result ≡ transferring_of self.now }
    {
        self.has_current && self.current.life.transferring
    }

    // Queues the draft, if a new FDT is needed and there is one, and answers whether.
    fn republish(&mut self, validity: u64, now: u64, draft: Option<Part>) -> bool
        requires { ValidAnnouncer self.old }
        ensures taken { result ≡ (needs_new_of validity now self.old && given draft) }
        ensures left { self.new ≡ republished_of validity now draft self.old }
    {
        if !self.needs_new(validity, now) {
            return false;
        }
        let Some(part) = draft else {
            return false;
        };
        self.queue_up(now, part);
        true
    }

    // The next FDT: nothing new while the current one is transferring; else republish if needed, take the front, start it if it may.
    pub fn get_next_fdt_transfer(
        &mut self,
        plan: Plan,
        validity: u64,
        now: u64,
        draft: Option<Part>,
    ) -> Next
        requires { ValidAnnouncer self.old }
        ensures { next_of plan validity now draft self.old ≡ record { taken = result.taken; starts = result.starts; announcer = self.new } }
    {
        if self.is_transferring() {
            return Next {
                taken: false,
                starts: false,
            };
        }
        let taken = self.republish(validity, now, draft);
        self.take_front();
        let starts = self.start_current(plan, now);
        Next { taken, starts }
    }

    // The current one is done. It has a carousel, so it stays current.
    pub fn fdt_transfer_done(&mut self, now: u64)
        ensures { self.new ≡ current_done now self.old }
    {
        if self.has_current {
            self.current.end(now);
        }
    }

    // Does an FDT wait?
    pub fn need_transfer_fdt(&self) -> bool
        ensures { result ≡ waits_of self.now }
    {
        self.waiting != 0
    }

    // Does a part share a byte with that of an FDT that waits?
    fn shares_waiting(&self, c: Part) -> bool
        requires { ValidAnnouncer self.now }
        ensures { result ≡ any (held_of c) (waiting_of self.now) }
    {
        self.queue[..self.waiting].iter().any(|i| shares(c, i.part))
    }

    // Does a part share a byte with that of an FDT that waits, or of the current one?
    pub fn shares_fdt(&self, c: Part) -> bool
        requires { ValidAnnouncer self.now }
        ensures { result ≡ shares_fdt_of c self.now }
    {
        self.shares_waiting(c) || self.has_current && shares(c, self.current.part)
    }

    // Is a part no good for an FDT: it ends past the store, or shares a byte with a held one?
    pub fn bad_fdt_part(&self, store: u64, c: Part) -> bool
        requires { ValidAnnouncer self.now }
        ensures { result ≡ bad_fdt_of store c self.now }
    {
        ends_past(store, c) || self.shares_fdt(c)
    }
}
