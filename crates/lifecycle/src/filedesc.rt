// One object's life: when it may start, what a start and an end note, pacing (src/sender/filedesc.rs).
ghost use Rattle.std.specs.Prelude.{◌≡◌, ◌-◌, ltb, false};
ghost use Rattle.sizes.specs.Words.{maybe};
ghost use Rattle.lifecycle.specs.Lifecycle.{expired, is_last, may_start, may_stop, too_early, round_due};
ghost use Rattle.lifecycle.specs.FileDesc.{time_of, plan_of, life_of, pace_said, no_time, time_at, no_pace, unborn_of, with_life, started_life, done_life, published_life, reset_life, plan_named, with_carousel, with_target, pace_at, ticked_of, file_new, startable_file};

use crate::parts::Part;
use sizes::limits::{LARGEST_COUNT, LARGEST_TOTAL};
use sizes::partition::{Sizes, div_ceil};

// The counts saturate: their limits are the largest numbers of their types.
const _: () = prove!(LARGEST_COUNT == u32::MAX);

const _: () = prove!(LARGEST_TOTAL == u64::MAX);

// A time that may be missing.
#[repr(C)]
#[derive(Clone, Copy)]
pub struct Time {
    pub known: bool,
    pub at: u64,
}

// Sent again: a delay after the last end, or an interval after the last start.
#[derive(Clone, Copy)]
pub enum Carousel {
    Delay(u64),
    Interval(u64),
}

// Sent as fast as can be, within a duration, by a time.
#[derive(Clone, Copy)]
pub enum Target {
    AtOnce,
    Within(u64),
    By(u64),
}

// What is asked of an object: the maximum of transfers, the carousel, the target, and whether it may be stopped at once.
#[repr(C)]
#[derive(Clone, Copy)]
pub struct Plan {
    pub most: u32,
    pub repeats: bool,
    pub from_start: bool,
    pub interval: u64,
    pub paced: bool,
    pub by_time: bool,
    pub target: u64,
    pub stop_at_once: bool,
}

// What has happened to it.
#[repr(C)]
#[derive(Clone, Copy)]
pub struct Life {
    pub published: bool,
    pub transferring: bool,
    pub count: u32,
    pub total: u64,
    pub last_start: Time,
    pub last_end: Time,
    pub named_start: Time,
}

// A held object: its number, what it is, and its life.
#[repr(C)]
#[derive(Clone, Copy)]
pub struct FileDesc {
    pub toi: u64,
    pub priority: u32,
    pub part: Part,
    pub sizes: Sizes,
    pub plan: Plan,
    pub life: Life,
}

// The due time of the next packet and the tick, where the object is paced.
#[repr(C)]
#[derive(Clone, Copy)]
pub struct Pace {
    pub paced: bool,
    pub due: u64,
    pub tick: u64,
}

impl Time {
    // No time.
    pub fn none() -> Time
        ensures { result ≡ no_time }
    {
        Time {
            known: false,
            at: 0,
        }
    }

    // This time.
    pub fn at(n: u64) -> Time
        ensures { result ≡ time_at n }
    {
        Time { known: true, at: n }
    }
}

// How much time has passed since; a clock behind counts as none.
pub fn elapsed(now: u64, since: u64) -> u64
    ensures { result ≡ now - since }
{
    now.saturating_sub(since)
}

// Is it before the time, if there is one?
fn is_before(now: u64, t: Time) -> bool
    ensures { result ≡ maybe false (λ at. ltb now at) (time_of t) }
{
    t.known && now < t.at
}

impl Plan {
    // May a new round begin?
    fn is_round_due(self, x: Life, now: u64) -> bool
        ensures { result ≡ round_due (plan_of self) now (life_of x) }
    {
        if !self.repeats {
            return true;
        }
        if !x.last_end.known {
            return true;
        }
        if !x.last_start.known {
            return true;
        }
        if self.from_start {
            return self.interval < elapsed(now, x.last_start.at);
        }
        self.interval < elapsed(now, x.last_end.at)
    }

    // May a transfer start now?
    pub fn may_start_now(self, x: Life, now: u64) -> bool
        ensures { result ≡ may_start (plan_of self) now (life_of x) }
    {
        if !x.published {
            return false;
        }
        let start = x.named_start;
        if is_before(now, start) {
            return false;
        }
        if x.count < self.most {
            return true;
        }
        self.is_round_due(x, now)
    }
}

impl Plan {
    // What is asked, put together from its parts.
    pub fn new(most: u32, carousel: Option<Carousel>, target: Target, stop_at_once: bool) -> Plan
        ensures { result ≡ plan_named most carousel target stop_at_once }
    {
        let plain = Plan {
            most,
            repeats: false,
            from_start: false,
            interval: 0,
            paced: false,
            by_time: false,
            target: 0,
            stop_at_once,
        };
        plain.with_carousel(carousel).with_target(target)
    }

    fn with_carousel(mut self, c: Option<Carousel>) -> Plan
        ensures { result ≡ with_carousel self c }
    {
        match c {
            None => {}
            Some(Carousel::Delay(d)) => {
                self.repeats = true;
                self.interval = d;
            }
            Some(Carousel::Interval(d)) => {
                self.repeats = true;
                self.from_start = true;
                self.interval = d;
            }
        }
        self
    }

    fn with_target(mut self, t: Target) -> Plan
        ensures { result ≡ with_target self t }
    {
        match t {
            Target::AtOnce => {}
            Target::Within(d) => {
                self.paced = true;
                self.target = d;
            }
            Target::By(at) => {
                self.paced = true;
                self.by_time = true;
                self.target = at;
            }
        }
        self
    }

    // The pace of a transfer of l bytes in symbols of e that starts now: the first packet is due at once.
    fn pace(self, now: u64, l: u64, e: u64) -> Pace
        ensures { result ≡ pace_at self now l e }
    {
        if !self.paced {
            return Pace::none();
        }
        let packets = div_ceil(l, e).max(1);
        if self.by_time {
            return Pace {
                paced: true,
                due: now,
                tick: elapsed(self.target, now) / packets,
            };
        }
        Pace {
            paced: true,
            due: now,
            tick: self.target / packets,
        }
    }
}

impl Pace {
    // No pace: each packet is due at once.
    pub fn none() -> Pace
        ensures { result ≡ no_pace }
    {
        Pace {
            paced: false,
            due: 0,
            tick: 0,
        }
    }

    // A packet moves the due time by one tick, unless the sum passes 64 bits.
    pub fn ticked(self) -> Pace
        ensures { result ≡ ticked_of self }
    {
        if !self.paced {
            return self;
        }
        if u64::MAX - self.due < self.tick {
            return self;
        }
        Pace {
            due: self.due + self.tick,
            ..self
        }
    }

    // Is it before the due time?
    pub fn is_early(self, now: u64) -> bool
        ensures { result ≡ too_early now (pace_said self) }
    {
        self.paced && now < self.due
    }
}

impl FileDesc {
    // An object that nothing has happened to yet.
    pub fn new(
        toi: u64,
        priority: u32,
        part: Part,
        sizes: Sizes,
        plan: Plan,
        start: Time,
    ) -> FileDesc
        ensures { result ≡ file_new toi priority part sizes plan start }
    {
        FileDesc {
            toi,
            priority,
            part,
            sizes,
            plan,
            life: Life::new(start),
        }
    }

    // A transfer starts.
    pub fn transfer_started(&mut self, now: u64)
        ensures { self.new ≡ with_life self.old (started_life self.old.plan now self.old.life) }
    {
        self.life.start(self.plan, now);
    }

    // A transfer has ended.
    pub fn transfer_done(&mut self, now: u64)
        ensures { self.new ≡ with_life self.old (done_life now self.old.life) }
    {
        self.life.end(now);
    }

    pub fn set_published(&mut self)
        ensures { self.new ≡ with_life self.old (published_life self.old.life) }
    {
        self.life.published = true;
    }

    // Both last times are forgotten, and the named start is set if there is one.
    pub fn reset_last_transfer(&mut self, start: Time)
        ensures { self.new ≡ with_life self.old (reset_life start self.old.life) }
    {
        self.life.reset(start);
    }

    // Is the maximum of transfers reached, with no carousel?
    pub fn is_expired(&self) -> bool
        ensures { result ≡ expired (plan_of self.now.plan) (life_of self.now.life) }
    {
        self.plan.most <= self.life.count && !self.plan.repeats
    }

    // Is the transfer under way the last one?
    pub fn is_last_transfer(&self) -> bool
        ensures { result ≡ is_last (plan_of self.now.plan) (life_of self.now.life) }
    {
        if self.plan.repeats {
            return false;
        }
        if self.plan.most == 0 {
            return false;
        }
        self.plan.most - 1 == self.life.count
    }

    // May a session of this priority start it now?
    pub fn should_transfer_now(&self, priority: u32, at: u64) -> bool
        ensures { result ≡ startable_file priority at self.now }
    {
        self.priority == priority
            && !self.life.transferring
            && self.plan.may_start_now(self.life, at)
    }

    // May its transfer be cut short: allowed at once, or sent before?
    pub fn can_transfer_be_stopped(&self) -> bool
        ensures { result ≡ may_stop (plan_of self.now.plan) (life_of self.now.life) }
    {
        self.plan.stop_at_once || 0 < self.life.total
    }

    // The pace of its next transfer, which starts now.
    pub fn pace_from(&self, at: u64) -> Pace
        ensures { result ≡ pace_at self.now.plan at self.now.part.size self.now.sizes.e }
    {
        self.plan.pace(at, self.part.size, self.sizes.e)
    }
}

impl Life {
    // Nothing has happened yet.
    pub fn new(named_start: Time) -> Life
        ensures { result ≡ unborn_of named_start }
    {
        Life {
            published: false,
            transferring: false,
            count: 0,
            total: 0,
            last_start: Time::none(),
            last_end: Time::none(),
            named_start,
        }
    }

    // A transfer starts.
    pub fn start(&mut self, r: Plan, now: u64)
        ensures { self.new ≡ started_life r now self.old }
    {
        self.transferring = true;
        self.last_start = Time::at(now);
        if r.repeats && self.count == r.most {
            self.count = 0;
        }
    }

    // A transfer has ended. The counts stop at their largest numbers.
    pub fn end(&mut self, now: u64)
        ensures { self.new ≡ done_life now self.old }
    {
        self.transferring = false;
        self.count = self.count.saturating_add(1);
        self.total = self.total.saturating_add(1);
        self.last_end = Time::at(now);
    }

    // Both last times are forgotten, and the named start is set if there is one.
    fn reset(&mut self, start: Time)
        ensures { self.new ≡ reset_life start self.old }
    {
        self.last_start = Time::none();
        self.last_end = Time::none();
        if start.known {
            self.named_start = start;
        }
    }
}
