// The objects that are held, the queue of those that wait, their numbers, and the FDT side (src/sender/fdt.rs).
ghost use Rattle.std.specs.Prelude.{◌≡◌, ◌<◌, eqb};
ghost use Rattle.sizes.specs.Words.{place, within};
ghost use Rattle.sizes.specs.Limits.{object_slots};
ghost use Rattle.lifecycle.specs.Setup.{sound_sizes, bad_blocks};
ghost use Rattle.lifecycle.specs.FdtCalls.{waiting, own_of, bad_part_of, put_of, reserved_of, released_of, fresh_of, named_of, added_of, is_added_of, transfers_of, unlisted_of, freed_of, removed_of, triggered_of, taken_at, taken_of, back_of, let_go_of, done_of, completed_of, ValidFdt};
ghost use Rattle.lifecycle.specs.Slots.{slot_at, queue_startable};
ghost use Rattle.lifecycle.specs.Announce.{waits_of};
ghost use Rattle.lifecycle.specs.FdtCalls.{with_published as announced_of, opening_fdt, publish_of, draft_said, real_draft, draft_test_of, next_fdt_of, fdt_done_of};

use crate::announce::{Announcer, Next, fdt_plan};
use crate::filedesc::{FileDesc, Plan, Time};
use crate::parts::{Part, ends_past};
use crate::slots::{Slot, any_shares, free_slot, listed_slot, mark_published, no_slot};
use sizes::gap::close_gap;
use sizes::limits::{LARGEST_BLOCK, LARGEST_SYMBOL, MOST_BLOCKS, OBJECT_SLOTS, WAITING_FDTS};
use sizes::partition::{Sizes, block_partitioning};
use sizes::refusal::Refusal;
use sizes::toiallocator::ToiAllocator;

// What the set-up names once: the stores' lengths, E and B, and the FDTs' validity and carousel.
#[repr(C)]
#[derive(Clone, Copy)]
pub struct Settings {
    pub object_store: u64,
    pub fdt_store: u64,
    pub sizes: Sizes,
    pub validity: u64,
    pub from_start: bool,
    pub interval: u64,
}

// The list: held objects in slots, the queue of those that wait (the first `queued`, in order), the numbers and the FDTs.
#[repr(C)]
#[derive(Clone, Copy)]
pub struct Fdt {
    pub settings: Settings,
    pub complete: bool,
    pub tois: ToiAllocator,
    pub slots: [Slot; OBJECT_SLOTS],
    pub queue: [usize; OBJECT_SLOTS],
    pub queued: usize,
    pub announcer: Announcer,
}

// What an add asks for. Without E and B of its own, an object has the set-up's.
#[derive(Clone, Copy)]
pub struct Request {
    pub priority: u32,
    pub part: Part,
    pub own: Option<Sizes>,
    pub plan: Plan,
    pub start: Time,
}

// A draft of length 0 is none.
pub fn real_draft(draft: Option<Part>) -> Option<Part>
    ensures { result ≡ real_draft draft }
{
    draft.filter(|c| c.size != 0)
}

// Is the number in a range?
pub fn is_within(low: u64, high: u64, n: u64) -> bool
    ensures { result ≡ within low high n }
{
    low <= n && n <= high
}

// Are E and B in their ranges?
pub fn are_sound_sizes(z: Sizes) -> bool
    ensures { result ≡ sound_sizes z }
{
    is_within(1, LARGEST_SYMBOL, z.e) && is_within(1, LARGEST_BLOCK, z.b)
}

// Are E, B or the block count of l bytes out of range?
pub fn are_bad_blocks(z: Sizes, l: u64) -> bool
    ensures { result ≡ bad_blocks z l }
{
    !are_sound_sizes(z) || MOST_BLOCKS < block_partitioning(z.b, l, z.e).blocks
}

// An object's own E and B, or the set-up's.
fn own_sizes(own: Option<Sizes>, z: Sizes) -> Sizes
    ensures { result ≡ own_of own z }
{
    own.unwrap_or(z)
}

impl Fdt {
    // May a session of this priority start the object in slot k?
    fn may_start(&self, k: usize, priority: u32, at: u64) -> bool
        ensures { result ≡ queue_startable self.now.slots priority at k }
    {
        k < OBJECT_SLOTS && self.slots[k].file.should_transfer_now(priority, at)
    }

    // The place in the queue of the first object that a session of this priority may start.
    fn first_startable(&self, priority: u32, at: u64) -> Option<usize>
        requires { ValidFdt self.now }
        ensures { result ≡ place (queue_startable self.now.slots priority at) (waiting self.now) }
    {
        self.queue[..self.queued]
            .iter()
            .position(|k| self.may_start(*k, priority, at))
    }

    // The place of a slot in the queue.
    fn queue_place(&self, slot: usize) -> Option<usize>
        requires { ValidFdt self.now }
        ensures { result ≡ place (λ k. eqb k slot) (waiting self.now) }
    {
        self.queue[..self.queued].iter().position(|k| *k == slot)
    }

    // Does the part end past the object store, or share a byte with a held object?
    fn is_bad_part(&self, c: Part) -> bool
        ensures { result ≡ bad_part_of self.now c }
    {
        ends_past(self.settings.object_store, c) || any_shares(&self.slots, c)
    }

    // A number is reserved.
    pub fn allocate_toi(&mut self) -> Result<u64, Refusal>
        requires { ValidFdt self.old }
        ensures { reserved_of self.old ≡ record { answer = result; fdt = self.new } }
    {
        self.tois.allocate(true)
    }

    // A loose reservation is let go.
    pub fn release_toi(&mut self, toi: u64) -> Result<(), Refusal>
        requires { ValidFdt self.old }
        ensures { released_of toi self.old ≡ record { answer = result; fdt = self.new } }
    {
        self.tois.release(toi)
    }

    // A new object in slot k, at the queue's end.
    fn put(&mut self, k: usize, toi: u64, q: Request, z: Sizes)
        requires { (k < object_slots) × (self.old.queued < object_slots) }
        ensures { self.new ≡ put_of self.old k toi q z }
    {
        self.slots[k] = Slot {
            holders: 1,
            listed: true,
            file: FileDesc::new(toi, q.priority, q.part, z, q.plan, q.start),
        };
        self.queue[self.queued] = k;
        self.queued += 1;
    }

    // An add that names a reservation.
    fn add_named(&mut self, q: Request, z: Sizes, toi: u64) -> Result<u64, Refusal>
        requires { ValidFdt self.old }
        ensures { named_of self.old q z toi ≡ record { answer = result; fdt = self.new } }
    {
        if !self.tois.is_loose(toi) {
            return Err(Refusal::NotLoose);
        }
        let k = free_slot(&self.slots).ok_or(Refusal::Full)?;
        self.tois.claim(toi)?;
        self.put(k, toi, q, z);
        Ok(toi)
    }

    // An add that names no reservation.
    fn add_fresh(&mut self, q: Request, z: Sizes) -> Result<u64, Refusal>
        requires { ValidFdt self.old }
        ensures { fresh_of self.old q z ≡ record { answer = result; fdt = self.new } }
    {
        let k = free_slot(&self.slots).ok_or(Refusal::Full)?;
        let toi = self.tois.allocate(false)?;
        self.put(k, toi, q, z);
        Ok(toi)
    }

    // An object is admitted, or refused by the first reason of 3 to 7. Whether a session has its priority (2) is asked above.
    pub fn add_object(&mut self, q: Request, named: Option<u64>) -> Result<u64, Refusal>
        requires { ValidFdt self.old }
        ensures { added_of self.old q named ≡ record { answer = result; fdt = self.new } }
    {
        if self.complete {
            return Err(Refusal::Complete);
        }
        let z = own_sizes(q.own, self.settings.sizes);
        if are_bad_blocks(z, q.part.size) {
            return Err(Refusal::Sizes);
        }
        if self.is_bad_part(q.part) {
            return Err(Refusal::Part);
        }
        match named {
            Some(toi) => self.add_named(q, z, toi),
            None => self.add_fresh(q, z),
        }
    }

    // Is there a listed object with this number?
    pub fn is_added(&self, toi: u64) -> bool
        ensures { result ≡ is_added_of toi self.now }
    {
        listed_slot(&self.slots, toi).is_some()
    }

    // The total transfers of the listed object with this number.
    pub fn nb_transfers(&self, toi: u64) -> Option<u64>
        requires { ValidFdt self.now }
        ensures { result ≡ transfers_of toi self.now }
    {
        let k = listed_slot(&self.slots, toi)?;
        Some(self.slots[k].file.life.total)
    }

    // The list lets go of slot k, which a session sends.
    fn unlist(&mut self, k: usize)
        requires { ValidFdt self.old × (k < object_slots) × (0 < (slot_at self.old.slots k).holders) }
        ensures { self.new ≡ unlisted_of self.old k }
    {
        self.slots[k].holders -= 1;
        self.slots[k].listed = false;
    }

    // Slot k, which waits at place n of the queue, is free.
    fn free(&mut self, toi: u64, k: usize, n: usize)
        requires { ValidFdt self.old × (k < object_slots) × (n < self.old.queued) }
        ensures { self.new ≡ freed_of self.old toi k n }
    {
        let _ = self.tois.free(toi);
        close_gap(&mut self.queue, n, 0);
        self.queued -= 1;
        self.slots[k] = no_slot();
    }

    // The listed object with this number leaves the list; a session that sends it keeps it.
    pub fn remove_object(&mut self, toi: u64) -> bool
        requires { ValidFdt self.old }
        ensures { removed_of toi self.old ≡ record { yes = result; fdt = self.new } }
    {
        let Some(k) = listed_slot(&self.slots, toi) else {
            return false;
        };
        if self.slots[k].file.life.transferring {
            self.unlist(k);
        } else if let Some(n) = self.queue_place(k) {
            self.free(toi, k, n);
        }
        true
    }

    // A listed object that is not in transfer may start anew.
    pub fn trigger_transfer_at(&mut self, toi: u64, start: Time) -> bool
        requires { ValidFdt self.old }
        ensures { triggered_of toi start self.old ≡ record { yes = result; fdt = self.new } }
    {
        let Some(k) = listed_slot(&self.slots, toi) else {
            return false;
        };
        if !self.slots[k].file.life.transferring {
            self.slots[k].file.reset_last_transfer(start);
        }
        true
    }

    // No object is added any more.
    pub fn set_complete(&mut self)
        ensures { self.new ≡ completed_of self.old }
    {
        self.complete = true;
    }

    // Slot k, at place n of the queue, is taken by a session.
    fn take(&mut self, now: u64, n: usize, k: usize)
        requires { ValidFdt self.old × (k < object_slots) × (n < self.old.queued) }
        ensures { self.new ≡ taken_at now self.old n k }
    {
        self.slots[k].file.transfer_started(now);
        self.slots[k].holders += 1;
        close_gap(&mut self.queue, n, 0);
        self.queued -= 1;
    }

    // The first object in the queue that a session of this priority may start, taken.
    pub fn get_next_file_transfer(&mut self, priority: u32, now: u64) -> Option<usize>
        requires { ValidFdt self.old }
        ensures { taken_of priority now self.old ≡ record { answer = result; fdt = self.new } }
    {
        let n = self.first_startable(priority, now)?;
        let k = self.queue[n];
        self.take(now, n, k);
        Some(k)
    }

    // Slot k, whose transfer has ended, goes to the queue's end.
    fn put_back(&mut self, now: u64, k: usize)
        requires { ValidFdt self.old × (k < object_slots) × (self.old.queued < object_slots) × (0 < (slot_at self.old.slots k).holders) }
        ensures { self.new ≡ back_of now self.old k }
    {
        self.slots[k].file.transfer_done(now);
        self.slots[k].holders -= 1;
        self.queue[self.queued] = k;
        self.queued += 1;
    }

    // Slot k is free, and its number too.
    fn let_go(&mut self, k: usize)
        requires { ValidFdt self.old × (k < object_slots) }
        ensures { self.new ≡ let_go_of self.old k }
    {
        let _ = self.tois.free(self.slots[k].file.toi);
        self.slots[k] = no_slot();
    }

    // The session that sends slot k is done with it: it is sent again, or let go.
    pub fn transfer_done(&mut self, k: usize, now: u64)
        requires { ValidFdt self.old }
        ensures { self.new ≡ done_of now k self.old }
    {
        if OBJECT_SLOTS <= k || !self.slots[k].file.life.transferring {
            return;
        }
        let mut sent = self.slots[k].file;
        sent.transfer_done(now);
        if self.slots[k].listed && !sent.is_expired() {
            self.put_back(now, k);
        } else {
            self.let_go(k);
        }
    }

    // Nothing is held, and nothing waits.
    pub fn new(settings: Settings, tois: ToiAllocator, first_id: u32) -> Fdt
        ensures { result ≡ opening_fdt settings tois first_id }
    {
        Fdt {
            settings,
            complete: false,
            tois,
            slots: [no_slot(); OBJECT_SLOTS],
            queue: [0; OBJECT_SLOTS],
            queued: 0,
            announcer: Announcer::new(first_id),
        }
    }

    // The part is queued as the next FDT, or refused by the first reason of 4, 5 and 7.
    pub fn publish(&mut self, now: u64, c: Part) -> Result<(), Refusal>
        requires { ValidFdt self.old }
        ensures { publish_of now c self.old ≡ record { answer = result; fdt = self.new } }
    {
        self.test_draft(Some(c))?;
        if c.size == 0 {
            return Err(Refusal::Part);
        }
        if WAITING_FDTS <= self.announcer.waiting {
            return Err(Refusal::Full);
        }
        self.announcer.publish(now, c);
        mark_published(&mut self.slots);
        Ok(())
    }

    // Is a draft good for an FDT run? One that is missing is not looked at.
    pub fn test_draft(&self, draft: Option<Part>) -> Result<(), Refusal>
        requires { ValidFdt self.now }
        ensures { draft_said result ≡ draft_test_of draft self.now }
    {
        let Some(c) = draft else {
            return Ok(());
        };
        if are_bad_blocks(self.settings.sizes, c.size) {
            return Err(Refusal::Sizes);
        }
        if self.announcer.bad_fdt_part(self.settings.fdt_store, c) {
            return Err(Refusal::Part);
        }
        Ok(())
    }

    // Does an FDT wait? Then file sessions answer nothing.
    pub fn need_transfer_fdt(&self) -> bool
        ensures { result ≡ waits_of self.now.announcer }
    {
        self.announcer.need_transfer_fdt()
    }

    // The next FDT, with a draft that is good or missing. A draft that is taken marks every listed object published.
    pub fn get_next_fdt_transfer(&mut self, now: u64, draft: Option<Part>) -> Next
        requires { ValidFdt self.old }
        ensures { next_fdt_of now draft self.old ≡ record { taken = result.taken; starts = result.starts; fdt = self.new } }
    {
        let plan = fdt_plan(self.settings.from_start, self.settings.interval);
        let next = self
            .announcer
            .get_next_fdt_transfer(plan, self.settings.validity, now, draft);
        if next.taken {
            mark_published(&mut self.slots);
        }
        next
    }

    // The FDT session is done with the current FDT.
    pub fn fdt_transfer_done(&mut self, now: u64)
        ensures { self.new ≡ fdt_done_of now self.old }
    {
        self.announcer.fdt_transfer_done(now);
    }
}
