// The slots of held objects: the searches over them, and marking the listed ones published.
ghost use Rattle.std.specs.Prelude.{◌≡◌, map};
ghost use Rattle.sizes.specs.Words.{place, any};
ghost use Rattle.lifecycle.specs.Slots.{no_slot, is_free, is_listed_as, holds_byte, published_slot};

use crate::filedesc::{FileDesc, Plan, Target, Time};
use crate::parts::{Part, shares};
use sizes::partition::Sizes;

// A held object: how many hold it (the list, a session), and whether the list does.
#[repr(C)]
#[derive(Clone, Copy)]
pub struct Slot {
    pub holders: u32,
    pub listed: bool,
    pub file: FileDesc,
}

// A slot with nothing in it: all zeros.
pub fn no_slot() -> Slot
    ensures { result ≡ no_slot }
{
    let part = Part { start: 0, size: 0 };
    let sizes = Sizes { e: 0, b: 0 };
    let plan = Plan::new(0, None, Target::AtOnce, false);
    Slot {
        holders: 0,
        listed: false,
        file: FileDesc::new(0, 0, part, sizes, plan, Time::none()),
    }
}

impl Slot {
    // Does nobody hold it?
    fn is_free(&self) -> bool
        ensures { result ≡ is_free self.now }
    {
        self.holders == 0
    }

    // Is it the listed object with this number?
    fn is_listed_as(&self, toi: u64) -> bool
        ensures { result ≡ is_listed_as toi self.now }
    {
        self.listed && self.file.toi == toi
    }

    // Is it a held object that shares a byte with the part?
    fn holds_byte(&self, c: Part) -> bool
        ensures { result ≡ holds_byte c self.now }
    {
        !self.is_free() && shares(c, self.file.part)
    }

    // A listed object is published from now on.
    fn publish(&mut self)
        ensures { self.new ≡ published_slot self.old }
    {
        if self.listed {
            self.file.set_published();
        }
    }
}

// The first free slot.
pub fn free_slot(slots: &[Slot]) -> Option<usize>
    ensures { result ≡ place is_free slots.now }
{
    slots.iter().position(|s| s.is_free())
}

// The slot of the listed object with this number.
pub fn listed_slot(slots: &[Slot], toi: u64) -> Option<usize>
    ensures { result ≡ place (is_listed_as toi) slots.now }
{
    slots.iter().position(|s| s.is_listed_as(toi))
}

// Does a held object share a byte with the part?
pub fn any_shares(slots: &[Slot], c: Part) -> bool
    ensures { result ≡ any (holds_byte c) slots.now }
{
    slots.iter().any(|s| s.holds_byte(c))
}

// Every listed object is published.
pub fn mark_published(slots: &mut [Slot])
    ensures { slots.new ≡ map published_slot slots.old }
{
    for s in slots.iter_mut() {
        s.publish();
    }
}
