// The allocator of object numbers (src/sender/toiallocator.rs).
ghost use Rattle.std.specs.Prelude.{◌≡◌, ◌+◌, ◌-◌, ◌%◌, ◌^◌, ◌<◌, true, false};
ghost use Rattle.sizes.specs.Words.{has, place};
ghost use Rattle.sizes.specs.Limits.{toi_entries};
ghost use Rattle.sizes.specs.Toi.{skip_zero, next_toi};
ghost use Rattle.sizes.specs.Toi.{after as toi_after};
ghost use Rattle.sizes.specs.Allocator.{loose as allocator_loose};
ghost use Rattle.sizes.specs.Allocator.{bits, width_told, Width, held, noted, entry_is, Searchable, noting, claimed_of, dropped_of, ValidAllocator, Opened, Gives, Becomes};

use crate::gap::close_gap;
use crate::limits::TOI_ENTRIES;
use crate::refusal::Refusal;

// How wide the numbers are.
#[derive(Clone, Copy)]
pub enum ToiMaxLength {
    ToiMax16 = 16,
    ToiMax32 = 32,
    ToiMax48 = 48,
    ToiMax64 = 64,
}

impl TryFrom<u64> for ToiMaxLength {
    type Error = Refusal;

    ghost try_from_gives = { λ n r. r ≡ width_told n };

    // The width of so many bits; no other number is one.
    #[tactic(auto, unfolding(crate::specs::Allocator::width_said))]
    fn try_from(n: u64) -> Result<Self, Refusal> {
        match n {
            16 => Ok(ToiMaxLength::ToiMax16),
            32 => Ok(ToiMaxLength::ToiMax32),
            48 => Ok(ToiMaxLength::ToiMax48),
            64 => Ok(ToiMaxLength::ToiMax64),
            _ => Err(Refusal::SetUp),
        }
    }
}

// A number that is held: by a loose reservation, or by an object.
#[repr(C)]
#[derive(Clone, Copy, PartialEq, Eq)]
pub struct Entry {
    pub toi: u64,
    pub loose: bool,
}

// An entry that is not in use.
const NO_ENTRY: Entry = Entry {
    toi: 0,
    loose: false,
};

// The entries in use are the first `entered`; `next` is the number that the next call gives.
#[repr(C)]
#[derive(Clone, Copy)]
pub struct ToiAllocator {
    pub entries: [Entry; TOI_ENTRIES],
    pub entered: usize,
    pub next: u64,
    pub width: u32,
}

// How many bits the numbers have.
fn bits_of(w: ToiMaxLength) -> u32
    ensures { result ≡ bits w }
{
    w as u32
}

// The number cut to a width.
fn to_max_length(width: u32, n: u64) -> u64
    requires { Width width }
    ensures { result ≡ n % 2 ^ width }
{
    match width {
        16 => n % 0x1_0000,
        32 => n % 0x1_0000_0000,
        48 => n % 0x1_0000_0000_0000,
        _ => n,
    }
}

// 0, which is the FDT's number, becomes 1.
fn nonzero(n: u64) -> u64
    ensures { result ≡ skip_zero n }
{
    if n == 0 { 1 } else { n }
}

// The number after n. At width 64 the sum wraps, on purpose.
fn after(width: u32, n: u64) -> u64
    requires { Width width }
    ensures { result ≡ toi_after width n }
{
    nonzero(to_max_length(width, n.wrapping_add(1)))
}

impl ToiAllocator {
    // Nothing is held, and the first number is `first`, cut to the width; 0 becomes 1.
    pub fn new(w: ToiMaxLength, first: u64) -> ToiAllocator
        ensures { Opened w first result }
    {
        let width = bits_of(w);
        let next = nonzero(to_max_length(width, nonzero(first)));
        ToiAllocator {
            entries: [NO_ENTRY; TOI_ENTRIES],
            entered: 0,
            next,
            width,
        }
    }

    // Is the number among the entries in use?
    fn has_entry(&self, toi: u64) -> bool
        requires { Searchable self.now }
        ensures { result ≡ has toi (held self.now) }
    {
        self.entries[..self.entered].iter().any(|e| e.toi == toi)
    }

    // Where the entry of a loose reservation (or of an object) with this number stands.
    fn find(&self, toi: u64, loose: bool) -> Option<usize>
        requires { ValidAllocator self.now }
        ensures { result ≡ place (entry_is toi loose) (noted self.now) }
    {
        let sought = Entry { toi, loose };
        self.entries[..self.entered]
            .iter()
            .position(|e| *e == sought)
    }

    // Is the number that of a loose reservation?
    pub fn is_loose(&self, toi: u64) -> bool
        requires { ValidAllocator self.now }
        ensures { result ≡ has toi (allocator_loose self.now) }
    {
        self.find(toi, true).is_some()
    }

    // The stored next number is one entry more.
    fn note(&mut self, loose: bool)
        requires { self.old.entered < toi_entries }
        ensures { self.new ≡ noting loose self.old }
    {
        self.entries[self.entered] = Entry {
            toi: self.next,
            loose,
        };
        self.entered += 1;
    }

    // The first number after `next` that is not held.
    fn next_free(&self) -> u64
        requires { Searchable self.now }
        ensures { result ≡ next_toi self.now.width (held self.now) self.now.next }
    {
        let mut n = after(self.width, self.next);
        for _ in 0..self.entered {
            if !self.has_entry(n) {
                return n;
            }
            n = after(self.width, n);
        }
        n
    }

    // Gives the stored next number to a reservation (loose) or to an object, and goes on to the next that is not held.
    pub fn allocate(&mut self, loose: bool) -> Result<u64, Refusal>
        requires { ValidAllocator self.old }
        ensures { Gives loose self.old (record { answer = result; allocator = self.new }) }
    {
        if TOI_ENTRIES <= self.entered {
            return Err(Refusal::Full);
        }
        let toi = self.next;
        self.note(loose);
        self.next = self.next_free();
        Ok(toi)
    }

    // A loose reservation becomes an object's number.
    pub fn claim(&mut self, toi: u64) -> Result<(), Refusal>
        requires { ValidAllocator self.old }
        ensures { Becomes (claimed_of toi self.old) (record { answer = result; allocator = self.new }) }
    {
        let at = self.find(toi, true).ok_or(Refusal::NotLoose)?;
        self.entries[at].loose = false;
        Ok(())
    }

    // The entry of a loose reservation (or of an object) goes. `next` stays.
    fn drop_entry(&mut self, toi: u64, loose: bool) -> Result<(), Refusal>
        requires { ValidAllocator self.old }
        ensures { Becomes (dropped_of loose toi self.old) (record { answer = result; allocator = self.new }) }
    {
        let at = self.find(toi, loose).ok_or(Refusal::NotLoose)?;
        close_gap(&mut self.entries, at, NO_ENTRY);
        self.entered -= 1;
        Ok(())
    }

    // A loose reservation is let go. `next` stays.
    pub fn release(&mut self, toi: u64) -> Result<(), Refusal>
        requires { ValidAllocator self.old }
        ensures { Becomes (dropped_of true toi self.old) (record { answer = result; allocator = self.new }) }
    {
        self.drop_entry(toi, true)
    }

    // An object's number is let go. `next` stays.
    pub fn free(&mut self, toi: u64) -> Result<(), Refusal>
        requires { ValidAllocator self.old }
        ensures { Becomes (dropped_of false toi self.old) (record { answer = result; allocator = self.new }) }
    {
        self.drop_entry(toi, false)
    }
}
