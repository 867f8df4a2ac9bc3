// Set-up: what is named once, its ranges, and the sender before the first call.
ghost use Rattle.std.specs.Prelude.{◌≡◌, ◌<◌, ◌≤◌};
ghost use Rattle.sizes.specs.Limits.{most_sessions, largest_fdt_id};
ghost use Rattle.sizes.specs.Allocator.{bits};
ghost use Rattle.lifecycle.specs.Setup.{sound};
ghost use Rattle.sender.specs.SetupCalls.{setup_said, is_interval, interval_in, settings_of, priority_at, opening_sender, Opens};

use crate::fdtsession::FdtSession;
use crate::sender::Sender;
use crate::sendersession::SenderSession;
use lifecycle::fdt::{Fdt, Settings, are_sound_sizes, is_within};
use lifecycle::filedesc::Carousel;
use sizes::limits::{
    LARGEST_NAMED_COUNT, LARGEST_NAMED_ID, LARGEST_NAMED_WINDOW, LONGEST_STORE, MOST_SESSIONS,
};
use sizes::partition::Sizes;
use sizes::refusal::Refusal;
use sizes::toiallocator::{ToiAllocator, ToiMaxLength};

// What is named once. Priorities are those of the first `count` sessions.
#[derive(Clone, Copy)]
pub struct Setup {
    pub sizes: Sizes,
    pub window: u64,
    pub count: u64,
    pub priorities: [u32; MOST_SESSIONS],
    pub width: u64,
    pub first_toi: u64,
    pub first_fdt_id: u64,
    pub validity: u64,
    pub carousel: Carousel,
    pub object_store: u64,
    pub fdt_store: u64,
}

impl Setup {
    // The priority of session i; zero past the sessions in use.
    #[tactic(auto, unfolding(crate::specs::SetupCalls::priority_at))]
    fn priority(&self, i: usize) -> u32
        requires { i < most_sessions }
        ensures { result ≡ priority_at self.now.priorities self.now.count i }
    {
        if (i as u64) < self.count {
            self.priorities[i]
        } else {
            0
        }
    }
}

// Is every number in its range? Every u32 is a priority.
fn is_sound(z: Setup) -> bool
    ensures { result ≡ sound (setup_said z) }
{
    is_within(1, LARGEST_NAMED_COUNT, z.count)
        && is_within(1, LARGEST_NAMED_WINDOW, z.window)
        && are_sound_sizes(z.sizes)
        && z.object_store <= LONGEST_STORE
        && z.fdt_store <= LONGEST_STORE
        && ToiMaxLength::try_from(z.width).is_ok()
        && z.first_fdt_id <= LARGEST_NAMED_ID
}

// Does the carousel count from the last start?
fn is_interval(c: Carousel) -> bool
    ensures { result ≡ is_interval c }
{
    matches!(c, Carousel::Interval(_))
}

fn interval_in(c: Carousel) -> u64
    ensures { result ≡ interval_in c }
{
    match c {
        Carousel::Delay(d) => d,
        Carousel::Interval(d) => d,
    }
}

// What the list is told of it.
impl From<Setup> for Settings {
    ghost from_gives = { λ z r. r ≡ settings_of z };

    fn from(z: Setup) -> Settings {
        Settings {
            object_store: z.object_store,
            fdt_store: z.fdt_store,
            sizes: z.sizes,
            validity: z.validity,
            from_start: is_interval(z.carousel),
            interval: interval_in(z.carousel),
        }
    }
}

// The sender before the first call: nothing is held, and every session is idle.
fn open(z: &Setup, w: ToiMaxLength) -> Sender
    requires { (z.now.width ≡ bits w) × (z.now.first_fdt_id ≤ largest_fdt_id) }
    ensures { result ≡ opening_sender z.now }
{
    let tois = ToiAllocator::new(w, z.first_toi);
    Sender {
        fdt: Fdt::new(Settings::from(*z), tois, z.first_fdt_id as u32),
        window: z.window as usize,
        count: z.count as usize,
        sessions: [
            SenderSession::idle(z.priority(0)),
            SenderSession::idle(z.priority(1)),
            SenderSession::idle(z.priority(2)),
            SenderSession::idle(z.priority(3)),
        ],
        fdt_session: FdtSession::idle(),
    }
}

// The sender, where every number is in its range.
pub fn set_up(z: Setup) -> Result<Sender, Refusal>
    ensures { Opens z result }
{
    let w = ToiMaxLength::try_from(z.width)?;
    if !is_sound(z) {
        return Err(Refusal::SetUp);
    }
    Ok(open(&z, w))
}
