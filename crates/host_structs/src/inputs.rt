// What the host names: numbers and plain structs.
ghost use Rattle.std.specs.Prelude.{◌≡◌};
ghost use Rattle.host_structs.specs.Inputs.{carousel_in, target_in, own_in, object_in, named_in, fdt_carousel_in, setup_in};

use lifecycle::filedesc::{Carousel, Plan, Target, Time};
use lifecycle::parts::Part;
use sender::sender::Object;
use sender::setup::Setup;
use sizes::limits::MOST_SESSIONS;
use sizes::partition::Sizes;

// An object to add: with its own E and B where `own`, under the reservation `toi` where `named`.
#[repr(C)]
#[derive(Clone, Copy)]
pub struct PlainObject {
    pub priority: u32,
    pub part: Part,
    pub own: bool,
    pub sizes: Sizes,
    pub plan: Plan,
    pub start: Time,
    pub named: bool,
    pub toi: u64,
}

// What is named once. An FDT is sent again an interval after its last start where `from_start`, else after its last end.
#[repr(C)]
#[derive(Clone, Copy)]
pub struct PlainSetup {
    pub sizes: Sizes,
    pub window: u64,
    pub count: u64,
    pub priorities: [u32; MOST_SESSIONS],
    pub width: u64,
    pub first_toi: u64,
    pub first_fdt_id: u64,
    pub validity: u64,
    pub from_start: bool,
    pub interval: u64,
    pub object_store: u64,
    pub fdt_store: u64,
}

// How an object is sent again, if it is.
#[tactic(auto, unfolding(crate::specs::Inputs::carousel_in))]
fn carousel_in(x: Plan) -> Option<Carousel>
    ensures { result ≡ carousel_in x }
{
    x.repeats
        .then_some(fdt_carousel_in(x.from_start, x.interval))
}

#[tactic(auto, unfolding(crate::specs::Inputs::target_in))]
fn target_in(x: Plan) -> Target
    ensures { result ≡ target_in x }
{
    match (x.paced, x.by_time) {
        (false, _) => Target::AtOnce,
        (true, true) => Target::By(x.target),
        (true, false) => Target::Within(x.target),
    }
}

#[tactic(auto, unfolding(crate::specs::Inputs::own_in))]
fn own_in(own: bool, z: Sizes) -> Option<Sizes>
    ensures { result ≡ own_in own z }
{
    own.then_some(z)
}

// The object that is named.
impl From<PlainObject> for Object {
    ghost from_gives = { λ o r. r ≡ object_in o };

    fn from(o: PlainObject) -> Object {
        let x = o.plan;
        Object {
            priority: o.priority,
            part: o.part,
            own: own_in(o.own, o.sizes),
            most: x.most,
            carousel: carousel_in(x),
            target: target_in(x),
            start: o.start,
            stop_at_once: x.stop_at_once,
        }
    }
}

// The reservation that is named, if any.
#[tactic(auto, unfolding(crate::specs::Inputs::named_in))]
pub fn named_in(o: PlainObject) -> Option<u64>
    ensures { result ≡ named_in o }
{
    o.named.then_some(o.toi)
}

#[tactic(auto, unfolding(crate::specs::Inputs::fdt_carousel_in))]
fn fdt_carousel_in(from_start: bool, interval: u64) -> Carousel
    ensures { result ≡ fdt_carousel_in from_start interval }
{
    if from_start {
        Carousel::Interval(interval)
    } else {
        Carousel::Delay(interval)
    }
}

// The set-up that is named.
impl From<PlainSetup> for Setup {
    ghost from_gives = { λ z r. r ≡ setup_in z };

    fn from(z: PlainSetup) -> Setup {
        let priorities = z.priorities;
        Setup {
            sizes: z.sizes,
            window: z.window,
            count: z.count,
            priorities,
            width: z.width,
            first_toi: z.first_toi,
            first_fdt_id: z.first_fdt_id,
            validity: z.validity,
            carousel: fdt_carousel_in(z.from_start, z.interval),
            object_store: z.object_store,
            fdt_store: z.fdt_store,
        }
    }
}
