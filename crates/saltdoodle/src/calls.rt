// Every call from outside, on a sender that the host lends, with what the host names and is told.
// A time is named `at`: in a clause, `now` is what stands behind a reference.
ghost use Rattle.std.specs.Prelude.{◌≡◌, ◌<◌};
ghost use Rattle.sizes.specs.Limits.{most_sessions};
ghost use Rattle.fast_run.specs.Settle.{settled_of};
ghost use Rattle.fast_run.specs.Quick.{Glances};
ghost use Rattle.sender.specs.SenderCalls.{ValidSender, Removes, Prompts, Lists, Completes};
ghost use Rattle.saltdoodle.specs.Lent.{session_at, slot_of, ReservesLent, ReleasesLent, AddsLent, PublishesLent, RunsFdtLent, RunsFileLent, OpensLent, TotalsTold};

use fast_run::quick::{Numbers, glance};
use fast_run::{Settled, settle};
use host_structs::answers::{Counted, Numbered, Sent, refusal_told};
use host_structs::inputs::{PlainObject, PlainSetup, named_in};
use lifecycle::filedesc::Time;
use lifecycle::parts::Part;
use sender::sender::{Object, Sender};
use sender::setup::{Setup, set_up};
use sizes::limits::LARGEST_NAMED_COUNT;

// Fills the sender, where zeros may stand before; a refused set-up leaves what stood there.
pub fn sd_set_up(s: &mut Sender, z: PlainSetup) -> u32
    ensures { OpensLent z s.old s.new result }
{
    match set_up(Setup::from(z)) {
        Ok(sender) => {
            *s = sender;
            refusal_told(Ok(()))
        }
        Err(why) => refusal_told(Err(why)),
    }
}

pub fn sd_reserve(s: &mut Sender) -> Numbered
    requires { ValidSender s.old }
    ensures { ReservesLent s.old s.new result }
{
    Numbered::from(s.reserve())
}

pub fn sd_release(s: &mut Sender, toi: u64) -> u32
    requires { ValidSender s.old }
    ensures { ReleasesLent toi s.old s.new result }
{
    refusal_told(s.release(toi))
}

pub fn sd_add(s: &mut Sender, o: PlainObject) -> Numbered
    requires { ValidSender s.old }
    ensures { AddsLent o s.old s.new result }
{
    Numbered::from(s.add(Object::from(o), named_in(o)))
}

pub fn sd_remove(s: &mut Sender, toi: u64) -> bool
    requires { ValidSender s.old }
    ensures { Removes toi s.old (record { yes = result; sender = s.new }) }
{
    s.remove(toi)
}

pub fn sd_trigger(s: &mut Sender, toi: u64, start: Time) -> bool
    requires { ValidSender s.old }
    ensures { Prompts toi start s.old (record { yes = result; sender = s.new }) }
{
    s.trigger(toi, start)
}

pub fn sd_complete(s: &mut Sender)
    requires { ValidSender s.old }
    ensures { Completes s.old s.new }
{
    s.complete();
}

pub fn sd_publish(s: &mut Sender, at: u64, part: Part) -> u32
    requires { ValidSender s.old }
    ensures { PublishesLent at part s.old s.new result }
{
    refusal_told(s.publish(at, part))
}

// The FDT session; a draft of length 0 is none.
pub fn sd_run_fdt(s: &mut Sender, at: u64, draft: Part) -> Sent
    requires { ValidSender s.old }
    ensures { RunsFdtLent at draft s.old s.new result }
{
    Sent::from(s.run_fdt(at, Some(draft)))
}

// The numbers after the packet of file session j, where it only moves its block on.
fn glance_at(s: &Sender, j: usize, at: u64) -> Option<Numbers>
    requires { ValidSender s.now × (j < most_sessions) }
    ensures { Glances s.now.fdt.announcer.waiting at (slot_of s.now j) (session_at s.now j) result }
{
    let x = &s.sessions[j];
    glance(x, &s.fdt.slots[x.slot], s.fdt.announcer.waiting, at)
}

// The run of file session j, where nothing but the session changes.
fn settle_at(s: &Sender, j: usize, at: u64) -> Option<Settled>
    requires { ValidSender s.now × (j < most_sessions) }
    ensures { result ≡ settled_of s.now.fdt.announcer.waiting at (slot_of s.now j) (session_at s.now j) }
{
    let x = &s.sessions[j];
    settle(x, &s.fdt.slots[x.slot], s.fdt.announcer.waiting, at)
}

// File session i. In the middle of a transfer three numbers are stored; where nothing but the session changes, only it is.
pub fn sd_run(s: &mut Sender, i: u64, at: u64) -> Sent
    requires { ValidSender s.old }
    ensures { RunsFileLent i at s.old s.new result }
{
    if i < LARGEST_NAMED_COUNT {
        let j = i as usize;
        if let Some(g) = glance_at(s, j, at) {
            let x = &mut s.sessions[j];
            x.encoder.window[g.place].esi = g.esi;
            x.encoder.index = g.next;
            x.pace.due = g.due;
            return g.answer;
        }
        if let Some(f) = settle_at(s, j, at) {
            s.sessions[j] = f.session;
            return f.answer;
        }
    }
    Sent::from(s.run(i, at))
}

// Is the object listed?
pub fn sd_listed(s: &Sender, toi: u64) -> bool
    requires { ValidSender s.now }
    ensures { Lists toi s.now result }
{
    s.listed(toi)
}

// Its total transfers, where it is listed.
pub fn sd_transfers(s: &Sender, toi: u64) -> Counted
    requires { ValidSender s.now }
    ensures { TotalsTold toi s.now result }
{
    Counted::from(s.transfers(toi))
}
