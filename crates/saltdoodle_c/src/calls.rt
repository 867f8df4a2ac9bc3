// Every call from outside, as a host in C makes it.
// A time is named `at`: in a clause, `now` is what stands behind a reference.
ghost use Rattle.sender.specs.SenderCalls.{ValidSender, Removes, Prompts, Lists, Completes};
ghost use Rattle.saltdoodle.specs.Lent.{ReservesLent, ReleasesLent, AddsLent, PublishesLent, RunsFdtLent, RunsFileLent, OpensLent, TotalsTold};

use host_structs::answers::{Counted, Numbered, Sent};
use host_structs::inputs::{PlainObject, PlainSetup};
use lifecycle::filedesc::Time;
use lifecycle::parts::Part;
use sender::sender::Sender;

// Fills the sender, where zeros may stand before; a refused set-up leaves what stood there.
#[unsafe(no_mangle)]
pub extern "C" fn sd_set_up(s: &mut Sender, z: PlainSetup) -> u32
    ensures { OpensLent z s.old s.new result }
{
    saltdoodle::calls::sd_set_up(s, z)
}

#[unsafe(no_mangle)]
pub extern "C" fn sd_reserve(s: &mut Sender) -> Numbered
    requires { ValidSender s.old }
    ensures { ReservesLent s.old s.new result }
{
    saltdoodle::calls::sd_reserve(s)
}

#[unsafe(no_mangle)]
pub extern "C" fn sd_release(s: &mut Sender, toi: u64) -> u32
    requires { ValidSender s.old }
    ensures { ReleasesLent toi s.old s.new result }
{
    saltdoodle::calls::sd_release(s, toi)
}

#[unsafe(no_mangle)]
pub extern "C" fn sd_add(s: &mut Sender, o: PlainObject) -> Numbered
    requires { ValidSender s.old }
    ensures { AddsLent o s.old s.new result }
{
    saltdoodle::calls::sd_add(s, o)
}

#[unsafe(no_mangle)]
pub extern "C" fn sd_remove(s: &mut Sender, toi: u64) -> bool
    requires { ValidSender s.old }
    ensures { Removes toi s.old (record { yes = result; sender = s.new }) }
{
    saltdoodle::calls::sd_remove(s, toi)
}

#[unsafe(no_mangle)]
pub extern "C" fn sd_trigger(s: &mut Sender, toi: u64, start: Time) -> bool
    requires { ValidSender s.old }
    ensures { Prompts toi start s.old (record { yes = result; sender = s.new }) }
{
    saltdoodle::calls::sd_trigger(s, toi, start)
}

#[unsafe(no_mangle)]
pub extern "C" fn sd_complete(s: &mut Sender)
    requires { ValidSender s.old }
    ensures { Completes s.old s.new }
{
    saltdoodle::calls::sd_complete(s);
}

#[unsafe(no_mangle)]
pub extern "C" fn sd_publish(s: &mut Sender, at: u64, part: Part) -> u32
    requires { ValidSender s.old }
    ensures { PublishesLent at part s.old s.new result }
{
    saltdoodle::calls::sd_publish(s, at, part)
}

// The FDT session; a draft of length 0 is none.
#[unsafe(no_mangle)]
pub extern "C" fn sd_run_fdt(s: &mut Sender, at: u64, draft: Part) -> Sent
    requires { ValidSender s.old }
    ensures { RunsFdtLent at draft s.old s.new result }
{
    saltdoodle::calls::sd_run_fdt(s, at, draft)
}

// File session i. In the middle of a transfer three numbers are stored; where nothing but the session changes, only it is.
#[unsafe(no_mangle)]
pub extern "C" fn sd_run(s: &mut Sender, i: u64, at: u64) -> Sent
    requires { ValidSender s.old }
    ensures { RunsFileLent i at s.old s.new result }
{
    saltdoodle::calls::sd_run(s, i, at)
}

// Is the object listed?
#[unsafe(no_mangle)]
pub extern "C" fn sd_listed(s: &Sender, toi: u64) -> bool
    requires { ValidSender s.now }
    ensures { Lists toi s.now result }
{
    saltdoodle::calls::sd_listed(s, toi)
}

// Its total transfers, where it is listed.
#[unsafe(no_mangle)]
pub extern "C" fn sd_transfers(s: &Sender, toi: u64) -> Counted
    requires { ValidSender s.now }
    ensures { TotalsTold toi s.now result }
{
    saltdoodle::calls::sd_transfers(s, toi)
}
