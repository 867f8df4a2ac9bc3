// The commands of a script, played on one sender.
ghost use Rattle.std.specs.Prelude.{◌≡◌, None};
ghost use Rattle.sizes.specs.Partition.{partition_of, block_length};
ghost use Rattle.sender.specs.SenderCalls.{ValidSender};
ghost use Rattle.desk_program.specs.Replies.{length_shown};
ghost use Rattle.desk_program.specs.Plays.{Calls, SetsUp, Answers, SetUpAnswers, Stays, Holds};

use crate::command::Command;
use crate::reply::Reply;
use sender::sender::Sender;
use sender::setup::Setup;
use sizes::numbers::Sbn;
use sizes::partition::block_partitioning;
use sizes::refusal::Refusal;

// The sender, where a set-up was accepted for it.
#[derive(Clone, Copy)]
pub struct Desk {
    pub sender: Option<Sender>,
}

// A command that needs the sender.
fn call(s: &mut Sender, c: Command) -> Reply
    requires { ValidSender s.old }
    ensures { Calls c s.old result s.new }
{
    match c {
        Command::Reserve => Reply::from(s.reserve()),
        Command::Release(toi) => Reply::from(s.release(toi)),
        Command::Add { object, named } => Reply::from(s.add(object, named)),
        Command::AddNowhere => Reply::Refused(Refusal::NoPriority),
        Command::Remove(toi) => Reply::Truth(s.remove(toi)),
        Command::Trigger { toi, start } => Reply::Truth(s.trigger(toi, start)),
        Command::Publish { clock, part } => Reply::from(s.publish(clock, part)),
        Command::Complete => {
            s.complete();
            Reply::Done
        }
        Command::Listed(toi) => Reply::Truth(s.listed(toi)),
        Command::Transfers(toi) => Reply::Number(s.transfers(toi)),
        Command::RunFdt { clock, draft } => Reply::from(s.run_fdt(clock, draft)),
        Command::Run { session, clock } => Reply::from(s.run(session, clock)),
        _ => Reply::Error,
    }
}

impl Desk {
    // No sender, after a set-up that is refused, or none.
    pub fn shut() -> Desk
        ensures { result.sender ≡ None }
    {
        Desk { sender: None }
    }

    // A set-up; a refused one leaves no sender.
    fn set_up(&mut self, z: Setup) -> Reply
        ensures { SetsUp z result self.new }
    {
        match sender::setup::set_up(z) {
            Ok(sender) => {
                self.sender = Some(sender);
                Reply::Done
            }
            Err(why) => {
                self.sender = None;
                Reply::Refused(why)
            }
        }
    }

    // A call is an error where no set-up was accepted.
    fn call(&mut self, c: Command) -> Reply
        requires { Holds self.old }
        ensures { Answers c self.old result self.new }
    {
        match &mut self.sender {
            Some(s) => call(s, c),
            None => Reply::Error,
        }
    }

    // Plays a command, and answers with the reply to it.
    pub(crate) fn play(&mut self, c: Command) -> Reply
        requires { Holds self.old }
        ensures { Answers c self.old result self.new × SetUpAnswers c self.old result self.new × Stays c self.old result self.new }
    {
        match c {
            Command::Skip => Reply::Silent,
            Command::Wrong => Reply::Error,
            Command::Setup(z) => self.set_up(z),
            Command::SetupOut => {
                self.sender = None;
                Reply::Refused(Refusal::SetUp)
            }
            Command::Partition { l, e, b } => Reply::Cut(block_partitioning(b, l, e)),
            Command::BlockLength { l, e, b, sbn } => block_length(l, e, b, sbn),
            Command::RawLength { p, l, e, sbn } => {
                Reply::Number(sizes::partition::block_length(p, l, e, sbn))
            }
            Command::Drain(t) => Reply::Drained(t),
            Command::WriteRecord(w) => Reply::from(w),
            Command::ReadRecord(found) => Reply::from(found),
            _ => self.call(c),
        }
    }
}

fn block_length(l: u64, e: u64, b: u64, sbn: Sbn) -> Reply
    ensures { result ≡ length_shown (block_length (partition_of b l e) l e sbn) }
{
    let p = block_partitioning(b, l, e);
    Reply::Number(sizes::partition::block_length(p, l, e, sbn))
}
