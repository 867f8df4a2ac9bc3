// What a line of a script is answered.
ghost use Rattle.std.specs.Prelude.{◌≡◌};
ghost use Rattle.sizes.specs.Allocator.{given_said, known_said};
ghost use Rattle.sender.specs.SenderCalls.{alloc_answer, file_answer, fdt_answer};
ghost use Rattle.desk_program.specs.Replies.{Says, record_shown, reading_shown};

use drain_program::Transfer;
use record_program::WriteWords;
use sender::fdtsession::Drafted;
use sender::sender::{Packet, RunAnswer};
use sizes::partition::Partition;
use sizes::refusal::Refusal;
use wire::record::Record;

#[derive(Clone, Copy)]
pub enum Reply {
    // to an empty line and a comment
    Silent,
    // to a line that cannot be read, and a call where no set-up was accepted
    Error,
    Done,
    Refused(Refusal),
    Toi(u64),
    Truth(bool),
    Number(Option<u64>),
    // a run of a file session
    Sent(Option<Packet>),
    // a run of the FDT session, with whether the draft was taken
    SentFdt { taken: bool, packet: Option<Packet> },
    // of calls that need no sender
    Cut(Partition),
    Drained(Transfer),
    // a record that can be written into a buffer with this room
    Written(WriteWords),
    // the fields of a record that was read
    Fields(Record),
}

// To a call that gives a number.
impl From<Result<u64, Refusal>> for Reply {
    ghost from_gives = { λ a y. Says (alloc_answer (given_said a)) y };

    fn from(a: Result<u64, Refusal>) -> Reply {
        match a {
            Ok(n) => Reply::Toi(n),
            Err(why) => Reply::Refused(why),
        }
    }
}

// To a call that is done or refused.
impl From<Result<(), Refusal>> for Reply {
    ghost from_gives = { λ a y. Says (alloc_answer (known_said a)) y };

    fn from(a: Result<(), Refusal>) -> Reply {
        match a {
            Ok(()) => Reply::Done,
            Err(why) => Reply::Refused(why),
        }
    }
}

// To a run of a file session.
impl From<RunAnswer> for Reply {
    ghost from_gives = { λ a y. Says (file_answer a) y };

    fn from(a: RunAnswer) -> Reply {
        match a {
            Ok(packet) => Reply::Sent(packet),
            Err(why) => Reply::Refused(why),
        }
    }
}

// To a run of the FDT session.
impl From<Drafted<RunAnswer>> for Reply {
    ghost from_gives = { λ a y. Says (fdt_answer a.taken a.answer) y };

    fn from(a: Drafted<RunAnswer>) -> Reply {
        match a.answer {
            Ok(packet) => Reply::SentFdt {
                taken: a.taken,
                packet,
            },
            Err(why) => Reply::Refused(why),
        }
    }
}

// To a record that is to be written. A reply holds no bytes: those of a record that can be written are put into its text.
impl From<WriteWords> for Reply {
    ghost from_gives = { λ w y. y ≡ record_shown w.record w.room };

    fn from(w: WriteWords) -> Reply {
        if w.is_writable() {
            Reply::Written(w)
        } else {
            Reply::Refused(Refusal::Record)
        }
    }
}

// To a record that is read.
impl From<Result<Record, Refusal>> for Reply {
    ghost from_gives = { λ a y. y ≡ reading_shown a };

    fn from(a: Result<Record, Refusal>) -> Reply {
        match a {
            Ok(r) => Reply::Fields(r),
            Err(_) => Reply::Refused(Refusal::Record),
        }
    }
}
