// A line of a script as a command.
use drain_program::Transfer;
use lifecycle::filedesc::{Carousel, Target, Time};
use lifecycle::parts::Part;
use record_program::WriteWords;
use sender::sender::Object;
use sender::setup::Setup;
use sizes::limits::{LARGEST_NAMED_COUNT, MOST_SESSIONS};
use sizes::numbers::Sbn;
use sizes::partition::{Partition, Sizes};
use sizes::refusal::Refusal;
use text::Words;
use wire::record::Record;

// What a line asks for.
#[derive(Clone, Copy)]
pub enum Command {
    // an empty line, or a comment
    Skip,
    // no command
    Wrong,
    Setup(Setup),
    // a set-up with more sessions than a sender has, none, or a priority above 32 bits
    SetupOut,
    Reserve,
    Release(u64),
    Add {
        object: Object,
        named: Option<u64>,
    },
    // an add with a priority above 32 bits, which no session has
    AddNowhere,
    Remove(u64),
    Trigger {
        toi: u64,
        start: Time,
    },
    Publish {
        clock: u64,
        part: Part,
    },
    Complete,
    Listed(u64),
    Transfers(u64),
    RunFdt {
        clock: u64,
        draft: Option<Part>,
    },
    Run {
        session: u64,
        clock: u64,
    },
    Partition {
        l: u64,
        e: u64,
        b: u64,
    },
    BlockLength {
        l: u64,
        e: u64,
        b: u64,
        sbn: Sbn,
    },
    RawLength {
        p: Partition,
        l: u64,
        e: u64,
        sbn: Sbn,
    },
    Drain(Transfer),
    WriteRecord(WriteWords),
    // the record that stands in the bytes of the line, if any does
    ReadRecord(Result<Record, Refusal>),
}

// What a line asks for, by its first word.
pub fn read_command(line: &[u8]) -> Command {
    if text::LONGEST < line.len() {
        return Command::Wrong;
    }
    let mut words = Words::new(line);
    let Some(name) = words.next_word() else {
        return Command::Skip;
    };
    if name.first() == Some(&b'#') {
        return Command::Skip;
    }
    read_named(name, words).unwrap_or(Command::Wrong)
}

// The command with this name, if the words behind it are what it takes.
fn read_named(name: &[u8], words: Words) -> Option<Command> {
    match name {
        b"setup" => read_setup(words),
        b"add" => read_add(words),
        b"trigger" => read_trigger(words),
        b"writerecord" => read_write(words),
        b"readrecord" => read_read(words),
        _ => read_plain(name, words),
    }
}

// A command of nothing but numbers behind its name.
fn read_plain(name: &[u8], mut words: Words) -> Option<Command> {
    let command = match name {
        b"partition" | b"blocklength" | b"rawlength" | b"drain" => read_sizes(name, &mut words)?,
        _ => read_call(name, &mut words)?,
    };
    words.is_over().then_some(command)
}

// A call of the sender.
fn read_call(name: &[u8], words: &mut Words) -> Option<Command> {
    match name {
        b"reserve" => Some(Command::Reserve),
        b"complete" => Some(Command::Complete),
        b"release" => Some(Command::Release(next_number(words)?)),
        b"remove" => Some(Command::Remove(next_number(words)?)),
        b"listed" => Some(Command::Listed(next_number(words)?)),
        b"transfers" => Some(Command::Transfers(next_number(words)?)),
        b"run" => {
            let session = next_number(words)?;
            let clock = next_number(words)?;
            Some(Command::Run { session, clock })
        }
        b"publish" => {
            let clock = next_number(words)?;
            let part = next_part(words)?;
            Some(Command::Publish { clock, part })
        }
        b"runfdt" => {
            let clock = next_number(words)?;
            let draft = Some(next_part(words)?);
            Some(Command::RunFdt { clock, draft })
        }
        _ => None,
    }
}

// A question about sizes, which needs no sender.
fn read_sizes(name: &[u8], words: &mut Words) -> Option<Command> {
    if name == b"rawlength".as_slice() {
        return read_raw(words);
    }
    let l = next_number(words)?;
    let e = next_number(words)?;
    let b = next_number(words)?;
    match name {
        b"partition" => Some(Command::Partition { l, e, b }),
        b"drain" => {
            let w = next_number(words)?;
            Some(Command::Drain(Transfer { l, e, b, w }))
        }
        b"blocklength" => {
            let sbn = Sbn(next_u32(words)?);
            Some(Command::BlockLength { l, e, b, sbn })
        }
        _ => None,
    }
}

// LARGE SMALL LARGES L E SBN
fn read_raw(words: &mut Words) -> Option<Command> {
    let p = Partition {
        large: next_number(words)?,
        small: next_number(words)?,
        nb_a_large: next_number(words)?,
        blocks: 0,
    };
    let l = next_number(words)?;
    let e = next_number(words)?;
    let sbn = Sbn(next_u32(words)?);
    Some(Command::RawLength { p, l, e, sbn })
}

fn next_number(words: &mut Words) -> Option<u64> {
    words.next_number().ok()
}

// A number of 32 bits.
fn next_u32(words: &mut Words) -> Option<u32> {
    u32::try_from(next_number(words)?).ok()
}

// START LENGTH
fn next_part(words: &mut Words) -> Option<Part> {
    let start = next_number(words)?;
    let size = next_number(words)?;
    Some(Part { start, size })
}

// A number, or `-` for none.
fn next_maybe(words: &mut Words) -> Option<Option<u64>> {
    if let Ok(n) = words.next_number() {
        return Some(Some(n));
    }
    let w = words.next_word()?;
    (w == b"-".as_slice()).then_some(None)
}

// A time, or `-` for none.
fn next_time(words: &mut Words) -> Option<Time> {
    Some(next_maybe(words)?.map_or(Time::none(), Time::at))
}

// FDT CLOSE FDT_ID TOI BLOCK SYMBOL LENGTH TRANSFER_LENGTH COUNT ROOM
fn read_write(words: Words) -> Option<Command> {
    Some(Command::WriteRecord(record_program::write_words(words)?))
}

// HEX
fn read_read(words: Words) -> Option<Command> {
    Some(Command::ReadRecord(record_program::read_words(words)?))
}

// TOI CLOCK, where the clock may be none.
fn read_trigger(mut words: Words) -> Option<Command> {
    let toi = next_number(&mut words)?;
    let start = next_time(&mut words)?;
    words.is_over().then_some(Command::Trigger { toi, start })
}

// The priorities of a set-up, as many as it names sessions. Some(None) where there are none, more than a sender has, or one
// is above 32 bits; None where a word is no number.
fn next_priorities(words: &mut Words, count: u64) -> Option<Option<[u32; MOST_SESSIONS]>> {
    let mut named = [0u64; MOST_SESSIONS];
    for (n, _) in named.iter_mut().zip(0..count) {
        *n = next_number(words)?;
    }
    for _ in LARGEST_NAMED_COUNT..count {
        next_number(words)?;
    }
    if count == 0 || LARGEST_NAMED_COUNT < count {
        return Some(None);
    }
    Some(in_32_bits(named))
}

// The same numbers, where none is above 32 bits.
fn in_32_bits(wide: [u64; MOST_SESSIONS]) -> Option<[u32; MOST_SESSIONS]> {
    let mut all = [0u32; MOST_SESSIONS];
    for (n, from) in all.iter_mut().zip(wide) {
        *n = u32::try_from(from).ok()?;
    }
    Some(all)
}

// MODE GAP
fn next_repeats(words: &mut Words) -> Option<Option<Carousel>> {
    let mode = words.next_word()?;
    let gap = next_number(words)?;
    match mode {
        b"none" => Some(None),
        b"delay" => Some(Some(Carousel::Delay(gap))),
        b"interval" => Some(Some(Carousel::Interval(gap))),
        _ => None,
    }
}

// E B W N P.. WIDTH TOI ID VALIDITY MODE GAP OBJECTS FDTS. An FDT is always sent again.
fn read_setup(mut words: Words) -> Option<Command> {
    let e = next_number(&mut words)?;
    let b = next_number(&mut words)?;
    let window = next_number(&mut words)?;
    let count = next_number(&mut words)?;
    let named = next_priorities(&mut words, count)?;
    let width = next_number(&mut words)?;
    let first_toi = next_number(&mut words)?;
    let first_fdt_id = next_number(&mut words)?;
    let validity = next_number(&mut words)?;
    let carousel = next_repeats(&mut words)??;
    let object_store = next_number(&mut words)?;
    let fdt_store = next_number(&mut words)?;
    if !words.is_over() {
        return None;
    }
    let Some(priorities) = named else {
        return Some(Command::SetupOut);
    };
    Some(Command::Setup(Setup {
        sizes: Sizes { e, b },
        window,
        count,
        priorities,
        width,
        first_toi,
        first_fdt_id,
        validity,
        carousel,
        object_store,
        fdt_store,
    }))
}

// E B of an object, or `-` for both.
fn next_own(words: &mut Words) -> Option<Option<Sizes>> {
    match (next_maybe(words)?, next_maybe(words)?) {
        (Some(e), Some(b)) => Some(Some(Sizes { e, b })),
        (None, None) => Some(None),
        _ => None,
    }
}

// TARGET TIME
fn next_pacing(words: &mut Words) -> Option<Target> {
    let kind = words.next_word()?;
    let time = next_number(words)?;
    match kind {
        b"none" => Some(Target::AtOnce),
        b"within" => Some(Target::Within(time)),
        b"at" => Some(Target::By(time)),
        _ => None,
    }
}

// `0` or `1`
fn next_flag(words: &mut Words) -> Option<bool> {
    match words.next_word()? {
        b"0" => Some(false),
        b"1" => Some(true),
        _ => None,
    }
}

// PRIORITY START LENGTH E B MAX MODE GAP TARGET TIME FROM STOP TOI
fn read_add(mut words: Words) -> Option<Command> {
    let priority = next_number(&mut words)?;
    let part = next_part(&mut words)?;
    let own = next_own(&mut words)?;
    let most = next_u32(&mut words)?;
    let carousel = next_repeats(&mut words)?;
    let target = next_pacing(&mut words)?;
    let start = next_time(&mut words)?;
    let stop_at_once = next_flag(&mut words)?;
    let named = next_maybe(&mut words)?;
    if !words.is_over() {
        return None;
    }
    let Ok(priority) = u32::try_from(priority) else {
        return Some(Command::AddNowhere);
    };
    let object = Object {
        priority,
        part,
        own,
        most,
        carousel,
        target,
        start,
        stop_at_once,
    };
    Some(Command::Add { object, named })
}
