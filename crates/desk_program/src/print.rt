// The text of a reply.
ghost use Rattle.std.specs.Prelude.{◌≡◌, ◌+◌, ◌≤◌, length, IsOk, IsErr};
ghost use Rattle.text.specs.Put.{Appended};

use crate::reply::Reply;
use crate::store::Stores;
use drain_program::Transfer;
use sender::sender::Packet;
use std::fmt;
use std::fmt::Write as _;
use std::io::Write;

// A line that is put together in fixed memory and written at once. No reply is longer.
#[derive(Drop)]
struct Line {
    bytes: [u8; 512],
    used: usize,
    ghost inside: { used ≤ 512 },
}

// A text stands behind what was there, and nothing else changes; it is refused only where it does not fit, and then nothing changes.
impl fmt::Write for Line {
    ghost write_str_gives = { λ was text now. Appended was.bytes was.used text now.bytes now.used };

    fn write_str(&mut self, text: &str) -> fmt::Result
        ensures ok { IsOk result → Appended self.old.bytes self.old.used text.now self.new.bytes self.new.used }
        ensures fits { self.old.used + length text.now ≤ 512 → IsOk result }
        ensures past { IsErr result → self.new ≡ self.old }
    {
        let text = text.as_bytes();
        if self.bytes.len() - self.used < text.len() {
            return Err(fmt::Error);
        }
        let end = self.used + text.len();
        self.bytes[self.used..end].copy_from_slice(text);
        self.used = end;
        Ok(())
    }
}

// A number, or a dash where there is none.
#[derive(Clone, Copy)]
struct Dashed(Option<u64>);

impl fmt::Display for Dashed {
    fn fmt<W: fmt::Write>(&self, f: &mut fmt::Formatter<W>) -> fmt::Result {
        match self.0 {
            Some(n) => write!(f, "{n}"),
            None => write!(f, "-"),
        }
    }
}

// A packet, and the checksum of its payload: `packet KIND TOI ID SBN ESI CLOSE TOTAL SYMBOLS LENGTH START SUM`.
#[derive(Clone, Copy)]
struct Summed {
    packet: Packet,
    sum: u64,
}

impl fmt::Display for Summed {
    fn fmt<W: fmt::Write>(&self, f: &mut fmt::Formatter<W>) -> fmt::Result {
        let p = self.packet;
        let y = p.symbol;
        let kind = if p.is_fdt { "fdt" } else { "obj" };
        let id = Dashed(p.is_fdt.then_some(u64::from(p.fdt_id)));
        let start = Dashed((0 < y.payload.size).then_some(y.payload.start));
        write!(f, "packet {kind} {} {id} {} {}", p.toi, y.sbn.0, y.esi.0)?;
        write!(f, " {} {} {}", y.close as u8, y.transfer_length, y.symbols)?;
        write!(f, " {} {start} {}", y.payload.size, self.sum)
    }
}

// A reply of one word, or of one number.
#[derive(Clone, Copy)]
struct Short(Reply);

impl fmt::Display for Short {
    fn fmt<W: fmt::Write>(&self, f: &mut fmt::Formatter<W>) -> fmt::Result {
        match self.0 {
            Reply::Error => write!(f, "error"),
            Reply::Done => write!(f, "ok"),
            Reply::Truth(true) => write!(f, "yes"),
            Reply::Truth(false) => write!(f, "no"),
            Reply::Number(None) => write!(f, "none"),
            Reply::Number(Some(n)) => write!(f, "{n}"),
            Reply::Refused(why) => write!(f, "refused {}", u32::from(why)),
            Reply::Toi(n) => write!(f, "toi {n}"),
            _ => Ok(()),
        }
    }
}

// Writes the answer to a line; nothing where it has none.
pub fn write_reply<W: Write>(to: &mut W, stores: &Stores, reply: Reply) {
    match reply {
        Reply::Silent => {}
        Reply::Drained(t) => write_drained(to, t),
        _ => write_line(to, stores, reply),
    }
}

// The lines of a transfer, then `end`; or `refused`.
fn write_drained<W: Write>(to: &mut W, t: Transfer) {
    if drain_program::write_lines(to, t) {
        text::write_all(to, b"end\n");
    }
}

// An answer of one line.
fn write_line<W: Write>(to: &mut W, stores: &Stores, reply: Reply) {
    let mut line = Line {
        bytes: [0; 512],
        used: 0,
    };
    let _ = put_reply(&mut line, stores, reply);
    let _ = writeln!(line, "");
    text::write_all(to, &line.bytes[..line.used]);
}

// Puts the text of a reply into the line; a transfer's lines are written elsewhere.
fn put_reply(line: &mut Line, stores: &Stores, reply: Reply) -> fmt::Result {
    match reply {
        Reply::Sent(packet) => put_sent(line, stores, packet),
        Reply::SentFdt { taken, packet } => {
            put_sent(line, stores, packet)?;
            write!(line, " taken {}", taken as u8)
        }
        Reply::Cut(p) => {
            let (large, small) = (p.large, p.small);
            write!(line, "{large} {small} {} {}", p.nb_a_large, p.blocks)
        }
        Reply::Written(w) => {
            line.used = w.put_written(&mut line.bytes).min(512);
            Ok(())
        }
        Reply::Fields(r) => write!(line, "{}", record_program::Fields(r)),
        _ => write!(line, "{}", Short(reply)),
    }
}

// A run's packet, or `nothing`.
fn put_sent(line: &mut Line, stores: &Stores, sent: Option<Packet>) -> fmt::Result {
    match sent {
        Some(packet) => {
            let sum = stores.payload_sum(packet);
            write!(line, "{}", Summed { packet, sum })
        }
        None => write!(line, "nothing"),
    }
}
