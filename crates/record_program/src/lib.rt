// The two commands on records, one that writes a record and one that reads it: their words, and the texts of their answers.
#![tactic(auto)]

mod hex;
mod numbers;

ghost use Rattle.std.specs.Prelude.{◌≡◌, ◌≤◌, length, replicate, Some};
ghost use Rattle.record_program.specs.Numbers.{room_for};
ghost use Rattle.record_program.specs.Readings.{word_said, word_reading};

use sizes::refusal::Refusal;
use std::fmt;
use text::Words;
use wire::record::Record;

// A record, and the room of the buffer that it is written into.
#[derive(Clone, Copy)]
pub struct WriteWords {
    pub record: Record,
    pub room: u8,
}

// FDT CLOSE FDT_ID TOI BLOCK SYMBOL LENGTH TRANSFER_LENGTH COUNT ROOM
pub fn write_words(words: Words) -> Option<WriteWords> {
    let a = numbers::read_numbers(words)?;
    if !numbers::in_range(a) {
        return None;
    }
    Some(WriteWords {
        record: numbers::record_of(a),
        room: a[9] as u8,
    })
}

// HEX, or `-` for no byte: what the bytes of a line are as a record, if its word spells bytes.
pub fn read_words(mut words: Words) -> Option<Result<Record, Refusal>> {
    let w = words.next_word()?;
    if !words.is_over() {
        return None;
    }
    if text::is_word(w, b"-") {
        return Some(wire::record::read(b""));
    }
    read_word(w)
}

// The same for bytes in hex. The buffer holds what the longest line can spell.
fn read_word(w: &[u8]) -> Option<Result<Record, Refusal>>
    ensures { length w.now ≤ 65536 → word_said result ≡ word_reading w.now }
{
    let mut space = [0u8; 32768];
    let buffer: &mut [u8] = &mut space;
    let n = hex::read_hex(w, buffer)?;
    Some(wire::record::read(text::part(buffer, 0, n)))
}

// The largest buffer, before a record is written.
fn untouched() -> [u8; 256]
    ensures { (256 ≡ length result) × (result ≡ replicate 256 170) }
{
    [0xAA; 256]
}

impl WriteWords {
    // Can the record be written into the buffer?
    pub fn is_writable(&self) -> bool
        ensures { result ≡ room_for self.now.room self.now.record }
    {
        let mut space = untouched();
        let buffer: &mut [u8] = &mut space;
        let n = self.room as usize;
        wire::record::write(&mut buffer[..n], self.record).is_ok()
    }

    // Puts the bytes of the buffer, into which the record is written, at the front of out, and answers where they end.
    pub fn put_written(&self, out: &mut [u8]) -> usize {
        let mut space = untouched();
        let buffer: &mut [u8] = &mut space;
        let n = self.room as usize;
        let _ = wire::record::write(&mut buffer[..n], self.record);
        let at = text::put_text(out, 0, b"record ");
        hex::put_hex(out, at, text::part(buffer, 0, n))
    }
}

// A record that was read, as `fields FDT CLOSE FDT_ID TOI BLOCK SYMBOL LENGTH TRANSFER_LENGTH COUNT`.
#[derive(Clone, Copy)]
pub struct Fields(pub Record);

impl fmt::Display for Fields {
    ghost use Rattle.record_program.specs.Fields.{fields_text};

    ghost output = { λ f. Some (fields_text f.0) };

    fn fmt<W: fmt::Write>(&self, f: &mut fmt::Formatter<W>) -> fmt::Result {
        let r = self.0;
        write!(
            f,
            "fields {} {} {} {}",
            r.is_fdt as u8, r.close as u8, r.fdt_id, r.toi
        )?;
        write!(f, " {} {} {}", r.block.0, r.symbol.0, r.length)?;
        write!(f, " {} {}", r.total, r.symbols)
    }
}
