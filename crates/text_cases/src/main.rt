// Reads lines from standard input and writes, for each, the numbers that its words are, with spaces between
// them: `past` for a numeral of 2^64 or more, `unreadable` for a word that is no numeral.
#![tactic(auto)]

use std::io::Write;
use text::{Lines, NumberError, Words};

fn main(rt: HostRuntime) {
    let mut input = rt.stdin();
    let mut out = rt.stdout();
    let mut space = [0u8; 65536];
    let mut lines = Lines::new(&mut input, &mut space);
    for _ in 0..u64::MAX {
        let Some(line) = lines.next_line() else { break };
        answer(&mut out, line);
    }
}

// Writes the numbers of one line, and a line feed.
fn answer<W: Write>(out: &mut W, line: &[u8]) {
    let mut words = Words::new(line);
    let mut is_first = true;
    while let Some(word) = words.next_word() {
        if !is_first {
            text::write_all(out, b" ");
        }
        put(out, word);
        is_first = false;
    }
    text::write_all(out, b"\n");
}

// Writes what a word is as a number.
fn put<W: Write>(out: &mut W, word: &[u8]) {
    let _ = match text::number_of(word) {
        Ok(n) => write!(out, "{n}"),
        Err(NumberError::Past) => write!(out, "past"),
        Err(NumberError::Unreadable) => write!(out, "unreadable"),
    };
}
