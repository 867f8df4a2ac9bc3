// Plays a script: answers each line of standard input.
#![tactic(auto)]

mod command;
mod play;
mod print;
mod reply;
mod store;

use crate::play::Desk;
use crate::store::Stores;
use std::io::{Read, Write};
use text::Lines;

// Answers each line of the input, over two stores that are filled with known bytes.
pub fn serve<R: Read, W: Write>(input: &mut R, to: &mut W) {
    let mut object_space = store::space();
    let objects: &mut [u8] = &mut object_space;
    let mut fdt_space = store::space();
    let fdts: &mut [u8] = &mut fdt_space;
    store::fill(objects, false);
    store::fill(fdts, true);
    answer_all(input, to, &Stores { objects, fdts });
}

// The same over these stores. The lines are counted to a number that no run uses up, since a proved loop has to end.
fn answer_all<R: Read, W: Write>(input: &mut R, to: &mut W, stores: &Stores) {
    let mut space = [0u8; 65536];
    let mut lines = Lines::new(input, &mut space);
    let mut desk = Desk::shut();
    for _ in 0..u64::MAX {
        let Some(line) = lines.next_line() else { break };
        let reply = desk.play(command::read_command(line));
        print::write_reply(to, stores, reply);
    }
}
