// Words, decimal numbers and lines out of bytes, for a program that reads commands from standard input.
//
// No function here has a `requires`: each is total on any bytes and any numbers, and its contract says
// what it answers.
//
// A program that answers line by line:
//
//     let mut input = rt.stdin();
//     let mut space = [0u8; 65536];
//     let mut lines = text::Lines::new(&mut input, &mut space);
//     for _ in 0..u64::MAX {
//         let Some(line) = lines.next_line() else { break };
//         answer(line);
//     }
//
// A proved loop has to end, and nothing says that the input does: so it counts to a number that no run uses up.
#![tactic(auto)]

mod bytes;
mod line;
mod lines;
mod number;
mod output;
mod put;
mod word;
mod words;

pub use bytes::part;
pub use line::{Input, LONGEST, refill, take_line, unread};
pub use lines::Lines;
pub use number::{Field, FieldError, NumberError, next_number, number_of};
pub use output::write_all;
pub use put::{put_next, put_number, put_text};
pub use word::{Word, ended, is_word, next_word};
pub use words::Words;
