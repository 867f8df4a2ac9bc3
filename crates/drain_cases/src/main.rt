// Answers each line of standard input as the program `drain` answers its first.
// The lines and answers beside this file are those of vectors/drain.py and of the original Rust.
#![tactic(auto)]

use text::Lines;

fn main(rt: HostRuntime) {
    let mut input = rt.stdin();
    let mut out = rt.stdout();
    let mut space = [0u8; 65536];
    let mut lines = Lines::new(&mut input, &mut space);
    for _ in 0..u64::MAX {
        let Some(line) = lines.next_line() else { break };
        drain_program::answer(&mut out, line);
    }
}
