// Answers the first line of standard input, `L E B W`: a line for each packet of one transfer sent once, or `refused`.
#![tactic(auto)]

use text::Lines;

fn main(rt: HostRuntime) {
    let mut input = rt.stdin();
    let mut out = rt.stdout();
    let mut space = [0u8; 65536];
    let mut lines = Lines::new(&mut input, &mut space);
    match lines.next_line() {
        Some(line) => drain_program::answer(&mut out, line),
        None => drain_program::answer(&mut out, b""),
    }
}
