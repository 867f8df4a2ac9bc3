// Plays the script of standard input on a sender: an answer for each command.
// The lines and answers beside this file are those of vectors/desk.py and of the original Rust.
#![tactic(auto)]

fn main(rt: HostRuntime) {
    let mut input = rt.stdin();
    let mut out = rt.stdout();
    desk_program::serve(&mut input, &mut out);
}
