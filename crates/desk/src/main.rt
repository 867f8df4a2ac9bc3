// Plays the script of standard input on a sender: an answer for each command.
#![tactic(auto)]

fn main(rt: HostRuntime) {
    let mut input = rt.stdin();
    let mut out = rt.stdout();
    desk_program::serve(&mut input, &mut out);
}
