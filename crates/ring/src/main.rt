// The program `ring`: the first line of standard input, and its answer.
#![tactic(auto)]

use ring_shell::print_answer;
use std::io;

fn main(rt: HostRuntime) -> io::Result<()> {
    print_answer(&mut rt.stdin(), &mut rt.stdout())
}
