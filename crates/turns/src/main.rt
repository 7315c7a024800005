// The program `turns`: reads standard input, runs it, and writes what it prints to standard output.
#![tactic(auto)]

use std::io;

fn main(rt: HostRuntime) -> io::Result<()> {
    console::run(&mut rt.reader(), &mut io::writer(&rt))
}
