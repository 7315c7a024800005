// A test: what the program `turns` prints for an input that is one byte too long.
#![tactic(auto)]

use std::io;

fn main(rt: HostRuntime) -> io::Result<()> {
    console::run(&mut rt.reader(), &mut io::writer(&rt))
}
