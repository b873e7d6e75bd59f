// Document 01, 'Cases by hand', those beside P1 to P12 and the receiver's rows: a line for each, what was tried and what came.

#![tactic(auto)]

mod block_cases;
mod number_cases;

use std::io;

fn main(rt: HostRuntime) -> io::Result<()> {
    block_cases::run(&rt)?;
    number_cases::run(&rt)
}
