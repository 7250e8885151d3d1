// Replays the sheets of the data folder, and prints of each whether its replies are as expected.
#![tactic(auto)]

mod cases;

use std::io;

fn main(rt: HostRuntime) -> io::Result<()> {
    for name in cases::NAMES {
        cases::report(&rt, name)?;
    }
    Ok(())
}
