// Reads a turn sheet from standard input, and prints the reply to each of its lines.
#![tactic(auto)]

mod answering;
mod filling;
#[cfg(test)]
mod tests;

use crate::answering::replies_to;
use std::io::{self, Write};

fn main(rt: HostRuntime) -> io::Result<()> {
    let replies = replies_to(rt.alloc(), &mut rt.reader())?;
    io::writer(&rt).write_all(replies.as_bytes())
}
