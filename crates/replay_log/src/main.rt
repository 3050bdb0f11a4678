// Reads a log of calls from standard input, makes its calls on two new sheets, tables and charts, and prints a line with each answer.
// Nothing stands on it.
#![tactic(auto)]

use anyhow::Context;
use logs::replay_log::replay_log;
use std::io;
use std::io::{Read, Write};

// Reads to the end of the input.
fn read_input(rt: &HostRuntime) -> io::Result<Vec<u8>> {
    let mut bytes = Vec::new(rt.alloc());
    rt.stdin().read_to_end(&mut bytes)?;
    Ok(bytes)
}

fn main(rt: HostRuntime) -> anyhow::Result<()> {
    let bytes = read_input(&rt).context("the log cannot be read from standard input")?;
    let text = replay_log(rt.alloc(), bytes.as_slice())?;
    rt.stdout()
        .write_all(text.as_bytes())
        .context("the answers cannot be written to standard output")
}
