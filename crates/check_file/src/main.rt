// Reads a file of signals, rules, states and steps from standard input, and prints for each rule a shortest breach, or that it is clear, or why
// it is refused. Nothing stands on it.
#![tactic(auto)]

ghost use Rattle.std.specs.Prelude.{◌≤◌, IfOk, length};

use anyhow::Context;
use report::report::report;
use std::io;
use std::io::{ErrorKind, Read, Write};

// One byte more than a file may have, so that a longer one is seen.
const ROOM: usize = 8193;

// One read, tried again where it is interrupted.
fn read_some<R: Read>(input: &mut R, bytes: &mut [u8]) -> io::Result<usize>
    ensures { IfOk result (λ n. n ≤ length bytes.old) }
{
    for _ in 0..u64::MAX {
        match input.read(bytes) {
            Err(error) if error.kind() == ErrorKind::Interrupted => {}
            read => return read,
        }
    }
    input.read(bytes)
}

// Reads to the end of the input, or until the bytes are used up: how many were read.
// Kept: a `Vec` may run out of memory while reading, and the library reads a message of more than 8,192 bytes in two.
fn read_input(rt: &HostRuntime, bytes: &mut [u8; 8193]) -> io::Result<usize>
    ensures { IfOk result (λ n. n ≤ 8193) }
{
    let mut input = rt.stdin();
    let mut count = 0;
    while count < ROOM {
        let more = read_some(&mut input, &mut bytes[count..ROOM])?;
        if more == 0 {
            break;
        }
        count += more;
    }
    Ok(count)
}

fn main(rt: HostRuntime) -> anyhow::Result<()> {
    let mut bytes = [0; ROOM];
    let count = read_input(&rt, &mut bytes).context("the file cannot be read from standard input")?;
    let text = report(rt.alloc(), &bytes[..count])?;
    rt.stdout()
        .write_all(text.as_bytes())
        .context("the report cannot be written to standard output")
}
