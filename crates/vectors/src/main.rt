// Runs the stored cases: data/NNN.in is a file, data/NNN.out what is to be printed for it.
// Nothing stands on it.
#![tactic(auto)]

use report::report::report;
use std::fs;

// How many cases there are.
const CASES: usize = 223;

// Whether the report of a case is as stored.
fn passes(rt: &HostRuntime, number: usize) -> anyhow::Result<bool> {
    let heap = rt.alloc();
    let input = format!(in heap; "{number:03}.in")?;
    let output = format!(in heap; "{number:03}.out")?;
    let file = fs::read(rt, input.as_str())?;
    let wanted = fs::read(rt, output.as_str())?;
    let printed = report(heap, file.as_slice())?;
    Ok(printed.as_bytes() == wanted.as_slice())
}

fn main(rt: HostRuntime) -> anyhow::Result<()> {
    let mut failed = 0;
    for number in 0..CASES {
        if !passes(&rt, number)? {
            failed += 1;
            println!(rt; "case {number} differs")?;
        }
    }
    let passed = CASES - failed;
    println!(rt; "{passed} passed, {failed} failed")?;
    Ok(())
}
