// Runs tables of cases that were made by an independent implementation: numbers of labels and standings, watches, and breaches found over tables, rounds
// and stuck layers with given pair rooms. Lines that begin with # are comments; the first one names the columns. Nothing stands on it.
#![tactic(auto)]

mod areas;
mod counts;
mod lookups;
mod machine;
mod sheets;
mod watches;

use std::alloc::Global;
use std::fs;

// What the cases of a table are about.
#[derive(Clone, Copy)]
enum Cases {
    Counts,
    Watches,
    Breaches,
}

impl Cases {
    // Whether the case of a line comes out as the line says.
    fn passes(self, heap: Global, line: &str) -> anyhow::Result<bool> {
        match self {
            Cases::Counts => counts::passes(heap, line),
            Cases::Watches => watches::passes(heap, line),
            Cases::Breaches => lookups::passes(heap, line),
        }
    }

    // Runs all lines of a file, and prints those that fail, and how many there were.
    fn run(self, rt: &HostRuntime, file: &str) -> anyhow::Result<()> {
        let text = fs::read_to_string(rt, file)?;
        let mut passed: u32 = 0;
        let mut failed: u32 = 0;
        for line in text.as_str().lines() {
            if line.starts_with('#') {
                continue;
            }
            if self.passes(rt.alloc(), line)? {
                passed = passed.saturating_add(1);
            } else {
                failed = failed.saturating_add(1);
                println!(rt; "{file}: {line}")?;
            }
        }
        println!(rt; "{file}: {passed} passed, {failed} failed")?;
        Ok(())
    }
}

fn main(rt: HostRuntime) -> anyhow::Result<()> {
    Cases::Counts.run(&rt, "counts.tsv")?;
    Cases::Watches.run(&rt, "watch.tsv")?;
    Cases::Breaches.run(&rt, "breaches.tsv")
}
