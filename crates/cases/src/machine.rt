// Machines from text: `round LETTER/..` or `table START:LETTER/.. FROM>TO/..`.
use anyhow::anyhow;
use machines::table::Table;
use std::alloc::Global;

// Numbers parted by a separator; `-` for none.
pub(crate) fn bytes_of(heap: Global, text: &str, separator: char) -> anyhow::Result<Vec<u8>> {
    let mut bytes = Vec::new(heap);
    if text != "-" {
        for byte in text.split(separator) {
            bytes.push(byte.parse()?)?;
        }
    }
    Ok(bytes)
}

// The first two parts of a text, an empty one where there is none; what follows a second separator is not read.
pub(crate) fn two_parts(text: &str, separator: char) -> (&str, &str) {
    let mut parts = text.split(separator);
    let first = parts.next().unwrap_or("");
    (first, parts.next().unwrap_or(""))
}

// Adds a state START:LETTER.
fn add_state(table: &mut Table, text: &str) -> anyhow::Result<()> {
    let (start, letter) = two_parts(text, ':');
    table
        .add_state(table.states(), start == "1", letter.parse()?)
        .map_err(|_| anyhow!("a state is refused"))
}

// Adds a step FROM>TO.
fn add_step(table: &mut Table, text: &str) -> anyhow::Result<()> {
    let (from, to) = two_parts(text, '>');
    table
        .add_step(from.parse()?, to.parse()?)
        .map_err(|_| anyhow!("a step is refused"))
}

// Adds states, parted by slashes.
pub(crate) fn add_states(table: &mut Table, text: &str) -> anyhow::Result<()> {
    for state in text.split('/') {
        add_state(table, state)?;
    }
    Ok(())
}

// Adds steps, parted by slashes; `-` for none.
pub(crate) fn add_steps(table: &mut Table, text: &str) -> anyhow::Result<()> {
    if text != "-" {
        for step in text.split('/') {
            add_step(table, step)?;
        }
    }
    Ok(())
}
