// The call that a line of a log tells.
ghost use Rattle.std.specs.Prelude.{◌≡◌, option_map};
ghost use Rattle.logs.specs.Reads.{Reads};
ghost use Rattle.logs.specs.Told.{told, base, opening, entering, loading, filling, beginning, scanning, finding, ground, machine, chart_and_areas, chart_call, call};

use crate::fields::{after, byte, bytes, number, numbered, split, unfold};
use crate::machine::NoMachine;
use crate::unread::Unread;
use replay::call::{Call, Ground, Pile};
use std::alloc::Global;

// SHEET,NAMES
fn read_open(heap: Global, text: &[u8]) -> Result<Call<NoMachine>, Unread>
    ensures { Reads told (opening text.now) result }
{
    let (sheet, names) = numbered(text).ok_or(Unread::NoForm)?;
    let names = names.to_vec(heap)?;
    Ok(Call::Open { sheet, names })
}

// SHEET,RULE
fn read_enter(heap: Global, text: &[u8]) -> Result<Call<NoMachine>, Unread>
    ensures { Reads told (entering text.now) result }
{
    let (sheet, rule) = numbered(text).ok_or(Unread::NoForm)?;
    let rule = rule.to_vec(heap)?;
    Ok(Call::Enter { sheet, rule })
}

// SHEET,TABLE,FILE
fn read_load(heap: Global, text: &[u8]) -> Result<Call<NoMachine>, Unread>
    ensures { Reads told (loading text.now) result }
{
    let (sheet, rest) = numbered(text).ok_or(Unread::NoForm)?;
    let (table, file) = numbered(rest).ok_or(Unread::NoForm)?;
    let file = unfold(heap, file)?;
    Ok(Call::Load { sheet, table, file })
}

// CHART,SHEET,RULE
fn read_fill(text: &[u8]) -> Option<Call<NoMachine>>
    ensures { option_map told result ≡ filling text.now }
{
    let (chart, rest) = numbered(text)?;
    let (sheet, rest) = numbered(rest)?;
    let rule = number(rest)?;
    Some(Call::Fill { chart, sheet, rule })
}

// CHART
fn read_begin(text: &[u8]) -> Option<Call<NoMachine>>
    ensures { option_map told result ≡ beginning text.now }
{
    let chart = number(text)?;
    Some(Call::Begin { chart })
}

// CHART,LETTER
fn read_scan(text: &[u8]) -> Option<Call<NoMachine>>
    ensures { option_map told result ≡ scanning text.now }
{
    let (chart, rest) = numbered(text)?;
    let letter = byte(rest)?;
    Some(Call::Scan { chart, letter })
}

// `table,TABLE` or `round,LETTERS`
fn read_ground(heap: Global, text: &[u8]) -> Result<Ground<NoMachine>, Unread>
    ensures { Reads base (ground text.now) result }
{
    if let Some(rest) = after(text, b"table,") {
        let table = number(rest).ok_or(Unread::NoForm)?;
        return Ok(Ground::Table(table));
    }
    let rest = after(text, b"round,").ok_or(Unread::NoForm)?;
    let letters = bytes(heap, rest)?;
    Ok(Ground::Round(letters))
}

// SIGNALS and a ground
fn read_machine(heap: Global, text: &[u8]) -> Result<Pile<NoMachine>, Unread>
    ensures { Reads (λ p. (p.stuck.items, base p.ground)) (machine text.now) result }
{
    let (signals, rest) = split(text, b',').ok_or(Unread::NoForm)?;
    let stuck = bytes(heap, signals)?;
    let ground = read_ground(heap, rest)?;
    Ok(Pile { ground, stuck })
}

// CHART,PAIRS,WALK, and what follows.
fn read_areas(text: &[u8]) -> Option<(usize, usize, usize, &[u8])>
    ensures { option_map (λ a. (a.0, a.1, a.2, a.3.now)) result ≡ chart_and_areas text.now }
{
    let (chart, rest) = numbered(text)?;
    let (pairs, rest) = numbered(rest)?;
    let (walk, rest) = numbered(rest)?;
    Some((chart, pairs, walk, rest))
}

// CHART,PAIRS,WALK,SIGNALS and a ground
fn read_find(heap: Global, text: &[u8]) -> Result<Call<NoMachine>, Unread>
    ensures { Reads told (finding text.now) result }
{
    let (chart, pairs, walk, rest) = read_areas(text).ok_or(Unread::NoForm)?;
    let machine = read_machine(heap, rest)?;
    Ok(Call::Search {
        chart,
        machine,
        pairs,
        walk,
    })
}

// A call on a chart alone, or on a chart and a sheet.
fn read_chart_call(line: &[u8]) -> Option<Call<NoMachine>>
    ensures { option_map told result ≡ chart_call line.now }
{
    if let Some(rest) = after(line, b"fill,") {
        return read_fill(rest);
    }
    if let Some(rest) = after(line, b"begin,") {
        return read_begin(rest);
    }
    read_scan(after(line, b"scan,")?)
}

// The call of a line.
pub(crate) fn read_call(heap: Global, line: &[u8]) -> Result<Call<NoMachine>, Unread>
    ensures { Reads told (call line.now) result }
{
    if let Some(rest) = after(line, b"open,") {
        return read_open(heap, rest);
    }
    if let Some(rest) = after(line, b"enter,") {
        return read_enter(heap, rest);
    }
    if let Some(rest) = after(line, b"load,") {
        return read_load(heap, rest);
    }
    if let Some(rest) = after(line, b"find,") {
        return read_find(heap, rest);
    }
    read_chart_call(line).ok_or(Unread::NoForm)
}
