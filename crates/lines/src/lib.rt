// Lines of a file: where they end, of which kind they are, their fields and their numbers.
// Loading (`loading`) and the reading of logs (`logs`) stand on it.
#![tactic(auto)]

ghost use Rattle.std.specs.Prelude.{◌≡◌, ◌+◌, ◌-◌, ◌*◌, ◌<◌, [], ◌∷◌, Some, None, codes, ◌==◌, position};
ghost use Rattle.meaning.specs.Bytes.{after, number, parted};
ghost use Rattle.meaning.specs.Files.{mapped, entry, of_fields, signals, rule};
ghost use Rattle.lines.specs.Fields.{Cut, Two, Three, figure, cap, capped, fields_of, shown};

// What a line says; numbers above 65,536 are taken for 65,536.
#[derive(Clone, Copy)]
pub enum Entry<'a> {
    Signals(&'a [u8]),
    Rule(&'a [u8]),
    State {
        number: u32,
        start: u32,
        letter: u32,
    },
    Step {
        from: u32,
        to: u32,
    },
}

// Where the byte `at` first stands.
// Kept: one call of `position`, under the name and the fact that proofs go by; one function for all would be no plainer.
fn first(text: &[u8], at: u8) -> Option<usize>
    ensures { result ≡ position (λ b. b == at) text.now }
{
    text.iter().position(|b| *b == at)
}

// The part before the first byte `at`, and what follows that byte.
pub fn cut(text: &[u8], at: u8) -> Option<(&[u8], &[u8])>
    ensures { Cut at text.now result }
{
    let i = first(text, at)?;
    Some((&text[..i], &text[i + 1..]))
}

// The two fields of a text.
fn two(text: &[u8]) -> Option<(&[u8], &[u8])>
    ensures { Two text.now result }
{
    let (a, b) = cut(text, b',')?;
    cut(b, b',').is_none().then_some((a, b))
}

// The three fields of a text.
fn three(text: &[u8]) -> Option<(&[u8], &[u8], &[u8])>
    ensures { Three text.now result }
{
    let (a, rest) = cut(text, b',')?;
    let (b, c) = two(rest)?;
    Some((a, b, c))
}

// The number that digits write, behind no others.
fn digits(text: &[u8]) -> Option<u32>
    ensures { result ≡ figure 0 text.now }
{
    let mut n = 0;
    for b in text {
        if !b.is_ascii_digit() {
            return None;
        }
        n = (n * 10 + u32::from(*b - b'0')).min(65536);
    }
    Some(n)
}

// A number without sign, space or leading zero; from 65,536 on it counts as 65,536.
pub fn read_number(text: &[u8]) -> Option<u32>
    ensures { result ≡ mapped cap (number text.now) }
{
    match text {
        [] | [b'0', _, ..] => None,
        _ => digits(text),
    }
}

// Kept: a rule of the project tells lines apart by slice patterns.
fn signals_entry(line: &[u8]) -> Option<Entry<'_>>
    ensures { mapped shown result ≡ mapped signals (after (codes "signals,") line.now) }
{
    match line {
        [b's', b'i', b'g', b'n', b'a', b'l', b's', b',', names @ ..] => Some(Entry::Signals(names)),
        _ => None,
    }
}

fn rule_entry(line: &[u8]) -> Option<Entry<'_>>
    ensures { mapped shown result ≡ mapped rule (after (codes "rule,") line.now) }
{
    match line {
        [b'r', b'u', b'l', b'e', b',', text @ ..] => Some(Entry::Rule(text)),
        _ => None,
    }
}

// The entry behind the word `state`.
fn state_fields(text: &[u8]) -> Option<Entry<'_>>
    ensures { mapped shown result ≡ mapped capped (of_fields (codes "state" ∷ parted 44 text.now)) }
{
    let (number, start, letter) = three(text)?;
    Some(Entry::State {
        number: read_number(number)?,
        start: read_number(start)?,
        letter: read_number(letter)?,
    })
}

fn state_entry(line: &[u8]) -> Option<Entry<'_>>
    ensures { mapped shown result ≡ mapped capped (fields_of (codes "state") (after (codes "state,") line.now)) }
{
    match line {
        [b's', b't', b'a', b't', b'e', b',', fields @ ..] => state_fields(fields),
        _ => None,
    }
}

// The entry behind the word `step`.
fn step_fields(text: &[u8]) -> Option<Entry<'_>>
    ensures { mapped shown result ≡ mapped capped (of_fields (codes "step" ∷ parted 44 text.now)) }
{
    let (from, to) = two(text)?;
    Some(Entry::Step {
        from: read_number(from)?,
        to: read_number(to)?,
    })
}

fn step_entry(line: &[u8]) -> Option<Entry<'_>>
    ensures { mapped shown result ≡ mapped capped (fields_of (codes "step") (after (codes "step,") line.now)) }
{
    match line {
        [b's', b't', b'e', b'p', b',', fields @ ..] => step_fields(fields),
        _ => None,
    }
}

// What the line says, if it says anything.
// Kept: of one match over the four patterns the last arm didn't prove, which is reached on some thirty paths.
pub fn read(line: &[u8]) -> Option<Entry<'_>>
    ensures { mapped shown result ≡ mapped capped (entry line.now) }
{
    signals_entry(line)
        .or_else(|| rule_entry(line))
        .or_else(|| state_entry(line))
        .or_else(|| step_entry(line))
}
