// The fields of a line of a log.
ghost use Rattle.std.specs.Prelude.{◌≡◌, ◌==◌, IfOk, option_map, position};
ghost use Rattle.meaning.specs.Bytes.{after as after_word};
ghost use Rattle.logs.specs.Reads.{Reads};
ghost use Rattle.logs.specs.Told.{cut_at, small, byte as byte_of, numbered as numbered_of, bytes as bytes_of, unfolded};

use crate::unread::Unread;
use lines::{cut, read_number};
use std::alloc::{AllocError, Global};

// What follows a word at the front of a text.
pub(crate) fn after<'a>(text: &'a [u8], word: &[u8]) -> Option<&'a [u8]>
    ensures { option_map (λ rest. rest.now) result ≡ after_word word.now text.now }
{
    text.strip_prefix(word)
}

// Where the byte `at` first stands.
fn first(text: &[u8], at: u8) -> Option<usize>
    ensures { result ≡ position (λ b. b == at) text.now }
{
    text.iter().position(|b| *b == at)
}

// The part before the first byte `at`, and what follows that byte.
pub(crate) fn split(text: &[u8], at: u8) -> Option<(&[u8], &[u8])>
    ensures { option_map (λ p. (p.0.now, p.1.now)) result ≡ cut_at at text.now }
{
    let i = first(text, at)?;
    Some((&text[..i], &text[i + 1..]))
}

// A number below 65,536.
pub(crate) fn number(text: &[u8]) -> Option<usize>
    ensures { result ≡ small text.now }
{
    let number = read_number(text)?;
    if number >= 65536 {
        return None;
    }
    Some(number as usize)
}

// A number, and what follows the comma behind it.
pub(crate) fn numbered(text: &[u8]) -> Option<(usize, &[u8])>
    ensures { option_map (λ p. (p.0, p.1.now)) result ≡ numbered_of text.now }
{
    let (digits, rest) = split(text, b',')?;
    Some((number(digits)?, rest))
}

// A number up to 255.
pub(crate) fn byte(text: &[u8]) -> Option<u8>
    ensures { result ≡ byte_of text.now }
{
    let number = read_number(text)?;
    if number > 255 {
        return None;
    }
    Some(number as u8)
}

// Numbers up to 255, parted by one space; none where the text is empty.
pub(crate) fn bytes(heap: Global, text: &[u8]) -> Result<Vec<u8>, Unread>
    ensures { Reads (λ v. v.items) (bytes_of text.now) result }
{
    let mut numbers = Vec::new(heap);
    if text.is_empty() {
        return Ok(numbers);
    }
    let mut rest = text;
    while let Some((part, more)) = cut(rest, b' ') {
        numbers.push(byte(part).ok_or(Unread::NoForm)?)?;
        rest = more;
    }
    numbers.push(byte(rest).ok_or(Unread::NoForm)?)?;
    Ok(numbers)
}

// A file on one line: a semicolon stands for each LF.
pub(crate) fn unfold(heap: Global, text: &[u8]) -> Result<Vec<u8>, AllocError>
    ensures { IfOk result (λ v. v.items ≡ unfolded text.now) }
{
    let mut file = Vec::new(heap);
    for b in text {
        file.push(if *b == b';' { b'\n' } else { *b })?;
    }
    Ok(file)
}
