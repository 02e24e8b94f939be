use crate::named::Named;
use std::alloc::{AllocError, Global};

/// A word of a question: its text, and the bytes that it spells, if it does.
#[derive(Drop)]
pub(crate) struct Word<'a> {
    pub(crate) text: &'a [u8],
    pub(crate) bytes: Option<Vec<u8>>,
}

/// The number in decimal digits.
pub(crate) fn number(text: &[u8]) -> Option<u64> {
    str::from_utf8(text).ok()?.parse::<u64>().ok()
}

/// The parts before and after the first such byte, if there is one.
fn split_at_byte(text: &[u8], byte: u8) -> Option<(&[u8], &[u8])> {
    let place = text.iter().position(|other| *other == byte)?;
    Some((text.split_at(place).0, text.split_at(place + 1).1))
}

/// Appends the bytes that digits spell. Says whether they spell some.
fn push_digits(all: &mut Vec<u8>, digits: &[u8]) -> Result<bool, AllocError> {
    for pair in digits.chunks(2) {
        let mut byte = [0; 1];
        if hex::decode_to_slice(pair, &mut byte).is_err() {
            return Ok(false);
        }
        all.extend_from_slice(&byte)?;
    }
    Ok(!digits.is_empty())
}

/// Appends what digits spell so many times.
fn push_times(all: &mut Vec<u8>, digits: &[u8], times: u64) -> Result<bool, AllocError> {
    for _ in 0..times {
        if !push_digits(all, digits)? {
            return Ok(false);
        }
    }
    Ok(true)
}

/// The bytes from one place to below another, given in decimal digits.
fn bytes_between<'a>(bytes: &'a [u8], from: &[u8], to: &[u8]) -> Option<&'a [u8]> {
    let from = usize::try_from(number(from)?).ok()?;
    let to = usize::try_from(number(to)?).ok()?;
    bytes.get(from..to)
}

/// The bytes of a name, or those of its places.
fn named_bytes<'a>(named: &'a Named, text: &[u8]) -> Option<&'a [u8]> {
    let Some((name, places)) = split_at_byte(text, b'/') else {
        return named.get(text);
    };
    let (from, to) = split_at_byte(places, b'/')?;
    bytes_between(named.get(name)?, from, to)
}

/// Appends the bytes of a part. Says whether it spells some.
fn push_part(all: &mut Vec<u8>, named: &Named, part: &[u8]) -> Result<bool, AllocError> {
    if let [b'$', text @ ..] = part {
        let Some(bytes) = named_bytes(named, text) else {
            return Ok(false);
        };
        all.extend_from_slice(bytes)?;
        return Ok(true);
    }
    if let Some((digits, times)) = split_at_byte(part, b'*') {
        let Some(times) = number(times) else {
            return Ok(false);
        };
        return push_times(all, digits, times);
    }
    push_digits(all, part)
}

/// The bytes of a word, if it spells some.
fn bytes_of(alloc: Global, named: &Named, text: &[u8]) -> Result<Option<Vec<u8>>, AllocError> {
    let mut all = Vec::new(alloc);
    for part in text.split(|byte| *byte == b'+') {
        if part != b"-".as_slice() && !push_part(&mut all, named, part)? {
            return Ok(None);
        }
    }
    Ok(Some(all))
}

/// The words of a line.
pub(crate) fn words_of<'a>(
    alloc: Global,
    named: &Named,
    line: &'a [u8],
) -> Result<Vec<Word<'a>>, AllocError> {
    let mut words = Vec::new(alloc);
    for text in line.split(|byte| *byte == b' ') {
        let bytes = bytes_of(alloc, named, text)?;
        words.push(Word { text, bytes })?;
    }
    Ok(words)
}
