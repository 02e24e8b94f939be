// A line is split at its spaces into words. Each says bytes or a number.

ghost use Rattle.std.specs.Prelude.{◌≡◌, ◌∷◌, IfOk, option_map};
ghost use Rattle.std.specs.Int.NonZero.{non_zero_u32_get};
ghost use Rattle.play.specs.Scripts.{count_word, epoch_word, hex_word, number_word, one_of, session_word, three_of, two_of, words, words_behind};

use hex::FromHexError;
use itoa::Buffer;
use std::alloc::{AllocError, Global};
use std::num::NonZeroU32;

/// The first word of a text, and what stands behind the space that ends it, if one does.
pub(crate) fn first_word(text: &[u8]) -> (&[u8], Option<&[u8]>)
    ensures { words text.now ≡ result.0.now ∷ words_behind (option_map (λ text. text.now) result.1) }
{
    match text.iter().position(|byte| *byte == b' ') {
        Some(place) => {
            let (word, rest) = text.split_at(place);
            (word, Some(rest.split_at(1).1))
        }
        None => (text, None),
    }
}

/// The word, if there is one alone.
pub(crate) fn one_word(behind: Option<&[u8]>) -> Option<&[u8]>
    ensures { option_map (λ word. word.now) result ≡ one_of (words_behind (option_map (λ text. text.now) behind.entry)) }
{
    match first_word(behind?) {
        (word, None) => Some(word),
        (_, Some(_)) => None,
    }
}

/// The words, if there are two.
pub(crate) fn two_words(behind: Option<&[u8]>) -> Option<(&[u8], &[u8])>
    ensures { option_map (λ both. (both.0.now, both.1.now)) result ≡ two_of (words_behind (option_map (λ text. text.now) behind.entry)) }
{
    let (one, more) = first_word(behind?);
    Some((one, one_word(more)?))
}

/// The words, if there are three.
pub(crate) fn three_words(behind: Option<&[u8]>) -> Option<(&[u8], &[u8], &[u8])>
    ensures { option_map (λ all. (all.0.now, all.1.now, all.2.now)) result ≡ three_of (words_behind (option_map (λ text. text.now) behind.entry)) }
{
    let (one, more) = first_word(behind?);
    let (two, three) = two_words(more)?;
    Some((one, two, three))
}

/// The number that a word writes in decimal digits, with no zero in front, if it is at most this.
fn read_number(word: &[u8], most: u64) -> Option<u64>
    ensures { result ≡ number_word most word.now }
{
    let number = str::from_utf8(word).ok()?.parse::<u64>().ok()?;
    // So neither a sign nor a zero stands in front.
    if number <= most && Buffer::new().format(number).as_bytes() == word {
        Some(number)
    } else {
        None
    }
}

/// An epoch.
pub(crate) fn read_epoch(word: &[u8]) -> Option<u64>
    ensures { result ≡ epoch_word word.now }
{
    read_number(word, u64::MAX)
}

/// How many roots are asked for.
pub(crate) fn read_count(word: &[u8]) -> Option<u16>
    ensures { result ≡ count_word word.now }
{
    match read_number(word, u64::from(u16::MAX)) {
        Some(count) => Some(count as u16),
        None => None,
    }
}

/// The number of a session. 0 is the session of the lines that ask.
pub(crate) fn read_session(word: &[u8]) -> Option<NonZeroU32>
    ensures { option_map non_zero_u32_get result ≡ session_word word.now }
{
    match read_number(word, u64::from(u32::MAX)) {
        Some(session) => NonZeroU32::new(session as u32),
        None => None,
    }
}

/// The bytes that a word writes in hexadecimal digits, or `-` for none.
pub(crate) fn read_bytes(alloc: Global, word: &[u8]) -> Result<Option<Vec<u8>>, AllocError>
    ensures { IfOk result (λ read. option_map (λ bytes. bytes.items) read ≡ hex_word word.now) }
{
    if word.is_empty() {
        return Ok(None);
    }
    if word == b"-".as_slice() {
        return Ok(Some(Vec::new(alloc)));
    }
    match hex::decode(alloc, word) {
        Ok(bytes) => Ok(Some(bytes)),
        Err(FromHexError::OutOfMemory) => Err(AllocError),
        Err(_) => Ok(None),
    }
}
