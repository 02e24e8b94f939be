// The lines of what is remembered. Each function appends to the text; an `Err` says that memory ran out, and some of
// the line may then stand behind what the text was.

ghost use Rattle.std.specs.Prelude.{◌≡◌, ◌++◌, ◌∷◌, [], OnErr, OnOk, Some, decimal};
ghost use Rattle.std.specs.Io.{StartsWith};
ghost use Rattle.encoding.specs.Limits.{IsName};
ghost use Rattle.hex.specs.Hex.{encode_lower};
ghost use Rattle.memory.specs.Lines.{found_words, item_line, line_of, promise_word, IsNamed};
ghost use Rattle.memory.specs.declared.item.Item.TheVariants as items;

use crate::{Alarm, EvidenceLine, FinalSeen, Item, Mark, Promised};
use encoding::BoundKey;
use itoa::Buffer;
use std::alloc::AllocError;
use textio::{HASH_SIZE, hex_digits};

impl Item {
    /// Appends the line, and its LF.
    ///
    /// # Errors
    ///
    /// `AllocError` if memory runs out. Then the text may have grown by a part of the line.
    pub fn write(&self, text: &mut Vec<u8>) -> Result<(), AllocError>
        ensures ok { OnOk result (text.new.items ≡ text.old.items ++ item_line self.now ++ 10 ∷ []) }
        ensures named { IsNamed self.now }
        ensures grows { StartsWith text.new.items text.old.items }
    {
        match self {
            Item::Promised(promised) => push_promised(text, promised),
            Item::Watched(mark) => push_mark(text, mark),
            Item::Final(seen) => push_final(text, seen),
            Item::Alarm(alarm) => push_alarm(text, alarm),
            Item::Evidence(line) => push_evidence(text, line),
        }
    }
}

pub(crate) fn push_promised(text: &mut Vec<u8>, promised: &Promised) -> Result<(), AllocError>
    ensures ok { OnOk result (text.new.items ≡ text.old.items ++ item_line (items.Promised promised.now) ++ 10 ∷ []) }
    ensures grows { StartsWith text.new.items text.old.items }
{
    push_word(text, promise_word(promised.is_own))?;
    push_hex(text, promised.signed.write().bytes())?;
    text.extend_from_slice(b"\n")
}

pub(crate) fn push_mark(text: &mut Vec<u8>, mark: &Mark) -> Result<(), AllocError>
    ensures ok { OnOk result (text.new.items ≡ text.old.items ++ item_line (items.Watched mark.now) ++ 10 ∷ []) }
    ensures named { IsName mark.now.name }
    ensures grows { StartsWith text.new.items text.old.items }
{
    push_named(text, b"watched", mark.name.bytes(), mark.since)?;
    text.extend_from_slice(b" ")?;
    push_number(text, mark.epoch)?;
    text.extend_from_slice(b"\n")
}

pub(crate) fn push_final(text: &mut Vec<u8>, seen: &FinalSeen) -> Result<(), AllocError>
    ensures ok { OnOk result (text.new.items ≡ text.old.items ++ item_line (items.Final seen.now) ++ 10 ∷ []) }
    ensures named { IsName seen.now.name }
    ensures grows { StartsWith text.new.items text.old.items }
{
    push_named(text, b"final", seen.name.bytes(), seen.epoch)?;
    text.extend_from_slice(b" ")?;
    push_hex(text, seen.reply.bytes())?;
    text.extend_from_slice(b"\n")
}

pub(crate) fn push_alarm(text: &mut Vec<u8>, alarm: &Alarm) -> Result<(), AllocError>
    ensures ok { OnOk result (text.new.items ≡ text.old.items ++ item_line (items.Alarm alarm.now) ++ 10 ∷ []) }
    ensures named { IsName alarm.now.name }
    ensures grows { StartsWith text.new.items text.old.items }
{
    push_named(text, b"alarm", alarm.name.bytes(), alarm.epoch)?;
    text.extend_from_slice(b" ")?;
    push_found(text, &alarm.found)?;
    text.extend_from_slice(b"\n")
}

pub(crate) fn push_evidence(text: &mut Vec<u8>, line: &EvidenceLine) -> Result<(), AllocError>
    ensures ok { OnOk result (text.new.items ≡ text.old.items ++ item_line (items.Evidence line.now) ++ 10 ∷ []) }
    ensures grows { StartsWith text.new.items text.old.items }
{
    text.extend_from_slice(line.bytes())?;
    text.extend_from_slice(b"\n")
}

/// The first word of the line of a promise.
pub(crate) fn promise_word(is_own: bool) -> &'static [u8]
    ensures { result.now ≡ promise_word is_own }
{
    if is_own { b"change" } else { b"promise" }
}

/// Appends a word, and the space behind it.
fn push_word(text: &mut Vec<u8>, word: &[u8]) -> Result<(), AllocError>
    ensures ok { OnOk result (text.new.items ≡ text.old.items ++ (word.now ++ 32 ∷ [])) }
    ensures grows { StartsWith text.new.items text.old.items }
{
    text.extend_from_slice(word)?;
    text.extend_from_slice(b" ")
}

/// Appends a word, a name in digits and an epoch.
fn push_named(text: &mut Vec<u8>, word: &[u8], name: &[u8], epoch: u64) -> Result<(), AllocError>
    ensures ok { OnOk result (text.new.items ≡ text.old.items ++ (word.now ++ 32 ∷ (encode_lower name.now ++ 32 ∷ decimal epoch))) }
    ensures grows { StartsWith text.new.items text.old.items }
{
    push_word(text, word)?;
    push_hex(text, name)?;
    text.extend_from_slice(b" ")?;
    push_number(text, epoch)
}

/// Appends what an alarm found.
fn push_found(text: &mut Vec<u8>, found: &Option<BoundKey>) -> Result<(), AllocError>
    ensures ok { OnOk result (text.new.items ≡ text.old.items ++ line_of (found_words found.now)) }
    ensures grows { StartsWith text.new.items text.old.items }
{
    match found {
        Some(key) => push_key(text, key),
        None => text.extend_from_slice(b"absent"),
    }
}

/// Appends a key, with its policy behind it if it has one.
fn push_key(text: &mut Vec<u8>, key: &BoundKey) -> Result<(), AllocError>
    ensures ok { OnOk result (text.new.items ≡ text.old.items ++ line_of (found_words (Some key.now))) }
    ensures grows { StartsWith text.new.items text.old.items }
{
    push_hex(text, key.bytes())?;
    if let Some(policy) = key.policy {
        text.push(b' ')?;
        text.extend_from_slice(policy.word())?;
    }
    Ok(())
}

/// Appends a number in decimal digits.
fn push_number(text: &mut Vec<u8>, number: u64) -> Result<(), AllocError>
    ensures ok { OnOk result (text.new.items ≡ text.old.items ++ decimal number) }
    ensures err { OnErr result (text.new.items ≡ text.old.items) }
{
    let mut digits = Buffer::new();
    text.extend_from_slice(digits.format(number).as_bytes())
}

/// Appends bytes in hexadecimal digits, as many bytes at once as a hash has.
fn push_hex(text: &mut Vec<u8>, bytes: &[u8]) -> Result<(), AllocError>
    ensures ok { OnOk result (text.new.items ≡ text.old.items ++ encode_lower bytes.now) }
    ensures grows { StartsWith text.new.items text.old.items }
{
    let mut rest = bytes;
    while rest.len() >= HASH_SIZE {
        let (front, behind) = rest.split_at(HASH_SIZE);
        text.extend_from_slice(&hex_digits(front))?;
        rest = behind;
    }
    push_each(text, rest)
}

/// Appends bytes in hexadecimal digits, one byte after another.
#[tactic(auto, unfolding(hex::specs::Hex::encode_with))]
fn push_each(text: &mut Vec<u8>, bytes: &[u8]) -> Result<(), AllocError>
    ensures ok { OnOk result (text.new.items ≡ text.old.items ++ encode_lower bytes.now) }
    ensures grows { StartsWith text.new.items text.old.items }
{
    for byte in bytes {
        let mut digits = [0; 2];
        let fits = hex::encode_to_slice(&[*byte], &mut digits).is_ok();
        prove!(fits);
        text.extend_from_slice(&digits)?;
    }
    Ok(())
}
