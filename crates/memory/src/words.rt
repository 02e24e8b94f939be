// A line is split at its spaces into words. Each says bytes or a number, in the one way in which it is written.

ghost use Rattle.std.specs.Prelude.{◌≡◌, ◌≢◌, ◌↔◌, ◌<◌, ◌∷◌, ◌++◌, Ok, Some, length, option_map, IfOk, IsTrue, MatchOption};
ghost use Rattle.std.specs.List.{AllByRecursion};
ghost use Rattle.encoding.specs.Limits.{IsKeyData, IsName};
ghost use Rattle.encoding.specs.declared.fixed_text.TheConstants.{PROOF_TEXT_ROOM};
ghost use Rattle.hex.specs.Hex.{decode_of, encode_lower};
ghost use Rattle.rootchain.specs.Promises.{SpellsPromise};
ghost use Rattle.memory.specs.Finding.{Finds};
ghost use Rattle.memory.specs.Lines.{HasRoom};
ghost use Rattle.memory.specs.Words.{HasNoSpace, IsFoundText, IsHexOf, IsNameWord, IsNumberWord, IsPromiseWord, IsReplyWord};

use crate::ReplyText;
use encoding::{BoundKey, KeyData, Name, PROOF_TEXT_ROOM, Policy};
use hex::FromHexError;
use itoa::Buffer;
use rootchain::SignedPromise;
use std::alloc::{AllocError, Global};

/// What stands before the first of these bytes, and what stands behind it, if there is one.
pub(crate) fn first_part(text: &[u8], end: u8) -> (&[u8], Option<&[u8]>)
    ensures front { AllByRecursion (λ byte. byte ≢ end) result.0.now }
    ensures parts { MatchOption result.1 (text.now ≡ result.0.now) (λ behind. text.now ≡ result.0.now ++ end ∷ behind.now) }
{
    for place in 0..text.len() {
        if text[place] == end {
            let (front, rest) = text.split_at(place);
            return (front, Some(rest.split_at(1).1));
        }
    }
    (text, None)
}

/// The number that a word writes in decimal digits, with no zero in front.
pub(crate) fn read_number(word: &[u8]) -> Option<u64>
    ensures { Finds (IsNumberWord word.now) result }
{
    let Ok(text) = str::from_utf8(word) else {
        return None;
    };
    let Ok(number) = text.parse::<u64>() else {
        return None;
    };
    // So neither a sign nor a zero stands in front.
    if Buffer::new().format(number).as_bytes() == word {
        Some(number)
    } else {
        None
    }
}

/// The bytes that a word writes in hexadecimal digits, in lower case.
fn read_hex(alloc: Global, word: &[u8]) -> Result<Option<Vec<u8>>, AllocError>
    ensures { IfOk result (λ read. Finds (IsHexOf word.now) (option_map (λ bytes. bytes.items) read)) }
{
    match hex::decode(alloc, word) {
        Ok(bytes) => only_lower(alloc, bytes, word),
        Err(FromHexError::OutOfMemory) => Err(AllocError),
        Err(_) => Ok(None),
    }
}

/// The bytes of a word, if no digit is in upper case.
fn only_lower(alloc: Global, bytes: Vec<u8>, word: &[u8]) -> Result<Option<Vec<u8>>, AllocError>
    requires { decode_of word.now ≡ Ok bytes.items }
    ensures { IfOk result (λ read. Finds (IsHexOf word.now) (option_map (λ bytes. bytes.items) read)) }
{
    if is_lower(alloc, &bytes, word)? {
        Ok(Some(bytes))
    } else {
        Ok(None)
    }
}

/// Whether a word is the digits of these bytes in lower case.
fn is_lower(alloc: Global, bytes: &[u8], word: &[u8]) -> Result<bool, AllocError>
    ensures { IfOk result (λ is. IsTrue is ↔ (word.now ≡ encode_lower bytes.now)) }
{
    Ok(hex::encode(alloc, bytes)?.as_bytes() == word)
}

/// The name that a word writes.
pub(crate) fn read_name(alloc: Global, word: &[u8]) -> Result<Option<Name>, AllocError>
    ensures { IfOk result (Finds (IsNameWord word.now)) }
{
    match read_hex(alloc, word)? {
        Some(bytes) => Ok(name_of(&bytes)),
        None => Ok(None),
    }
}

fn name_of(bytes: &[u8]) -> Option<Name>
    ensures { MatchOption result (¬ IsName bytes.now) (λ name. IsName bytes.now × (name ≡ bytes.now)) }
{
    match Name::new(bytes) {
        Ok(name) => Some(name),
        Err(_) => None,
    }
}

/// The key that a text writes, with its policy if it has one, or that there was none.
pub(crate) fn read_found(alloc: Global, text: &[u8]) -> Result<Option<Option<BoundKey>>, AllocError>
    ensures { IfOk result (Finds (IsFoundText text.now)) }
{
    match first_part(text, b' ') {
        (word, Some(behind)) => read_key_with(alloc, word, behind),
        (word, None) => read_key(alloc, word),
    }
}

/// `KEY POLICY`
fn read_key_with(
    alloc: Global,
    word: &[u8],
    behind: &[u8],
) -> Result<Option<Option<BoundKey>>, AllocError>
    requires { HasNoSpace word.now }
    ensures { IfOk result (Finds (IsFoundText (word.now ++ 32 ∷ behind.now))) }
{
    let Some(policy) = Policy::of_word(behind) else {
        return Ok(None);
    };
    match read_hex(alloc, word)? {
        Some(bytes) => Ok(key_of(&bytes, Some(policy))),
        None => Ok(None),
    }
}

/// `KEY`, or `absent`
fn read_key(alloc: Global, word: &[u8]) -> Result<Option<Option<BoundKey>>, AllocError>
    requires { HasNoSpace word.now }
    ensures { IfOk result (Finds (IsFoundText word.now)) }
{
    if word == b"absent".as_slice() {
        return Ok(Some(None));
    }
    match read_hex(alloc, word)? {
        Some(bytes) => Ok(key_of(&bytes, None)),
        None => Ok(None),
    }
}

/// The key of these bytes with this policy, as what was found.
fn key_of(bytes: &[u8], policy: Option<Policy>) -> Option<Option<BoundKey>>
    ensures { MatchOption result (¬ IsKeyData bytes.now) (λ found. IsKeyData bytes.now × (found ≡ Some (record { value = bytes.now; policy = policy }))) }
{
    match KeyData::new(bytes) {
        Ok(value) => Some(Some(BoundKey { value, policy })),
        Err(_) => None,
    }
}

/// The promise that a word writes.
pub(crate) fn read_promise(alloc: Global, word: &[u8]) -> Result<Option<SignedPromise>, AllocError>
    ensures { IfOk result (Finds (IsPromiseWord word.now)) }
{
    match read_hex(alloc, word)? {
        Some(bytes) => Ok(promise_of(&bytes)),
        None => Ok(None),
    }
}

fn promise_of(bytes: &[u8]) -> Option<SignedPromise>
    ensures { Finds (SpellsPromise bytes.now) result }
{
    match SignedPromise::read(bytes) {
        Ok(signed) => Some(signed),
        Err(_) => None,
    }
}

/// The reply that a word writes.
pub(crate) fn read_reply(alloc: Global, word: &[u8]) -> Result<Option<ReplyText>, AllocError>
    ensures { IfOk result (Finds (IsReplyWord word.now)) }
{
    match read_hex(alloc, word)? {
        Some(bytes) => Ok(reply_of(bytes)),
        None => Ok(None),
    }
}

fn reply_of(bytes: Vec<u8>) -> Option<ReplyText>
    ensures { MatchOption result (PROOF_TEXT_ROOM < length bytes.items) (λ reply. HasRoom bytes.items × (reply ≡ bytes.items)) }
{
    if PROOF_TEXT_ROOM < bytes.len() {
        return None;
    }
    Some(ReplyText::new(bytes))
}
