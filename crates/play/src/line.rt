// The first word of a line says what it is, and how many words stand behind it.

ghost use Rattle.std.specs.Prelude.{◌≡◌, IfOk, IfSome, Some, option_map};
ghost use Rattle.encoding.specs.Policies.{policy_named};
ghost use Rattle.play.specs.Scripts as script;
ghost use Rattle.play.specs.Scripts.{asked_line, hex_word, line_of, line_seen, other_verbs, said_among, session_word, verbs, watching, watching_with, with_one_word, with_three_words, with_two_words, words_behind};

use crate::ask::{Ask, read_ask};
use crate::word::{first_word, one_word, read_bytes, read_session, three_words, two_words};
use encoding::{BoundKey, KeyData, Name, Policy};
use std::alloc::{AllocError, Global};
use std::num::NonZeroU32;

/// What a line of a script says.
#[derive(Debug, Drop)]
pub enum Line {
    /// Nothing: it is empty, or a note.
    Pass,
    /// Something is asked of the directory.
    Ask(Ask),
    /// A monitor of a name begins, which expects this key, with its policy if it has one, or no key.
    Watch { name: Name, key: Option<BoundKey> },
    /// A piece of a session's stream comes.
    Piece { session: NonZeroU32, piece: Vec<u8> },
    /// A session ends.
    End { session: NonZeroU32 },
}

/// What a line says, or `None` if it is no command.
///
/// # Errors
///
/// `AllocError` if memory runs out.
pub fn read_line(alloc: Global, line: &[u8]) -> Result<Option<Line>, AllocError>
    ensures { IfOk result (λ read. option_map line_seen read ≡ line_of line.now) }
{
    if line.is_empty() || line[0] == b'#' {
        return Ok(Some(Line::Pass));
    }
    let (verb, behind) = first_word(line);
    read_command(alloc, verb, behind)
}

/// What a line asks, or `None` if it has no verb that asks. So a line that asks has no room for a name and a
/// key, as a `Line` has.
///
/// # Errors
///
/// `AllocError` if memory runs out.
pub(crate) fn read_asked(alloc: Global, line: &[u8]) -> Result<Option<Option<Ask>>, AllocError>
    ensures { IfOk result (λ read. IfSome read (λ ask. option_map asked_line ask ≡ line_of line.now)) }
{
    if line.is_empty() || line[0] == b'#' {
        return Ok(None);
    }
    let (verb, behind) = first_word(line);
    read_ask(alloc, verb, behind)
}

/// What a verb says with the words behind it.
fn read_command(
    alloc: Global,
    verb: &[u8],
    behind: Option<&[u8]>,
) -> Result<Option<Line>, AllocError>
    ensures { IfOk result (λ read. option_map line_seen read ≡ said_among verbs verb.now (words_behind (option_map (λ text. text.now) behind.entry))) }
{
    match read_ask(alloc, verb, behind)? {
        Some(Some(ask)) => Ok(Some(Line::Ask(ask))),
        Some(None) => Ok(None),
        None => read_other(alloc, verb, behind),
    }
}

/// What a verb that asks nothing says with the words behind it. A function of its own, since a name and a key
/// take room.
#[inline(never)]
fn read_other(alloc: Global, verb: &[u8], behind: Option<&[u8]>) -> Result<Option<Line>, AllocError>
    ensures { IfOk result (λ read. option_map line_seen read ≡ said_among other_verbs verb.now (words_behind (option_map (λ text. text.now) behind.entry))) }
{
    if verb == b"watch".as_slice() {
        return read_watch(alloc, behind);
    }
    if verb == b"watch2".as_slice() {
        return read_watch_with(alloc, behind);
    }
    if verb == b"bytes".as_slice() {
        return read_piece(alloc, behind);
    }
    if verb == b"end".as_slice() {
        return Ok(read_end(behind));
    }
    Ok(None)
}

/// `end S`
fn read_end(behind: Option<&[u8]>) -> Option<Line>
    ensures { option_map line_seen result ≡ with_one_word session_word (λ session. Some (script.End session)) (words_behind (option_map (λ text. text.now) behind.entry)) }
{
    let session = read_session(one_word(behind)?)?;
    Some(Line::End { session })
}

/// `watch NAME KEY`, or `-` as the key for none
fn read_watch(alloc: Global, behind: Option<&[u8]>) -> Result<Option<Line>, AllocError>
    ensures { IfOk result (λ read. option_map line_seen read ≡ with_two_words hex_word hex_word watching (words_behind (option_map (λ text. text.now) behind.entry))) }
{
    let Some((name, key)) = two_words(behind) else {
        return Ok(None);
    };
    match (read_bytes(alloc, name)?, read_bytes(alloc, key)?) {
        (Some(name), Some(key)) => Ok(watch_of(&name, &key)),
        _ => Ok(None),
    }
}

/// The line that lets a monitor of this name begin, if the name and the key have lengths that are allowed.
fn watch_of(name: &[u8], key: &[u8]) -> Option<Line>
    ensures { option_map line_seen result ≡ watching name.now key.now }
{
    let name = Name::new(name).ok()?;
    if key.is_empty() {
        return Some(Line::Watch { name, key: None });
    }
    let value = KeyData::new(key).ok()?;
    Some(Line::Watch {
        name,
        key: Some(BoundKey {
            value,
            policy: None,
        }),
    })
}

/// `watch2 NAME KEY POLICY`
fn read_watch_with(alloc: Global, behind: Option<&[u8]>) -> Result<Option<Line>, AllocError>
    ensures { IfOk result (λ read. option_map line_seen read ≡ with_three_words hex_word hex_word policy_named watching_with (words_behind (option_map (λ text. text.now) behind.entry))) }
{
    let Some((name, key, policy)) = three_words(behind) else {
        return Ok(None);
    };
    match (
        read_bytes(alloc, name)?,
        read_bytes(alloc, key)?,
        Policy::of_word(policy),
    ) {
        (Some(name), Some(key), Some(policy)) => Ok(watch_with(&name, &key, policy)),
        _ => Ok(None),
    }
}

/// The line that lets a monitor of this name begin, which expects this key with this policy, if the name and the
/// key have lengths that are allowed.
fn watch_with(name: &[u8], key: &[u8], policy: Policy) -> Option<Line>
    ensures { option_map line_seen result ≡ watching_with name.now key.now policy }
{
    let name = Name::new(name).ok()?;
    let value = KeyData::new(key).ok()?;
    Some(Line::Watch {
        name,
        key: Some(BoundKey {
            value,
            policy: Some(policy),
        }),
    })
}

/// `bytes S HEX`
fn read_piece(alloc: Global, behind: Option<&[u8]>) -> Result<Option<Line>, AllocError>
    ensures { IfOk result (λ read. option_map line_seen read ≡ with_two_words session_word hex_word (λ session piece. Some (script.Piece session piece)) (words_behind (option_map (λ text. text.now) behind.entry))) }
{
    let Some((session, piece)) = two_words(behind) else {
        return Ok(None);
    };
    match (read_session(session), read_bytes(alloc, piece)?) {
        (Some(session), Some(piece)) => Ok(Some(Line::Piece { session, piece })),
        _ => Ok(None),
    }
}
