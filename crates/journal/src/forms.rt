// The bytes of records: how each is written, and how it is read.
//
// Records are read so that a refusal says whether the bytes were cut short: `Short` exactly where they
// begin a record that more bytes could end. So a length is refused at its first byte where no second one
// could mend it.
ghost use Rattle.std.specs.Prelude.{◌≡◌, ◌/◌, length};
ghost use Rattle.encoding.specs.Reading.{Gives, read_counted};
ghost use Rattle.encoding.specs.declared.bounded.TheConstants.{MIN_LEN};
ghost use Rattle.journal.specs.Records.{later_seen, read_bound, read_later, read_start, read_up_to, read_verb, record_bytes, verb_byte, IsLater, IsRecord};

use crate::beginning::Beginning;
use book::Record;
use commands::Verb;
use encoding::{
    BoundKey, Cursor, Fault, Hash32, KeyData, MAX_KEY_DATA_LEN, MAX_NAME_LEN, MIN_LEN, Name,
    Policy, Text, policy_len,
};

/// The kind byte of a start, the letter N.
const START: u8 = 0x4e;

/// The version of the form of a start.
const START_VERSION: u8 = 1;

/// The kind byte of a binding, the letter O.
const BOUND: u8 = 0x4f;

/// The kind byte of a new page, the letter C.
const TURNED: u8 = 0x43;

/// The kind byte of a new page under a nonce of its own, the letter K.
const ROTATED: u8 = 0x4b;

/// How many bytes a start has.
pub(crate) const START_SIZE: usize = 106;

/// How many bytes a binding has beside its policy, its name and its key.
const BOUND_SIZE: usize = 38;

/// How many bytes a new page has.
const TURNED_SIZE: usize = 9;

/// How many bytes a new page under a nonce of its own has.
const ROTATED_SIZE: usize = 41;

/// The record of a command, whose name and key stay where they were read. A `Record` has room for the longest
/// of them, and is copied wherever it is handed on.
#[derive(Drop)]
pub(crate) enum Later<'a> {
    /// A key that is put to a name, with its policy if it has one, and the salt of the commitment.
    Bound {
        verb: Verb,
        salt: Hash32,
        name: &'a [u8],
        key: &'a [u8],
        policy: Option<Policy>,
    },
    /// A new page, of this epoch, and of this nonce, or of the last page's.
    Turned {
        epoch: u64,
        nonce: Option<Hash32>,
    },
}

/// The byte of a verb, where a policy stands behind it or none.
fn verb_byte(verb: Verb, has_policy: bool) -> u8
    ensures { result ≡ verb_byte verb has_policy }
{
    match verb {
        Verb::Register if has_policy => 3,
        Verb::Register => 1,
        Verb::Change if has_policy => 4,
        Verb::Change => 2,
    }
}

/// The bytes of a record: 106 of a start, 9 of a new page, 41 of one under a nonce of its own, and 38 of a
/// binding beside its policy, its name and its key.
pub(crate) fn record_text(what: &Record) -> Text
    ensures text { result ≡ record_bytes what.now }
    ensures record { IsRecord what.now }
{
    let mut text = Text::new();
    match what {
        Record::Start {
            epoch,
            nonce,
            signing_key,
            vuf_key,
        } => {
            text.push_slice(&[START, START_VERSION]);
            text.push_u64(*epoch);
            text.push_slice(nonce.bytes());
            text.push_slice(signing_key.bytes());
            text.push_slice(vuf_key.bytes());
        }
        Record::Bound {
            verb,
            salt,
            name,
            key,
        } => {
            text.push_slice(&[BOUND, verb_byte(*verb, key.policy.is_some())]);
            text.push_policy(key.policy);
            text.push_slice(salt.bytes());
            text.push_counted(name.bytes());
            text.push_counted(key.bytes());
        }
        Record::Turned { epoch, nonce: None } => {
            text.push_slice(&[TURNED]);
            text.push_u64(*epoch);
        }
        Record::Turned {
            epoch,
            nonce: Some(nonce),
        } => {
            text.push_slice(&[ROTATED]);
            text.push_u64(*epoch);
            text.push_slice(nonce.bytes());
        }
    }
    text
}

/// The start at the front of the bytes. Where it is refused, the cursor may stand anywhere.
#[tactic(auto, unfolding(crate::specs::Records::read_start))]
pub(crate) fn read_start(cursor: &mut Cursor<'_>) -> Result<Beginning, Fault>
    ensures { Gives (λ beginning. beginning) result cursor.new (read_start cursor.old) }
{
    if cursor.u8()? != START {
        return Err(Fault::OutOfRange);
    }
    if cursor.u8()? != START_VERSION {
        return Err(Fault::OutOfRange);
    }
    Ok(Beginning {
        epoch: cursor.u64()?,
        nonce: cursor.hash32()?,
        signing_key: cursor.hash32()?,
        vuf_key: cursor.hash32()?,
    })
}

/// The record of a command at the front of the bytes. Where it is refused, the cursor may stand
/// anywhere.
#[tactic(auto, unfolding(crate::specs::Records::read_later))]
pub(crate) fn read_later<'a>(cursor: &mut Cursor<'a>) -> Result<Later<'a>, Fault>
    ensures { Gives later_seen result cursor.new (read_later cursor.old) }
{
    match cursor.u8()? {
        BOUND => read_bound(cursor),
        TURNED => Ok(Later::Turned {
            epoch: cursor.u64()?,
            nonce: None,
        }),
        ROTATED => Ok(Later::Turned {
            epoch: cursor.u64()?,
            nonce: Some(cursor.hash32()?),
        }),
        _ => Err(Fault::OutOfRange),
    }
}

#[tactic(auto, unfolding(crate::specs::Records::read_bound))]
fn read_bound<'a>(cursor: &mut Cursor<'a>) -> Result<Later<'a>, Fault>
    ensures { Gives later_seen result cursor.new (read_bound cursor.old) }
{
    let (verb, policy) = read_verb(cursor)?;
    Ok(Later::Bound {
        verb,
        policy,
        salt: cursor.hash32()?,
        name: read_up_to(cursor, MAX_NAME_LEN)?,
        key: read_up_to(cursor, MAX_KEY_DATA_LEN)?,
    })
}

#[tactic(auto, unfolding(crate::specs::Records::read_verb))]
fn read_verb(cursor: &mut Cursor<'_>) -> Result<(Verb, Option<Policy>), Fault>
    ensures { Gives (λ read. read) result cursor.new (read_verb cursor.old) }
{
    match cursor.u8()? {
        1 => Ok((Verb::Register, cursor.policy_if(false)?)),
        2 => Ok((Verb::Change, cursor.policy_if(false)?)),
        3 => Ok((Verb::Register, cursor.policy_if(true)?)),
        4 => Ok((Verb::Change, cursor.policy_if(true)?)),
        _ => Err(Fault::OutOfRange),
    }
}

/// At least one byte behind their length, whose first byte is at most that of the greatest length.
fn read_up_to<'a>(cursor: &mut Cursor<'a>, most: usize) -> Result<&'a [u8], Fault>
    ensures { Gives (λ bytes. bytes.now) result cursor.new (read_up_to (most / 256) (read_counted MIN_LEN most) cursor.old) }
{
    match cursor.copied().u8() {
        Ok(first) if usize::from(first) > most / 256 => Err(Fault::OutOfRange),
        _ => cursor.counted(MIN_LEN, most),
    }
}

/// The record in a room of its own, with a copy of the name and of the key.
pub(crate) fn later_record(what: &Later<'_>) -> Record
    requires { IsLater (later_seen what.now) }
    ensures { result ≡ later_seen what.now }
{
    match what {
        Later::Bound {
            verb,
            salt,
            name,
            key,
            policy,
        } => {
            let Ok(name) = Name::new(name) else {
                unreachable!();
            };
            let Ok(value) = KeyData::new(key) else {
                unreachable!();
            };
            Record::Bound {
                verb: *verb,
                salt: *salt,
                name,
                key: BoundKey {
                    value,
                    policy: *policy,
                },
            }
        }
        Later::Turned { epoch, nonce } => Record::Turned {
            epoch: *epoch,
            nonce: *nonce,
        },
    }
}

/// How many bytes the record has.
pub(crate) fn later_size(what: &Later<'_>) -> usize
    requires { IsLater (later_seen what.now) }
    ensures { result ≡ length (record_bytes (later_seen what.now)) }
{
    match what {
        Later::Bound {
            name,
            key,
            policy,
            ..
        } => BOUND_SIZE + policy_len(*policy) + name.len() + key.len(),
        Later::Turned { nonce: None, .. } => TURNED_SIZE,
        Later::Turned { nonce: Some(_), .. } => ROTATED_SIZE,
    }
}
