//! Of `encoding`: what a cursor reads.

use encoding::{Cursor, Fault, MAX_KEY_DATA_LEN, MAX_NAME_LEN, MAX_SMALL_LEN};
use questions::Case;
use std::fmt::Display;

/// `read BYTES WHAT..`: one thing after another. A refusal leaves the cursor in place.
pub(crate) fn read(case: &mut Case<'_>) {
    let mut cursor = Cursor::new(case.bytes());
    for _ in 0..case.left() {
        read_one(case, &mut cursor);
    }
}

fn read_one(case: &mut Case<'_>, cursor: &mut Cursor<'_>) {
    match case.word() {
        b"u8" => number_read(case, cursor.u8()),
        b"u16" => number_read(case, cursor.u16()),
        b"u32" => number_read(case, cursor.u32()),
        b"u64" => number_read(case, cursor.u64()),
        b"end" => number_read(case, cursor.end().map(|_| 0)),
        b"copy" => go_on_with_copy(case, cursor),
        kind => read_bytes(case, cursor, kind),
    }
}

fn read_bytes(case: &mut Case<'_>, cursor: &mut Cursor<'_>, kind: &[u8]) {
    match kind {
        b"three" => bytes_read(case, cursor.take(3)),
        b"array" => bytes_read(case, cursor.array::<4>().map(|bytes| bytes.as_slice())),
        b"hash" => hash_read(case, cursor),
        b"name" => name_read(case, cursor),
        b"key" => key_read(case, cursor),
        b"small" => small_read(case, cursor),
        b"counted" => bytes_read(case, cursor.counted(2, 5)),
        _ => case.spoil(),
    }
}

fn number_read<T: Display + Drop>(case: &mut Case<'_>, read: Result<T, Fault>) {
    match read {
        Ok(number) => case.say_shown(number),
        Err(fault) => case.refuse(fault.number(), fault),
    }
}

fn bytes_read(case: &mut Case<'_>, read: Result<&[u8], Fault>) {
    match read {
        Ok(bytes) => case.say_bytes(bytes),
        Err(fault) => case.refuse(fault.number(), fault),
    }
}

fn hash_read(case: &mut Case<'_>, cursor: &mut Cursor<'_>) {
    match cursor.hash32() {
        Ok(hash) => case.say_bytes(hash.bytes()),
        Err(fault) => case.refuse(fault.number(), fault),
    }
}

fn name_read(case: &mut Case<'_>, cursor: &mut Cursor<'_>) {
    match cursor.bounded::<MAX_NAME_LEN>() {
        Ok(name) => case.say_bytes(name.bytes()),
        Err(fault) => case.refuse(fault.number(), fault),
    }
}

fn key_read(case: &mut Case<'_>, cursor: &mut Cursor<'_>) {
    match cursor.bounded::<MAX_KEY_DATA_LEN>() {
        Ok(key) => case.say_bytes(key.bytes()),
        Err(fault) => case.refuse(fault.number(), fault),
    }
}

fn small_read(case: &mut Case<'_>, cursor: &mut Cursor<'_>) {
    match cursor.bounded::<MAX_SMALL_LEN>() {
        Ok(small) => case.say_bytes(small.bytes()),
        Err(fault) => case.refuse(fault.number(), fault),
    }
}

fn go_on_with_copy(case: &mut Case<'_>, cursor: &mut Cursor<'_>) {
    *cursor = cursor.copied();
    case.say("copied");
}
