//! Of `encoding`: texts of fixed room.

use encoding::{ProofText, Text};
use questions::Case;

/// The room of a `Text`.
const ROOM: usize = 2400;

/// `text (u8 N|u16 N|u32 N|u64 N|slice BYTES|counted BYTES)..`: the bytes, and those of its copy in the
/// room of a reply.
pub(crate) fn text(case: &mut Case<'_>) {
    let mut text = Text::new();
    for _ in 0..case.left() / 2 {
        push_part(case, &mut text);
    }
    case.say_bytes(text.bytes());
    let copy: ProofText = text.copied();
    case.say_bytes(copy.bytes());
}

fn push_part(case: &mut Case<'_>, text: &mut Text) {
    let kind = case.word();
    match kind {
        b"slice" => push_bytes(case, text),
        b"counted" => push_counted(case, text),
        _ => push_number(case, text, kind),
    }
}

fn push_bytes(case: &mut Case<'_>, text: &mut Text) {
    let bytes = case.bytes();
    if bytes.len() <= ROOM - text.bytes().len() {
        text.push_slice(bytes);
    } else {
        case.spoil();
    }
}

fn push_counted(case: &mut Case<'_>, text: &mut Text) {
    let bytes = case.bytes();
    let left = ROOM - text.bytes().len();
    if 2 <= left && bytes.len() <= left - 2 {
        text.push_counted(bytes);
    } else {
        case.spoil();
    }
}

fn push_number(case: &mut Case<'_>, text: &mut Text, kind: &[u8]) {
    let left = ROOM - text.bytes().len();
    match kind {
        b"u8" if 1 <= left => text.push(case.number_to(255) as u8),
        b"u16" if 2 <= left => text.push_u16(case.number_to(65_535) as u16),
        b"u32" if 4 <= left => text.push_u32(case.number_to(4_294_967_295) as u32),
        b"u64" if 8 <= left => text.push_u64(case.number()),
        _ => case.spoil(),
    }
}
