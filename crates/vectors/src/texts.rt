//! Of `textio`: digits, and the faults that a program ends with; and refusals that no question leads to.

use questions::{Case, say_fault};
use rootchain::{ListRefusal, Refusal};
use textio::{ProgramFault, StreamFault, hex_digits, hex32, hex32_or_zeros, option_hex32};
use wire::FeedRefusal;

pub(crate) fn answer(case: &mut Case<'_>) {
    match case.word() {
        b"digits" => digits(case),
        b"hex32" => bytes_of_digits(case),
        b"option-hex" => option_hex(case),
        b"hex32-or-zeros" => bytes_or_zeros(case),
        b"fault" => fault(case),
        b"refusal" => refusal(case),
        _ => case.spoil(),
    }
}

/// `digits HEX32`
fn digits(case: &mut Case<'_>) {
    let hash = case.hash();
    case.say_text(&hex_digits(hash.bytes()));
}

/// `hex32 TEXT`
fn bytes_of_digits(case: &mut Case<'_>) {
    match hex32(case.bytes()) {
        Some(bytes) => case.say_bytes(&bytes),
        None => case.say("none"),
    }
}

/// `option-hex TEXT`
fn option_hex(case: &mut Case<'_>) {
    match option_hex32(case.text()) {
        Ok(bytes) => case.say_bytes(&bytes),
        Err(fault) => say_fault(case, fault),
    }
}

/// `hex32-or-zeros TEXT|none`
fn bytes_or_zeros(case: &mut Case<'_>) {
    match hex32_or_zeros(case.option_text()) {
        Ok(bytes) => case.say_bytes(&bytes),
        Err(fault) => say_fault(case, fault),
    }
}

/// `fault NAME [LINE]`: the status, the text, and the line that tells it.
fn fault(case: &mut Case<'_>) {
    match named_fault(case) {
        Some(fault) => tell(case, fault),
        None => case.spoil(),
    }
}

fn named_fault(case: &mut Case<'_>) -> Option<ProgramFault> {
    Some(match case.word() {
        b"bad-hex" => ProgramFault::BadHex,
        b"bad-item" => ProgramFault::BadItem(case.number()),
        b"index-repeated" => ProgramFault::IndexRepeated(case.number()),
        b"not-a-command" => ProgramFault::NotACommand(case.number()),
        b"not-evidence" => ProgramFault::NotEvidence,
        b"bad-record" => ProgramFault::BadRecord,
        b"other-keys" => ProgramFault::OtherKeys,
        b"cannot-read" => ProgramFault::CannotRead,
        b"cannot-write" => ProgramFault::CannotWrite,
        b"cannot-listen" => ProgramFault::CannotListen,
        b"out-of-memory" => ProgramFault::OutOfMemory,
        _ => return None,
    })
}

fn tell(case: &mut Case<'_>, fault: ProgramFault) {
    let mut line = Vec::new(case.alloc());
    case.say_shown(fault.status());
    case.say_shown(fault);
    match fault.tell(&mut line) {
        Ok(()) => case.say_text(&line),
        // A writer to memory fails only if memory runs out.
        Err(_) => case.lack_memory(),
    }
}

/// `refusal NAME`: the number and the text of a refusal, or the text alone where it has no number.
fn refusal(case: &mut Case<'_>) {
    match case.word() {
        b"root-memory" => case.refuse(Refusal::Memory.number(), Refusal::Memory),
        b"list-memory" => case.say_shown(ListRefusal::Memory),
        b"feed-memory" => case.refuse(FeedRefusal::Memory.number(), FeedRefusal::Memory),
        b"stream-read" => case.say_shown(StreamFault::CannotRead),
        b"stream-write" => case.say_shown(StreamFault::CannotWrite),
        _ => case.spoil(),
    }
}
