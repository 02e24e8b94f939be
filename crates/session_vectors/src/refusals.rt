//! Refusals that no question leads to, since they tell of memory, of a record that is not kept, or of a stream.

use audits::ReadFault;
use book::{KeepFailed, Refusal};
use hub::HubRefusal;
use questions::Case;
use server::ServeFault;

pub(crate) fn answer(case: &mut Case<'_>) {
    match case.word() {
        b"refusal" => refusal(case),
        _ => case.spoil(),
    }
}

/// `refusal NAME`: the number and the text of a refusal, or the text alone where it has no number.
fn refusal(case: &mut Case<'_>) {
    match case.word() {
        b"directory-memory" => case.refuse(Refusal::Memory.number(), Refusal::Memory),
        b"directory-unkept" => case.refuse(Refusal::KeepFailed.number(), Refusal::KeepFailed),
        b"keeper" => case.say_shown(KeepFailed),
        b"hub-memory" => {
            let refusal = HubRefusal::Memory { taken: false };
            case.refuse(refusal.number(), refusal);
        }
        b"journal-memory" => {
            let refusal = journal::Refusal::Memory;
            case.refuse(refusal.number(), refusal);
        }
        b"client-memory" => {
            let refusal = client::Refusal::Memory;
            case.refuse(refusal.number(), refusal);
        }
        b"serve-read" => case.say_shown(ServeFault::CannotRead),
        b"serve-write" => case.say_shown(ServeFault::CannotWrite),
        b"serve-memory" => case.say_shown(ServeFault::OutOfMemory),
        b"evidence-none" => case.say_shown(ReadFault::NotEvidence),
        b"evidence-memory" => case.say_shown(ReadFault::OutOfMemory),
        _ => case.spoil(),
    }
}
