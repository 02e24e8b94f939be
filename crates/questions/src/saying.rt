//! How programs of questions tell evidence, places, refusals, statements and faults.

use crate::Case;
use encoding::Policy;
use proofs::Statement;
use rootchain::{Place, Refusal, RootEvidence, SignedRoot};
use textio::ProgramFault;

fn say_roots(case: &mut Case<'_>, kind: &str, one: &SignedRoot, other: &SignedRoot) {
    case.say(kind);
    case.say_bytes(one.write().bytes());
    case.say_bytes(other.write().bytes());
}

/// The kind of the evidence and its roots.
pub fn say_evidence(case: &mut Case<'_>, evidence: &RootEvidence) {
    match evidence {
        RootEvidence::Fork(one, other) => say_roots(case, "fork", one, other),
        RootEvidence::Link(one, other) => say_roots(case, "link", one, other),
        RootEvidence::Skip(one, other) => say_roots(case, "skip", one, other),
    }
}

/// Where a root stands to a chain.
pub fn say_place(case: &mut Case<'_>, place: &Place) {
    match place {
        Place::Known => case.say("known"),
        Place::Evidence(evidence) => say_evidence(case, evidence),
        Place::Next => case.say("next"),
        Place::Ahead => case.say("ahead"),
        Place::BeforeStart => case.say("before start"),
    }
}

/// Refuses a call on a root.
pub fn refuse_root(case: &mut Case<'_>, why: Refusal) {
    if why == Refusal::Memory {
        case.lack_memory();
    }
    case.refuse(why.number(), why);
}

/// The name of a policy, if there is one.
pub fn say_policy(case: &mut Case<'_>, policy: Option<Policy>) {
    if let Some(policy) = policy {
        case.say_text(policy.word());
    }
}

/// What a reply states of a name.
pub fn say_statement(case: &mut Case<'_>, statement: Statement<'_>) {
    match statement {
        Statement::Present(key, policy) => {
            case.say("present");
            case.say_bytes(key);
            say_policy(case, policy);
        }
        Statement::Absent => case.say("absent"),
    }
}

/// The fault of a program whose output is kept in memory: it can lack memory, but not fail to write.
pub fn say_fault(case: &mut Case<'_>, fault: ProgramFault) {
    match fault {
        ProgramFault::OutOfMemory | ProgramFault::CannotWrite => case.lack_memory(),
        fault => {
            case.say("fault");
            case.say_shown(fault.status());
            case.say_shown(fault);
        }
    }
}

/// How such a program ended: `ok`, or its fault.
pub fn say_ended(case: &mut Case<'_>, ended: Result<(), ProgramFault>) {
    match ended {
        Ok(()) => case.say("ok"),
        Err(fault) => say_fault(case, fault),
    }
}
