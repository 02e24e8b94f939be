//! Of `audits`: evidence as JSON, and the programs that judge and audit.

use crate::auditors::{changed, of_roots, proof_text};
use auditor::Evidence;
use audits::{AuditOrder, ReadFault, Verdict, audit, evidence_json, judge_file, read_evidence};
use encoding::{Cursor, Form};
use proofs::{BrokenFinal, BrokenPromise};
use questions::{Case, refuse_root, say_ended, say_evidence, say_fault};
use rootchain::{Refusal, SignedPromise, SignedRoot};
use textio::ProgramFault;

pub(crate) fn answer(case: &mut Case<'_>) {
    match case.word() {
        b"json" => json(case),
        b"read" => read(case),
        b"judge" => judge_bytes(case),
        b"altered" => judge_altered(case),
        b"audit" => audit_bytes(case),
        _ => case.spoil(),
    }
}

/// `json KIND FIRST SECOND`, or `json broken-final NAME ROOT PROOF ROOT PROOF`
fn json(case: &mut Case<'_>) {
    let evidence = match case.word() {
        b"broken-promise" => broken(case),
        b"broken-final" => changed(case),
        kind => of_roots(case, kind),
    };
    match evidence {
        Ok(evidence) => tell_json(case, &evidence),
        Err(why) => refuse_root(case, why),
    }
}

fn tell_json(case: &mut Case<'_>, evidence: &Evidence) {
    match evidence_json(case.alloc(), evidence) {
        Ok(text) => case.say_text(text.as_bytes()),
        Err(_) => case.lack_memory(),
    }
}

/// The evidence of a promise, and a root followed by a proof, in the next two words.
fn broken(case: &mut Case<'_>) -> Result<Evidence, Refusal> {
    let promise = SignedPromise::read(case.bytes())?;
    let second = case.bytes();
    let mut cursor = Cursor::new(second);
    let Ok(root) = SignedRoot::read_from(&mut cursor) else {
        return Err(Refusal::Malformed);
    };
    let proof = second.get(root.write().bytes().len()..).unwrap_or(&[]);
    let proof = proof_text(case, proof);
    Ok(Evidence::Broken(BrokenPromise {
        promise,
        root,
        proof,
    }))
}

/// `read BYTES`
fn read(case: &mut Case<'_>) {
    match read_evidence(case.alloc(), case.bytes()) {
        Ok(evidence) => say_whole(case, &evidence),
        Err(ReadFault::OutOfMemory) => case.lack_memory(),
        Err(ReadFault::NotEvidence) => say_fault(case, ProgramFault::NotEvidence),
    }
}

fn say_whole(case: &mut Case<'_>, evidence: &Evidence) {
    match evidence {
        Evidence::Root(evidence) => say_evidence(case, evidence),
        Evidence::Broken(broken) => say_broken(case, broken),
        Evidence::Final(broken) => say_changed(case, broken),
    }
}

/// The promise, and the root and the proof as one.
fn say_broken(case: &mut Case<'_>, broken: &BrokenPromise) {
    let mut second = Vec::new(case.alloc());
    if second
        .extend_from_slice(broken.root.write().bytes())
        .is_err()
        || second.extend_from_slice(broken.proof.bytes()).is_err()
    {
        return case.lack_memory();
    }
    case.say("broken-promise");
    case.say_bytes(broken.promise.write().bytes());
    case.say_bytes(&second);
}

/// The name, and the two roots, each with its proof behind it.
pub(crate) fn say_changed(case: &mut Case<'_>, broken: &BrokenFinal) {
    case.say("broken-final");
    case.say_bytes(broken.name.bytes());
    case.say_bytes(broken.root.write().bytes());
    case.say_bytes(broken.proof.bytes());
    case.say_bytes(broken.later_root.write().bytes());
    case.say_bytes(broken.later_proof.bytes());
}

/// `judge KEYTEXT BYTES`
fn judge_bytes(case: &mut Case<'_>) {
    let key = case.text();
    let file = case.bytes();
    let mut written = Vec::new(case.alloc());
    let judged = judge_file(case.alloc(), key, file, &mut written);
    tell_judged(case, judged);
    case.say_text(&written);
}

fn tell_judged(case: &mut Case<'_>, judged: Result<Verdict, ProgramFault>) {
    match judged {
        Ok(verdict) => {
            case.say("ok");
            case.say_shown(verdict.status());
        }
        Err(fault) => say_fault(case, fault),
    }
}

/// `altered KEYTEXT BYTES`: a word for each byte, of a letter for each file that is altered there: it ends before the
/// byte; the byte is 1 more; and its bits are flipped one by one, from the lowest.
fn judge_altered(case: &mut Case<'_>) {
    let key = case.text();
    let file = case.bytes();
    for place in 0..file.len() {
        let byte = file[place];
        case.say("");
        tell_letter(case, key, file.split_at(place).0);
        tell_replaced(case, key, file, place, byte.wrapping_add(1));
        for mask in [1, 2, 4, 8, 16, 32, 64, 128] {
            tell_replaced(case, key, file, place, byte ^ mask);
        }
    }
}

/// The letter of the file with this byte at a place.
fn tell_replaced(case: &mut Case<'_>, key: &str, file: &[u8], place: usize, byte: u8) {
    let mut altered = Vec::new(case.alloc());
    let before = file.get(..place).unwrap_or(&[]);
    let behind = file.get(place.saturating_add(1)..).unwrap_or(&[]);
    if altered.extend_from_slice(before).is_err()
        || altered.push(byte).is_err()
        || altered.extend_from_slice(behind).is_err()
    {
        return case.lack_memory();
    }
    tell_letter(case, key, &altered);
}

/// `e` for evidence, `n` for no evidence, `-` for a file of none.
fn tell_letter(case: &mut Case<'_>, key: &str, file: &[u8]) {
    let mut written = Vec::new(case.alloc());
    match judge_file(case.alloc(), key, file, &mut written) {
        Ok(Verdict::Evidence) => case.join("e"),
        Ok(Verdict::NoEvidence) => case.join("n"),
        Err(ProgramFault::NotEvidence) => case.join("-"),
        Err(fault) => say_fault(case, fault),
    }
}

/// `audit KEYTEXT INPUT`
fn audit_bytes(case: &mut Case<'_>) {
    let order = AuditOrder {
        signing_key: case.text(),
    };
    let mut reader = case.bytes();
    let mut written = Vec::new(case.alloc());
    let audited = audit(case.alloc(), order, &mut reader, &mut written);
    say_ended(case, audited);
    case.say_text(&written);
}
