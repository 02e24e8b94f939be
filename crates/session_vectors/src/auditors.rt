//! Of `auditor`: an auditor, which stays for the next lines, and judging.

use crate::stand_ins::{Functions, keyed};
use auditor::{Auditor, Evidence, Observed, judge};
use encoding::{Hash32, PROOF_TEXT_ROOM, ProofText};
use nodehash::{NodeHash, Sha256Hash};
use proofs::{BrokenFinal, BrokenPromise};
use questions::{AnySign, Case, refuse_root, say_evidence, say_place};
use rootchain::{Refusal, RootEvidence, SignedPromise, SignedRoot};
use sigiface::KeyedSign;
use vrfiface::VufCheck;

type Kept<H> = Auditor<H, KeyedSign>;

pub(crate) type KeyedAuditor = Kept<Sha256Hash>;

pub(crate) fn answer(case: &mut Case<'_>, kept: &mut KeyedAuditor) {
    match case.word() {
        b"new" => {
            *kept = Auditor::new(case.alloc());
            case.say("ok");
        }
        b"any" => any(case),
        verb => answer_on(case, &mut keyed(), verb, kept),
    }
}

fn answer_on<H, V>(
    case: &mut Case<'_>,
    by: &mut Functions<H, V>,
    verb: &[u8],
    auditor: &mut Kept<H>,
)
where
    H: NodeHash + Drop,
    V: VufCheck + Drop,
{
    match verb {
        b"observe" => observe(case, by, auditor),
        b"compare" => compare(case, by, auditor),
        b"chain" => chain(case, auditor),
        b"judge" => judged(case, by),
        _ => case.spoil(),
    }
}

/// `observe KEY ROOT`
fn observe<H, V>(case: &mut Case<'_>, by: &mut Functions<H, V>, auditor: &mut Kept<H>)
where
    H: NodeHash + Drop,
    V: VufCheck + Drop,
{
    let key = case.hash();
    let root = case.bytes();
    if case.is_spoiled() {
        return;
    }
    match auditor.observe(&mut by.hash, &by.verifier, &key, root) {
        Ok(observed) => say_observed(case, &observed),
        Err(why) => refuse_root(case, why),
    }
}

fn say_observed(case: &mut Case<'_>, observed: &Observed) {
    match observed {
        Observed::Started => case.say("started"),
        Observed::Extended => case.say("extended"),
        Observed::Known => case.say("known"),
        Observed::Ahead => case.say("ahead"),
        Observed::BeforeStart => case.say("before start"),
        Observed::Evidence(evidence) => say_evidence(case, evidence),
    }
}

/// `any KEY ROOT..`: a fresh auditor, under a verifier that accepts each signature, observes the roots.
fn any(case: &mut Case<'_>) {
    let mut auditor: Auditor<Sha256Hash, AnySign> = Auditor::new(case.alloc());
    let key = case.hash();
    for _ in 0..case.left() {
        let root = case.bytes();
        match auditor.observe(&mut Sha256Hash::new(), &AnySign, &key, root) {
            Ok(observed) => say_observed(case, &observed),
            Err(why) => refuse_root(case, why),
        }
    }
}

/// `compare KEY ROOT`
fn compare<H, V>(case: &mut Case<'_>, by: &mut Functions<H, V>, auditor: &Kept<H>)
where
    H: NodeHash + Drop,
    V: VufCheck + Drop,
{
    let key = case.hash();
    let root = case.bytes();
    match auditor.compare(&mut by.hash, &by.verifier, &key, root) {
        Ok(place) => say_place(case, &place),
        Err(why) => refuse_root(case, why),
    }
}

/// `chain KEY`
fn chain<H: NodeHash + Drop>(case: &mut Case<'_>, auditor: &Kept<H>) {
    match auditor.chain(&case.hash()) {
        Some(chain) => case.say_shown(chain.head().body.epoch),
        None => case.say("none"),
    }
}

/// `judge KEY KIND FIRST SECOND [PROOF]`, or `judge KEY broken-final NAME ROOT PROOF ROOT PROOF`
fn judged<H, V>(case: &mut Case<'_>, by: &mut Functions<H, V>)
where
    H: NodeHash + Drop,
    V: VufCheck + Drop,
{
    let key = case.hash();
    match case.word() {
        b"broken-promise" => {
            let promise = case.bytes();
            let root = case.bytes();
            let evidence = broken(case, promise, root);
            tell_judged(case, by, &key, evidence);
        }
        b"broken-final" => {
            let evidence = changed(case);
            tell_judged(case, by, &key, evidence);
        }
        kind => {
            let evidence = of_roots(case, kind);
            tell_judged(case, by, &key, evidence);
        }
    }
}

fn tell_judged<H, V>(
    case: &mut Case<'_>,
    by: &mut Functions<H, V>,
    key: &Hash32,
    evidence: Result<Evidence, Refusal>,
)
where
    H: NodeHash + Drop,
    V: VufCheck + Drop,
{
    match evidence {
        Ok(evidence) => {
            case.say_truth(judge(&mut by.hash, &by.vuf, &by.verifier, key, &evidence));
        }
        Err(why) => refuse_root(case, why),
    }
}

/// The evidence of this kind, of the roots in the next two words.
pub(crate) fn of_roots(case: &mut Case<'_>, kind: &[u8]) -> Result<Evidence, Refusal> {
    let first = case.bytes();
    let second = case.bytes();
    match kind {
        b"fork" => {
            let (one, other) = roots(first, second)?;
            Ok(Evidence::Root(RootEvidence::Fork(one, other)))
        }
        b"link" => {
            let (one, other) = roots(first, second)?;
            Ok(Evidence::Root(RootEvidence::Link(one, other)))
        }
        b"skip" => {
            let (one, other) = roots(first, second)?;
            Ok(Evidence::Root(RootEvidence::Skip(one, other)))
        }
        _ => {
            case.spoil();
            Err(Refusal::Malformed)
        }
    }
}

/// The two roots that these bytes spell.
fn roots(first: &[u8], second: &[u8]) -> Result<(SignedRoot, SignedRoot), Refusal> {
    let one = SignedRoot::read(first)?;
    let other = SignedRoot::read(second)?;
    Ok((one, other))
}

/// The evidence of this promise and this root, and the proof in the next word.
fn broken(case: &mut Case<'_>, promise: &[u8], root: &[u8]) -> Result<Evidence, Refusal> {
    let promise = SignedPromise::read(promise)?;
    let root = SignedRoot::read(root)?;
    let bytes = case.bytes();
    let proof = proof_text(case, bytes);
    Ok(Evidence::Broken(BrokenPromise {
        promise,
        root,
        proof,
    }))
}

/// The evidence of the name and of the two roots, each with a proof behind it, in the next five words.
pub(crate) fn changed(case: &mut Case<'_>) -> Result<Evidence, Refusal> {
    let name = case.name();
    let root = SignedRoot::read(case.bytes())?;
    let proof = next_proof(case);
    let later_root = SignedRoot::read(case.bytes())?;
    let later_proof = next_proof(case);
    Ok(Evidence::Final(BrokenFinal {
        name,
        root,
        proof,
        later_root,
        later_proof,
    }))
}

/// The proof in the next word.
fn next_proof(case: &mut Case<'_>) -> ProofText {
    let bytes = case.bytes();
    proof_text(case, bytes)
}

/// The bytes as those of a proof.
pub(crate) fn proof_text(case: &mut Case<'_>, bytes: &[u8]) -> ProofText {
    let mut proof = ProofText::new();
    if bytes.len() <= PROOF_TEXT_ROOM {
        proof.push_slice(bytes);
    } else {
        case.spoil();
    }
    proof
}
