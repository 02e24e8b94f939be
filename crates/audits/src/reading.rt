// Evidence is read in steps: the file to a value of JSON, two of its three members to bytes, and these, as the
// third says, to two roots, to a promise, a root and a proof, or to a name and two roots, each with a proof. Where a
// step finds nothing, the file is no evidence.
ghost use Rattle.std.specs.Prelude.{◌≡◌, ◌↔◌, option_map, IsTrue};
ghost use Rattle.serde_json.specs.View.{view};
ghost use Rattle.audits.specs.Files.{text_at, Finds, HasHex, HasThree, IsEvidenceOf, IsFileOf, IsJson, ReadsAgain};
ghost use Rattle.audits.specs.Parts.{HasParts};
ghost use Rattle.audits.specs.Steps.{AreRoots, IsBroken, IsChange, IsNameWithRoot, IsProof, IsRootWithProof};

use crate::ReadFault;
use auditor::Evidence;
use encoding::{Cursor, Form, MAX_NAME_LEN, Name, ProofText};
use hex::FromHexError;
use proofs::{BrokenFinal, BrokenPromise, ReplyView};
use rootchain::{RootEvidence, SignedPromise, SignedRoot};
use serde_json::Value;
use std::alloc::Global;

/// The bytes of the length of a name.
const COUNT_LEN: usize = 2;

/// These bytes as a proof.
fn proof(bytes: &[u8]) -> Result<ProofText, ReadFault>
    ensures { Finds (λ proof. proof) (IsProof bytes.now) result }
{
    if ReplyView::read(bytes).is_err() {
        return Err(ReadFault::NotEvidence);
    }
    let mut text = ProofText::new();
    text.push_slice(bytes);
    Ok(text)
}

/// A signed root, and the proof that follows it.
fn root_and_proof(bytes: &[u8]) -> Result<(SignedRoot, ProofText), ReadFault>
    ensures { Finds (λ pair. pair) (IsRootWithProof bytes.now) result }
{
    let mut cursor = Cursor::new(bytes);
    let Ok(root) = SignedRoot::read_from(&mut cursor) else {
        return Err(ReadFault::NotEvidence);
    };
    // A root has one spelling, so this many bytes were read.
    let (_, rest) = bytes.split_at(root.write().bytes().len());
    let proof = proof(rest)?;
    Ok((root, proof))
}

/// The two roots that these bytes spell.
fn roots(first: &[u8], second: &[u8]) -> Result<(SignedRoot, SignedRoot), ReadFault>
    ensures { Finds (λ pair. pair) (AreRoots first.now second.now) result }
{
    let Ok(one) = SignedRoot::read(first) else {
        return Err(ReadFault::NotEvidence);
    };
    let Ok(other) = SignedRoot::read(second) else {
        return Err(ReadFault::NotEvidence);
    };
    Ok((one, other))
}

/// The promise, the root and the proof that these bytes spell.
fn broken_promise(first: &[u8], second: &[u8]) -> Result<BrokenPromise, ReadFault>
    ensures { Finds (λ broken. broken) (IsBroken first.now second.now) result }
{
    let Ok(promise) = SignedPromise::read(first) else {
        return Err(ReadFault::NotEvidence);
    };
    let (root, proof) = root_and_proof(second)?;
    Ok(BrokenPromise {
        promise,
        root,
        proof,
    })
}

/// A name behind its length, and the root and the proof that follow it.
fn name_root_and_proof(bytes: &[u8]) -> Result<(Name, (SignedRoot, ProofText)), ReadFault>
    ensures { Finds (λ parts. parts) (IsNameWithRoot bytes.now) result }
{
    let mut cursor = Cursor::new(bytes);
    let Ok(name) = cursor.bounded::<MAX_NAME_LEN>() else {
        return Err(ReadFault::NotEvidence);
    };
    // A name has one spelling, so this many bytes were read.
    let (_, rest) = bytes.split_at(COUNT_LEN + name.bytes().len());
    let pair = root_and_proof(rest)?;
    Ok((name, pair))
}

/// The name, the roots and the proofs that these bytes spell.
fn broken_final(first: &[u8], second: &[u8]) -> Result<BrokenFinal, ReadFault>
    ensures { Finds (λ broken. broken) (IsChange first.now second.now) result }
{
    let (name, (root, proof)) = name_root_and_proof(first)?;
    let (later_root, later_proof) = root_and_proof(second)?;
    Ok(BrokenFinal {
        name,
        root,
        proof,
        later_root,
        later_proof,
    })
}

/// The evidence of a kind and two parts.
fn of_parts(first: &[u8], kind: &str, second: &[u8]) -> Result<Evidence, ReadFault>
    ensures { Finds (λ evidence. evidence) (HasParts (record { first = first.now; kind = kind.now; second = second.now })) result }
{
    match kind {
        "fork" => {
            let (one, other) = roots(first, second)?;
            Ok(Evidence::Root(RootEvidence::Fork(one, other)))
        }
        "link" => {
            let (one, other) = roots(first, second)?;
            Ok(Evidence::Root(RootEvidence::Link(one, other)))
        }
        "skip" => {
            let (one, other) = roots(first, second)?;
            Ok(Evidence::Root(RootEvidence::Skip(one, other)))
        }
        "broken-promise" => Ok(Evidence::Broken(broken_promise(first, second)?)),
        "broken-final" => Ok(Evidence::Final(broken_final(first, second)?)),
        _ => Err(ReadFault::NotEvidence),
    }
}

/// The text at a key.
fn text_at<'v>(value: &'v Value, key: &str) -> Option<&'v str>
    ensures { option_map (λ text. text.now) result ≡ text_at key.now (view value.entry.now) }
{
    value.get(key).and_then(Value::as_str)
}

/// The bytes that the text at a key gives in hex.
fn hex_at(alloc: Global, value: &Value, key: &str) -> Result<Vec<u8>, ReadFault>
    ensures { Finds (λ bytes. bytes.items) (HasHex key.now (view value.now)) result }
{
    let Some(text) = text_at(value, key) else {
        return Err(ReadFault::NotEvidence);
    };
    match hex::decode(alloc, text) {
        Ok(bytes) => Ok(bytes),
        Err(FromHexError::OutOfMemory) => Err(ReadFault::OutOfMemory),
        Err(_) => Err(ReadFault::NotEvidence),
    }
}

/// Whether the value is an object of three members.
fn has_three(value: &Value) -> bool
    ensures { IsTrue result ↔ HasThree (view value.now) }
{
    match value.as_object() {
        Some(members) => members.len() == 3,
        None => false,
    }
}

/// The evidence that a value of JSON is.
fn of_value(alloc: Global, value: &Value) -> Result<Evidence, ReadFault>
    ensures { Finds (λ evidence. evidence) (IsEvidenceOf (view value.now)) result }
{
    if !has_three(value) {
        return Err(ReadFault::NotEvidence);
    }
    let Some(kind) = text_at(value, "kind") else {
        return Err(ReadFault::NotEvidence);
    };
    let first = hex_at(alloc, value, "first")?;
    let second = hex_at(alloc, value, "second")?;
    of_parts(&first, kind, &second)
}

/// The value of JSON that a file is.
fn parsed(alloc: Global, bytes: &[u8]) -> Result<Value, ReadFault>
    ensures { Finds view (IsJson bytes.now) result }
{
    match Value::from_slice(alloc, bytes) {
        Ok(value) => Ok(value),
        Err(fault) if fault.is_memory() => Err(ReadFault::OutOfMemory),
        Err(_) => Err(ReadFault::NotEvidence),
    }
}

/// The evidence of a file: one JSON object of the keys `first`, `kind` and `second`, in any order, with
/// hexadecimal digits of either case. If a key is given twice, the last counts.
///
/// # Errors
///
/// `NotEvidence` if the file does not have this form; `OutOfMemory`.
pub fn read_evidence(alloc: Global, bytes: &[u8]) -> Result<Evidence, ReadFault>
    ensures exact { Finds (λ evidence. evidence) (IsFileOf bytes.now) result }
    ensures again { ReadsAgain bytes.now result }
{
    let value = parsed(alloc, bytes)?;
    of_value(alloc, &value)
}
