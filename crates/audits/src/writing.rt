ghost use Rattle.std.specs.Prelude.{◌≡◌, ◌++◌, string_bytes, IfOk};
ghost use Rattle.encoding.specs.Forms.{counted_bytes};
ghost use Rattle.json.specs.Print.{escape};
ghost use Rattle.rootchain.specs.SignedRoots.{signed_root_bytes};
ghost use Rattle.serde_json.specs.View.{view};
ghost use Rattle.audits.specs.Files.{evidence_text, object_of, parts_text};

use auditor::Evidence;
use encoding::{FixedText, Name, ProofText};
use rootchain::{RootEvidence, SignedRoot};
use serde_json::{Value, json};
use std::alloc::{AllocError, Global};

/// The room of a signed root, 404 bytes, and a proof.
const ROOT_AND_PROOF: usize = 11_104;

/// The room of a name behind its length, 257 bytes, a signed root and a proof.
const NAME_ROOT_AND_PROOF: usize = 11_361;

/// The object of these three texts.
fn object(alloc: Global, first: &str, kind: &str, second: &str) -> Result<Value, AllocError>
    ensures { IfOk result (λ value. view value ≡ object_of first.now kind.now second.now) }
{
    json!(in alloc; {"first": first, "kind": kind, "second": second})
}

/// The text of the object of a kind and two parts. JSON writes the kind's text without an escape.
fn parts(alloc: Global, first: &[u8], kind: &str, second: &[u8]) -> Result<String, AllocError>
    requires plain { escape kind.now ≡ kind.now }
    ensures { IfOk result (λ text. string_bytes text ≡ parts_text (record { first = first.now; kind = kind.now; second = second.now })) }
{
    let first = hex::encode(alloc, first)?;
    let second = hex::encode(alloc, second)?;
    object(alloc, first.as_str(), kind, second.as_str())?.to_string(alloc)
}

fn roots(
    alloc: Global,
    one: &SignedRoot,
    kind: &str,
    other: &SignedRoot,
) -> Result<String, AllocError>
    requires plain { escape kind.now ≡ kind.now }
    ensures { IfOk result (λ text. string_bytes text
        ≡ parts_text (record { first = signed_root_bytes one.now; kind = kind.now; second = signed_root_bytes other.now })) }
{
    parts(alloc, one.write().bytes(), kind, other.write().bytes())
}

fn root_and_proof(root: &SignedRoot, proof: &ProofText) -> FixedText<ROOT_AND_PROOF>
    ensures { result ≡ signed_root_bytes root.now ++ proof.now }
{
    let mut text = FixedText::new();
    text.push_slice(root.write().bytes());
    text.push_slice(proof.bytes());
    text
}

fn name_root_and_proof(
    name: &Name,
    root: &SignedRoot,
    proof: &ProofText,
) -> FixedText<NAME_ROOT_AND_PROOF>
    ensures { result ≡ counted_bytes name.now ++ (signed_root_bytes root.now ++ proof.now) }
{
    let mut text = FixedText::new();
    text.push_counted(name.bytes());
    text.push_slice(root.write().bytes());
    text.push_slice(proof.bytes());
    text
}

/// Evidence as one JSON object with no space, its keys in alphabetical order, hexadecimal digits in lower
/// case.
pub fn evidence_json(alloc: Global, evidence: &Evidence) -> Result<String, AllocError>
    ensures { IfOk result (λ text. string_bytes text ≡ evidence_text evidence.now) }
{
    match evidence {
        Evidence::Root(RootEvidence::Fork(one, other)) => roots(alloc, one, "fork", other),
        Evidence::Root(RootEvidence::Link(one, other)) => roots(alloc, one, "link", other),
        Evidence::Root(RootEvidence::Skip(one, other)) => roots(alloc, one, "skip", other),
        Evidence::Broken(broken) => {
            let second = root_and_proof(&broken.root, &broken.proof);
            let first = broken.promise.write();
            parts(alloc, first.bytes(), "broken-promise", second.bytes())
        }
        Evidence::Final(broken) => {
            let second = root_and_proof(&broken.later_root, &broken.later_proof);
            let first = name_root_and_proof(&broken.name, &broken.root, &broken.proof);
            parts(alloc, first.bytes(), "broken-final", second.bytes())
        }
    }
}
