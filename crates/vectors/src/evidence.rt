//! Of `rootchain`: two roots that are evidence against their provider.

use crate::roots::{signed_root, verifier};
use encoding::Hash32;
use nodehash::Sha256Hash;
use questions::Case;
use rootchain::RootEvidence;

/// `fork KEY ROOT ROOT`, `link KEY ROOT ROOT`, `skip KEY ROOT ROOT`: whether the roots are this evidence.
pub(crate) fn holds(case: &mut Case<'_>, kind: &[u8]) {
    let key = case.hash();
    let (Ok(one), Ok(other)) = (signed_root(case), signed_root(case)) else {
        return case.spoil();
    };
    match kind {
        b"fork" => say_holds(case, &key, &RootEvidence::Fork(one, other)),
        b"link" => say_holds(case, &key, &RootEvidence::Link(one, other)),
        b"skip" => say_holds(case, &key, &RootEvidence::Skip(one, other)),
        _ => case.spoil(),
    }
}

fn say_holds(case: &mut Case<'_>, key: &Hash32, evidence: &RootEvidence) {
    let mut hash = Sha256Hash::new();
    case.say_truth(evidence.holds(&mut hash, &verifier(), key));
}
