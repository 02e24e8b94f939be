ghost use Rattle.std.specs.Prelude.{◌≡◌, ◌↔◌, ℕ, List, [], Contains, None, Some};
ghost use Rattle.auditor.specs.Chains.{chain_of, Chains};
ghost use Rattle.auditor.specs.InOrder.{AreFollowed, ComeInOrder, ObservesAll};
ghost use Rattle.auditor.specs.Observing.{IsObserved};
ghost use Rattle.auditor.specs.declared.auditor.Observed.{Observed};
ghost use Rattle.auditor.specs.declared.auditor.Observed.TheVariants.{Extended, Known};
ghost use Rattle.rootchain.specs.Chains.{IsChain, IsHead, KeyedRoots, Links};
ghost use Rattle.rootchain.specs.declared.signed_root.SignedRoot.{SignedRoot};

use nodehash::NodeHash;
use sigiface::Verifier;

/// An auditor that observes the roots of an honest provider, which are a chain, from whichever of them
/// on: it answers `Started` on the first, `Extended` on each next one, and `Known` on each that came
/// before. What it answers on one root follows: on one that links to the head of its chain `Extended`
/// and nothing else, on one that the chain has `Known` and nothing else.
pub fn honest_roots_are_followed<H: NodeHash, S: Verifier>()
    ensures all { (key : List ℕ) (roots observed : List SignedRoot) (answers : List Observed) (before after : Chains)
        → IsChain H.digest_of S.verified (record { key = key; roots = roots }) → chain_of before key ≡ None
        → ComeInOrder [] roots observed → ObservesAll H.digest_of S.verified before key observed answers after
        → AreFollowed [] roots observed answers }
    ensures next { (chain : KeyedRoots) (head root : SignedRoot) (told : Observed)
        → IsChain H.digest_of S.verified chain → IsHead chain head → Links H.digest_of head root
        → IsObserved H.digest_of (Some chain) root told ↔ (told ≡ Extended) }
    ensures known { (chain : KeyedRoots) (root : SignedRoot) (told : Observed)
        → IsChain H.digest_of S.verified chain → Contains chain.roots root
        → IsObserved H.digest_of (Some chain) root told ↔ (told ≡ Known) }
{}
