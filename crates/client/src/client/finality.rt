ghost use Rattle.std.specs.Prelude.{◌≡◌, IfSome, MatchOption};
ghost use Rattle.rootchain.specs.Chains.{IsAt};
ghost use Rattle.rootchain.specs.declared.signed_root.SignedRoot.{SignedRoot as Root};
ghost use Rattle.proofs.specs.BrokenFinals.{IsBrokenFinal};
ghost use Rattle.client.specs.Agreements.{SpellsOne};
ghost use Rattle.client.specs.Finality.{looks_for, IsChangedBy, IsFirstChange, NoneStandSo};

use super::Client;
use crate::by_name::IndexedReply;
use crate::changes::first_change;
use encoding::{Name, ProofText};
use nodehash::NodeHash;
use proofs::BrokenFinal;
use rootchain::{Chain, SignedRoot};
use sigiface::Verifier;
use vrfiface::VufCheck;

impl<H: NodeHash, V: VufCheck, S: Verifier> Client<H, V, S> {
    /// Whether the accepted looks for a name show that the provider changed a final binding: the first that
    /// states a key with Final and has one at a later epoch, with its index, that states anything else, and
    /// the first such later one. Reads the looks for this name alone, and allocates nothing.
    pub fn finality(&self, name: &Name) -> Option<BrokenFinal>
        ensures found { MatchOption result (NoneStandSo (IsChangedBy H.digest_of) (looks_for name.now self.now.looks)) (IsFirstChange H.digest_of self.now name.now) }
        ensures evidence { IfSome result (IsBrokenFinal H.digest_of V.accepted S.verified self.now.chain.key) }
    {
        let replies = self.looks.of(name)?;
        let (reply, later) = first_change(replies)?;
        // Its contract says that this is a chain, whose roots verify.
        let _ = self.chain.head();
        Some(broken_final(&self.chain, name, reply, later))
    }
}

/// A change of what a reply states, as evidence.
fn broken_final<H: NodeHash, S: Verifier>(
    chain: &Chain<H, S>,
    name: &Name,
    reply: &IndexedReply,
    later: &IndexedReply,
) -> BrokenFinal
    requires rooted { (root : Root) × IsAt chain.now reply.now.epoch root }
    requires later_rooted { (root : Root) × IsAt chain.now later.now.epoch root }
    requires spelled { SpellsOne reply.now.bytes }
    requires later_spelled { SpellsOne later.now.bytes }
    ensures named { result.name ≡ name.now }
    ensures rooted { IsAt chain.now reply.now.epoch result.root }
    ensures proof { result.proof ≡ reply.now.bytes }
    ensures later_rooted { IsAt chain.now later.now.epoch result.later_root }
    ensures later_proof { result.later_proof ≡ later.now.bytes }
{
    BrokenFinal {
        name: name.copied(),
        root: root_at(chain, reply.epoch()),
        proof: ProofText::of(reply.bytes()),
        later_root: root_at(chain, later.epoch()),
        later_proof: ProofText::of(later.bytes()),
    }
}

/// The chain's root of an epoch.
fn root_at<H: NodeHash, S: Verifier>(chain: &Chain<H, S>, epoch: u64) -> SignedRoot
    requires { (root : Root) × IsAt chain.now epoch root }
    ensures { IsAt chain.now epoch result }
{
    let Some(root) = chain.at(epoch) else {
        unreachable!()
    };
    root.copied()
}
