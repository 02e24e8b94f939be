// First the chains decide. If they agree, the first pair of looks for one name and epoch that state two things
// leads to two texts with one digest, or to two values of the name.

ghost use Rattle.std.specs.Prelude.{◌≡◌, ◌≢◌, ◌⊎◌, ◌↔◌, ◌+◌, ◌*◌, ◌≤◌, ℕ, Contains};
ghost use Rattle.prefixtree.specs.declared.path.TheConstants.{MAX_SIBLINGS};
ghost use Rattle.rootchain.specs.Chains.{IsAt};
ghost use Rattle.rootchain.specs.declared.signed_root.SignedRoot.{SignedRoot};
ghost use Rattle.client.specs.Agreements.{AreOfOne, AreReconciled, ClientsAgree, HaveOneStatement, IsReconciled, OutcomeHolds, OutcomeIsSpelled};
ghost use Rattle.client.specs.Clients.{Look};
ghost use Rattle.client.specs.declared.outcome.Outcome.TheVariants.{Agree};

use crate::{Client, Outcome};
use encoding::Name;
use nodehash::NodeHash;
use proofs::{Accepted, SameOr, same_or_collision};
use rootchain::{Chain, Compare};
use sigiface::Verifier;
use vrfiface::VufCheck;

/// Reconciles two clients of one provider, whatever bytes made them (after CONIKS, section 4). A client may
/// be reconciled with itself.
///
/// First their chains are compared. If these agree, the looks are: of the pairs of a look of the first client
/// and a look of the second for one name and epoch, in order of acceptance, the first that states two things
/// decides.
///
/// This allocates nothing. Only replies for one name and epoch are compared with each other. Takes at most 517
/// digests: one for the chains, and the others for one pair of looks.
pub fn reconcile<H: NodeHash, V: VufCheck, S: Verifier>(
    hash: &mut H,
    one: &Client<H, V, S>,
    other: &Client<H, V, S>,
) -> Outcome
    requires { one.now.chain.key ≡ other.now.chain.key }
    ensures reconciled { IsReconciled H.digest_of V.accepted one.now other.now result }
    ensures agree { (result ≡ Agree) ↔ ClientsAgree H.digest_of one.now other.now }
    ensures holds { OutcomeHolds H.digest_of V.accepted S.verified one.now.chain.key result }
    ensures spelled { OutcomeIsSpelled result }
    // What the one client saw of a name at an epoch is what the other saw, or the answer is one of the other three.
    ensures seen { (look also : Look) → Contains one.now.looks look → Contains other.now.looks also → AreOfOne look also
        → HaveOneStatement look also ⊎ (result ≢ Agree) }
    ensures counted { H.digests hash.new ≤ H.digests hash.old + (1 + 2 * (MAX_SIBLINGS + 2)) }
{
    match Chain::compare(hash, one.chain(), other.chain()) {
        Compare::Equal => reconcile_looks(hash, one, other),
        Compare::Evidence(evidence) => Outcome::Evidence(evidence),
        Compare::Collision(x, y) => Outcome::Collision(x, y),
    }
}

/// Reconciles the looks of two clients whose chains agree.
fn reconcile_looks<H: NodeHash, V: VufCheck, S: Verifier>(
    hash: &mut H,
    one: &Client<H, V, S>,
    other: &Client<H, V, S>,
) -> Outcome
    requires { (epoch : ℕ) (root also : SignedRoot) → IsAt one.now.chain epoch root → IsAt other.now.chain epoch also → root.body ≡ also.body }
    ensures reconciled { AreReconciled H.digest_of V.accepted one.now.looks other.now.looks result }
    ensures counted { H.digests hash.new ≤ H.digests hash.old + 2 * (MAX_SIBLINGS + 2) }
{
    let Some(unlike) = one.looks().first_unlike(other.looks()) else {
        return Outcome::Agree;
    };
    let Ok(name) = Name::new(unlike.name) else {
        unreachable!()
    };
    let first: Accepted<'_, H, V> = Accepted::again(hash, &name, unlike.one);
    let second: Accepted<'_, H, V> = Accepted::again(hash, &name, unlike.other);
    match same_or_collision(hash, &first, &second) {
        SameOr::Collision(x, y) => Outcome::Collision(x, y),
        SameOr::TwoValues => Outcome::TwoValues,
        SameOr::Same | SameOr::NotComparable => unreachable!(),
    }
}
