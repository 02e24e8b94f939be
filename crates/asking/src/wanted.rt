// Whether roots that came are those that were asked for. Each follows the one before it, so none between two is left
// out; the first follows one that was not asked for, and the last is as far as it has to be.
ghost use Rattle.std.specs.Prelude.{◌≡◌, ◌↔◌, IsTrue};
ghost use Rattle.rootchain.specs.Chains.{Links};
ghost use Rattle.asking.specs.Wanted.{last_epoch, AreEnough, AreWanted, BeginFrom, FollowOn, IsFirstFrom, IsReached};

use client::Client;
use nodehash::NodeHash;
use rootchain::{RootList, SignedRoot};
use sigiface::Verifier;
use vrfiface::VufCheck;

/// So many roots from an epoch on, asked for when the chain had a head of the epoch `held`.
#[derive(Clone, Copy)]
pub(crate) struct Wanted {
    pub(crate) held: u64,
    pub(crate) from: u64,
    pub(crate) count: u16,
}

/// The epoch of the last root, or 0 if there is none.
pub(crate) fn last_epoch(roots: &RootList<'_>) -> u64
    ensures { result ≡ last_epoch 0 roots.now }
{
    let mut rest = roots.copied();
    let mut last = 0;
    for _ in 0..rest.len() {
        let Some(root) = rest.next() else {
            unreachable!()
        };
        last = root.body.epoch;
    }
    last
}

/// Whether a root names the earlier one, and is later.
fn links<H: NodeHash>(hash: &mut H, earlier: &SignedRoot, root: &SignedRoot) -> bool
    ensures { IsTrue result ↔ Links H.digest_of earlier.now root.now }
{
    earlier.body.epoch < root.body.epoch && root.names(hash, earlier)
}

/// Whether each of these roots follows the one before it, the first of them this one.
fn follow_on<H: NodeHash>(hash: &mut H, first: SignedRoot, roots: RootList<'_>) -> bool
    ensures { IsTrue result ↔ FollowOn H.digest_of first roots.entry }
{
    let mut last = first;
    let mut rest = roots;
    for _ in 0..rest.len() {
        let Some(root) = rest.next() else {
            unreachable!()
        };
        if !links(hash, &last, &root) {
            return false;
        }
        last = root;
    }
    true
}

/// Whether a root is the first from this epoch on.
fn is_first(from: u64, root: &SignedRoot) -> bool
    ensures { IsTrue result ↔ IsFirstFrom from root.now }
{
    root.body.previous_epoch < from || root.body.previous_epoch == 0
}

/// Whether these roots follow one another, from the first of this epoch or a later one.
fn begin_from<H: NodeHash>(hash: &mut H, from: u64, roots: &RootList<'_>) -> bool
    ensures { IsTrue result ↔ BeginFrom H.digest_of from roots.now }
{
    let mut rest = roots.copied();
    let Some(first) = rest.next() else {
        return true;
    };
    is_first(from, &first) && follow_on(hash, first, rest)
}

/// Whether these roots are as many as were asked for, or go up to the head.
fn are_enough(wanted: &Wanted, roots: &RootList<'_>) -> bool
    ensures { IsTrue result ↔ AreEnough wanted.now roots.now }
{
    roots.len() == usize::from(wanted.count)
        || wanted.held < wanted.from
        || wanted.held <= last_epoch(roots)
}

/// Whether the chain has got as far as these roots.
fn is_reached<H, V, S>(client: &Client<H, V, S>, roots: &RootList<'_>) -> bool
where
    H: NodeHash + Drop,
    V: VufCheck + Drop,
    S: Verifier + Drop,
    ensures { IsTrue result ↔ IsReached client.now.chain roots.now }
{
    last_epoch(roots) <= client.chain().head().body.epoch
}

/// Whether roots are those that were asked for. None of them is evidence with the chain.
pub(crate) fn are_wanted<H, V, S>(
    client: &Client<H, V, S>,
    hash: &mut H,
    wanted: &Wanted,
    roots: &RootList<'_>,
) -> bool
where
    H: NodeHash + Drop,
    V: VufCheck + Drop,
    S: Verifier + Drop,
    ensures { IsTrue result ↔ AreWanted H.digest_of client.now.chain wanted.now roots.now }
{
    begin_from(hash, wanted.from, roots) && are_enough(wanted, roots) && is_reached(client, roots)
}
