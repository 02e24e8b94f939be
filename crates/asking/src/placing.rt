// Roots that the client does not take: the latest one, and those that were asked for. Each is told if the
// chain has no reason against it.
ghost use Rattle.std.specs.Prelude.{◌≡◌, ◌++◌, codes, IfOk, None, OnOk, Result};
ghost use Rattle.rootchain.specs.declared.chain.placing.Place.{Place};
ghost use Rattle.rootchain.specs.declared.root_refusal.Refusal.{Refusal as ChainRefusal};
ghost use Rattle.client.specs.Refusals.{of_root};
ghost use Rattle.asking.specs.Checking.{known_told, place_told, refusal_at, AreTold, Places};
ghost use Rattle.asking.specs.Refused.{client_refuses};
ghost use Rattle.asking.specs.Stopping.{epochs_text, StopsAmong, StopsAtRoot};
ghost use Rattle.asking.specs.Reports.{Report, Tells};

use crate::checking::tell_client;
use crate::wanted::{Wanted, are_wanted};
use crate::{Checks, Said};
use client::{Client, Refusal};
use nodehash::NodeHash;
use play::{push_number, tell_response};
use rootchain::{Place, RootList, SignedRoot};
use sigiface::Verifier;
use std::alloc::{AllocError, Global};
use vrfiface::VufCheck;
use wire::Response;

/// Where a root stands to the chain of a client.
fn place<H, V, S>(
    client: &Client<H, V, S>,
    checks: &mut Checks<H, V, S>,
    root: &SignedRoot,
) -> Result<Place, rootchain::Refusal>
where
    H: NodeHash + Drop,
    V: VufCheck + Drop,
    S: Verifier + Drop,
    ensures { Places H.digest_of S.verified client.now.chain root.now result }
{
    client
        .chain()
        .place(&mut checks.hash, &checks.verifier, root)
}

/// Tells the latest root, which the chain has to have. It had a head of this epoch when the root was asked for.
pub(crate) fn place_latest<H, V, S>(
    alloc: Global,
    client: &Client<H, V, S>,
    checks: &mut Checks<H, V, S>,
    held: u64,
    root: SignedRoot,
    said: &mut Said,
) -> Result<(), AllocError>
where
    H: NodeHash + Drop,
    V: VufCheck + Drop,
    S: Verifier + Drop,
    ensures { OnOk result ((place : Result Place ChainRefusal) × Places H.digest_of S.verified client.now.chain root place × Tells said.old (place_told held root place) said.new) }
{
    match place(client, checks, &root) {
        Ok(Place::Known) => tell_known(alloc, held, root, said),
        Ok(Place::Next) => refuse_chain(alloc, rootchain::Refusal::BadLink, said),
        Ok(Place::Ahead) => refuse_chain(alloc, rootchain::Refusal::BadLink, said),
        Ok(Place::BeforeStart) => refuse_chain(alloc, rootchain::Refusal::NotLater, said),
        Ok(Place::Evidence(roots)) => refuse_root(alloc, Refusal::RootDiffers(roots), said),
        Err(why) => refuse_chain(alloc, why, said),
    }
}

/// Tells a latest root that the chain has: one that is older than the head of this epoch is refused.
fn tell_known(alloc: Global, held: u64, root: SignedRoot, said: &mut Said) -> Result<(), AllocError>
    ensures { OnOk result (Tells said.old (known_told held root) said.new) }
{
    if root.body.epoch < held {
        return refuse_chain(alloc, rootchain::Refusal::NotLater, said);
    }
    tell_response(&mut said.text, Response::Root(root))
}

/// Tells that a root is refused.
fn refuse_root(alloc: Global, why: Refusal, said: &mut Said) -> Result<(), AllocError>
    ensures { OnOk result (Tells said.old (client_refuses (codes "client refuses root") why) said.new) }
{
    tell_client(alloc, b"client refuses root", why, said)
}

/// Tells that a root is refused as the chain refuses it.
fn refuse_chain(alloc: Global, why: rootchain::Refusal, said: &mut Said) -> Result<(), AllocError>
    ensures { OnOk result (Tells said.old (client_refuses (codes "client refuses root") (of_root why)) said.new) }
{
    refuse_root(alloc, Refusal::from(why), said)
}

/// Why a root is refused that comes with others, by where it stands.
fn refusal_of(place: Result<Place, rootchain::Refusal>) -> Option<Refusal>
    ensures { result ≡ refusal_at place }
{
    match place {
        Ok(Place::Evidence(roots)) => Some(Refusal::RootDiffers(roots)),
        Ok(Place::Known) => None,
        Ok(Place::Next) => None,
        Ok(Place::Ahead) => None,
        Ok(Place::BeforeStart) => None,
        Err(why) => Some(Refusal::from(why)),
    }
}

/// Why a root that was asked for is not told, if there is a reason.
fn stop_at<H, V, S>(
    client: &Client<H, V, S>,
    checks: &mut Checks<H, V, S>,
    root: &SignedRoot,
) -> Option<Refusal>
where
    H: NodeHash + Drop,
    V: VufCheck + Drop,
    S: Verifier + Drop,
    ensures { StopsAtRoot H.digest_of S.verified client.now.chain root.now result }
{
    refusal_of(place(client, checks, root))
}

/// Appends the epochs of roots that were asked for, up to the first that is not told.
fn push_epochs<H, V, S>(
    client: &Client<H, V, S>,
    checks: &mut Checks<H, V, S>,
    roots: &RootList<'_>,
    line: &mut Vec<u8>,
) -> Result<Option<Refusal>, AllocError>
where
    H: NodeHash + Drop,
    V: VufCheck + Drop,
    S: Verifier + Drop,
    ensures stops { IfOk result (λ stop. StopsAmong H.digest_of S.verified client.now.chain roots.now stop) }
    ensures text { IfOk result (λ stop. stop ≡ None → line.new.items ≡ line.old.items ++ epochs_text roots.now) }
{
    let mut rest = roots.copied();
    for _ in 0..rest.len() {
        let Some(root) = rest.next() else {
            unreachable!()
        };
        if let Some(why) = stop_at(client, checks, &root) {
            return Ok(Some(why));
        }
        line.push(b' ')?;
        push_number(line, root.body.epoch)?;
    }
    Ok(None)
}

/// Tells roots that were asked for. Each verifies, and is no evidence with the chain, and none is left out.
pub(crate) fn place_all<H, V, S>(
    alloc: Global,
    client: &Client<H, V, S>,
    checks: &mut Checks<H, V, S>,
    wanted: &Wanted,
    roots: RootList<'_>,
    said: &mut Said,
) -> Result<(), AllocError>
where
    H: NodeHash + Drop,
    V: VufCheck + Drop,
    S: Verifier + Drop,
    ensures { OnOk result ((told : Report) × AreTold H.digest_of S.verified client.now.chain wanted.now roots.entry roots.entry told × Tells said.old told said.new) }
{
    let mut line = Vec::from_slice(alloc, b"roots")?;
    match push_epochs(client, checks, &roots, &mut line)? {
        Some(why) => refuse_root(alloc, why, said),
        None => {
            if !are_wanted(client, &mut checks.hash, wanted, &roots) {
                return said.refuse_other();
            }
            line.push(b'\n')?;
            said.text.extend_from_slice(&line)
        }
    }
}
