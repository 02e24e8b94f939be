ghost use Rattle.std.specs.Prelude.{◌+◌, ◌≤◌};
ghost use Rattle.prefixtree.specs.declared.path.TheConstants.{MAX_SIBLINGS};
ghost use Rattle.client.specs.Looking.{KeepsLook, Looks as LooksUp, LooksNext};

use super::Client;
use crate::Refusal;
use crate::kept_looks::KeptLooks;
use crate::roots::asked;
use encoding::Name;
use nodehash::NodeHash;
use proofs::{Statement, accept};
use rootchain::SignedRoot;
use sigiface::Verifier;
use vrfiface::VufCheck;

impl<H: NodeHash, V: VufCheck, S: Verifier> Client<H, V, S> {
    /// Checks a reply to a look-up of this name against the root of an epoch, where 0 asks for the latest
    /// root, and keeps it. Returns what the reply states of the name. Takes at most 259 digests.
    ///
    /// # Errors
    ///
    /// `UnknownRoot` where the chain has no root of the epoch, the refusal of the reply, `Memory`: the first
    /// that applies. The client then stays as it was.
    pub fn look<'a>(
        &mut self,
        hash: &mut H,
        vuf: &V,
        name: &Name,
        epoch: u64,
        bytes: &'a [u8],
    ) -> Result<Statement<'a>, Refusal>
        ensures looks { LooksUp H.digest_of V.accepted self.old name.now epoch bytes.entry.now result self.new }
        ensures counted { H.digests hash.new ≤ H.digests hash.old + (MAX_SIBLINGS + 3) }
    {
        let Some(root) = asked(&self.chain, epoch) else {
            return Err(Refusal::UnknownRoot);
        };
        look_under::<H, V>(&mut self.looks, hash, vuf, name, root, bytes)
    }

    /// Checks a reply to a look-up of this name against the first root after an epoch, and keeps it. Returns
    /// the epoch of that root, and what the reply states of the name. Takes at most 259 digests.
    ///
    /// # Errors
    ///
    /// `UnknownRoot` where the chain has no root after the epoch, the refusal of the reply, `Memory`: the
    /// first that applies. The client then stays as it was.
    pub fn look_next<'a>(
        &mut self,
        hash: &mut H,
        vuf: &V,
        name: &Name,
        after: u64,
        bytes: &'a [u8],
    ) -> Result<(u64, Statement<'a>), Refusal>
        ensures looks { LooksNext H.digest_of V.accepted self.old name.now after bytes.entry.now result self.new }
        ensures counted { H.digests hash.new ≤ H.digests hash.old + (MAX_SIBLINGS + 3) }
    {
        let Some(root) = self.chain.after(after) else {
            return Err(Refusal::UnknownRoot);
        };
        match look_under::<H, V>(&mut self.looks, hash, vuf, name, root, bytes) {
            Ok(found) => Ok((root.body.epoch, found)),
            Err(why) => Err(why),
        }
    }
}

/// Checks a reply to a look-up of this name against a root, and keeps it among the looks.
fn look_under<'a, H: NodeHash, V: VufCheck>(
    looks: &mut KeptLooks<H>,
    hash: &mut H,
    vuf: &V,
    name: &Name,
    root: &SignedRoot,
    bytes: &'a [u8],
) -> Result<Statement<'a>, Refusal>
    ensures looks { KeepsLook H.digest_of V.accepted looks.old name.now root.now bytes.entry.now result looks.new }
    ensures counted { H.digests hash.new ≤ H.digests hash.old + (MAX_SIBLINGS + 3) }
{
    match accept::<H, V>(hash, vuf, &root.body, name, bytes) {
        Ok(accepted) => {
            let (index, stated) = (accepted.index(), accepted.statement());
            let kept = looks.push(name, root.body.epoch, index, bytes, stated);
            if kept.is_err() {
                return Err(Refusal::Memory);
            }
            Ok(stated)
        }
        Err(why) => Err(Refusal::Proof(why)),
    }
}
