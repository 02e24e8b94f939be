// A promise of a key goes to the monitors of its name.

ghost use Rattle.std.specs.Prelude.{◌≡◌, OnOk};
ghost use Rattle.std.specs.List.{AllByRecursion, AllZip};
ghost use Rattle.rootchain.specs.Promises.{SpellsPromise};
ghost use Rattle.rootchain.specs.declared.signed_promise.SignedPromise.{SignedPromise};
ghost use Rattle.monitor.specs.Expecting.{IsNewPromise};
ghost use Rattle.monitor.specs.Monitors.{with_change};
ghost use Rattle.play.specs.Handed.{IsHanded, MayBeHanded};

use super::wanting::monitor_memory;
use crate::Checks;
use encoding::BoundKey;
use monitor::Monitor;
use nodehash::NodeHash;
use sigiface::Signer;
use std::alloc::AllocError;
use vrfiface::Vuf;

/// Gives a promise to each monitor of the name.
pub(super) fn hand_all<H: NodeHash + Drop, V: Vuf + Drop, S: Signer + Drop>(
    monitors: &mut [Monitor<H, V, S>],
    checks: &mut Checks<H, V, S>,
    name: &[u8],
    key: &BoundKey,
    promise: &[u8],
) -> Result<(), AllocError>
    requires may { AllByRecursion (MayBeHanded H.digest_of S.verified name.now key.now promise.now) monitors.old }
    ensures { (promised : SignedPromise) → SpellsPromise promise.now promised → OnOk result (AllZip (IsHanded name.now promised) monitors.old monitors.new) }
{
    for monitor in monitors.iter_mut() {
        hand_to(monitor, checks, name, key, promise)?;
    }
    Ok(())
}

/// Gives a promise to a monitor, if it is one of the name.
fn hand_to<H: NodeHash + Drop, V: Vuf + Drop, S: Signer + Drop>(
    monitor: &mut Monitor<H, V, S>,
    checks: &mut Checks<H, V, S>,
    name: &[u8],
    key: &BoundKey,
    promise: &[u8],
) -> Result<(), AllocError>
    requires may { MayBeHanded H.digest_of S.verified name.now key.now promise.now monitor.old }
    ensures { (promised : SignedPromise) → SpellsPromise promise.now promised → OnOk result (IsHanded name.now promised monitor.old monitor.new) }
{
    if monitor.name().bytes() != name {
        return Ok(());
    }
    hand_key(monitor, checks, key, promise)
}

/// Gives a promise to a monitor of its name. A function of its own, since a key takes room.
#[inline(never)]
fn hand_key<H: NodeHash + Drop, V: Vuf + Drop, S: Signer + Drop>(
    monitor: &mut Monitor<H, V, S>,
    checks: &mut Checks<H, V, S>,
    key: &BoundKey,
    promise: &[u8],
) -> Result<(), AllocError>
    requires new { (promised : SignedPromise) × IsNewPromise H.digest_of S.verified monitor.old key.now promise.now promised }
    ensures { (promised : SignedPromise) → SpellsPromise promise.now promised → OnOk result (monitor.new ≡ with_change monitor.old promised) }
{
    match monitor.expect(&mut checks.hash, &checks.verifier, key, promise) {
        Ok(()) => Ok(()),
        Err(why) => Err(monitor_memory(why)),
    }
}
