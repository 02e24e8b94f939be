// An honest directory gives no cause to refuse what it says. So a refusal of its roots, promises and events
// is for want of memory.

ghost use Rattle.std.specs.Prelude.{◌≡◌, IfOk, None, Ok, OnOk};
ghost use Rattle.rootchain.specs.Chains.{Verifies};
ghost use Rattle.rootchain.specs.SignedRoots.{SpellsRoot};
ghost use Rattle.rootchain.specs.declared.root_refusal.Refusal.TheVariants as roots;
ghost use Rattle.rootchain.specs.declared.signed_root.SignedRoot.{SignedRoot};
ghost use Rattle.hub.specs.Events.{due, event_seen};
ghost use Rattle.hub.specs.Happenings.{Happens};
ghost use Rattle.auditor.specs.Observing.{Observes};
ghost use Rattle.auditor.specs.declared.auditor.Observed.{Observed};
ghost use Rattle.client.specs.Starting.{Starts};
ghost use Rattle.client.specs.declared.client_refusal.Refusal.TheVariants as clients;
ghost use Rattle.monitor.specs.declared.monitor_refusal.Refusal.TheVariants as monitors;
ghost use Rattle.play.specs.Wanting.{IsMemory};

use crate::Checks;
use auditor::Auditor;
use client::Client;
use encoding::Hash32;
use hub::{Event, Hub, HubRefusal, Service};
use nodehash::NodeHash;
use sigiface::Signer;
use std::alloc::{AllocError, Global};
use vrfiface::Vuf;

/// A client that starts with a root of the provider.
pub(super) fn start<H: NodeHash + Drop, V: Vuf + Drop, S: Signer + Drop>(
    alloc: Global,
    verifier: &S,
    key: Hash32,
    bytes: &[u8],
) -> Result<Client<H, V, S>, AllocError>
    requires { (root : SignedRoot) × SpellsRoot bytes.now root × Verifies S.verified key root }
    ensures { IfOk result (λ client. Starts S.verified key bytes.now (Ok client)) }
{
    match Client::start(alloc, verifier, key, bytes) {
        Ok(client) => Ok(client),
        Err(why) => Err(client_memory(why)),
    }
}

/// Lets an auditor observe a root of the provider.
pub(super) fn observe<H: NodeHash + Drop, V: Vuf + Drop, S: Signer + Drop>(
    auditor: &mut Auditor<H, S>,
    checks: &mut Checks<H, V, S>,
    key: &Hash32,
    bytes: &[u8],
) -> Result<(), AllocError>
    requires { (root : SignedRoot) × SpellsRoot bytes.now root × Verifies S.verified key.now root }
    ensures { OnOk result ((told : Observed) × Observes H.digest_of S.verified auditor.old key.now bytes.now (Ok told) auditor.new) }
{
    match auditor.observe(&mut checks.hash, &checks.verifier, key, bytes) {
        Ok(_) => Ok(()),
        Err(why) => Err(auditor_memory(why)),
    }
}

/// Lets an event happen for which there is a place in the hub.
pub(super) fn happen<D: Service + Drop>(
    hub: &mut Hub<D>,
    event: &Event<'_>,
    output: &mut Vec<u8>,
) -> Result<(), AllocError>
    requires { due hub.old.sessions (event_seen event.now) ≡ None }
    ensures { OnOk result (Happens D.answers hub.old (event_seen event.now) output.old.items (Ok tt) hub.new output.new.items) }
{
    match hub.event(event, output) {
        Ok(()) => Ok(()),
        Err(why) => Err(hub_memory(why)),
    }
}

/// Want of memory, which a client tells.
pub(super) fn client_memory(why: client::Refusal) -> AllocError
    requires { why ≡ clients.Memory }
{
    let client::Refusal::Memory = why else {
        unreachable!()
    };
    AllocError
}

/// Want of memory, which a monitor tells.
pub(super) fn monitor_memory(why: monitor::Refusal) -> AllocError
    requires { why ≡ monitors.Client clients.Memory }
{
    let monitor::Refusal::Client(client::Refusal::Memory) = why else {
        unreachable!()
    };
    AllocError
}

/// Want of memory, which an auditor tells.
fn auditor_memory(why: rootchain::Refusal) -> AllocError
    requires { why ≡ roots.Memory }
{
    let rootchain::Refusal::Memory = why else {
        unreachable!()
    };
    AllocError
}

/// Want of memory, which a hub tells.
fn hub_memory(why: HubRefusal) -> AllocError
    requires { IsMemory why }
{
    let HubRefusal::Memory { .. } = why else {
        unreachable!()
    };
    AllocError
}
