ghost use Rattle.std.specs.Prelude.{◌≡◌, ◌≢◌, ◌⊎◌, Contains};
ghost use Rattle.rootchain.specs.declared.signed_root.SignedRoot.{SignedRoot};
ghost use Rattle.client.specs.Agreements.{IsReconciled};
ghost use Rattle.client.specs.Clients.{Client, Look};
ghost use Rattle.client.specs.declared.outcome.Outcome.{Outcome};
ghost use Rattle.client.specs.declared.outcome.Outcome.TheVariants.{Agree};
ghost use Rattle.monitor.specs.Monitors.{Monitor, IsWatched, IsWatching, SawTheSame};

use nodehash::NodeHash;
use vrfiface::VufCheck;

/// If a client is reconciled with that of a monitor, in either order, then what the client saw of the watched
/// name at an epoch that the monitor watched is what the monitor saw, or the two do not agree (CONIKS,
/// section 4). In that case `reconcile` returned evidence against the provider, a collision, or that two
/// values were accepted.
pub fn what_was_seen_was_watched<H: NodeHash, V: VufCheck>()
    ensures { (monitor : Monitor) (client : Client) (outcome : Outcome)
        → IsWatching monitor
        → IsReconciled H.digest_of V.accepted client monitor.client outcome ⊎ IsReconciled H.digest_of V.accepted monitor.client client outcome
        → (look : Look) (root : SignedRoot) → Contains client.looks look → look.name ≡ monitor.name
        → IsWatched monitor root → look.epoch ≡ root.body.epoch
        → SawTheSame monitor look ⊎ (outcome ≢ Agree) }
{}
