// How far a name was watched by its monitors, and which promises they still need.

ghost use Rattle.std.specs.Prelude.{◌↔◌, ◌∷◌, ◌++◌, [], List, IsTrue};
ghost use Rattle.monitor.specs.Monitors.{Monitor as Watcher};
ghost use Rattle.memory.specs.Watching.{IsAwaited, IsWatchedUpTo, WatchedUpTo};

use crate::Mark;
use encoding::Name;
use monitor::Monitor;
use nodehash::NodeHash;
use rootchain::SignedPromise;
use sigiface::Verifier;
use vrfiface::VufCheck;

/// Where the mark of a name goes: the last epoch up to which each monitor of the name has watched each root of
/// its chain, or `None` if there is no such monitor.
pub fn watched_up_to<H, V, S>(monitors: &[Monitor<H, V, S>], name: &Name) -> Option<u64>
where
    H: NodeHash,
    V: VufCheck,
    S: Verifier,
    ensures { WatchedUpTo monitors.now name.now result }
{
    let mut least = None;
    for monitor in monitors {
        least = with_monitor(least, monitor, name);
    }
    least
}

/// The least with one monitor more.
fn with_monitor<H, V, S>(least: Option<u64>, monitor: &Monitor<H, V, S>, name: &Name) -> Option<u64>
where
    H: NodeHash,
    V: VufCheck,
    S: Verifier,
    ensures { (before : List Watcher) → WatchedUpTo before name.now least → WatchedUpTo (before ++ monitor.now ∷ []) name.now result }
{
    if monitor.name() != name {
        return least;
    }
    let own = watched_by(monitor);
    match least {
        Some(epoch) => Some(epoch.min(own)),
        None => Some(own),
    }
}

/// The last epoch up to which a monitor has watched each root of its chain. Its chain may end before the client's:
/// a monitor refuses lists of roots that its client takes.
fn watched_by<H, V, S>(monitor: &Monitor<H, V, S>) -> u64
where
    H: NodeHash,
    V: VufCheck,
    S: Verifier,
    ensures { IsWatchedUpTo monitor.now result }
{
    let chain = monitor.client().chain();
    let Some(next) = monitor.next_epoch() else {
        return chain.head().body.epoch;
    };
    match chain.at(next) {
        Some(root) => root.body.previous_epoch,
        None => unreachable!(),
    }
}

/// Whether a promise is for the name of a mark that is not above the promise's epoch: none above it was watched by each
/// monitor yet, or had passed when the watching began.
pub fn is_awaited(signed: &SignedPromise, mark: &Mark) -> bool
    ensures { IsTrue result ↔ IsAwaited signed.now mark.now }
{
    mark.name == signed.promise.name && mark.epoch <= signed.promise.epoch
}
