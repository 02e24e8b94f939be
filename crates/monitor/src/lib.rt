//! A monitor watches one name for its owner, epoch by epoch (CONIKS, section 4).
//!
//! To the layers above: `step` takes each epoch of the chain in order, and answers exactly whether the
//! accepted reply states what the owner expects. A change of the key is expected only where the provider
//! promised it, from the epoch after the promise's on, so what is expected of a watched epoch never
//! changes. The monitor's client keeps a look of every watched epoch. A refused call changes nothing, but
//! `update_from` keeps the roots before the one that it refuses.
//!
//! ```text
//! let mut monitor = Monitor::new(alloc, client, name, Some(key));
//! monitor.update(&mut hash, &verifier, roots)?;
//! while let Some(epoch) = monitor.next_epoch() {
//!     let reply = ask(name, epoch);
//!     if let Step::Alarm { epoch, found } = monitor.step(&mut hash, &vuf, reply)? {
//!         // The provider states another key or policy than the owner expects, or none.
//!     }
//! }
//! ```
#![tactic(auto)]

mod laws;
mod monitor;
mod monitor_refusal;
mod step;

pub use laws::what_was_seen_was_watched;
pub use monitor::Monitor;
pub use monitor_refusal::Refusal;
pub use step::Step;
