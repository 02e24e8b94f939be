//! Sessions that ask one directory, each by a stream of its own that comes in pieces.
//!
//! Callers can rely on this: each message of a session is answered once, in its own session, as the
//! directory stands after all messages before it, of all sessions. Which messages a session sends does
//! not depend on where its stream is cut; a message takes its place when its last byte comes. The replies
//! to all sessions show one run of the directory, and users see of it what those of an honest provider
//! see (`ShowHonestRun`).
//!
//! ```
//! let mut hub = Hub::new(alloc, directory, keeper, token);
//! hub.event(&Event::Open(7), &mut output)?;
//! hub.event(&Event::Bytes(7, piece), &mut output)?;
//! hub.event(&Event::End(7), &mut output)?;
//! ```
#![tactic(auto)]

mod desk;
mod drain;
mod event;
mod hub_refusal;
mod laws;
mod laws_desk;
mod outputs;
mod service;
mod sessions;

pub use desk::Desk;
pub use event::Event;
pub use hub_refusal::HubRefusal;
pub use laws::{events_join, numbers_have_their_values, sessions_hear_their_own};
pub use laws_desk::{cuts_do_not_matter, replies_are_honest};
pub use service::Service;
pub use sessions::{Hub, MAX_SESSIONS};
