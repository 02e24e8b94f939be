//! What a key directory means: pages of names with their keys, one for each epoch; what it answers to
//! each command; and what its users see. The directory itself is in `epochs`.
//!
//! Whoever keeps what a directory does is its [`Keeper`]:
//!
//! ```
//! fn keep(&mut self, what: &Record) -> Result<(), KeepFailed> {
//!     match what {
//!         Record::Bound { verb, salt, name, key } => ..,
//!         Record::Turned { .. } => ..,
//!         Record::Start { .. } => Ok(()),
//!     }
//! }
//! ```
#![tactic(auto)]

mod directory_refusal;
mod keeper;
pub mod laws;
mod record;
mod reply;

pub use directory_refusal::Refusal;
pub use keeper::{KeepFailed, Keeper, NoKeeper};
pub use record::Record;
pub use reply::Reply;
