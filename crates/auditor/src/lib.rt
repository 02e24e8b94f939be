//! Auditors of providers, and evidence against one. After CONIKS, sections 3 and 4.
//!
//! To the layers above: `judge` answers exactly whether something is evidence, whoever made it. An
//! auditor holds one chain for each provider and answers exactly where a root stands to it; what it
//! reports as evidence, `judge` accepts. Only `observe` changes an auditor, and only it allocates.
//!
//! ```text
//! let mut auditor = Auditor::new(alloc);
//! auditor.observe(&mut hash, &verifier, &provider_key, first_bytes)?;
//! if let Observed::Evidence(roots) = auditor.observe(&mut hash, &verifier, &provider_key, bytes)? {
//!     // The provider told two histories: send these roots to whoever uses it.
//! }
//! ```
#![tactic(auto)]

mod auditor;
mod evidence;
mod judging;
mod laws;

pub use auditor::{Auditor, Observed};
pub use evidence::Evidence;
pub use judging::judge;
pub use laws::honest_roots_are_followed;
