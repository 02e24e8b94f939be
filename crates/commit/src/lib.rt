//! The commitment to a user's key, which covers the name too: a digest over a random salt, the name,
//! the key and, if there is one, its policy. After CONIKS, section 3; the bytes are this directory's own.
//!
//! Callers can rely on this: a commitment is the digest of exactly the text of its salt, name, key and
//! policy, and equal texts have equal salt, name, key and policy.
//!
//! ```
//! let name = Name::new(b"alice")?;
//! let key = BoundKey { value: KeyData::new(b"k1")?, policy: Some(Policy::Final) };
//! let mut hash = Sha256Hash::new();
//! let commitment = commit(&mut hash, &salt, &name, &key);
//! ```
#![tactic(auto)]

mod commitment;
mod laws;

pub use commitment::{LEN_BESIDE, SHORT_LEN, commit, commit_text, short_commit_text};
pub use laws::{equal_texts_open_alike, lengths_have_their_values};
