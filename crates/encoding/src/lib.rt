//! The values that every other crate uses: an index and its bits, a hash, names, keys, policies and
//! small values, byte texts of fixed room, and the cursor that reads bytes. After the prefixes of CONIKS,
//! section 3.
//!
//! Callers can rely on this: an index and a hash have 32 bytes, a name, a key and a small value keep
//! their limits, a refused read leaves the cursor where it was, and nothing here allocates.
//!
//! ```
//! let mut text = Text::new();
//! text.push_counted(Name::new(b"alice")?.bytes());
//! let mut cursor = Cursor::new(text.bytes());
//! let name: Name = cursor.bounded()?;
//! cursor.end()?;
//! ```
#![tactic(auto)]

mod bits;
mod bound_key;
mod bounded;
mod cursor;
mod fault;
mod fixed_text;
mod form;
mod hash32;
mod index;
mod key_data;
mod laws;
mod name;
mod policy;
mod small;

pub use bits::{agree, bit, cut, with_one};
pub use bound_key::BoundKey;
pub use bounded::{Bounded, MIN_LEN};
pub use cursor::Cursor;
pub use fault::Fault;
pub use fixed_text::{FixedText, PROOF_TEXT_ROOM, ProofText, Text};
pub use form::Form;
pub use hash32::Hash32;
pub use index::Index;
pub use key_data::{KeyData, MAX_KEY_DATA_LEN};
pub use laws::{
    agreement_of_bits, bits_of_cut, bits_of_with_one, byte_is_read, bytes_are_read,
    counted_are_read, limits_have_their_values, numbers_are_read, policy_is_read,
};
pub use name::{MAX_NAME_LEN, Name};
pub use policy::{Policy, policy_len, version_of};
pub use small::{MAX_SMALL_LEN, Small};
