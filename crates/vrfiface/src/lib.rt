//! Verifiable unpredictable functions, which give each name one value that only the provider can
//! compute and everybody can check, and the index of a name, which is a digest of that value. After
//! CONIKS, sections 3 and 4. The two functions here are stand-ins: they meet the laws and give no
//! security.
//!
//! Callers can rely on this, for each type: whether a value is accepted depends on the key, the name
//! and the value alone; the value of a name depends on the public key and the name alone and is
//! accepted; a unique function accepts no other.
//!
//! ```
//! let vuf = KeyedVuf::new(secret);
//! let value = vuf.value(&name);
//! assert!(vuf.accepts(&vuf.public(), &name, value.bytes()));
//! let index = index_of(&mut Sha256Hash::new(), value.bytes());
//! ```
#![tactic(auto)]

mod index;
mod keyed;
mod plain;
mod vuf;

pub use index::index_of;
pub use keyed::KeyedVuf;
pub use plain::PlainVuf;
pub use vuf::{UniqueVuf, Vuf, VufCheck};
