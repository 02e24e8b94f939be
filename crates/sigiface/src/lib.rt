//! Digital signatures, with which a provider signs its roots and promises. After CONIKS, section 3.
//! The one here is a stand-in: it meets the laws and gives no security.
//!
//! Callers can rely on this, for each type: whether a signature verifies depends on the key, the
//! message and the signature alone; a signature depends on the public key and the message alone, and
//! verifies under the public key of its signer.
//!
//! ```
//! let signer = KeyedSign::new(secret);
//! let signature = signer.sign(message);
//! assert!(signer.verify(&signer.public(), message, signature.bytes()));
//! ```
#![tactic(auto)]

mod keyed;
mod signer;

pub use keyed::KeyedSign;
pub use signer::{Signer, Verifier};
