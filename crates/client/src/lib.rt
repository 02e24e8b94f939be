//! A client of a key directory (after CONIKS, section 4): it follows the chain of a provider's roots,
//! checks replies to look-ups against it, and holds the provider to its promises.
//!
//! To the layers above: a look is accepted exactly where its reply is accepted under the chain's root of
//! its epoch, and each accepted look is kept. A promise is tested against the first root after its own,
//! and anyone can judge one that is reported as broken. A refused call leaves the client as it was,
//! but `update_from` keeps the roots before the one that it refuses.
//!
//! ```text
//! let mut client: Client<Sha256Hash, KeyedVuf, KeyedSign> = Client::start(alloc, &verifier, key, first)?;
//! client.update(&mut hash, &verifier, roots)?;
//! if let Statement::Present(key, policy) = client.look(&mut hash, &vuf, &name, 0, reply)? {
//!     // The provider states that the name is bound to this key, in the epoch of the head.
//! }
//! ```
#![tactic(auto)]

mod by_name;
mod changes;
mod client;
mod client_refusal;
mod due;
mod extremes;
mod kept;
mod kept_looks;
mod laws;
mod looks;
mod outcome;
mod promises;
mod reconciling;
mod roots;
mod several;

pub use changes::state_a_change;
pub use client::Client;
pub use client_refusal::{Refusal, RootRefusal};
pub use due::Due;
pub use laws::{
    cuts_of_a_list_do_not_matter, pieces_come_to_one, pieces_come_to_the_chain,
    two_values_are_never_told,
};
pub use outcome::Outcome;
pub use reconciling::reconcile;
