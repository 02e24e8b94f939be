//! Signed tree roots and signed promises: their forms, and the chain of a provider's signed roots.
//! After CONIKS, sections 3 and 4.
//!
//! Callers can rely on this: `read` accepts exactly the bytes of a form, each value has one spelling,
//! and `write` produces it. The roots of a chain verify under one key, each root names the one before
//! it, and a root that may not follow is refused. A list of roots is taken whole or not at all, or root
//! by root as its pieces come, wherever it is cut. Three answers are exact: where a root stands to a
//! chain, how two chains compare, and whether two roots are evidence against their provider. Only
//! chains and `write_list` allocate.
//!
//! ```
//! let first = SignedRoot::read(first_bytes)?;
//! let next = SignedRoot::read(next_bytes)?;
//! let mut chain = Chain::start(alloc, &verifier, provider_key, first)?;
//! chain.extend(&mut hash, &verifier, next)?;
//! let root = chain.at(7);
//! let place = chain.place(&mut hash, &verifier, &seen_elsewhere)?;
//! let result = Chain::compare(&mut hash, &chain, &chain_of_another_client);
//! ```
#![tactic(auto)]

mod body;
mod chain;
mod compare;
mod evidence;
mod laws;
mod list_refusal;
mod piece_refusal;
mod promise;
mod root_feed;
mod root_list;
mod root_refusal;
mod signed_promise;
mod signed_root;
mod whole;

pub use body::{BODY_LEN, Body, BodyText};
pub use chain::{Chain, Place};
pub use compare::Compare;
pub use evidence::RootEvidence;
pub use laws::{
    body_is_read, chain_is_no_evidence, comparison_is_unique, cuts_of_a_list_do_not_matter,
    done_is_a_list, epochs_ascend, length_has_its_value, limit_has_its_value,
    malformed_begins_no_list, other_bytes_are_refused, pieces_come_to_one, place_tells_evidence,
    promise_is_read, root_list_is_read, signed_promise_is_read, signed_root_is_read,
    taken_bytes_are_few, whole_roots_are_taken,
};
pub use list_refusal::ListRefusal;
pub use piece_refusal::PieceRefusal;
pub use promise::{PROMISE, PROMISE_LEN_BESIDE, Promise};
pub use root_feed::RootFeed;
pub use root_list::{MAX_LIST_LEN, MAX_ROOTS, RootList, list_len, write_list};
pub use root_refusal::Refusal;
pub use signed_promise::{MAX_SIGNED_PROMISE_LEN, SignedPromise, SignedPromiseText};
pub use signed_root::{MAX_SIGNED_ROOT_LEN, SignedRoot, SignedRootText};
