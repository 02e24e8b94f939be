//! Replies to look-ups: a provider makes them, a client reads one in place and checks it against a
//! signed tree root, and anybody can compare two. After CONIKS, sections 3 and 4.
//!
//! `read` accepts exactly the replies, and each has one spelling. `check` accepts exactly what the
//! definitions accept, and a refusal is the first that applies. Two accepted replies state the same, or
//! the comparison returns two texts with one digest. Nothing here allocates memory.
//!
//! ```rust
//! let view = ReplyView::read(bytes)?;
//! let accepted = check(&mut hash, &vuf, &body, &name, &view)?;
//! if let Statement::Present(key, policy) = accepted.statement() {
//!     // The provider states that the name is bound to this key, with this policy or none.
//! }
//! ```
#![tactic(auto)]

mod accepted;
mod broken_final;
mod broken_promise;
mod checking;
mod comparing;
mod end;
mod kind_bytes;
mod laws;
mod making;
mod reply_refusal;
mod statement;
mod view;

pub use accepted::Accepted;
pub use broken_final::BrokenFinal;
pub use broken_promise::BrokenPromise;
pub use checking::{accept, check};
pub use comparing::{RefusedReply, SameOr, compare_replies, same_or_collision};
pub use end::End;
pub use laws::{
    bytes_spell_one_reply, honest_replies_are_accepted, no_spelling_begins_another,
    refused_is_not_accepted, reply_has_one_spelling, unique_values_never_differ,
};
pub use making::{FRONT_ROOM, make, write_front};
pub use reply_refusal::Refusal;
pub use statement::Statement;
pub use view::ReplyView;
