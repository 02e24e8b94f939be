//! What asks a running directory: what a line of a script asks goes out as a frame over a stream, and each reply is
//! checked as a client checks it (after CONIKS, section 4), and told in the line that `play` prints.
//!
//! Callers can rely on this: whatever bytes come back, a reply is told only as the client's own calls
//! decide: a proof that the client refuses, a latest root that does not stand in its chain, roots of which one is left
//! out, a promise that its provider did not sign, and a reply to another request are told as refused, by the number of
//! the refusal.
//! Contracts do not know what a socket has; `scripts/drive/asks.py` shows that.
//!
//! ```text
//! let mut asker = Asker::start_at_head(alloc, &mut stream, checks, key, token, &mut said)?;
//! let reply = asker.send(&mut stream, &Ask::Head)?;
//! for _ in 0..MAX_LISTS {
//!     if !asker.advance(&mut stream, reply.epoch(), &mut said)? {
//!         break;
//!     }
//! }
//! asker.hear(&mut stream, &Ask::Head, &reply, &mut said)?;
//! write_text(&mut writer, &said.text)?;
//! ```
#![tactic(auto)]

mod answering;
mod ask_fault;
mod asker;
mod asking;
mod checking;
mod exchange;
mod finals;
mod following;
mod joining;
mod laws;
mod placing;
mod promises;
mod reply;
mod said;
mod wanted;
mod watching;

pub use ask_fault::AskFault;
pub use asker::Asker;
pub use checking::hear;
pub use finals::{Finals, is_final_in};
pub use following::MAX_LISTS;
pub use laws::{
    lists_are_few, refusals_have_their_numbers, sent_roots_are_wanted, told_alarms_are_items,
    told_roots_are_of_the_chain,
};
pub use play::Checks;
pub use reply::Reply;
pub use said::{CAUGHT, REFUSED, Said};
