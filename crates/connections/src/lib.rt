//! Many connections at once, in one thread: a loop over a set of connections, each of which has a session of
//! its own.
//!
//! Callers can rely on this, whatever the connections do: a session hears a beginning of what was read of its
//! connection, in order and each byte once, and a connection takes a beginning of what its session was
//! answered; both are whole if it was closed as done. Nothing is read or heard while more than 64 KiB of
//! answers wait, or once a stop was ordered; nothing more is read, heard or taken once a read or write failed,
//! memory was wanting, or the session refused a part; no answer of a round leaves before the sync of that round;
//! a connection is closed as idle, or for a stop, only once it had its turn in the round; and the loop waits only
//! after a round in which nothing was done, for a second at most, and never past the time to close a connection, by
//! the time at which the round began (`IsSoundHistory`). Each round gives each connection its turn to send and to
//! take, and none that waits finds a place left free (`IsFair`). The loop returns once it is over (`HasEnded`), and
//! each want of memory has its line, and so has, once, what could not be kept; reports come where they are wanted
//! (`TellsAll`).
#![tactic(auto)]

mod connections;
mod ending;
mod laws;
mod loop_limits;
mod places;
mod reports;
mod rounds;
mod sessions;
mod slots;
mod talk;

pub use connections::{Connections, Reading, Writing};
pub use ending::{Ending, SessionFault};
pub use laws::{bytes_stay_in_order, done_is_whole, limits_have_their_values, outputs_are_bounded};
pub use loop_limits::Limits;
pub use places::Places;
pub use rounds::answer_all;
pub use sessions::Sessions;
