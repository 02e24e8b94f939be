//! The runs of an owner who asks a directory: what an order asks is asked over a connection, what is told of it is
//! written, and what is to be remembered is kept in the files of a state (after CONIKS, section 4).
//!
//! Callers can rely on this: whatever bytes come back, a whole run writes exactly what the calls of its client
//! decide, and again the evidence and alarms of earlier runs; and wherever runs are stopped, what they leave is a memory, in which no mark is
//! ahead of what was told.
//! Contracts do not know what a socket or a file has; `scripts/drive/asks.py` and `scripts/drive/states.py` show those.
#![tactic(auto)]

mod connecting;
mod keeper;
mod lateness;
mod laws;
mod lines;
mod order;
mod run;
mod run_fault;
mod running;
mod settling;
mod state;
mod state_files;

pub use keeper::{Keeper, Loaded};
pub use laws::{
    asked_names_are_watched, statuses_tell_who_is_caught, stored_marks_are_told,
    watched_epochs_are_told,
};
pub use order::{AskKeys, AskOrder};
pub use run::RunEnd;
pub use running::{ask, ask_over};
pub use settling::settle_over;
