//! The servers of a directory: one session from a reader to a writer, or connections over TCP, many at once.
//!
//! To the layers above: `serve` writes exactly the replies to the messages in the bytes that it reads, or a
//! beginning of them if there is a fault, and it ends the session on every way out. With a journal, the
//! directory is the one that the bytes of a file open to, and records are written behind the bytes that
//! were taken. Malformed keys are refused before anything is read.
#![tactic(auto)]

mod disk;
mod journal_file;
mod keys;
mod laws;
mod listening;
mod opening;
mod order;
mod reopening;
mod serve_fault;
mod serving;
mod sessions;
mod sockets;
mod stopping;
mod streams;
mod telling;

pub use hub::MAX_SESSIONS;
pub use journal_file::{DiskFile, JournalFile};
pub use keys::{ServedDesk, ServedDirectory};
pub use laws::{
    crowd_outputs_are_bounded, crowds_show_one_run, numbers_have_their_values,
    salts_have_their_size, sessions_show_one_run,
};
pub use listening::listen;
pub use order::{DirectoryOrder, ListenOrder};
pub use serve_fault::ServeFault;
pub use serving::serve;
pub use streams::serve_directory;
