//! The journal of a directory: the records of what it did, as bytes.
//!
//! To the layers above: a record is written whole, or the keeper fails and keeps nothing more. `open` gives
//! exactly the directory that the records lead to, and the whole records at the front are counted exactly.
//!
//! ```
//! let mut journal = Journal::new(file);
//! journal.keep(&Record::Start { epoch, nonce, signing_key, vuf_key })?;
//! let promise = directory.register(&mut journal, b"alice", &key)?;
//!
//! match open(alloc, &bytes, hash, vuf, signer, salts)? {
//!     Opened::Directory(directory, taken) => ..,
//!     Opened::Nothing => ..,
//! }
//! ```
#![tactic(auto)]

mod beginning;
mod counting;
mod forms;
mod journal;
mod laws;
mod open_refusal;
mod opening;

pub use counting::records;
pub use journal::{Journal, write_record};
pub use laws::{
    faults_are_settled, journals_go_on, journals_open_to_their_runs, openings_are_settled,
};
pub use open_refusal::Refusal;
pub use opening::{Opened, open};
