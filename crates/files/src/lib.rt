//! The files that a program keeps, as a journal or what a client remembers. Each is made for its owner alone, and
//! the entry of a new one is on the disk of its folder before it holds anything.
//!
//! Contracts do not know what a file holds, who may read it, or what a disk has: the clauses speak of faults alone,
//! and `scripts/drive/journal.sh` and `scripts/drive/states.py` show the rest.
//!
//! ```text
//! let mut file = match open_locked(system, path) {
//!     Ok(file) => file,
//!     Err(LockFault::Taken) => return Err(ProgramFault::CannotWrite),
//!     Err(LockFault::File(why)) => return Err(why.fault),
//! };
//! append(&mut file, b"a line\n")?;
//! ```
#![tactic(auto)]

mod file_fault;
mod opening;
mod reading;
mod telling;
mod writing;

pub use file_fault::FileFault;
pub use opening::{LockFault, open_existing, open_kept, open_locked};
pub use reading::{read_at, read_rest};
pub use telling::{error_line, file_line, tell_error};
pub use writing::{append, cut, replace};
