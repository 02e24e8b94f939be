//! What may be asked of a key directory: queries, which read it, and edits, which change it.
//!
//! The definitions see a command as what it asks, regardless of where its bytes lie.
//!
//! ```
//! directory.run(keeper, &[Command::Edit(Edit::Put(put)), Command::Query(Query::Head)])
//! ```
#![tactic(auto)]

mod command;
mod edit;
mod query;

pub use command::Command;
pub use edit::{Edit, Put, Verb};
pub use query::Query;
