//! The programs on a list of items: `root` prints the root of their tree, and `prove` the path of an
//! index among them.
//!
//! To the layers above: each reads the items from a reader and writes exactly the text that its
//! definition gives for them, or nothing and the first fault, or a beginning of the text where a write
//! failed. Nothing is written before the whole input was read.
//!
//! ```text
//! let order = RootOrder {
//!     hash: HashChoice::Sum,
//!     nonce: None,
//! };
//! root(rt.alloc(), order, GroupSize::Four, &mut reader, &mut writer)?;
//! ```
#![tactic(auto)]

mod listing;
mod orders;
mod path_lines;
mod root_line;

pub use orders::{HashChoice, ProveOrder, RootOrder};
pub use path_lines::prove;
pub use root_line::root;
