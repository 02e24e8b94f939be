//! The prefix tree: commitments by index, under one root hash, and the path of each index. After
//! CONIKS, section 3.
//!
//! The root is that of the contents by the recursive definition, whatever calls made the tree. A path
//! leads from that root to what stands at the index. `with` and `with_all` make a new tree,
//! which shares nodes with the old one, and the old tree stays as it was. `root_of_items` computes the root of items
//! alone, and makes no tree.
//!
//! ```rust
//! let tree = Tree::new(alloc, &mut hash, nonce)?.with(alloc, &mut hash, index, commitment)?;
//! let path = tree.path(&index);
//! assert_eq!(rt; path.end, End::Present(commitment));
//! assert!(rt; path.leads(&mut hash, &nonce, &index, &tree.root()));
//! ```
#![tactic(auto)]

mod build;
mod item_path;
mod items;
mod laws;
mod node;
mod path;
mod place;
mod put;
mod row;
mod spans;
mod tree;
mod walk;
mod way;

pub use item_path::path_of_items;
pub use items::{Item, placed, placed_within};
pub use laws::{
    changes_join, limit_has_its_value, made_at_most_all, made_for_one_change, path_ends,
    path_is_unique, path_is_way, way_is_fold, worked_roots,
};
pub use path::{End, MAX_SIBLINGS, Path};
pub use spans::root_of_items;
pub use tree::{MAX_SIBLINGS_LEN, Tree};
pub use way::{climb, end_text, joined_text, leads};
