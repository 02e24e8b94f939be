use crate::{Edit, Query};

/// What is asked of a directory.
#[derive(Clone, Copy, Debug)]
pub enum Command<'a> {
    /// To read it.
    Query(Query<'a>),
    /// To change it.
    Edit(Edit<'a>),
}
