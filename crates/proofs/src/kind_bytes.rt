//! The kind bytes of a reply's end.

/// The kind byte of an opened leaf without a policy.
pub(crate) const PRESENT: u8 = 1;

/// The kind byte of an empty node.
pub(crate) const EMPTY: u8 = 2;

/// The kind byte of the leaf of another index.
pub(crate) const OTHER: u8 = 3;

/// The kind byte of an opened leaf with a policy.
pub(crate) const PRESENT_WITH_POLICY: u8 = 4;
