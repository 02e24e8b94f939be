//! Memory for roots of a list. What a chain has room for is not in its model, so these are functions of the field.
ghost use Rattle.std.specs.Prelude.{◌≡◌, ◌↔◌, ◌+◌, ◌≤◌, IsTrue, vec_capacity, vec_len};

use crate::SignedRoot;

/// Reserves room for this many more roots. Returns whether there is that room.
pub(super) fn make_room(roots: &mut Vec<SignedRoot>, count: usize) -> bool
    ensures room { IsTrue result ↔ (vec_len roots.new + count ≤ vec_capacity roots.new) }
    ensures items { roots.new.items ≡ roots.old.items }
    ensures len { vec_len roots.new ≡ vec_len roots.old }
{
    roots.reserve(count).is_ok()
}

/// Whether there is room for this many more roots.
#[inline(always)]
pub(super) fn has_room(roots: &Vec<SignedRoot>, count: usize) -> bool
    ensures { IsTrue result ↔ (vec_len roots.now + count ≤ vec_capacity roots.now) }
{
    count <= roots.capacity() - roots.len()
}
