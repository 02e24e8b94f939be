//! A list of signed roots, where it lies in the bytes of a response.
ghost use Rattle.std.specs.Prelude.{◌≡◌, ◌≤◌, length};
ghost use Rattle.rootchain.specs.RootLists.{root_list_bytes, IsRootList};
ghost use Rattle.coniks.specs.Hearing.{ArePlaced, AreUnchangedFrom};

use crate::parts::Part;
use rootchain::RootList;

/// Puts the part of each root of a list at its number. Returns how many there are.
pub(crate) fn place_roots(list: RootList<'_>, parts: &mut [Part]) -> usize
    requires listed { IsRootList list }
    requires room { 64 ≤ length parts.old }
    ensures count { result ≡ length list.entry }
    ensures rest { AreUnchangedFrom (length list.entry) parts.old parts.new }
    ensures placed { ArePlaced (root_list_bytes list.entry) list.entry parts.new }
{
    let mut list = list;
    let count = list.len();
    // The number of roots stands first, in two bytes.
    let mut start = 2;
    for n in 0..count {
        let Some(root) = list.next() else {
            unreachable!()
        };
        let len = root.write().bytes().len();
        parts[n] = Part { start, len };
        start += len;
    }
    count
}
