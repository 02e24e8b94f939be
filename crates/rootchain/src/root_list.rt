//! A list of roots in place in bytes. It keeps how many roots are left, and the bytes from the first of them
//! on. `read` passes over all roots once, and keeps none, so that each is known to be there; `next` reads
//! the first again and returns it, and passes over its bytes.
ghost use Rattle.std.specs.Prelude.{◌≡◌, ◌↔◌, ◌+◌, ◌≤◌, ◌∷◌, ◌++◌, [], length, IsOk, IsOkUnless, IsTrue, MatchOption, OnErr, OnOk, vec_capacity, vec_len};
ghost use Rattle.encoding.specs.Fields.{ReadsWhole};
ghost use Rattle.encoding.specs.Reading.{Gives};
ghost use Rattle.rootchain.specs.declared.root_refusal.Refusal.TheVariants.{Malformed};
ghost use Rattle.rootchain.specs.declared.root_list.TheConstants.{MAX_LIST_LEN, MAX_ROOTS};
ghost use Rattle.rootchain.specs.RootLists.{root_list_bytes, IsRootList, HasRoots, PassesRoots, read_root_count};

use crate::{Refusal, SignedRoot};
use byteorder::{BigEndian, ByteOrder};
use encoding::{Cursor, Fault, Form};
use std::alloc::AllocError;
use std::marker::Model;

/// The most roots that a list has.
pub const MAX_ROOTS: usize = 64;

/// How many bytes the number of roots has.
pub(crate) const COUNT_LEN: usize = 2;

/// How many bytes the longest list has: the number of its roots in two bytes, and 64 roots of 404.
pub const MAX_LIST_LEN: usize = 25858;

/// A list of signed roots in place in bytes. Each root is read when it is taken.
#[derive(Debug, Drop)]
pub struct RootList<'a> {
    left: usize,
    cursor: Cursor<'a>,
}

impl<'a> Model for RootList<'a> {
    ghost use Rattle.std.specs.Prelude.{List};
    ghost use Rattle.rootchain.specs.declared.signed_root.SignedRoot.{SignedRoot};
    ghost use Rattle.rootchain.specs.RootLists.{roots_in, IsListed};

    ghost Value = { List SignedRoot };

    ghost view = { λ list. roots_in list.left list.cursor };

    ghost invariant = { λ list. IsListed list.left list.cursor };
}

impl<'a> RootList<'a> {
    /// The list that these bytes spell. The only refusal is `Malformed`.
    pub fn read(bytes: &'a [u8]) -> Result<RootList<'a>, Refusal>
        ensures exact { ReadsWhole (λ list. list) root_list_bytes IsRootList bytes.entry.now result }
        ensures refusal { IsOkUnless result Malformed }
    {
        let mut cursor = Cursor::new(bytes);
        let Ok(left) = read_count(&mut cursor) else {
            return Err(Refusal::Malformed);
        };
        // All roots are read here once, so that each is known to be there when it is taken.
        if !has_roots(left, &cursor) {
            return Err(Refusal::Malformed);
        }
        Ok(RootList { left, cursor })
    }

    /// How many roots are left.
    pub fn len(&self) -> usize
        ensures { result ≡ length self.now }
    {
        self.left
    }

    /// The list once more: what is taken from one of the two stays in the other.
    pub fn copied(&self) -> RootList<'a>
        ensures { result ≡ self.now }
    {
        RootList {
            left: self.left,
            cursor: self.cursor.copied(),
        }
    }

    /// Takes the first root that is left, if there is one.
    pub fn next(&mut self) -> Option<SignedRoot>
        ensures { MatchOption result ((self.old ≡ []) × (self.new ≡ [])) (λ root. self.old ≡ root ∷ self.new) }
    {
        if self.left == 0 {
            return None;
        }
        let Ok(root) = SignedRoot::read_from(&mut self.cursor) else {
            unreachable!()
        };
        self.left -= 1;
        Some(root)
    }
}

/// The number of roots at the front of a list.
#[tactic(auto, unfolding(crate::specs::RootLists::read_root_count))]
pub(crate) fn read_count(cursor: &mut Cursor<'_>) -> Result<usize, Fault>
    ensures { Gives (λ count. count) result cursor.new (read_root_count cursor.old) }
{
    let count = usize::from(cursor.u16()?);
    if MAX_ROOTS < count {
        return Err(Fault::OutOfRange);
    }
    Ok(count)
}

/// Whether so many roots stand there, and nothing after them.
pub(crate) fn has_roots(count: usize, cursor: &Cursor<'_>) -> bool
    ensures { IsTrue result ↔ HasRoots count cursor.now }
{
    let mut ahead = cursor.copied();
    match pass_roots(count, &mut ahead) {
        Ok(()) => ahead.end().is_ok(),
        Err(_) => false,
    }
}

/// Reads so many roots, and keeps none.
fn pass_roots(count: usize, cursor: &mut Cursor<'_>) -> Result<(), Fault>
    ensures { PassesRoots count cursor.old result cursor.new }
{
    for _ in 0..count {
        SignedRoot::read_from(cursor)?;
    }
    Ok(())
}

/// How many bytes the list of these roots has. At most 25,858.
pub fn list_len(roots: &[SignedRoot]) -> usize
    requires few { length roots.now ≤ MAX_ROOTS }
    ensures value { result ≡ length (root_list_bytes roots.now) }
    ensures most { result ≤ MAX_LIST_LEN }
{
    let mut len = COUNT_LEN;
    for root in roots {
        len += root.written_len();
    }
    len
}

/// Appends the list of these roots, which `RootList::read` accepts if each root has its form. An
/// `Err` appends nothing, and is not returned if there is room.
pub fn write_list(roots: &[SignedRoot], output: &mut Vec<u8>) -> Result<(), AllocError>
    requires few { length roots.now ≤ MAX_ROOTS }
    ensures ok { OnOk result (output.new.items ≡ output.old.items ++ root_list_bytes roots.now) }
    ensures err { OnErr result (output.new.items ≡ output.old.items) }
    ensures room { vec_len output.old + length (root_list_bytes roots.now) ≤ vec_capacity output.old → IsOk result }
    ensures capacity { vec_capacity output.old ≤ vec_capacity output.new }
{
    output.reserve(list_len(roots))?;
    let mut count = [0; COUNT_LEN];
    BigEndian::write_u16(&mut count, roots.len() as u16);
    output.extend_from_slice(&count)?;
    for root in roots {
        output.extend_from_slice(root.write().bytes())?;
    }
    Ok(())
}
