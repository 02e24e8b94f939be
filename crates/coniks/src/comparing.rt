//! Two replies for one name under one body, compared.
ghost use Rattle.std.specs.Prelude.{◌≡◌, ◌≤◌, ◌++◌, drop, length};
ghost use Rattle.proofs.specs.Comparisons.{AreComparable, IsAcceptedReply};
ghost use Rattle.coniks.specs.Comparing.{IsPut, Tells};
ghost use Rattle.coniks.specs.Told.{any};

use crate::parts::Lens;
use crate::trusting::AnyValue;
use encoding::Text;
use nodehash::NodeHash;
use proofs::{Accepted, SameOr, same_or_collision};

/// They state the same.
const SAME: u8 = 0;

/// They state two things, and two values were accepted for the name.
const TWO_VALUES: u8 = 21;

/// They state two things, and two different texts have one digest.
const COLLISION: u8 = 22;

/// Compares two accepted replies. The texts of a collision are put into the buffers.
pub(crate) fn tell<H: NodeHash>(
    hash: &mut H,
    first: &Accepted<'_, H, AnyValue>,
    second: &Accepted<'_, H, AnyValue>,
    one: &mut [u8],
    other: &mut [u8],
    lens: &mut Lens,
) -> u8
    requires comparable { AreComparable first.now second.now }
    requires one { 2400 ≤ length one.old }
    requires other { 2400 ≤ length other.old }
    ensures { Tells H.digest_of first.now second.now result one.old one.new other.old other.new lens.old lens.new }
{
    match same_or_collision(hash, first, second) {
        SameOr::NotComparable => unreachable!(),
        SameOr::Same => SAME,
        SameOr::TwoValues => TWO_VALUES,
        SameOr::Collision(x, y) => {
            lens.one = put(&x, one);
            lens.other = put(&y, other);
            COLLISION
        }
    }
}

/// Puts a text at the front of a buffer. Returns its length.
pub(crate) fn put(text: &Text, buffer: &mut [u8]) -> usize
    requires { 2400 ≤ length buffer.old }
    ensures { IsPut text.now buffer.old buffer.new result }
{
    let bytes = text.bytes();
    let (front, _) = buffer.split_at_mut(bytes.len());
    front.copy_from_slice(bytes);
    bytes.len()
}
