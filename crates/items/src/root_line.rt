ghost use Rattle.std.specs.Prelude.{◌≡◌, ◌≢◌, ◌↔◌, Err, IfErr, None};
ghost use Rattle.items.specs.TreeOptions.{tree_values};
ghost use Rattle.items.specs.Items.{placement_of};
ghost use Rattle.textio.specs.Output.{Ends};
ghost use Rattle.textio.specs.Digits.{hex32_or_zeros};
ghost use Rattle.items.specs.Root.{root_answer, root_line, root_result};

use crate::listing::read_placement;
use crate::orders::{HashChoice, RootOrder};
use encoding::{FixedText, Hash32};
use nodehash::{GroupSize, NodeHash, Sha256Hash, SumHash};
use prefixtree::root_of_items;
use std::alloc::Global;
use std::io::{BufRead, Write};
use textio::{HASH_DIGITS, ProgramFault, hex_digits, hex32_or_zeros, write_text};

/// The bytes of `root `, a hash in digits and LF.
const ROOT_TEXT: usize = b"root \n".len() + HASH_DIGITS;

pub(crate) type RootText = FixedText<ROOT_TEXT>;

/// The line that tells a root.
pub(crate) fn root_text(root: &Hash32) -> RootText
    ensures { result ≡ root_line root.now }
{
    let mut text = RootText::new();
    text.push_slice(b"root ");
    text.push_slice(&hex_digits(root.bytes()));
    text.push(b'\n');
    text
}

/// Writes the root of the items that the input lists, under this hash function and nonce.
fn root_under<H: NodeHash, R: BufRead, W: Write>(
    alloc: Global,
    hash: &mut H,
    nonce: &Hash32,
    reader: &mut R,
    writer: &mut W,
) -> Result<(), ProgramFault>
    ensures ends { Ends (λ input said. root_result H.digest_of nonce.now (placement_of input) ≡ said)
        (R.remaining reader.old) (W.contents writer.old) (W.contents writer.new) result }
    ensures good_hex { IfErr result (λ fault. fault ≢ ProgramFault.BadHex) }
{
    let items = read_placement(alloc, reader)?;
    let root = root_of_items(alloc, hash, nonce, &items)?;
    write_text(writer, root_text(&root).bytes())?;
    Ok(())
}

/// Reads items, one a line, and writes the root of their tree. Nothing is written before the whole
/// input was read and is good. SHA-256 digests as many texts at once as `size` says, which changes the
/// time alone.
///
/// # Errors
///
/// `BadHex`, before anything is read, where the nonce's text is not 64 hexadecimal digits; the fault
/// of the first faulty line; `CannotRead`; `OutOfMemory`; `CannotWrite`, with a beginning of the text
/// written.
pub fn root<R: BufRead, W: Write>(
    alloc: Global,
    order: RootOrder<'_>,
    size: GroupSize,
    reader: &mut R,
    writer: &mut W,
) -> Result<(), ProgramFault>
    ensures ends { Ends (λ input said. root_answer (tree_values order.entry) input ≡ said) (R.remaining reader.old) (W.contents writer.old) (W.contents writer.new) result }
    ensures bad_hex { (result ≡ Err ProgramFault.BadHex) ↔ (hex32_or_zeros (tree_values order.entry).nonce ≡ None) }
    ensures unread { result ≡ Err ProgramFault.BadHex → (reader.new ≡ reader.old) × (writer.new ≡ writer.old) }
{
    let nonce = Hash32::new(hex32_or_zeros(order.nonce)?);
    match order.hash {
        HashChoice::Sha256 => {
            let hash = &mut Sha256Hash::in_groups(size);
            root_under(alloc, hash, &nonce, reader, writer)
        }
        HashChoice::Sum => root_under(alloc, &mut SumHash::new(), &nonce, reader, writer),
    }
}
