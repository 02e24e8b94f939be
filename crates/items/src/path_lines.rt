ghost use Rattle.std.specs.Prelude.{◌≡◌, ◌≢◌, ◌↔◌, ◌⊎◌, ◌++◌, ◌+◌, ◌≤◌, Err, IfOk, IfErr, None};
ghost use Rattle.textio.specs.Digits.{hex32, hex32_or_zeros};
ghost use Rattle.prefixtree.specs.Placement.{IsPlacement};
ghost use Rattle.prefixtree.specs.Node.{node_count};
ghost use Rattle.items.specs.Items.{placement_of};
ghost use Rattle.textio.specs.Output.{Ends};
ghost use Rattle.items.specs.Prove.{end_line, path_lines, sibling_lines, PathTold, Proves, TellsPath};
ghost use Rattle.items.specs.TreeOptions.{tree_values};

use crate::listing::read_placement;
use crate::orders::{HashChoice, ProveOrder};
use crate::root_line::root_text;
use encoding::{Hash32, Index};
use itoa::Buffer;
use nodehash::{GroupSize, NodeHash, Sha256Hash, SumHash};
use prefixtree::{End, Item, Path, path_is_way, path_of_items, way_is_fold};
use std::alloc::{AllocError, Global};
use std::io::{BufRead, Write};
use textio::{ProgramFault, hex_digits, hex32_or_zeros, option_hex32, write_text};

/// Appends the line of a path's end.
fn push_end(lines: &mut Vec<u8>, end: End) -> Result<(), AllocError>
    ensures { IfOk result (λ _. lines.new.items ≡ lines.old.items ++ end_line end) }
{
    match end {
        End::Present(commitment) => {
            lines.extend_from_slice(b"present ")?;
            lines.extend_from_slice(&hex_digits(commitment.bytes()))?;
        }
        End::Empty => lines.extend_from_slice(b"empty")?,
        End::Other(index, commitment) => {
            lines.extend_from_slice(b"other ")?;
            lines.extend_from_slice(&hex_digits(index.bytes()))?;
            lines.push(b' ')?;
            lines.extend_from_slice(&hex_digits(commitment.bytes()))?;
        }
    }
    lines.push(b'\n')?;
    Ok(())
}

/// Appends a line for each sibling.
fn push_siblings(lines: &mut Vec<u8>, siblings: &[Hash32]) -> Result<(), AllocError>
    ensures { IfOk result (λ _. lines.new.items ≡ lines.old.items ++ sibling_lines siblings.now) }
{
    for sibling in siblings {
        lines.extend_from_slice(b"sibling ")?;
        lines.extend_from_slice(&hex_digits(sibling.bytes()))?;
        lines.push(b'\n')?;
    }
    Ok(())
}

/// The lines that tell a path and its root.
fn path_text(alloc: Global, path: &Path, root: &Hash32) -> Result<Vec<u8>, AllocError>
    ensures { IfOk result (λ lines. lines.items ≡ path_lines path.now.siblings.items path.now.end root.now) }
{
    let mut digits = Buffer::new();
    let mut lines = Vec::new(alloc);
    lines.extend_from_slice(b"level ")?;
    lines.extend_from_slice(digits.format(path.level()).as_bytes())?;
    lines.push(b'\n')?;
    push_end(&mut lines, path.end)?;
    push_siblings(&mut lines, path.siblings.as_slice())?;
    lines.extend_from_slice(root_text(root).bytes())?;
    Ok(lines)
}

/// The lines that tell the path of an index among items, and the root that it leads to.
fn told_path<H: NodeHash>(
    alloc: Global,
    hash: &mut H,
    nonce: &Hash32,
    items: &[Item],
    index: &Index,
) -> Result<Vec<u8>, AllocError>
    requires { IsPlacement items.now }
    ensures told { IfOk result (λ text. TellsPath H.digest_of nonce.now index.now items.now text.items) }
    ensures work { H.digests hash.new ≤ H.digests hash.old + node_count 256 items.now }
{
    let path = path_of_items(alloc, hash, nonce, items, index)?;
    // By these laws the path leads to the root of the items.
    path_is_way();
    way_is_fold();
    let root = path.root(hash, nonce, index);
    path_text(alloc, &path, &root)
}

/// Writes the path of an index among the items that the input lists, under this hash function and nonce.
fn prove_under<H: NodeHash, R: BufRead, W: Write>(
    alloc: Global,
    hash: &mut H,
    nonce: &Hash32,
    index: &Index,
    reader: &mut R,
    writer: &mut W,
) -> Result<(), ProgramFault>
    ensures ends { Ends (λ input. PathTold H.digest_of nonce.now index.now (placement_of input))
        (R.remaining reader.old) (W.contents writer.old) (W.contents writer.new) result }
    ensures good_hex { IfErr result (λ fault. fault ≢ ProgramFault.BadHex) }
{
    let items = read_placement(alloc, reader)?;
    let text = told_path(alloc, hash, nonce, &items, index)?;
    write_text(writer, &text)?;
    Ok(())
}

/// Reads items, one a line, and writes the path of an index among them: its level, what stands at
/// its end, its siblings from the root down, and the root. SHA-256 digests as many texts at once as `size` says.
///
/// # Errors
///
/// `BadHex`, before anything is read, where the text of the nonce or of the index is not 64
/// hexadecimal digits; the fault of the first faulty line; `CannotRead`; `OutOfMemory`;
/// `CannotWrite`, with a beginning of the text written.
pub fn prove<R: BufRead, W: Write>(
    alloc: Global,
    order: ProveOrder<'_>,
    size: GroupSize,
    reader: &mut R,
    writer: &mut W,
) -> Result<(), ProgramFault>
    ensures ends { Ends (Proves order.entry.root.hash (hex32_or_zeros (tree_values order.entry.root).nonce) (hex32 order.entry.index.now))
        (R.remaining reader.old) (W.contents writer.old) (W.contents writer.new) result }
    ensures bad_hex { (result ≡ Err ProgramFault.BadHex)
        ↔ ((hex32_or_zeros (tree_values order.entry.root).nonce ≡ None) ⊎ (hex32 order.entry.index.now ≡ None)) }
    ensures unread { result ≡ Err ProgramFault.BadHex → (reader.new ≡ reader.old) × (writer.new ≡ writer.old) }
{
    let nonce = Hash32::new(hex32_or_zeros(order.root.nonce)?);
    let index = Index::new(option_hex32(order.index)?);
    match order.root.hash {
        HashChoice::Sha256 => prove_under(
            alloc,
            &mut Sha256Hash::in_groups(size),
            &nonce,
            &index,
            reader,
            writer,
        ),
        HashChoice::Sum => {
            prove_under(alloc, &mut SumHash::new(), &nonce, &index, reader, writer)
        }
    }
}
