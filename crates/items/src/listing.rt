// The items of an input. All lines up to the first malformed one are read, and their items placed at
// once. Only where an index stands twice are the items gone through again, for the first that repeats
// one. That one comes before the malformed line, so it is the first fault.
ghost use Rattle.std.specs.Prelude.{◌≡◌, ◌+◌, IfOk, IfErr, IfSome, MatchOption, Ok};
ghost use Rattle.std.specs.Io.KnownBytes.{Keeps};
ghost use Rattle.prefixtree.specs.Placement.{IsPlacement, HasDistinctIndices};
ghost use Rattle.textio.specs.Faults.{IsTold, IsDeviceFault, IsInputFault};
ghost use Rattle.items.specs.Items.{item_of, placement_of};
ghost use Rattle.items.specs.NextLine.{item_in_front, TakesNext};
ghost use Rattle.textio.specs.Lines.{lines_of};
ghost use Rattle.items.specs.Listing.{item_list, IsFirstRepeat};

use encoding::{Hash32, Index};
use prefixtree::{Item, placed};
use std::alloc::{AllocError, Global};
use std::collections::BTreeSet;
use std::io::BufRead;
use textio::{HASH_DIGITS, ProgramFault, StreamFault, after_error, hex32, next_line};

/// The bytes of an item's line: two hashes and a space.
const ITEM_SIZE: usize = 2 * HASH_DIGITS + 1;

/// The bytes of a line that are read: one more than an item has, which tells that the line is longer.
const LINE_KEPT: usize = ITEM_SIZE + 1;

/// The item of a line: the index, one space and the commitment.
#[tactic(auto, unfolding(crate::specs::Items::item_of))]
fn item(line: &[u8]) -> Option<Item>
    ensures { result ≡ item_of line.now }
{
    if line.len() != ITEM_SIZE {
        return None;
    }
    if line[HASH_DIGITS] != b' ' {
        return None;
    }
    let index = hex32(line.split_at(HASH_DIGITS).0)?;
    let commitment = hex32(line.split_at(HASH_DIGITS + 1).1)?;
    Some((Index::new(index), Hash32::new(commitment)))
}

/// The item of the line at the front of some bytes, where an item's line and its LF stand there.
fn front_item(shown: &[u8]) -> Option<Item>
    ensures { result ≡ item_in_front shown.now }
{
    if shown.len() <= ITEM_SIZE {
        return None;
    }
    if shown[ITEM_SIZE] != b'\n' {
        return None;
    }
    item(shown.split_at(ITEM_SIZE).0)
}

/// What the next line of an input is.
#[derive(Clone, Copy, Debug)]
enum NextLine {
    Item(Item),
    Malformed,
    /// There is none.
    End,
}

/// Takes the next line, where the reader's buffer shows an item's line and its LF, or that there is none. Else
/// nothing is taken.
fn take_shown<R: BufRead>(reader: &mut R) -> Result<Option<NextLine>, StreamFault>
    ensures ok { IfOk result (λ found. MatchOption found (Keeps (R.remaining reader.old) (R.remaining reader.new))
        (λ next. TakesNext (R.remaining reader.old) (R.remaining reader.new) next)) }
    ensures err { IfErr result (λ fault. (fault ≡ StreamFault.CannotRead) × Keeps (R.remaining reader.old) (R.remaining reader.new)) }
{
    let shown = match reader.fill_buf() {
        Ok(shown) => shown,
        Err(error) => {
            after_error(&error, StreamFault::CannotRead)?;
            return Ok(None);
        }
    };
    if shown.is_empty() {
        return Ok(Some(NextLine::End));
    }
    let Some(item) = front_item(shown) else {
        return Ok(None);
    };
    reader.consume(ITEM_SIZE + 1);
    Ok(Some(NextLine::Item(item)))
}

/// Takes the next line. Most lines are read where they stand in the reader's buffer; one that it does not show
/// whole is copied.
fn next_item<R: BufRead>(reader: &mut R) -> Result<NextLine, StreamFault>
    ensures ok { IfOk result (λ next. TakesNext (R.remaining reader.old) (R.remaining reader.new) next) }
    ensures err { IfErr result (λ fault. fault ≡ StreamFault.CannotRead) }
{
    if let Some(next) = take_shown(reader)? {
        return Ok(next);
    }
    let Some(line) = next_line::<LINE_KEPT, R>(reader)? else {
        return Ok(NextLine::End);
    };
    match item(line.bytes()) {
        Some(item) => Ok(NextLine::Item(item)),
        None => Ok(NextLine::Malformed),
    }
}

/// The items before the first malformed line.
#[derive(Debug, Drop)]
struct Listing {
    items: Vec<Item>,
    /// Whether there is a malformed line.
    is_cut: bool,
}

/// Reads lines to the end of the input or to the first malformed line.
fn list_items<R: BufRead>(alloc: Global, reader: &mut R) -> Result<Listing, ProgramFault>
    ensures ok { IfOk result (λ listing. IfSome (R.remaining reader.old) (λ input.
        item_list (lines_of input) ≡ record { items = listing.items.items; is_cut = listing.is_cut })) }
    ensures err { IfErr result IsDeviceFault }
{
    let mut items = Vec::new(alloc);
    // Every loop of Rattle has an end: this one's is past any input.
    for _ in 0..u64::MAX {
        match next_item(reader)? {
            NextLine::Item(item) => items.push(item)?,
            NextLine::Malformed => {
                return Ok(Listing {
                    items,
                    is_cut: true,
                });
            }
            NextLine::End => {
                return Ok(Listing {
                    items,
                    is_cut: false,
                });
            }
        }
    }
    Err(ProgramFault::CannotRead)
}

/// The place of the first item that repeats an index.
fn first_repeat(alloc: Global, items: &[Item]) -> Result<Option<usize>, AllocError>
    ensures { IfOk result (λ place. MatchOption place (HasDistinctIndices items.now) (λ k. IsFirstRepeat k items.now)) }
{
    let mut seen = BTreeSet::new(alloc);
    for (place, (index, _)) in items.iter().enumerate() {
        if !seen.insert(*index)? {
            return Ok(Some(place));
        }
    }
    Ok(None)
}

/// The fault of the first line that repeats an index.
fn repeat_fault(alloc: Global, items: &[Item]) -> Result<ProgramFault, AllocError>
    requires { ¬ HasDistinctIndices items.now }
    ensures { IfOk result (λ fault. (k : _) × (fault ≡ ProgramFault.IndexRepeated (k + 1)) × IsFirstRepeat k items.now) }
{
    match first_repeat(alloc, items)? {
        Some(place) => Ok(ProgramFault::IndexRepeated(place as u64 + 1)),
        None => unreachable!(),
    }
}

/// The items of an input, in order of index.
///
/// # Errors
///
/// `BadItem` or `IndexRepeated` of the first faulty line; `CannotRead`; `OutOfMemory`.
pub(crate) fn read_placement<R: BufRead>(
    alloc: Global,
    reader: &mut R,
) -> Result<Vec<Item>, ProgramFault>
    ensures placement { IfOk result (λ items. IsPlacement items.items) }
    ensures ok { IfOk result (λ items. IfSome (R.remaining reader.old) (λ input. placement_of input ≡ Ok items.items)) }
    ensures err { IfErr result (λ fault. (IsInputFault fault) × IfSome (R.remaining reader.old) (λ input. IsTold fault (λ said. placement_of input ≡ said))) }
{
    let listing = list_items(alloc, reader)?;
    let Some(items) = placed(alloc, &listing.items)? else {
        return Err(repeat_fault(alloc, &listing.items)?);
    };
    if listing.is_cut {
        return Err(ProgramFault::BadItem(listing.items.len() as u64 + 1));
    }
    Ok(items)
}
