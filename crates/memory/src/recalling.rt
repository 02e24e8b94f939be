// The memory that a text spells, line by line.

ghost use Rattle.std.specs.Prelude.{◌≡◌, ◌∷◌, ◌<◌, length};
ghost use Rattle.textio.specs.Lines.{lines_of};
ghost use Rattle.memory.specs.Texts.{IsRead, TakesLine};

use crate::words::first_part;
use crate::{Memory, ReadFault, read_item};
use std::alloc::Global;

/// The memory that a text spells: the items of its lines, taken one after another. Empty lines are passed over.
///
/// # Errors
///
/// `BadItem` with the number of the first line that is no item; `OutOfMemory`.
pub fn read_memory(alloc: Global, text: &[u8]) -> Result<Memory, ReadFault>
    ensures { IsRead text.now result }
{
    let mut memory = Memory::new(alloc);
    let mut rest = text;
    let mut number: u64 = 0;
    while !rest.is_empty() {
        let (line, behind) = first_line(rest);
        number += 1;
        take_line(alloc, &mut memory, line, number)?;
        rest = behind;
    }
    Ok(memory)
}

/// The first line, without the LF that ends it, and what stands behind that.
pub fn first_line(text: &[u8]) -> (&[u8], &[u8])
    requires { 0 < length text.now }
    ensures lines { lines_of text.now ≡ result.0.now ∷ lines_of result.1.now }
    ensures less { length result.1.now < length text.now }
{
    let (line, behind) = first_part(text, b'\n');
    match behind {
        Some(behind) => (line, behind),
        None => (line, &[]),
    }
}

/// Takes what a line says.
fn take_line(alloc: Global, memory: &mut Memory, line: &[u8], number: u64) -> Result<(), ReadFault>
    ensures { TakesLine line.now number memory.old memory.new result }
{
    if line.is_empty() {
        return Ok(());
    }
    let Some(item) = read_item(alloc, line)? else {
        return Err(ReadFault::BadItem(number));
    };
    let _is_new = memory.take(item)?;
    Ok(())
}
