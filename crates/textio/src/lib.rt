//! Text in and out of the programs: lines, whole writes, hexadecimal digits, and the faults that a
//! program ends with. It stands on std's `BufRead` and `Write`, and on the kit's `hex`.
//!
//! To the layers above: a line is what stands between two LFs, a text is written whole or the error
//! says that a write failed, and the line and the status of each fault are exact.
//!
//! ```text
//! let Some(line) = next_line::<65, R>(&mut reader)? else {
//!     return Ok(());
//! };
//! let Some(hash) = hex32(line.bytes()) else {
//!     return Err(ProgramFault::BadItem(1));
//! };
//! write_text(&mut writer, &hex_digits(&hash))?;
//! ```
#![tactic(auto)]

mod digit_values;
mod digits;
mod file_faults;
mod line;
mod output;
mod program_fault;
mod some_bytes;
mod stream_fault;

pub use digits::{HASH_DIGITS, HASH_SIZE, hex_digits, hex32, hex32_or_zeros, option_hex32};
pub use file_faults::file_fault;
pub use line::next_line;
pub use output::write_text;
pub use program_fault::{MAX_DIGITS, ProgramFault};
pub use some_bytes::{PIECE_SIZE, read_some};
pub use stream_fault::{StreamFault, after_error};
