ghost use Rattle.std.specs.Prelude.{◌≡◌, ℕ, List, OnErr};
ghost use Rattle.encoding.specs.Fields.{IsField, Reads, ReadsWhole};
ghost use Rattle.encoding.specs.Reading.{Gives, Reading, whole_of};

use crate::{Cursor, Fault};

/// A type whose values are written as bytes, each in one way.
///
/// An implementation writes `read_parts`, and proves that its reader reads exactly the spellings of
/// the allowed values. Callers use `read_from` where other bytes may follow, else `read_whole`.
pub trait Form: Drop {
    // The bytes of a value.
    ghost spelling: { Self → List ℕ };

    // What a value may hold.
    ghost Allowed: { Self → Type 0 };

    // How a value is read from the front of bytes.
    ghost reader: { List ℕ → Reading Self };

    /// The value at the front of the bytes. Where it is refused, the cursor may stand anywhere.
    fn read_parts(cursor: &mut Cursor<'_>) -> Result<Self, Fault>
        ensures { Gives (λ value. value) result cursor.new (reader cursor.old) };

    // The reader reads exactly the allowed values, spelled so.
    ghost is_field: { IsField reader spelling Allowed };

    /// The value at the front of the bytes. A refused call reads nothing.
    final fn read_from(cursor: &mut Cursor<'_>) -> Result<Self, Fault>
        ensures read { Gives (λ value. value) result cursor.new (reader cursor.old) }
        ensures form { Reads (λ value. value) spelling Allowed cursor.old result cursor.new }
        ensures stays { OnErr result (cursor.new ≡ cursor.old) }
    {
        // Reads ahead, so that a refusal half way leaves the cursor where it was.
        let mut ahead = cursor.copied();
        let value = Self::read_parts(&mut ahead)?;
        *cursor = ahead;
        Ok(value)
    }

    /// The value that these bytes spell, or the first fault: `Trailing` where bytes are left.
    final fn read_whole(bytes: &[u8]) -> Result<Self, Fault>
        ensures read { result ≡ whole_of (reader bytes.now) }
        ensures form { ReadsWhole (λ value. value) spelling Allowed bytes.now result }
    {
        let mut cursor = Cursor::new(bytes);
        let value = Self::read_from(&mut cursor)?;
        cursor.end()?;
        Ok(value)
    }
}
