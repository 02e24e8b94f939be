// Whole records are read one after another from the front, and counted; what does not read as a record ends it.
ghost use Rattle.std.specs.Prelude.{◌≤◌, length};
ghost use Rattle.journal.specs.Counting.{Counts, HasLater};

use crate::forms::{read_later, read_start};
use encoding::Cursor;

/// How many whole records of commands stand at the front of at most so many bytes.
fn later_records(cursor: &mut Cursor<'_>, most: usize) -> u64
    requires { length cursor.old ≤ most }
    ensures counts { HasLater cursor.old result }
    ensures few { result ≤ most }
{
    let mut count = 0;
    for _ in 0..most {
        let mut ahead = cursor.copied();
        let Ok(_) = read_later(&mut ahead) else {
            break;
        };
        *cursor = ahead;
        count += 1;
    }
    count
}

/// How many whole records stand at the front of a journal's bytes, the start among them.
pub fn records(bytes: &[u8]) -> u64
    ensures { Counts bytes.now result }
{
    let mut cursor = Cursor::new(bytes);
    let mut ahead = cursor.copied();
    let Ok(_) = read_start(&mut ahead) else {
        return 0;
    };
    cursor = ahead;
    1 + later_records(&mut cursor, bytes.len() - 1)
}
