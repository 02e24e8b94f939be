// A standard stream that is closed when the program starts leaves its descriptor free, and the first file or socket
// that is opened would take it: what the program writes to its errors would stand in a journal.

use std::fs::{File, Files, OpenOptions};
use std::io;
use std::os::fd::AsRawFd;

/// How many standard streams there are: input, output and errors, with the descriptors 0, 1 and 2.
const STREAMS: usize = 3;

/// Opens /dev/null for each standard stream that is closed: a file gets the lowest descriptor that is free. Each stays
/// open as long as what is returned. Called before anything else is opened.
///
/// # Errors
///
/// /dev/null cannot be opened.
pub(crate) fn hold_streams<F: Files<File = File>>(
    files: &F,
) -> io::Result<[Option<File>; STREAMS]> {
    let mut held = [None, None, None];
    let mut options = OpenOptions::new();
    options.read(true).write(true);
    for place in 0..STREAMS {
        let file = options.open(files, "/dev/null")?;
        // All standard streams are open.
        if file.as_raw_fd() >= STREAMS as i32 {
            break;
        }
        held[place] = Some(file);
    }
    Ok(held)
}
