//! Scripts of a directory and its users, as `play` plays them.

use play::play;
use questions::Case;
use std::alloc::Global;
use std::fs::{self, Files};
use std::io::{self, ErrorKind, Read};
use textio::ProgramFault;

/// `NAME`: what the script in the file `NAME.script` prints.
pub(crate) fn answer<F: Files>(case: &mut Case<'_>, files: &F) {
    let Ok(name) = str::from_utf8(case.word()) else {
        return case.spoil();
    };
    match read_script(case.alloc(), files, name) {
        Ok(script) => play_whole(case, &script),
        Err(error) if error.kind() == ErrorKind::OutOfMemory => case.lack_memory(),
        Err(_) => case.spoil(),
    }
}

/// The bytes of a script.
fn read_script<F: Files>(alloc: Global, files: &F, name: &str) -> io::Result<Vec<u8>> {
    let path = format!(in alloc; "{name}.script")?;
    let mut file = fs::open(files, path.as_str())?;
    let mut script = Vec::new(alloc);
    file.read_to_end(&mut script)?;
    Ok(script)
}

/// Tells what a script prints, and the line of its fault if one of its lines is no command.
fn play_whole(case: &mut Case<'_>, script: &[u8]) {
    let mut reader = script;
    let mut printed = Vec::new(case.alloc());
    // The list takes what is written to it, unless memory runs out.
    let is_told = match play(case.alloc(), &mut reader, &mut printed) {
        Ok(()) => true,
        Err(ProgramFault::OutOfMemory | ProgramFault::CannotWrite) => false,
        Err(fault) => fault.tell(&mut printed).is_ok(),
    };
    if is_told {
        case.say_lines(&printed);
    } else {
        case.lack_memory();
    }
}
