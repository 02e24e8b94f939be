use crate::Case;
use crate::named::{Named, is_name};
use crate::word::{Word, words_of};
use anyhow::{Result, bail};
use std::alloc::{AllocError, Global};
use std::io::{BufRead, Write};
use textio::{next_line, write_text};

/// The bytes of a question that are kept. A longer one is cut there.
const QUESTION: usize = 65_536;

/// Room for the longest answer, so that an answer takes no memory.
const ANSWER: usize = 262_144;

/// What answers questions.
pub trait Subjects {
    /// Answers a question by the verb that it begins with. Where the case lacks memory, the same
    /// question comes once more.
    fn answer(&mut self, case: &mut Case<'_>);
}

/// The words of a line. Tried twice, since one allocation may fail.
fn read_words<'a>(
    alloc: Global,
    named: &Named,
    line: &'a [u8],
) -> Result<Vec<Word<'a>>, AllocError> {
    match words_of(alloc, named, line) {
        Ok(words) => Ok(words),
        Err(_) => words_of(alloc, named, line),
    }
}

/// `let NAME WORD`: gives the bytes a name, and tells how many they are.
fn name_bytes(case: &mut Case<'_>, named: &mut Named) {
    let name = case.word();
    let bytes = case.bytes();
    if !is_name(name) || case.left() != 0 {
        return case.spoil();
    }
    if case.is_spoiled() {
        return;
    }
    match named.put(name, bytes) {
        Ok(()) => case.say_shown(bytes.len()),
        Err(_) => case.lack_memory(),
    }
}

/// Answers a question, once.
fn answer_once<S: Subjects>(case: &mut Case<'_>, named: &mut Named, subjects: &mut S) {
    case.begin();
    if case.begins_with(b"let") {
        let _verb = case.word();
        name_bytes(case, named);
    } else {
        subjects.answer(case);
    }
}

/// Writes the answer to a question.
fn answer_line<S: Subjects, W: Write>(
    case: &mut Case<'_>,
    named: &mut Named,
    subjects: &mut S,
    writer: &mut W,
) -> Result<()> {
    answer_once(case, named, subjects);
    if case.lacks_memory() {
        answer_once(case, named, subjects);
    }
    if case.lacks_memory() {
        bail!("out of memory");
    }
    write_text(writer, case.line())?;
    Ok(())
}

/// Answers each question of the input.
///
/// # Errors
///
/// If the input cannot be read, the output cannot be written, or memory runs out twice for one question.
pub fn answer_all<S: Subjects, R: BufRead, W: Write>(
    alloc: Global,
    subjects: &mut S,
    reader: &mut R,
    writer: &mut W,
) -> Result<()> {
    let mut named = Named::new(alloc);
    let mut room = Vec::with_capacity(alloc, ANSWER)?;
    // Every loop of Rattle has an end: this one's is past any input.
    for _ in 0..u64::MAX {
        let Some(line) = next_line::<QUESTION, R>(reader)? else {
            return Ok(());
        };
        if line.bytes().is_empty() || line.bytes().starts_with(b"#") {
            continue;
        }
        let words = read_words(alloc, &named, line.bytes())?;
        let mut case = Case::new(alloc, &words, room);
        answer_line(&mut case, &mut named, subjects, writer)?;
        room = case.into_room();
    }
    Ok(())
}
