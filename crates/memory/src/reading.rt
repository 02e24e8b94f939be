// A line is read word by word. The first word says what it is; a line of one word is evidence.

ghost use Rattle.std.specs.Prelude.{◌≡◌, ◌↔◌, ◌∷◌, ◌++◌, codes, IfOk, IsTrue};
ghost use Rattle.audits.specs.Files.{evidence_text};
ghost use Rattle.memory.specs.Finding.{Finds};
ghost use Rattle.memory.specs.Lines.{promise_word, IsEvidenceLine, IsLineOf};
ghost use Rattle.memory.specs.Words.{HasNoSpace, IsFinding, IsSighting, IsSpan};

use crate::words::{first_part, read_found, read_name, read_number, read_promise, read_reply};
use crate::{Alarm, EvidenceLine, FinalSeen, Item, Mark, Promised, ReplyText};
use auditor::Evidence;
use audits::{ReadFault, evidence_json, read_evidence};
use encoding::BoundKey;
use std::alloc::{AllocError, Global};

/// The item of a line without its LF, or `None` if no item has it. A mark may have the older form `watched NAME
/// EPOCH`, which says nothing of the roots below.
///
/// # Errors
///
/// `AllocError` if memory runs out.
pub fn read_item(alloc: Global, line: &[u8]) -> Result<Option<Item>, AllocError>
    ensures { IfOk result (Finds (IsLineOf line.now)) }
{
    match first_part(line, b' ') {
        (word, Some(behind)) => read_behind(alloc, word, behind),
        (word, None) => read_alone(alloc, word),
    }
}

/// The item of a line of one word.
fn read_alone(alloc: Global, line: &[u8]) -> Result<Option<Item>, AllocError>
    requires { HasNoSpace line.now }
    ensures { IfOk result (Finds (IsLineOf line.now)) }
{
    if !is_evidence_line(alloc, line)? {
        return Ok(None);
    }
    let text = Vec::from_slice(alloc, line)?;
    Ok(Some(Item::Evidence(EvidenceLine::new(text))))
}

/// The item of a line of more words.
fn read_behind(alloc: Global, word: &[u8], behind: &[u8]) -> Result<Option<Item>, AllocError>
    requires { HasNoSpace word.now }
    ensures { IfOk result (Finds (IsLineOf (word.now ++ 32 ∷ behind.now))) }
{
    if word == b"promise".as_slice() {
        return promised_item(alloc, false, behind);
    }
    if word == b"change".as_slice() {
        return promised_item(alloc, true, behind);
    }
    if word == b"watched".as_slice() {
        return mark_item(alloc, behind);
    }
    if word == b"alarm".as_slice() {
        return alarm_item(alloc, behind);
    }
    if word == b"final".as_slice() {
        return final_item(alloc, behind);
    }
    Ok(None)
}

fn promised_item(alloc: Global, is_own: bool, behind: &[u8]) -> Result<Option<Item>, AllocError>
    ensures { IfOk result (Finds (IsLineOf (promise_word is_own ++ 32 ∷ behind.now))) }
{
    match read_promise(alloc, behind)? {
        Some(signed) => Ok(Some(Item::Promised(Promised { signed, is_own }))),
        None => Ok(None),
    }
}

/// The item of a line `watched NAME SINCE EPOCH` or `watched NAME EPOCH`, of which this stands behind the first word.
fn mark_item(alloc: Global, text: &[u8]) -> Result<Option<Item>, AllocError>
    ensures { IfOk result (Finds (IsLineOf (codes "watched" ++ 32 ∷ text.now))) }
{
    let (word, Some(behind)) = first_part(text, b' ') else {
        return Ok(None);
    };
    let Some((since, epoch)) = read_span(behind) else {
        return Ok(None);
    };
    match read_name(alloc, word)? {
        Some(name) => Ok(Some(Item::Watched(Mark { name, since, epoch }))),
        None => Ok(None),
    }
}

/// The item of a line `alarm NAME EPOCH KEY [POLICY]`, of which this stands behind the first word.
fn alarm_item(alloc: Global, text: &[u8]) -> Result<Option<Item>, AllocError>
    ensures { IfOk result (Finds (IsLineOf (codes "alarm" ++ 32 ∷ text.now))) }
{
    let (word, Some(behind)) = first_part(text, b' ') else {
        return Ok(None);
    };
    let Some((epoch, found)) = read_finding(alloc, behind)? else {
        return Ok(None);
    };
    match read_name(alloc, word)? {
        Some(name) => Ok(Some(Item::Alarm(Alarm { name, epoch, found }))),
        None => Ok(None),
    }
}

/// The item of a line `final NAME EPOCH REPLY`, of which this stands behind the first word.
fn final_item(alloc: Global, text: &[u8]) -> Result<Option<Item>, AllocError>
    ensures { IfOk result (Finds (IsLineOf (codes "final" ++ 32 ∷ text.now))) }
{
    let (word, Some(behind)) = first_part(text, b' ') else {
        return Ok(None);
    };
    let Some((epoch, reply)) = read_sighting(alloc, behind)? else {
        return Ok(None);
    };
    match read_name(alloc, word)? {
        Some(name) => Ok(Some(Item::Final(FinalSeen { name, epoch, reply }))),
        None => Ok(None),
    }
}

/// `SINCE EPOCH`, or `EPOCH`
fn read_span(text: &[u8]) -> Option<(u64, u64)>
    ensures { Finds (IsSpan text.now) result }
{
    match first_part(text, b' ') {
        (word, Some(behind)) => two_epochs(word, behind),
        (word, None) => one_epoch(word),
    }
}

fn one_epoch(word: &[u8]) -> Option<(u64, u64)>
    requires { HasNoSpace word.now }
    ensures { Finds (IsSpan word.now) result }
{
    match read_number(word) {
        Some(epoch) => Some((epoch, epoch)),
        None => None,
    }
}

fn two_epochs(first: &[u8], second: &[u8]) -> Option<(u64, u64)>
    requires { HasNoSpace first.now }
    ensures { Finds (IsSpan (first.now ++ 32 ∷ second.now)) result }
{
    let Some(since) = read_number(first) else {
        return None;
    };
    let Some(epoch) = read_number(second) else {
        return None;
    };
    if since <= epoch {
        Some((since, epoch))
    } else {
        None
    }
}

/// `EPOCH KEY [POLICY]`
fn read_finding(alloc: Global, text: &[u8]) -> Result<Option<(u64, Option<BoundKey>)>, AllocError>
    ensures { IfOk result (Finds (IsFinding text.now)) }
{
    let (word, Some(behind)) = first_part(text, b' ') else {
        return Ok(None);
    };
    let Some(epoch) = read_number(word) else {
        return Ok(None);
    };
    match read_found(alloc, behind)? {
        Some(found) => Ok(Some((epoch, found))),
        None => Ok(None),
    }
}

/// `EPOCH REPLY`
fn read_sighting(alloc: Global, text: &[u8]) -> Result<Option<(u64, ReplyText)>, AllocError>
    ensures { IfOk result (Finds (IsSighting text.now)) }
{
    let (word, Some(behind)) = first_part(text, b' ') else {
        return Ok(None);
    };
    let Some(epoch) = read_number(word) else {
        return Ok(None);
    };
    match read_reply(alloc, behind)? {
        Some(reply) => Ok(Some((epoch, reply))),
        None => Ok(None),
    }
}

/// Whether a line is the text of evidence.
fn is_evidence_line(alloc: Global, line: &[u8]) -> Result<bool, AllocError>
    ensures { IfOk result (λ is. IsTrue is ↔ IsEvidenceLine line.now) }
{
    match read_evidence(alloc, line) {
        Ok(evidence) => is_text_of(alloc, &evidence, line),
        Err(ReadFault::OutOfMemory) => Err(AllocError),
        Err(ReadFault::NotEvidence) => Ok(false),
    }
}

/// Whether a line is the text of this evidence.
fn is_text_of(alloc: Global, evidence: &Evidence, line: &[u8]) -> Result<bool, AllocError>
    ensures { IfOk result (λ is. IsTrue is ↔ (line.now ≡ evidence_text evidence.now)) }
{
    Ok(evidence_json(alloc, evidence)?.as_bytes() == line)
}
