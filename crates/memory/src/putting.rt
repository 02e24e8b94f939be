// Lists that take an element: it is joined to the one that has its key, or is put behind the others. Each function
// returns whether the list is another one now.

ghost use Rattle.std.specs.Prelude.{◌≡◌, ◌≢◌, ◌↔◌, ◌<◌, length, map, slice_index_or, All, Any, Contains, IfOk, IsTrue, MatchBool, MatchOption, OnErr};
ghost use Rattle.memory.specs.Lists.{HasNoRepeat};
ghost use Rattle.memory.specs.Memories.{final_name, name_of};
ghost use Rattle.memory.specs.Taking.{PutsAlarm, PutsEvidence, PutsFinal, PutsMark};
ghost use Rattle.memory.specs.declared.mark.Mark.{Mark};

use crate::{Alarm, EvidenceLine, FinalSeen, Mark};
use encoding::Name;
use std::alloc::AllocError;

pub(crate) fn put_mark(marks: &mut Vec<Mark>, new: Mark) -> Result<bool, AllocError>
    ensures puts { IfOk result (λ is_new. PutsMark new marks.old.items marks.new.items
        × MatchBool is_new (marks.new.items ≢ marks.old.items) (marks.new.items ≡ marks.old.items)) }
    ensures err { OnErr result (marks.new.items ≡ marks.old.items) }
    ensures once { HasNoRepeat (map name_of marks.old.items) → HasNoRepeat (map name_of marks.new.items) }
{
    match place_of_mark(marks, &new.name) {
        Some(place) => {
            let is_new = differs(&marks[place], &new);
            marks[place] = new;
            Ok(is_new)
        }
        None => {
            marks.push(new)?;
            Ok(true)
        }
    }
}

/// Whether two marks differ.
fn differs(kept: &Mark, new: &Mark) -> bool
    ensures { MatchBool result (kept.now ≢ new.now) (kept.now ≡ new.now) }
{
    kept != new
}

/// Where the mark of a name stands, if there is one.
pub(crate) fn place_of_mark(marks: &[Mark], name: &Name) -> Option<usize>
    ensures { MatchOption result (All (λ kept. kept.name ≢ name.now) marks.now)
        (λ place. (place < length marks.now) × ((d : Mark) → (slice_index_or marks.now place d).name ≡ name.now)) }
{
    for place in 0..marks.len() {
        if marks[place].name == *name {
            return Some(place);
        }
    }
    None
}

pub(crate) fn put_final(finals: &mut Vec<FinalSeen>, new: FinalSeen) -> Result<bool, AllocError>
    ensures puts { IfOk result (λ is_new. PutsFinal new finals.old.items finals.new.items
        × MatchBool is_new (finals.new.items ≢ finals.old.items) (finals.new.items ≡ finals.old.items)) }
    ensures err { OnErr result (finals.new.items ≡ finals.old.items) }
    ensures once { HasNoRepeat (map final_name finals.old.items) → HasNoRepeat (map final_name finals.new.items) }
{
    if has_final(finals, &new.name) {
        return Ok(false);
    }
    finals.push(new)?;
    Ok(true)
}

/// Whether a reply is kept for the name.
fn has_final(finals: &[FinalSeen], name: &Name) -> bool
    ensures { MatchBool result (Any (λ kept. kept.name ≡ name.now) finals.now) (All (λ kept. kept.name ≢ name.now) finals.now) }
{
    for kept in finals {
        if kept.name == *name {
            return true;
        }
    }
    false
}

pub(crate) fn put_alarm(alarms: &mut Vec<Alarm>, new: Alarm) -> Result<bool, AllocError>
    ensures puts { IfOk result (λ is_new. PutsAlarm new alarms.old.items alarms.new.items
        × MatchBool is_new (alarms.new.items ≢ alarms.old.items) (alarms.new.items ≡ alarms.old.items)) }
    ensures err { OnErr result (alarms.new.items ≡ alarms.old.items) }
    ensures once { HasNoRepeat alarms.old.items → HasNoRepeat alarms.new.items }
{
    if alarms.contains(&new) {
        return Ok(false);
    }
    alarms.push(new)?;
    Ok(true)
}

pub(crate) fn put_evidence(
    evidence: &mut Vec<EvidenceLine>,
    new: EvidenceLine,
) -> Result<bool, AllocError>
    ensures puts { IfOk result (λ is_new. PutsEvidence new evidence.old.items evidence.new.items
        × MatchBool is_new (evidence.new.items ≢ evidence.old.items) (evidence.new.items ≡ evidence.old.items)) }
    ensures err { OnErr result (evidence.new.items ≡ evidence.old.items) }
    ensures once { HasNoRepeat evidence.old.items → HasNoRepeat evidence.new.items }
{
    if has_line(evidence, &new) {
        return Ok(false);
    }
    evidence.push(new)?;
    Ok(true)
}

/// Whether the line is there.
fn has_line(evidence: &[EvidenceLine], line: &EvidenceLine) -> bool
    ensures { IsTrue result ↔ Contains evidence.now line.now }
{
    for kept in evidence {
        if kept.bytes() == line.bytes() {
            return true;
        }
    }
    false
}
