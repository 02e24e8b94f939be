// The lines of a memory's lists. Each function appends to the text.

ghost use Rattle.std.specs.Prelude.{◌≡◌, ◌≤◌, ◌∷◌, ◌++◌, ℕ, List, [], map, IfOk, OnOk};
ghost use Rattle.std.specs.Io.{StartsWith};
ghost use Rattle.memory.specs.Texts.{items_text, TellsAgain};
ghost use Rattle.memory.specs.declared.item.Item.TheVariants as items;

use crate::writing::{push_alarm, push_evidence, push_final, push_mark, push_promised};
use crate::{Alarm, EvidenceLine, FinalSeen, Mark, Promised};
use encoding::Name;
use std::alloc::AllocError;

pub(crate) fn push_promises(text: &mut Vec<u8>, promises: &[Promised]) -> Result<(), AllocError>
    ensures ok { OnOk result (text.new.items ≡ text.old.items ++ items_text (map items.Promised promises.now)) }
    ensures grows { StartsWith text.new.items text.old.items }
{
    for promised in promises {
        push_promised(text, promised)?;
    }
    Ok(())
}

pub(crate) fn push_marks(text: &mut Vec<u8>, marks: &[Mark]) -> Result<(), AllocError>
    ensures ok { OnOk result (text.new.items ≡ text.old.items ++ items_text (map items.Watched marks.now)) }
    ensures grows { StartsWith text.new.items text.old.items }
{
    for mark in marks {
        push_mark(text, mark)?;
    }
    Ok(())
}

pub(crate) fn push_finals(text: &mut Vec<u8>, finals: &[FinalSeen]) -> Result<(), AllocError>
    ensures ok { OnOk result (text.new.items ≡ text.old.items ++ items_text (map items.Final finals.now)) }
    ensures grows { StartsWith text.new.items text.old.items }
{
    for seen in finals {
        push_final(text, seen)?;
    }
    Ok(())
}

pub(crate) fn push_alarms(text: &mut Vec<u8>, alarms: &[Alarm]) -> Result<(), AllocError>
    ensures ok { OnOk result (text.new.items ≡ text.old.items ++ items_text (map items.Alarm alarms.now)) }
    ensures grows { StartsWith text.new.items text.old.items }
{
    for alarm in alarms {
        push_alarm(text, alarm)?;
    }
    Ok(())
}

pub(crate) fn push_lines(text: &mut Vec<u8>, evidence: &[EvidenceLine]) -> Result<(), AllocError>
    ensures ok { OnOk result (text.new.items ≡ text.old.items ++ items_text (map items.Evidence evidence.now)) }
    ensures grows { StartsWith text.new.items text.old.items }
{
    for line in evidence {
        push_evidence(text, line)?;
    }
    Ok(())
}

/// Appends the lines of the alarms of a name, and returns how many there are.
pub(crate) fn push_alarms_of(
    text: &mut Vec<u8>,
    alarms: &[Alarm],
    name: &Name,
) -> Result<usize, AllocError>
    ensures ok { IfOk result (λ count. (added : List ℕ) × (text.new.items ≡ text.old.items ++ added) × TellsAgain name.now alarms.now added count) }
    ensures grows { StartsWith text.new.items text.old.items }
{
    let mut count = 0usize;
    for alarm in alarms {
        count += push_alarm_of(text, alarm, name)?;
    }
    Ok(count)
}

/// Appends the line of an alarm if it is of this name, and returns whether it is, as 1 or 0.
fn push_alarm_of(text: &mut Vec<u8>, alarm: &Alarm, name: &Name) -> Result<usize, AllocError>
    ensures ok { IfOk result (λ one. (added : List ℕ) × (text.new.items ≡ text.old.items ++ added) × TellsAgain name.now (alarm.now ∷ []) added one) }
    ensures few { IfOk result (λ one. one ≤ 1) }
    ensures grows { StartsWith text.new.items text.old.items }
{
    if alarm.name == *name {
        push_alarm(text, alarm)?;
        return Ok(1);
    }
    Ok(0)
}
